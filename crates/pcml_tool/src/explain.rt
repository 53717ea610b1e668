//! What `explain` prints.

ghost use Rattle.std.specs.Prelude.{IsTrue, IfOk};
ghost use Rattle.pcml_explain.specs.Topics.{Explains, is_topic};

use pcml_explain::{Topic, explanation};
use std::alloc::{AllocError, Global};

/// What a fault or a word means, or which there are.
pub fn explain_text(alloc: Global, topic: Topic) -> Result<Vec<u8>, AllocError>
    requires { IsTrue (is_topic topic) }
    ensures { IfOk result (λ text. Explains topic text.items) }
{
    let text = explanation(topic).unwrap_or("");
    Vec::from_slice(alloc, text.as_bytes())
}
