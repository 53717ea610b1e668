//! What `version` prints.

ghost use Rattle.std.specs.Prelude.{◌≡◌, IfOk};
ghost use Rattle.pcml_tool.specs.Version.{version_line};

use std::alloc::{AllocError, Global};

/// The version, and the kit by which it was proved: the line that `rt version` prints.
const VERSION: &str = "pcml 1.1.0, proved with logic dac8208d650f15bf by rattle-kit-13f\n";

/// Which version of the program this is.
pub fn version_text(alloc: Global) -> Result<Vec<u8>, AllocError>
    ensures { IfOk result (λ text. text.items ≡ version_line) }
{
    Vec::from_slice(alloc, VERSION.as_bytes())
}
