//! What several tests call: each such function is proved once, and a call of it costs little.

use std::alloc::{AllocError, Global};
use std::fmt::Debug;
use std::process::Abort;

/// Stops the test where the values differ, and prints both.
pub(super) fn check_same<T: PartialEq + Debug + Drop>(
    rt: &impl Abort,
    found: T,
    wanted: T,
    what: &str,
) {
    assert!(rt; found == wanted, "{what}: {found:?} is not {wanted:?}");
}

/// Each part as often as it says, one after another.
pub(super) fn built(alloc: Global, parts: &[(&str, usize)]) -> Result<String, AllocError> {
    let mut text = String::new(alloc);
    for (part, times) in parts.iter() {
        for _ in 0..*times {
            text.push_str(part)?;
        }
    }
    Ok(text)
}
