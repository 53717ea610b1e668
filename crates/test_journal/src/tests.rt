//! What several of the tests use.

use std::fmt::Debug;
use std::process::Abort;

mod fetched;
mod journals;
mod processes;
mod runs;
mod searches;
mod suspended;

/// Process a sends 42 to b.
const ONE_SEND: &str =
    "channel c; process a { sync send c (42); } process b { x <- sync recv c; print x; }";

/// a sends to b, and f to g.
const INDEPENDENT: &str =
    "channel c; channel d; process a { sync send c (1); } process b { sync recv c; } process f { sync send d (2); } process g { sync recv d; }";

/// A client whose nack the server waits for, once the client took something else.
const SERVER: &str =
    "channel rep; channel req; channel go; process client { x <- sync choose [nack n { sync send req (rep, n); } recv rep, recv go]; print x; } process server { r, n <- sync recv req; sync send go (9); k <- sync choose [wrap send r (7) to (1), wrap cancelled n to (2)]; print k; }";

/// Stops the test where the values differ, and prints both.
fn check_same<T: PartialEq + Debug + Drop>(rt: &impl Abort, found: T, wanted: T) {
    assert!(rt; found == wanted, "{found:?} is not {wanted:?}");
}
