mod depth;
mod keeping;
mod outputs;
mod readers;

use std::fmt::Debug;
use std::process::Abort;

/// A client whose nack the server waits for, once the client took something else.
const SERVER: &str =
    "channel rep; channel req; channel go; process client { x <- sync choose [nack n { sync send req (rep, n); } recv rep, recv go]; print x; } process server { r, n <- sync recv req; sync send go (9); k <- sync choose [wrap send r (7) to (1), wrap cancelled n to (2)]; print k; }";

/// The lines of its journal.
const LINES: [&str; 3] = [
    "1 client.0.0 -> server.0.0 req (#rep, !client.0)\n",
    "2 server.1.0 -> client.1.1 go (9)\n",
    "3 server.2.1 cancelled client.0\n",
];

/// Stops the test where the values differ, and prints both.
fn check_same<T: PartialEq + Debug + Drop>(rt: &impl Abort, found: T, wanted: T, what: &str) {
    assert!(rt; found == wanted, "{what}: {found:?} is not {wanted:?}");
}
