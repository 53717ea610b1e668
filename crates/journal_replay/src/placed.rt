//! Whether processes that were built by hand stand as a run asks for. Those of a script do.

ghost use Rattle.std.specs.Prelude.{◌≡◌, ◌≤◌, ◌↔◌, ℕ, IsTrue, length, map, true};
ghost use Rattle.script_tree.specs.Processes.{proc_of};
ghost use Rattle.script_tree.specs.Spawning.{IsPlaced, spawns_block};

use script_tree::{Proc, spawned};

/// Whether each of at most 64 processes stands behind all that it spawns.
pub fn is_placed(processes: &[Proc]) -> bool
    requires { length processes.now ≤ 64 }
    ensures { IsTrue result ↔ IsPlaced (map proc_of processes.now) }
{
    for (number, process) in processes.iter().enumerate() {
        if spawns_from(process, number) {
            return false;
        }
    }
    true
}

/// Whether the process spawns the one of this number, or one behind it.
fn spawns_from(process: &Proc, number: usize) -> bool
    ensures { IsTrue result ↔ ((t : ℕ) × (number ≤ t) × (spawns_block t (proc_of process.now).body ≡ true)) }
{
    let mask = spawned(process.body());
    for thread in number..64 {
        if (mask >> thread) % 2 == 1 {
            return true;
        }
    }
    false
}
