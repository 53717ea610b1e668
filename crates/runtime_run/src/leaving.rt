//! The machines that a run leaves, thread by thread.

ghost use Rattle.std.specs.Prelude.{◌≡◌, IfOk, length};
ghost use Rattle.runtime_run.specs.Machines.{AreLeft, AreOut, machine_in};

use runtime_worker::{Rest, Suspended};
use std::alloc::{AllocError, Global};
use thread::Machine;

/// Each thread's machine: the one that lay at home, or the one at rest.
pub(crate) fn machines_of(
    alloc: Global,
    homes: Vec<Option<Suspended>>,
    rests: Vec<Rest>,
) -> Result<Vec<Option<Machine>>, AllocError>
    ensures { IfOk result (λ machines. AreLeft homes.items rests.items machines.items) }
{
    let mut machines = machines_out(alloc, homes)?;
    for rest in rests {
        let thread = usize::from(rest.thread);
        if thread < machines.len() {
            machines[thread] = Some(Box::into_inner(rest.suspended.machine));
        }
    }
    Ok(machines)
}

/// The machines out of their boxes.
fn machines_out(
    alloc: Global,
    homes: Vec<Option<Suspended>>,
) -> Result<Vec<Option<Machine>>, AllocError>
    ensures { IfOk result (λ machines. AreOut homes.items machines.items) }
{
    let mut machines = Vec::with_capacity(alloc, homes.len())?;
    for home in homes {
        machines.push(machine_out(home))?;
    }
    Ok(machines)
}

fn machine_out(home: Option<Suspended>) -> Option<Machine>
    ensures { result ≡ machine_in home }
{
    match home {
        Some(suspended) => Some(Box::into_inner(suspended.machine)),
        None => None,
    }
}
