//! A suspended machine in a table.

ghost use Rattle.std.specs.Prelude.{◌≡◌, ◌<◌, true};

use protocol_ledger::Resident;
use script::Script;
use std::alloc::Global;
use std::test::Fail;
use thread::Machine;

/// A suspended machine, as a run has it, but that it keeps its results.
#[derive(Drop)]
pub(super) struct Suspended {
    pub(super) machine: Box<Machine>,
    ghost keeps: { machine.value.keeps.results ≡ true },
}

impl Resident for Suspended {
    ghost use Rattle.std.specs.Prelude.{false, true, ⊤};

    ghost houses = { true };

    ghost short = { false };

    ghost stands = { record { follows = λ first value thread results. ⊤; offers = λ first value thread results offers nacks. ⊤; starts = λ first value thread results other. ⊥; ends = λ first value thread results. ⊥ } };
}

/// The machine of a process, at its first stop.
pub(super) fn begun(alloc: Global, script: &Script, thread: u8) -> Result<Suspended, Fail>
    requires { thread < 64 }
{
    let process = script
        .processes()
        .get(usize::from(thread))
        .ok_or("no such process")?;
    let mut machine = Machine::new(alloc, process, thread)?;
    machine.begin()?;
    let machine = Box::new(alloc, machine)?;
    Ok(Suspended { machine })
}
