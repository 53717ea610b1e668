//! A machine as it lies in the table's slots.

use protocol_ledger::Resident;
use thread::Machine;

/// A suspended machine. It lies in a box, so what goes from hand to hand is a pointer.
#[derive(Drop)]
pub struct Suspended {
    pub machine: Box<Machine>,
}

impl Resident for Suspended {
    ghost use Rattle.std.specs.Prelude.{true};
    ghost use Rattle.runtime_worker.specs.Machines.{doings};

    ghost houses = { true };

    ghost short = { true };

    ghost stands = { doings };
}

/// A machine that has come to its end, or stands behind the last row of the table, and its thread.
#[derive(Drop)]
pub struct Rest {
    pub thread: u8,
    pub suspended: Suspended,
}
