//! Gates for all turns of a run.

use cell::StepGate;
use runtime_worker::Gate;

/// A gate that does nothing.
#[derive(Clone, Copy, Debug)]
pub struct OpenGate;

impl Gate for OpenGate {
    fn before(&self, _worker: u8, _thread: u8) {}

    fn after(&self, _worker: u8, _thread: u8) {}
}

impl StepGate for OpenGate {
    fn step(&self, _kind: u8) {}
}

/// A gate of turns that lets each step of an attempt go on.
#[derive(Drop)]
pub struct TurnsOnly<'a, G> {
    pub turns: &'a G,
}

impl<G: Gate> Gate for TurnsOnly<'_, G> {
    fn before(&self, worker: u8, thread: u8) {
        self.turns.before(worker, thread)
    }

    fn after(&self, worker: u8, thread: u8) {
        self.turns.after(worker, thread)
    }
}

impl<G> StepGate for TurnsOnly<'_, G> {
    fn step(&self, _kind: u8) {}
}
