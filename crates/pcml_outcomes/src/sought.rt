//! What is told of what was sought in all runs, and what that means.

ghost use Rattle.pcml_outcomes.specs.Seeking.{ClearAllCanEnd, ClearNeverFaults, ClearNeverPrints, StuckHasFaulted, StuckHasPrinted, StuckIsLeftBehind};

use crate::finding::Finding;

/// What is told of what was sought in all runs.
#[derive(Debug, Drop)]
pub struct SoughtText {
    /// A line for each that was sought: that it was found, or that it is not there, or that it is not known.
    pub text: Vec<u8>,
    /// The journal that leads there, as text, where one was found.
    pub journal: Option<Vec<u8>>,
    /// Stuck where one was found, clear where there is none.
    pub finding: Finding,
}

/// What a finding means of all runs, whether they end or not. Where all is clear, no run leads to what was sought: to where
/// a process can never end any more, to where one has faulted, or to where one of the values is printed. Where one is said
/// to be stuck, the journal that is kept leads there.
pub fn sought_laws()
    ensures ends { ClearAllCanEnd }
    ensures left { StuckIsLeftBehind }
    ensures faultless { ClearNeverFaults }
    ensures faulted { StuckHasFaulted }
    ensures never { ClearNeverPrints }
    ensures printed { StuckHasPrinted }
{}
