//! What is true of how a process stands.

ghost use Rattle.pcml_why_sites.specs.Forgetting.{ForgettingGivesAfter, TellsWhatItDoes, TroublesAreSo};
ghost use Rattle.pcml_why_sites.specs.Variables.{FaultsAreTold, MachinesHaveThem, OffersAreTold};

/// How a process stands, with its variables and the trouble left out, is what it does: it offers the same event, or
/// ends or fails in the same way, and it printed and spawned the same. What a trouble says is so, by the variables that
/// stand with it. And what `stand_of` tells is what the process does.
///
/// The variables with which a process stands are those of its machine. So they are what `stand_of` tells of a process
/// that offers an event, and the variables that it tells of one that failed.
pub fn stand_laws()
    ensures forgetting { ForgettingGivesAfter }
    ensures troubles { TroublesAreSo }
    ensures told { TellsWhatItDoes }
    ensures variables { MachinesHaveThem }
    ensures offers { OffersAreTold }
    ensures faults { FaultsAreTold }
{}
