//! What is asked for of the outcomes.

ghost use Rattle.std.specs.Prelude.{◌≡◌, ◌||◌, IfErr, IfOk, length, map};
ghost use Rattle.std.specs.List.{zip};
ghost use Rattle.std.specs.Option.{option_copied};
ghost use Rattle.script.specs.Scripts.{script_of};
ghost use Rattle.outcomes.specs.declared.asked.Told.{Told as WhichTold};
ghost use Rattle.pcml_outcomes.specs.Stranding.{sought};
ghost use Rattle.pcml_outcomes.specs.Told.{NamesNeeded};
ghost use Rattle.pcml_outcomes.specs.Searching.{IsAskedOf, MisnamesAsked};

use outcomes::{Asked, Told};
use pcml_answers::{NamesFault, named_or_all, named_processes};
use pcml_request::Wanted;
use script::Script;
use std::alloc::{AllocError, Global};

/// The marks of both.
fn either(alloc: Global, first: &[bool], second: &[bool]) -> Result<Vec<bool>, AllocError>
    ensures { IfOk result (λ marks. marks.items ≡ map (λ p. p.0 || p.1) (zip first.now second.now)) }
{
    first
        .iter()
        .zip(second)
        .map(|(one, other)| *one || *other)
        .collect(alloc)
}

/// What is asked for: the outcomes that are wanted, or the first of them alone. Where names are given, with commas
/// between, only the processes of these names, and those that are wanted to end, make one outcome another. Of the names of
/// the processes that have to end, and then of those that are named alone, the first that no process has is a fault.
pub fn asked_of(
    alloc: Global,
    script: &Script,
    wanted: Wanted<'_>,
    only: Option<&str>,
    first: bool,
) -> Result<Asked, NamesFault>
    ensures asked { IfOk result (IsAskedOf (script_of script.now) wanted.entry (option_copied only.entry) first) }
    ensures needed { IfOk result NamesNeeded }
    ensures marks { IfOk result (λ asked. length asked.named.items ≡ length (script_of script.now).processes) }
    ensures sought { IfOk result (λ asked. length (sought asked.told asked.named.items) ≡ length (script_of script.now).processes) }
    ensures fault { IfErr result (MisnamesAsked (script_of script.now) wanted.entry (option_copied only.entry)) }
{
    match wanted {
        Wanted::Each => {
            let named = named_or_all(alloc, script, only)?;
            let told = Told::Each;
            Ok(Asked { named, told, first })
        }
        Wanted::Waiting => {
            let named = named_or_all(alloc, script, only)?;
            let told = Told::Waiting;
            Ok(Asked { named, told, first })
        }
        Wanted::Lacking(names) => {
            let needed = named_processes(alloc, script, names)?;
            let others = named_or_all(alloc, script, only)?;
            let named = either(alloc, &others, &needed)?;
            let told = Told::Lacking(needed);
            Ok(Asked { named, told, first })
        }
    }
}
