//! How a process stands.

ghost use Rattle.std.specs.Prelude.{◌≡◌, None, IfOk, replicate};
ghost use Rattle.script_tree.specs.Processes.{proc_of};
ghost use Rattle.pcml_why_sites.specs.Stands.{IsTold, standing_of};
ghost use Rattle.pcml_why_sites.specs.WalkEnds.{IsTold as IsToldOf};
ghost use Rattle.pcml_why_sites.specs.Walks.{came};

use crate::trouble::Trouble;
use crate::walk::{Stop, Walk};
use protocol_values::{Atom, Message};
use script_tree::Proc;
use std::alloc::{AllocError, Global};

/// How a process stands after the results of its syncs. Variables go by their numbers, and those that were not set
/// have no value.
#[derive(Debug, Drop)]
pub enum Stand {
    /// It offers an event: its variables then.
    Offers(Vec<Option<Atom>>),
    Finishes,
    /// It faulted: its variables then, and what was wrong.
    Fails(Vec<Option<Atom>>, Trouble),
    /// It cannot have these results: one names no offer of its sync, or some are left over.
    Strays,
}

/// What is told at the end of a walk.
fn told(end: Result<(), Stop>, walk: Walk<'_>) -> Stand
    ensures { IsToldOf (came end walk.entry) result }
{
    let is_over = walk.left.is_empty();
    match end {
        Err(Stop::Offers) => Stand::Offers(walk.variables),
        Ok(()) | Err(Stop::Finishes) if is_over => Stand::Finishes,
        Err(Stop::Fails(trouble)) if is_over => Stand::Fails(walk.variables, trouble),
        _ => Stand::Strays,
    }
}

fn unset(alloc: Global, variables: usize) -> Result<Vec<Option<Atom>>, AllocError>
    ensures { IfOk result (λ store. store.items ≡ replicate variables None) }
{
    let variables = vec![in alloc; None; variables]?;
    Ok(variables)
}

/// How a process that runs as this thread stands after these results of its syncs: of each, the number of the offer
/// that was chosen, and its message.
pub(crate) fn stand_of(
    alloc: Global,
    process: &Proc,
    thread: u8,
    results: &[(u8, Message)],
) -> Result<Stand, AllocError>
    ensures { IfOk result (IsTold (standing_of (proc_of process.now) thread results.now)) }
{
    let mut walk = Walk {
        thread,
        variables: unset(alloc, process.variables())?,
        nacks: 0,
        left: results,
    };
    let end = walk.run(process.body());
    Ok(told(end, walk))
}
