//! The text of who faults.

ghost use Rattle.std.specs.Prelude.{◌≡◌, ◌<◌, ◌≤◌, IfOk, IfSome, OnOk, length};
ghost use Rattle.std.specs.List.{AllByRecursion};
ghost use Rattle.std.specs.Option.{option_copied};
ghost use Rattle.protocol_values.specs.Commits.{most_rows};
ghost use Rattle.script.specs.Appending.{Adds};
ghost use Rattle.script.specs.Scripts.{script_of};
ghost use Rattle.journal_text.specs.Journals.{HasLine};
ghost use Rattle.journal_text.specs.Names.{named, names_of};
ghost use Rattle.reachable.specs.declared.faults.Faults.TheVariants.{First};
ghost use Rattle.reachable.specs.declared.faults.FirstFault.{FirstFault as FirstFaultPart};
ghost use Rattle.pcml_outcomes.specs.Faults.{AreFaults, TellsFaults, fault_finding, fault_line, fault_run};

use crate::asked::journal_of;
use crate::finding::Finding;
use crate::sought::SoughtText;
use outcomes::Watch;
use pcml_answers::push_name;
use protocol_values::Commit;
use reachable::{AllFaults, Faults, find_fault};
use script::Script;
use std::alloc::{AllocError, Global};

/// Appends who faults, and how many states were seen.
fn push_fault(out: &mut String, script: &Script, found: &AllFaults) -> Result<(), AllocError>
    requires { (fault : FirstFaultPart) → found.now.faults ≡ First fault → fault.process < length (script_of script.now).processes }
    ensures { OnOk result (Adds out.old out.new (fault_line (named (script_of script.now)) found.now.faults found.now.visited)) }
{
    let visited = found.visited;
    match &found.faults {
        Faults::First(fault) => {
            out.push_str("fault ")?;
            push_name(out, script, fault.process)?;
            write!(out, " states {visited}\n")
        }
        Faults::Nobody => write!(out, "fault none states {visited} all\n"),
        Faults::Unknown => write!(out, "fault unknown states {visited} cut\n"),
    }
}

/// The run to the fault.
fn fault_run<'a>(faults: &'a Faults) -> Option<&'a [Commit]>
    ensures { option_copied result ≡ fault_run faults.now }
{
    match faults {
        Faults::First(fault) => Some(fault.journal.as_slice()),
        Faults::Nobody | Faults::Unknown => None,
    }
}

fn fault_finding(faults: &Faults) -> Finding
    ensures { result ≡ fault_finding faults.now }
{
    match faults {
        Faults::First(_) => Finding::Stuck,
        Faults::Nobody => Finding::Clear,
        Faults::Unknown => Finding::Open,
    }
}

/// Who of the script's processes faults.
fn found_faults<W: Watch>(
    alloc: Global,
    script: &Script,
    limit: usize,
    watch: &mut W,
) -> Result<AllFaults, AllocError>
    requires limit { 1 ≤ limit }
    requires most { limit ≤ most_rows }
    ensures found { IfOk result (AreFaults (script_of script.now) limit) }
    ensures lines { IfOk result (λ found. IfSome (fault_run found.faults) (AllByRecursion (HasLine (names_of (script_of script.now))))) }
{
    let found = find_fault(alloc, script.processes(), limit, watch)?;
    Ok(found)
}

/// Who faults in runs of any length, whether they end or not, as far as at most `limit` states show it, with the journal
/// that leads there.
pub fn fault_text<W: Watch>(
    alloc: Global,
    script: &Script,
    limit: usize,
    watch: &mut W,
) -> Result<SoughtText, AllocError>
    requires limit { 1 ≤ limit }
    requires most { limit ≤ most_rows }
    ensures { IfOk result (TellsFaults (script_of script.now) limit) }
{
    let found = found_faults(alloc, script, limit, watch)?;
    let mut text = String::new(alloc);
    push_fault(&mut text, script, &found)?;
    let journal = journal_of(alloc, script, fault_run(&found.faults))?;
    Ok(SoughtText {
        text: text.into_bytes(),
        journal,
        finding: fault_finding(&found.faults),
    })
}
