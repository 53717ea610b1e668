//! What went wrong in the processes that faulted, a line for each.

ghost use Rattle.std.specs.Prelude.{◌≡◌, ◌<◌, ◌≤◌, ℕ, IfOk, OnOk, length};
ghost use Rattle.std.specs.String.{string_bytes};
ghost use Rattle.script.specs.Scripts.{script_of};
ghost use Rattle.script.specs.Appending.{Adds};
ghost use Rattle.script_tree.specs.Processes.{proc_of};
ghost use Rattle.journal_replay.specs.Replays.{StandsAfter, thread_count};
ghost use Rattle.journal_text.specs.Names.{named};
ghost use Rattle.pcml_why.specs.Faults.{TellsFaults, fault_line, fault_words};
ghost use Rattle.pcml_why.specs.Whys.{all_texts};

use crate::variables::Namer;
use journal_replay::State;
use journal_text::push_thread;
use pcml_why_sites::{Site, sites_at};
use protocol_values::Commit;
use script::Script;
use script_tree::Proc;
use std::alloc::{AllocError, Global};
use thread::End;

/// The line of a process, if it faulted.
fn push_process(
    out: &mut String,
    script: &Script,
    thread: usize,
    process: &Proc,
    site: &Site<'_>,
) -> Result<(), AllocError>
    requires { thread < 64 }
    ensures { OnOk result (Adds out.old out.new (fault_words (named (script_of script.now)) (proc_of process.now).variables thread site.now.end site.now.stand)) }
{
    let End::Faulted(fault) = site.end else {
        return Ok(());
    };
    let namer = Namer { script, process };
    push_thread(out, script, thread as u8)?;
    out.push_str(" ")?;
    out.push_str(site.end.text())?;
    out.push_str(": ")?;
    namer.push_wrong(out, fault, &site.stand)?;
    out.push_str("\n")
}

fn push_site(
    out: &mut String,
    script: &Script,
    thread: usize,
    site: &Site<'_>,
) -> Result<(), AllocError>
    requires thread { thread < 64 }
    requires process { thread < length (script_of script.now).processes }
    ensures { OnOk result (Adds out.old out.new (fault_line (named (script_of script.now)) (script_of script.now).processes thread site.now)) }
{
    let processes = script.processes();
    push_process(out, script, thread, &processes[thread], site)
}

fn push_sites(out: &mut String, script: &Script, sites: &[Site<'_>]) -> Result<(), AllocError>
    requires few { length sites.now ≤ 64 }
    requires processes { length sites.now ≡ length (script_of script.now).processes }
    ensures { OnOk result (Adds out.old out.new (all_texts (fault_line (named (script_of script.now)) (script_of script.now).processes) sites.now)) }
{
    for thread in 0..sites.len() {
        push_site(out, script, thread, &sites[thread])?;
    }
    Ok(())
}

/// A line for each process of the state, where these commits led, that faulted: how, and what went wrong.
pub fn faults_text(
    alloc: Global,
    script: &Script,
    state: &State,
    commits: &[Commit],
) -> Result<String, AllocError>
    requires few { thread_count state.now ≤ 64 }
    requires processes { thread_count state.now ≡ length (script_of script.now).processes }
    requires stands { (rows : ℕ) × StandsAfter (script_of script.now).processes rows commits.now state.now }
    ensures { IfOk result (λ text. TellsFaults (script_of script.now) state.now commits.now (string_bytes text)) }
{
    let told = sites_at(alloc, script, commits, state)?;
    let sites: &[Site<'_>] = &told;
    let mut out = String::new(alloc);
    push_sites(&mut out, script, sites)?;
    Ok(out)
}
