//! What `explain` prints.

use super::{Outcome, check_same, run};
use journal_text::JournalFault;
use pcml_files::SourceFault;
use pcml_texts::ChartFault;
use pcml_tool::{Fault, MeetFault, PlayFault};
use runtime::SeasonFault;
use runtime_run::RunFault;
use script::ScriptFault;
use std::process::Abort;
use std::sync::Wait;
use std::test::Fail;
use std::thread::Threads;

/// Each number of a fault, by one fault at least that has it: the matches behind `Fault::number` have no other.
const FAULTS: [Fault; 24] = [
    Fault::Memory,
    Fault::TooLarge,
    Fault::File(SourceFault::Unread),
    Fault::File(SourceFault::Unwritten),
    Fault::Script(ScriptFault::Syntax(7)),
    Fault::Script(ScriptFault::UnknownName(7)),
    Fault::Script(ScriptFault::Twice(7)),
    Fault::Script(ScriptFault::TooMany(7)),
    Fault::Script(ScriptFault::LoopWithoutSync(7)),
    Fault::Script(ScriptFault::TooLong),
    Fault::Journal(JournalFault::BadLine(7)),
    Fault::Chart(ChartFault::BadLine(7)),
    Fault::Meet(MeetFault::NoThread),
    Fault::Play(PlayFault::NotAllowed(7)),
    Fault::Play(PlayFault::BadStep(7)),
    Fault::Run(RunFault::Workers),
    Fault::Run(RunFault::Rows),
    Fault::Run(RunFault::NoWorker),
    Fault::Seasons(SeasonFault::Rows),
    Fault::Seasons(SeasonFault::Lost),
    Fault::Seasons(SeasonFault::Unlawful),
    Fault::Seasons(SeasonFault::NoWorker),
    Fault::Seasons(SeasonFault::Seasons),
    Fault::Seasons(SeasonFault::SeasonCount),
];

fn explained<R: AllocGlobal + Threads + Wait + Sync>(rt: &R, number: u16) -> Result<Outcome, Fail> {
    let word = format!(in rt.alloc(); "{number}")?;
    Ok(run(rt, &["explain", word.as_str()], b"")?)
}

/// The fault is told with its number, and under that number it is explained.
fn check_explained<R: Abort + AllocGlobal + Threads + Wait + Sync>(
    rt: &R,
    fault: &Fault,
) -> Result<(), Fail> {
    let told = format!(in rt.alloc(); "{fault} ")?;
    let number = fault.number().unwrap_or(0);
    let begins = format!(in rt.alloc(); "fault {number} ")?;
    assert!(rt; told.as_str().starts_with(begins.as_str()));
    let ran = explained(rt, number)?;
    check_same(rt, ran.status, 0, &begins);
    assert!(rt; ran.err.is_empty());
    Ok(())
}

#[test]
fn explains_each_fault(rt: HostRuntime) -> Result<(), Fail> {
    for fault in &FAULTS {
        check_explained(&rt, fault)?;
    }
    Ok(())
}
