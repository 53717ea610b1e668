//! The text of all that a script can come to.

ghost use Rattle.std.specs.Prelude.{◌≡◌, ◌≤◌, IfOk, IfSome, None, length};
ghost use Rattle.std.specs.String.{string_bytes};
ghost use Rattle.protocol_values.specs.Commits.{most_rows};
ghost use Rattle.script.specs.Scripts.{script_of};
ghost use Rattle.journal_text.specs.Names.{named};
ghost use Rattle.pcml_outcomes.specs.Forever.{ClearNeverStrands, ClearNeverWaitsForEver, StuckIsStranded};
ghost use Rattle.pcml_outcomes.specs.Stranding.{AreLostIn, sought};
ghost use Rattle.pcml_outcomes.specs.Told.{AllSaysWhetherRunsEnd, AreFound, AreFoundFreely, AreFoundIn, AreOf, AreToldIn, ClearAlwaysEnds, ClearNeverWaits, FreeClearAlwaysEnds, FreeClearNeverWaits, FreeNeverSpends, FreeStuckIsLeft, HasRoundOf, HaveLines, HaveRunsIn, IsListed, IsNumber, StuckIsLeft, TellsOutcomes, looks, outcomes_text, shown, told_ending};

use crate::asked::{asked_for, circle_of, journal_of, round_for, run_of, stranded_for};
use crate::ending::{round_in, told_ending};
use crate::finding::{Finding, is_cut, judge};
use crate::shown::{count_shown, push_last_line, shown_lines};
use crate::stranding::{found_stranded, is_unlooked, judged, looks_on, push_stranded, soonest_in};
use outcomes::{Asked, Outcomes, Watch, find_outcomes, find_states};
use reachable::AllStranded;
use script::Script;
use std::alloc::{AllocError, Global};

/// What is told of all that a script can come to.
#[derive(Debug, Drop)]
pub struct OutcomesText {
    /// The lines of each outcome that is told, those of who may be stranded, and the counts.
    pub text: Vec<u8>,
    /// The journal that leads to the outcome that is asked for, as text; where no number is named and no outcome is
    /// told, that of a run to where one is stranded, or else of one that comes round; else none.
    pub journal: Option<Vec<u8>>,
    /// Of a run that comes round, the number of the commit with which its circle begins, as lines count.
    pub goes_on: Option<usize>,
    /// What was found of what was asked for.
    pub finding: Finding,
    /// Whether not all configurations were seen.
    pub is_cut: bool,
    /// Whether not all were seen where it was looked for who is stranded.
    pub is_unlooked: bool,
}

/// What was found: the outcomes, and where it was looked for who may be stranded.
#[derive(Drop)]
struct FoundAll {
    outcomes: Outcomes,
    stranded: Option<AllStranded>,
}

/// The lines of what is told, of which so many are outcomes.
fn lines_of(
    alloc: Global,
    script: &Script,
    rows: Option<u32>,
    all: &FoundAll,
    asked: &Asked,
    told: usize,
) -> Result<String, AllocError>
    requires outcomes { AreOf (script_of script.now) all.now.outcomes.outcomes.items }
    requires stranded { AreToldIn (script_of script.now) all.now.stranded }
    requires marks { length asked.now.named.items ≡ length (script_of script.now).processes }
    requires count { told ≡ length (shown asked.now all.now.outcomes.outcomes.items) }
    ensures { IfOk result (λ lines. string_bytes lines ≡ outcomes_text (named (script_of script.now)) rows asked.now all.now.outcomes all.now.stranded) }
{
    let mut text = shown_lines(alloc, script, &all.outcomes.outcomes, asked)?;
    if let Some(stranded) = &all.stranded {
        push_stranded(&mut text, script, &asked.told, told == 0, stranded)?;
    }
    push_last_line(&mut text, rows, told, &all.outcomes)?;
    Ok(text)
}

/// What was found, as text.
fn found_text(
    alloc: Global,
    script: &Script,
    rows: Option<u32>,
    all: &FoundAll,
    asked: &Asked,
    of: Option<u32>,
) -> Result<OutcomesText, AllocError>
    requires outcomes { AreOf (script_of script.now) all.now.outcomes.outcomes.items }
    requires stranded { AreToldIn (script_of script.now) all.now.stranded }
    requires lines { HaveLines (script_of script.now) all.now.outcomes.outcomes.items }
    requires runs { HaveRunsIn (script_of script.now) all.now.stranded }
    requires round { HasRoundOf (script_of script.now) (told_ending rows all.now.outcomes) }
    requires marks { length asked.now.named.items ≡ length (script_of script.now).processes }
    requires number { IsNumber of }
    ensures { IfOk result (IsListed (script_of script.now) rows asked.now of all.now.outcomes all.now.stranded) }
{
    let found = &all.outcomes;
    let stranded = all.stranded.as_ref();
    let outcomes = found.outcomes.as_slice();
    let told = count_shown(outcomes, asked);
    let text = lines_of(alloc, script, rows, all, asked, told)?;
    let outcome = asked_for(outcomes, asked, of);
    let lost = stranded_for(of, outcome, soonest_in(stranded, told == 0));
    let round = round_for(of, outcome, lost, round_in(told_ending(rows, found)));
    let journal = journal_of(alloc, script, run_of(outcome, lost, round))?;
    Ok(OutcomesText {
        text: text.into_bytes(),
        journal,
        goes_on: circle_of(round),
        finding: judged(&asked.told, judge(asked, found, told), stranded),
        is_cut: is_cut(found.extent),
        is_unlooked: is_unlooked(stranded),
    })
}

/// What the script's processes can come to, of so many rows each.
fn found_within<W: Watch>(
    alloc: Global,
    script: &Script,
    rows: u32,
    limit: usize,
    asked: &Asked,
    watch: &mut W,
) -> Result<Outcomes, AllocError>
    requires rows { rows ≤ most_rows }
    requires limit { 1 ≤ limit }
    ensures found { IfOk result (AreFound (script_of script.now) rows limit asked.now) }
    ensures lines { IfOk result (λ o. HaveLines (script_of script.now) o.outcomes.items) }
    ensures of { IfOk result (λ o. AreOf (script_of script.now) o.outcomes.items) }
{
    let found = find_outcomes(alloc, script.processes(), rows, limit, asked, watch)?;
    Ok(found)
}

/// The same in runs of any length.
fn found_freely<W: Watch>(
    alloc: Global,
    script: &Script,
    limit: usize,
    asked: &Asked,
    watch: &mut W,
) -> Result<Outcomes, AllocError>
    requires limit { 1 ≤ limit }
    requires most { limit ≤ most_rows }
    ensures found { IfOk result (AreFoundFreely (script_of script.now) limit asked.now) }
    ensures lines { IfOk result (λ o. HaveLines (script_of script.now) o.outcomes.items) }
    ensures of { IfOk result (λ o. AreOf (script_of script.now) o.outcomes.items) }
    ensures round { IfOk result (λ o. HasRoundOf (script_of script.now) (told_ending None o)) }
{
    let found = find_states(alloc, script.processes(), limit, asked, watch)?;
    Ok(found)
}

/// What they can come to, of so many rows each, or where no number is named in runs of any length.
fn found_in<W: Watch>(
    alloc: Global,
    script: &Script,
    rows: Option<u32>,
    limit: usize,
    asked: &Asked,
    watch: &mut W,
) -> Result<Outcomes, AllocError>
    requires rows { IfSome rows (λ number. number ≤ most_rows) }
    requires limit { 1 ≤ limit }
    requires most { rows ≡ None → limit ≤ most_rows }
    ensures found { IfOk result (AreFoundIn (script_of script.now) rows limit asked.now) }
    ensures lines { IfOk result (λ o. HaveLines (script_of script.now) o.outcomes.items) }
    ensures of { IfOk result (λ o. AreOf (script_of script.now) o.outcomes.items) }
    ensures round { IfOk result (λ o. HasRoundOf (script_of script.now) (told_ending rows o)) }
{
    match rows {
        Some(rows) => found_within(alloc, script, rows, limit, asked, watch),
        None => found_freely(alloc, script, limit, asked, watch),
    }
}

/// Who may be stranded, where it is looked for.
fn stranded_in<W: Watch>(
    alloc: Global,
    script: &Script,
    rows: Option<u32>,
    limit: usize,
    asked: &Asked,
    found: &Outcomes,
    watch: &mut W,
) -> Result<Option<AllStranded>, AllocError>
    requires limit { 1 ≤ limit }
    requires most { rows ≡ None → limit ≤ most_rows }
    requires sought { length (sought asked.now.told asked.now.named.items) ≡ length (script_of script.now).processes }
    ensures lost { IfOk result (AreLostIn (script_of script.now) limit asked.now (looks rows asked.now found.now)) }
    ensures told { IfOk result (AreToldIn (script_of script.now)) }
    ensures runs { IfOk result (HaveRunsIn (script_of script.now)) }
{
    let told = count_shown(&found.outcomes, asked);
    if !looks_on(rows, &asked.told, found, judge(asked, found, told)) {
        return Ok(None);
    }
    Ok(Some(found_stranded(alloc, script, limit, asked, watch)?))
}

/// All that the script's processes can come to, of so many rows each, 1 to `MOST_ROWS`, or without a number in runs of
/// any length, as far as at most `limit` configurations show it, with the journal that leads to the outcome of the
/// number `of`, from 1, or else to the first that is told. Where runs of any length go on for ever, it is looked for who
/// may be stranded too, in as many configurations; where no outcome is told, the journal leads there, or comes round. What
/// makes an outcome, and which are told, is `asked`, whose marks are one for each process.
pub fn outcomes_text<W: Watch>(
    alloc: Global,
    script: &Script,
    rows: Option<u32>,
    limit: usize,
    asked: &Asked,
    of: Option<u32>,
    watch: &mut W,
) -> Result<OutcomesText, AllocError>
    requires rows { IfSome rows (λ number. number ≤ most_rows) }
    requires limit { 1 ≤ limit }
    requires most { rows ≡ None → limit ≤ most_rows }
    requires marks { length asked.now.named.items ≡ length (script_of script.now).processes }
    requires sought { length (sought asked.now.told asked.now.named.items) ≡ length (script_of script.now).processes }
    requires number { IsNumber of }
    ensures { IfOk result (TellsOutcomes (script_of script.now) rows limit asked.now of) }
{
    let outcomes = found_in(alloc, script, rows, limit, asked, watch)?;
    let stranded = stranded_in(alloc, script, rows, limit, asked, &outcomes, watch)?;
    let all = FoundAll { outcomes, stranded };
    found_text(alloc, script, rows, &all, asked, of)
}

/// What a finding means. Where what waits was asked for and all is clear, no maximal run leaves a named process waiting,
/// or any process spent. Where processes have to end and all is clear, they have ended behind every maximal run. Where
/// one is said to be stuck, some maximal run leaves it so. Of what was found in runs of any length the same is so of all
/// runs that can go no further, none of which leaves a process spent; and the last line says whether all runs end. Of all
/// runs of any length: where processes have to end and all is clear, none is stranded anywhere, and where one is said to
/// be stuck or stranded, a run leads to where it is; where what waits was asked for and all is clear, none waits for ever.
pub fn outcomes_laws()
    ensures waiting { ClearNeverWaits }
    ensures ends { ClearAlwaysEnds }
    ensures stuck { StuckIsLeft }
    ensures unspent { FreeNeverSpends }
    ensures waiting_freely { FreeClearNeverWaits }
    ensures ends_freely { FreeClearAlwaysEnds }
    ensures stuck_freely { FreeStuckIsLeft }
    ensures strands { ClearNeverStrands }
    ensures stranded { StuckIsStranded }
    ensures waits { ClearNeverWaitsForEver }
    ensures endings { AllSaysWhetherRunsEnd }
{}
