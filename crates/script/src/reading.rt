//! Declared channels, processes and whole texts, read from the front.

ghost use Rattle.std.specs.Prelude.{◌≡◌, ◌+◌, ◌<◌, ◌≤◌, [], ◌∷◌, ◌++◌, None, Err, IfOk, IfErr, OnOk, MatchOption, length, map};
ghost use Rattle.script_token.specs.Lexemes.{last_line, placed_tokens, seen};
ghost use Rattle.script_reader.specs.Places.{texts};
ghost use Rattle.script_grammar.specs.Meaning.{place};
ghost use Rattle.script_faults.specs.Laws.{IsRead};
ghost use Rattle.script_reader.specs.Steps.{Gives, Tells as Tells', bare, here, told};
ghost use Rattle.script.specs.Scripts.{drawn, proc_from, declare_at, channel_next, channels_at, process_next, processes_at, script_at, script_of, line_left, fault_at, text_at, Answers};
ghost use Rattle.script.specs.FirstFaults.{Tells, FirstIsTold};
ghost use Rattle.script.specs.Spelling.{Spells, Refuses};
ghost use Rattle.script.specs.Lines.{AreLined, line_of, text_words, trees_of_script};
ghost use Rattle.script.specs.Lining.{IsLined, count_block, lined_all, lined_block, lined_of, trees_in};
ghost use Rattle.script_tree.specs.Processes.{proc_of, string_texts};
ghost use Rattle.script_tree.specs.Limits.{KeepsLimits};
ghost use Rattle.script_tree.specs.Trees.{block_of};

use crate::fault::ScriptFault;
use crate::lining::{statement_lines, with_lines};
use crate::script::Script;
use script_reader::fault::{Fault, Problem, Stop};
use script_reader::scope::{Counts, NAME_LEN, Scope};
use script_reader::step::{accept, begin, expect, fault, is_end, is_next, name_at};
use script_reader::table::Table;
use script_reader::{Loops, read_block};
use script_token::{Placed, Symbol, Tokens, scan};
use script_tree::{Block, Proc};
use std::alloc::{AllocError, Global};
use std::sync::Arc;

/// The most bytes of a text.
const TEXT_LEN: usize = 65536;

/// The most channels of a script.
const CHANNELS: usize = 256;

/// The most processes of a script.
const PROCESSES: usize = 64;

/// At the outermost level tokens may lie 48 levels deeper.
const ROOM: usize = 49;

/// The names as text of their own.
fn owned(alloc: Global, names: Vec<&str>) -> Result<Vec<String>, AllocError>
    ensures { IfOk result (λ owned. string_texts owned.items ≡ texts names.entry.items) }
{
    let mut owned = Vec::new(alloc);
    for name in &names {
        owned.push(String::from_str(alloc, name)?)?;
    }
    Ok(owned)
}

/// A name that may be declared behind those of the table, as one of at most `limit`.
#[tactic(auto, unfolding(crate::specs::Scripts::declare_at))]
fn new_name<'a>(
    table: &Table<'a>,
    limit: usize,
    tokens: &'a [Placed<'a>],
) -> Result<(&'a str, &'a [Placed<'a>]), Fault>
    ensures value { Tells' (λ x. (x.0.now, texts table.now.names.items ++ x.0.now ∷ [], bare x.1.now)) result (declare_at limit (texts table.now.names.items) (bare tokens.now)) }
    ensures few { OnOk result (length (texts table.now.names.items) < limit) }
    ensures new { IfOk result (λ x. place x.0.now (texts table.now.names.items) ≡ None) }
{
    let Some(name) = name_at(tokens) else {
        return Err(fault(Problem::Syntax, tokens));
    };
    if table.number(name).is_some() {
        return Err(fault(Problem::Twice, tokens));
    }
    if table.len() >= limit || name.len() > NAME_LEN {
        return Err(fault(Problem::TooMany, tokens));
    }
    let rest = accept(tokens, ROOM)?;
    Ok((name, rest))
}

/// One more channel.
#[tactic(auto, unfolding(crate::specs::Scripts::channel_next))]
fn channel<'a>(table: &mut Table<'a>, tokens: &'a [Placed<'a>]) -> Result<&'a [Placed<'a>], Stop>
    ensures { Gives (λ x. (texts table.new.names.items, bare x.now)) result (channel_next (texts table.old.names.items, bare tokens.now)) }
{
    let rest = accept(tokens, ROOM)?;
    let (name, rest) = new_name(table, CHANNELS, rest)?;
    table.add(name)?;
    let rest = expect(rest, ROOM, Symbol::Semicolon)?;
    Ok(rest)
}

/// The declared channels.
#[tactic(auto, unfolding(crate::specs::Scripts::channels_at))]
fn channels<'a>(
    alloc: Global,
    tokens: &'a [Placed<'a>],
) -> Result<(Table<'a>, &'a [Placed<'a>]), Stop>
    ensures { Gives (λ x. (texts x.0.names.items, bare x.1.now)) result (channels_at (bare tokens.now)) }
{
    let mut table = Table::new(alloc);
    let (mut rest, count) = begin(tokens);
    for _turn in 0..count {
        if !is_next(rest, Symbol::Channel) {
            return Ok((table, rest));
        }
        let after = channel(&mut table, rest)?;
        rest = after;
    }
    Ok((table, rest))
}

/// The processes of a script that is being read, the names there, theirs among them, and how many lines their
/// statements took.
#[derive(Drop)]
struct Draft<'a> {
    processes: Vec<Proc>,
    scope: Scope<'a>,
    next: usize,
}

/// The process with this block, whose statements get the next lines.
fn proc_with(
    alloc: Global,
    name: &str,
    block: &Block,
    lines: &[u32],
    next: &mut usize,
    scope: &Scope<'_>,
) -> Result<Proc, AllocError>
    requires limits { KeepsLimits (record { channels = length (here scope.now).channels; variables = length (here scope.now).variables; processes = length (here scope.now).processes }) (block_of block.now) }
    requires place { length (here scope.now).processes < 64 }
    ensures value { IfOk result (λ p. proc_of p ≡ proc_from name.now (block_of block.now) (here scope.now)) }
    ensures lined { IfOk result (λ p. lined_of p ≡ lined_block lines.now next.old (block_of block.now)) }
    ensures next { OnOk result (next.new ≡ next.old + count_block (block_of block.now)) }
{
    let variables = owned(alloc, scope.variables.names(alloc)?)?;
    let name = String::from_str(alloc, name)?;
    let body = with_lines(alloc, lines, next, block)?;
    let channels = scope.channels.len();
    let earlier = scope.processes.len() as u8;
    Ok(Proc::new(name, body, variables, channels, earlier))
}

/// One more process.
#[tactic(auto, unfolding(crate::specs::Scripts::process_next))]
fn process<'a>(
    alloc: Global,
    draft: &mut Draft<'a>,
    lines: &[u32],
    tokens: &'a [Placed<'a>],
) -> Result<&'a [Placed<'a>], Stop>
    ensures value { Gives (λ x. drawn draft.new (bare x.now)) result (process_next (drawn draft.old (bare tokens.now))) }
    ensures lined { OnOk result (IsLined lines.now draft.old → IsLined lines.now draft.new) }
{
    let rest = expect(tokens, ROOM, Symbol::Process)?;
    let mut next = draft.next;
    let scope = &mut draft.scope;
    let (name, rest) = new_name(&scope.processes, PROCESSES, rest)?;
    scope.variables = Table::new(alloc);
    // A block leaves the counts as they were, so they are 0 here; set anew they are known to be.
    scope.counts = Counts { bases: 0, nacks: 0 };
    let (block, rest) = read_block(alloc, scope, rest, ROOM, Loops::Allowed)?;
    let process = proc_with(alloc, name, &block, lines, &mut next, scope)?;
    // From here on the process can be named.
    scope.processes.add(name)?;
    draft.processes.push(process)?;
    draft.next = next;
    Ok(rest)
}

/// The processes, up to the end of the text.
#[tactic(auto, unfolding(crate::specs::Scripts::processes_at))]
fn processes<'a>(
    alloc: Global,
    channels: Table<'a>,
    lines: &[u32],
    tokens: &'a [Placed<'a>],
) -> Result<(Draft<'a>, &'a [Placed<'a>]), Stop>
    ensures value { Gives (λ x. drawn x.0 (bare x.1.now)) result (processes_at (texts channels.entry.names.items) (bare tokens.now)) }
    ensures lined { IfOk result (λ x. IsLined lines.now x.0) }
{
    let mut draft = Draft {
        processes: Vec::new(alloc),
        scope: Scope::new(alloc, channels),
        next: 0,
    };
    let (mut rest, count) = begin(tokens);
    for _turn in 0..count {
        if is_end(rest) {
            return Ok((draft, rest));
        }
        let after = process(alloc, &mut draft, lines, rest)?;
        rest = after;
    }
    Ok((draft, rest))
}

/// The channels' names and the processes of a whole script.
#[tactic(auto, unfolding(crate::specs::Scripts::script_at))]
fn whole<'a>(alloc: Global, tokens: &'a [Placed<'a>]) -> Result<(Vec<String>, Vec<Proc>), Stop>
    ensures value { Gives (λ x. record { channels = string_texts x.0.items; processes = map proc_of x.1.items }) result (script_at (bare tokens.now)) }
    ensures lined { IfOk result (λ x. trees_in x.1.items ≡ lined_all (map line_of (text_words (seen tokens.now))) 0 (map proc_of x.1.items)) }
{
    let lines = statement_lines(alloc, tokens)?;
    let (channels, rest) = channels(alloc, tokens)?;
    let (draft, _) = processes(alloc, channels, &lines, rest)?;
    let channels = owned(alloc, draft.scope.channels.names(alloc)?)?;
    let Draft {
        processes,
        scope: _,
        next: _,
    } = draft;
    Ok((channels, processes))
}

/// The line at which so many tokens are left.
pub fn line_left(tokens: &Tokens<'_>, left: usize) -> usize
    ensures { result ≡ line_left (seen tokens.now.placed.items) tokens.now.last_line left }
{
    let len = tokens.placed.len();
    if left == 0 || left > len {
        return tokens.last_line;
    }
    tokens.placed[len - left].line
}

fn fault_at(problem: Problem, line: usize) -> ScriptFault
    ensures { result ≡ fault_at problem line }
{
    match problem {
        Problem::Syntax => ScriptFault::Syntax(line),
        Problem::UnknownName => ScriptFault::UnknownName(line),
        Problem::Twice => ScriptFault::Twice(line),
        Problem::TooMany => ScriptFault::TooMany(line),
        Problem::LoopWithoutSync => ScriptFault::LoopWithoutSync(line),
    }
}

/// What the bytes say, read from left to right.
#[tactic(auto, unfolding(crate::specs::Scripts::text_at))]
fn read_text(alloc: Global, bytes: &[u8]) -> Result<Script, ScriptFault>
    ensures text { Answers result (text_at bytes.now) }
    ensures lined { IfOk result (λ s. trees_in s.processes.items ≡ lined_all (map line_of (text_words (placed_tokens bytes.now))) 0 (script_of s).processes) }
{
    if bytes.len() > TEXT_LEN {
        return Err(ScriptFault::TooLong);
    }
    let Ok(tokens) = scan(alloc, bytes) else {
        return Err(ScriptFault::Memory);
    };
    match whole(alloc, &tokens.placed) {
        Ok((channels, processes)) => Ok(Script {
            channels,
            processes,
        }),
        Err(Stop::Memory) => Err(ScriptFault::Memory),
        Err(Stop::At(fault)) => Err(fault_at(fault.problem, line_left(&tokens, fault.left))),
    }
}

/// The first fault of tokens that are read as those of a whole script. What is read is not kept.
pub fn first_fault(alloc: Global, tokens: &[Placed<'_>]) -> Result<Option<Fault>, AllocError>
    ensures { IfOk result (λ found. MatchOption found (IsRead (script_at (bare tokens.now))) (λ fault. script_at (bare tokens.now) ≡ Err (told fault))) }
{
    match whole(alloc, tokens) {
        Ok(_) => Ok(None),
        Err(Stop::At(fault)) => Ok(Some(fault)),
        Err(Stop::Memory) => Err(AllocError),
    }
}

/// The script that the bytes spell, or their first fault.
pub fn parse(alloc: Global, bytes: &[u8]) -> Result<Script, ScriptFault>
    ensures text { Answers result (text_at bytes.now) }
    ensures found { IfOk result (λ s. Spells bytes.now (script_of s)) }
    ensures fits { OnOk result (length bytes.now ≤ 65536) }
    ensures refused { IfErr result (Refuses bytes.now) }
    ensures told { IfErr result (Tells bytes.now) }
    ensures first { FirstIsTold bytes.now result }
    ensures lined { IfOk result (λ s. AreLined bytes.now (trees_of_script s)) }
{
    let read = read_text(alloc, bytes);
    read
}
