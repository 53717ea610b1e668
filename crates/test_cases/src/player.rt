//! Plays the blocks of a case file in their order.

use crate::answers::Answers;
use crate::blocks::{Block, Blocks};
use crate::calls::{Outcome, Wanted, last_line, replayed};
use crate::shelf::Shelf;
use anyhow::{Result, bail};
use journal_text::JournalFault;
use outcomes::Unwatched;
use pcml_texts::{Replayed, replay_text};
use pcml_tool::command;
use script::{Script, parse};
use std::alloc::{AllocError, Global};
use std::fs::Files;
use std::sync::Wait;
use std::thread::Threads;

/// Numbers of workers with which a script is run.
const WORKERS: [&str; 3] = ["1", "2", "16"];

/// The word of a run, and of no replay.
const QUIET: &str = "--quiet";

/// The name of the file in which the journal of a run is kept.
const KEPT: &str = "kept";

/// The name of a beginning of a file.
const CUT: &str = "cut";

/// How many syncs a process may make in the journals that are changed.
const ROWS: u32 = 256;

/// The last line of what a journal's replay tells.
fn replay_line(alloc: Global, script: &Script, journal: &[u8]) -> Result<String, AllocError> {
    match replay_text(alloc, script, journal, ROWS) {
        Ok(Replayed::Lawful(text)) => String::from_str(alloc, last_line(text.as_slice())),
        Ok(Replayed::Unlawful(text)) => String::from_str(alloc, last_line(text.as_slice())),
        Err(JournalFault::BadLine(line)) => format!(in alloc; "fault 21 line {line}"),
        Err(JournalFault::Memory) => Err(AllocError),
    }
}

/// Plays a case file: its files, how many calls were made, and what was wrong.
#[derive(Drop)]
pub(crate) struct Player<'a, R> {
    rt: &'a R,
    name: &'a str,
    files: Shelf<'a, R>,
    pub(crate) calls: usize,
    pub(crate) wrong: String,
}

impl<'a, R: AllocGlobal + Files + Input + Threads + Wait + Sync> Player<'a, R> {
    pub(crate) fn new(rt: &'a R, name: &'a str) -> Player<'a, R> {
        Player {
            rt,
            name,
            files: Shelf::new(rt),
            calls: 0,
            wrong: String::new(rt.alloc()),
        }
    }

    /// Notes what is wrong at a block.
    fn note(&mut self, block: &Block<'_>, what: &str, found: &str) -> Result<()> {
        let name = self.name;
        let line = block.line;
        write!(self.wrong, "{name}:{line}: {what}\n{found}")?;
        Ok(())
    }

    fn call(&mut self, words: &[&str]) -> Result<Outcome> {
        let alloc = self.rt.alloc();
        let mut out = Vec::new(alloc);
        let mut err = Vec::new(alloc);
        let status = command(
            self.rt,
            alloc,
            words,
            &mut self.files,
            &mut out,
            &mut err,
            &mut Unwatched,
        );
        self.calls = self.calls.saturating_add(1);
        Ok(Outcome { status, out, err })
    }

    /// Makes the call, which is to come to what the block has, or to one of the others behind it.
    fn check(
        &mut self,
        words: &[&str],
        wanted: Wanted,
        block: &Block<'_>,
        others: &[Block<'_>],
    ) -> Result<()> {
        let outcome = self.call(words)?;
        if outcome.is(wanted, block.body) {
            return Ok(());
        }
        for other in others {
            if outcome.is(wanted, other.body) {
                return Ok(());
            }
        }
        let found = outcome.text(self.rt.alloc())?;
        self.note(block, "it came to", found.as_str())
    }

    /// Makes the call, which is to tell the outcomes that the block has, in whatever order.
    fn check_outcomes(&mut self, words: &[&str], block: &Block<'_>) -> Result<()> {
        let outcome = self.call(words)?;
        if outcome.tells(self.rt.alloc(), block.body)? {
            return Ok(());
        }
        let found = outcome.text(self.rt.alloc())?;
        self.note(block, "it came to", found.as_str())
    }

    /// The journal that was kept leads to the end that its run had.
    fn check_kept<'w>(
        &mut self,
        script: &'w str,
        words: &[&'w str],
        block: &Block<'_>,
    ) -> Result<()> {
        let alloc = self.rt.alloc();
        let Some(text) = replayed(alloc, block)? else {
            return self.note(block, "it does not end with the counts of a run", "");
        };
        let mut replay: Vec<&str> = vec![in alloc; "replay", script, KEPT]?;
        for word in words {
            if *word != QUIET {
                replay.push(*word)?;
            }
        }
        let outcome = self.call(replay.as_slice())?;
        if outcome.is(Wanted::Prints, text.as_str()) {
            return Ok(());
        }
        let found = outcome.text(alloc)?;
        self.note(block, "the replay of its journal came to", found.as_str())
    }

    /// Runs a script with some workers, and replays the journal. The run has to print what the block has, or
    /// one of the others behind it.
    fn check_run<'w>(
        &mut self,
        workers: &'w str,
        script: &'w str,
        words: &[&'w str],
        blocks: &[Block<'_>],
    ) -> Result<()> {
        let alloc = self.rt.alloc();
        let mut run: Vec<&str> = vec![in alloc;
            "run",
            script,
            "--workers",
            workers,
            "--journal",
            KEPT,
        ]?;
        run.extend_from_slice(words)?;
        let outcome = self.call(run.as_slice())?;
        for block in blocks {
            if outcome.is(Wanted::Runs, block.body) {
                return self.check_kept(script, words, block);
            }
        }
        let found = outcome.text(alloc)?;
        let what = format!(in alloc; "with {workers} workers it came to")?;
        match blocks.first() {
            Some(block) => self.note(block, what.as_str(), found.as_str()),
            None => Ok(()),
        }
    }

    fn check_runs<'w>(
        &mut self,
        script: &'w str,
        words: &[&'w str],
        blocks: &[Block<'_>],
    ) -> Result<()> {
        for workers in &WORKERS {
            self.check_run(workers, script, words, blocks)?;
        }
        Ok(())
    }

    /// Calls the program over each beginning of a file, which it finds under the name `cut`, up to the first that
    /// comes to something else.
    fn check_beginnings(&mut self, name: &str, words: &[&str], block: &Block<'_>) -> Result<()> {
        let alloc = self.rt.alloc();
        let whole = self.files.bytes_of(name)?;
        let answers = Answers::new(alloc, block.body)?;
        for length in 0..whole.len() + 1 {
            self.files.make(CUT, &whole.as_slice()[..length], 1)?;
            let outcome = self.call(words)?;
            if !answers.allow(length, outcome.last_line()) {
                let what = format!(in alloc; "cut behind {length} bytes it came to")?;
                let found = outcome.text(alloc)?;
                return self.note(block, what.as_str(), found.as_str());
            }
        }
        Ok(())
    }

    /// Replays each journal that differs from this one in one byte, up to the first that comes to something else.
    fn check_changes(&mut self, script: &str, journal: &str, block: &Block<'_>) -> Result<()> {
        let alloc = self.rt.alloc();
        let script = parse(alloc, self.files.bytes_of(script)?.as_slice())?;
        let mut text = self.files.bytes_of(journal)?;
        let answers = Answers::new(alloc, block.body)?;
        for at in 0..text.len() {
            let right = text[at];
            for value in 0..=255u8 {
                if value == right {
                    continue;
                }
                text[at] = value;
                let found = replay_line(alloc, &script, text.as_slice())?;
                self.calls = self.calls.saturating_add(1);
                if !answers.allow(at, found.as_str()) {
                    let what = format!(in alloc; "with {value} as byte {at} it came to")?;
                    return self.note(block, what.as_str(), found.as_str());
                }
            }
            text[at] = right;
        }
        Ok(())
    }

    /// The file of this name that was made last, or that a call kept, has this text.
    fn check_file(&mut self, name: &str, block: &Block<'_>) -> Result<()> {
        let found = self.files.text_of(name)?;
        if found.as_str() == block.body {
            return Ok(());
        }
        self.note(block, "the file holds", found.as_str())
    }

    /// Makes a file of a block: of so many times its lines, or of its lines without the last line end.
    fn make(&mut self, name: &str, text: &str, times: &str) -> Result<()> {
        let Ok(times) = times.parse::<usize>() else {
            bail!("no such number: {times}");
        };
        self.files.make(name, text.as_bytes(), times)?;
        Ok(())
    }

    /// Puts a text, so many times, behind what was made under a name.
    fn append(&mut self, name: &str, text: &str, times: &str) -> Result<()> {
        let Ok(times) = times.parse::<usize>() else {
            bail!("no such number: {times}");
        };
        self.files.append(name, text.as_bytes(), times)?;
        Ok(())
    }

    /// Makes the call, whose status is that of the word, and which tells the last line of the block's text on the error
    /// stream.
    fn check_warning(
        &mut self,
        status: &str,
        words: &[&str],
        block: &Block<'_>,
        others: &[Block<'_>],
    ) -> Result<()> {
        let Ok(status) = status.parse::<u8>() else {
            bail!("no such status: {status}");
        };
        self.check(words, Wanted::Warns(status), block, others)
    }

    /// Does once what the words of a block say, with the other answers behind it that will do.
    fn play_words<'w, 'b>(
        &mut self,
        words: &[&'w str],
        block: &Block<'b>,
        others: &[Block<'b>],
    ) -> Result<()> {
        let text = block.body.strip_suffix("\n").unwrap_or(block.body);
        match words {
            ["file", name] => self.make(name, block.body, "1"),
            ["file", name, times] => self.make(name, block.body, times),
            ["text", name] => self.make(name, text, "1"),
            ["text", name, times] => self.make(name, text, times),
            ["more", name] => self.append(name, text, "1"),
            ["more", name, times] => self.append(name, text, times),
            ["holds", name] => self.check_file(name, block),
            ["beginnings", file, call @ ..] => self.check_beginnings(file, call, block),
            ["changes", script, journal] => self.check_changes(script, journal, block),
            ["prints", call @ ..] => self.check(call, Wanted::Prints, block, others),
            ["tells", call @ ..] => self.check_outcomes(call, block),
            ["unlawful", call @ ..] => self.check(call, Wanted::Unlawful, block, others),
            ["lacks", call @ ..] => self.check(call, Wanted::Lacks, block, others),
            ["fails", call @ ..] => self.check(call, Wanted::Fails, block, others),
            ["explains", call @ ..] => self.check(call, Wanted::Explains, block, others),
            ["refuses", call @ ..] => self.check(call, Wanted::Refuses, block, others),
            ["warns", status, call @ ..] => self.check_warning(status, call, block, others),
            ["runs", script, more @ ..] => {
                let mut all = vec![in self.rt.alloc(); *block]?;
                all.extend_from_slice(others)?;
                self.check_runs(script, more, all.as_slice())
            }
            _ => self.note(block, "no such block", ""),
        }
    }

    /// Plays one block, as often as its first word says where that is a number.
    fn play_block<'b>(&mut self, block: &Block<'b>, others: &[Block<'b>]) -> Result<()> {
        let words: Vec<&str> = block.head.split_whitespace().collect(self.rt.alloc())?;
        let Some((first, behind)) = words.as_slice().split_first() else {
            return Ok(());
        };
        let Ok(times) = first.parse::<usize>() else {
            return self.play_words(words.as_slice(), block, others);
        };
        for _ in 0..times {
            self.play_words(behind, block, others)?;
        }
        Ok(())
    }

    /// Plays the blocks of a text. One without words, or whose first is no word of a block's, is a remark.
    pub(crate) fn play(&mut self, text: &str) -> Result<()> {
        let mut blocks = Blocks::new(text);
        for _ in 0..text.len() {
            let Some(block) = blocks.take() else {
                break;
            };
            let mut others = Vec::new(self.rt.alloc());
            for _ in 0..text.len() {
                let Some(other) = blocks.take_other() else {
                    break;
                };
                others.push(other)?;
            }
            if !block.head.is_empty() && !block.head.starts_with(' ') {
                self.play_block(&block, others.as_slice())?;
            }
        }
        Ok(())
    }
}
