//! What a call comes to, beside what it is to come to.

use crate::blocks::Block;
use std::alloc::{AllocError, Global};

/// The last line of a text, without its end.
pub(crate) fn last_line(text: &[u8]) -> &str {
    let text = str::from_utf8(text).unwrap_or("(no text)");
    let text = text.strip_suffix("\n").unwrap_or(text);
    match text.rsplit_once('\n') {
        Some((_, line)) => line,
        None => text,
    }
}

/// Whether each line is one that a run tells on the error stream.
fn are_notes(err: &[u8]) -> bool {
    let text = str::from_utf8(err).unwrap_or("?");
    text.lines().all(|line| line.starts_with("spent: ") || line.contains(" faulted "))
}

/// The first line of a text, with its end.
fn first_line(text: &[u8]) -> &[u8] {
    match text.iter().position(|byte| *byte == b'\n') {
        Some(at) => &text[..=at],
        None => text,
    }
}

/// What a call came to.
#[derive(Drop)]
pub(crate) struct Outcome {
    pub(crate) status: u8,
    pub(crate) out: Vec<u8>,
    pub(crate) err: Vec<u8>,
}

/// Which of the two streams a call writes on, and with which status.
#[derive(Clone, Copy)]
pub(crate) enum Wanted {
    Prints,
    /// The same of a run: on the error stream may stand who faulted, and how many are spent.
    Runs,
    /// On the error stream begins what is told with this line.
    Fails,
    /// This is all that is told there.
    Explains,
    /// A process has not ended that had to.
    Lacks,
    /// A journal that is no run.
    Unlawful,
    /// Words that are not understood, or name what is not there, with a text that begins so.
    Refuses,
    /// With this status, and its last lines on the error stream.
    Warns(u8),
}

/// What a listing of outcomes tells: the lines of each, sorted, who is stranded, how many outcomes there are, whether a
/// commit was followed alone, and whether that is all, and within what.
#[derive(Drop, PartialEq)]
struct Listing<'a> {
    outcomes: Vec<&'a str>,
    stranded: &'a str,
    count: &'a str,
    is_followed: bool,
    extent: &'a str,
}

/// What is told of the search behind the number of outcomes, without how many configurations or states were seen, and
/// whether a commit was followed alone.
fn read_search(behind: &str) -> (bool, &str) {
    let seen = behind
        .strip_prefix("configurations ")
        .or(behind.strip_prefix("states "));
    let rest = seen.unwrap_or(behind);
    let followed = rest.strip_prefix("followed ");
    let rest = followed.unwrap_or(rest);
    match seen {
        Some(_) => (
            followed.is_some(),
            rest.split_once(' ').unwrap_or((rest, "")).1,
        ),
        None => (followed.is_some(), rest),
    }
}

fn read_listing(alloc: Global, text: &str) -> Result<Listing<'_>, AllocError> {
    let (told, last) = text.rsplit_once("outcomes ").unwrap_or(("", text));
    let (blocks, stranded) = told.split_once("stranded ").unwrap_or((told, ""));
    let (count, behind) = last.split_once(' ').unwrap_or((last, ""));
    let (is_followed, extent) = read_search(behind);
    let mut outcomes = Vec::new(alloc);
    for block in blocks.split("outcome ").skip(1) {
        let (_, lines) = block.split_once('\n').unwrap_or((block, ""));
        outcomes.push(lines)?;
    }
    outcomes.sort()?;
    Ok(Listing {
        outcomes,
        stranded,
        count,
        is_followed,
        extent,
    })
}

impl Outcome {
    /// Whether it tells the outcomes of the text, in whatever order, and whether that is all as the text does. What the
    /// text has behind its last line of these is on the error stream.
    pub(crate) fn tells(&self, alloc: Global, text: &str) -> Result<bool, AllocError> {
        let out = str::from_utf8(self.out.as_slice()).unwrap_or("(no text)");
        let err = str::from_utf8(self.err.as_slice()).unwrap_or("(no text)");
        let both = format!(in alloc; "{out}{err}")?;
        Ok(
            self.status == 0
                && last_line(self.out.as_slice()).starts_with("outcomes ")
                && read_listing(alloc, both.as_str())? == read_listing(alloc, text)?,
        )
    }

    /// Whether it is what is wanted, with this text.
    pub(crate) fn is(&self, wanted: Wanted, text: &str) -> bool {
        let (status, out, err) = match wanted {
            Wanted::Prints => (0, text, ""),
            Wanted::Runs => {
                return self.status == 0
                    && self.out.as_slice() == text.as_bytes()
                    && are_notes(self.err.as_slice());
            }
            Wanted::Unlawful => (1, text, ""),
            Wanted::Lacks => (3, text, ""),
            Wanted::Fails => {
                return self.status == 1
                    && self.out.is_empty()
                    && first_line(self.err.as_slice()) == text.as_bytes();
            }
            Wanted::Explains => (1, "", text),
            Wanted::Refuses => {
                let err = str::from_utf8(self.err.as_slice()).unwrap_or("");
                return self.status == 2
                    && self.out.is_empty()
                    && !err.is_empty()
                    && err.starts_with(text);
            }
            Wanted::Warns(status) => {
                let out = str::from_utf8(self.out.as_slice()).unwrap_or("");
                let err = str::from_utf8(self.err.as_slice()).unwrap_or("");
                return self.status == status
                    && !out.is_empty()
                    && !err.is_empty()
                    && text.strip_prefix(out) == Some(err);
            }
        };
        self.status == status
            && self.out.as_slice() == out.as_bytes()
            && self.err.as_slice() == err.as_bytes()
    }

    /// The last line that it printed, or where it printed nothing the first that it told.
    pub(crate) fn last_line(&self) -> &str {
        if self.out.is_empty() {
            last_line(first_line(self.err.as_slice()))
        } else {
            last_line(self.out.as_slice())
        }
    }

    /// What was found in place of what is wanted.
    pub(crate) fn text(&self, alloc: Global) -> Result<String, AllocError> {
        let out = str::from_utf8(self.out.as_slice()).unwrap_or("(no text)\n");
        let err = str::from_utf8(self.err.as_slice()).unwrap_or("(no text)\n");
        format!(in alloc; "status {}\n{out}{err}", self.status)
    }
}

fn is_commit(line: &str) -> bool {
    match line.as_bytes().first() {
        Some(byte) => byte.is_ascii_digit(),
        None => false,
    }
}

/// Puts the lines of a run's processes behind a text: those that are no commit's.
fn push_processes(text: &mut String, lines: &str) -> Result<(), AllocError> {
    for line in lines.lines() {
        if !is_commit(line) {
            text.push_str(line)?;
            text.push_str("\n")?;
        }
    }
    Ok(())
}

/// How a replay tells the end of a run: by the lines of its processes, and then by the number of commits.
/// None where the text is none of a run.
pub(crate) fn replayed(alloc: Global, run: &Block<'_>) -> Result<Option<String>, AllocError> {
    let body = run.body.strip_suffix("\n").unwrap_or(run.body);
    let (lines, counts) = body.rsplit_once('\n').unwrap_or(("", body));
    let Some(behind) = counts.strip_prefix("commits ") else {
        return Ok(None);
    };
    let Some((count, _)) = behind.split_once(' ') else {
        return Ok(None);
    };
    let mut text = String::new(alloc);
    push_processes(&mut text, lines)?;
    text.push_str("lawful ")?;
    text.push_str(count)?;
    text.push_str(" maximal\n")?;
    Ok(Some(text))
}
