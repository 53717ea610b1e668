//! What may become of a text that was damaged at some place.

use std::alloc::{AllocError, Global};

/// An answer, and the first and the last place of which it is one; none where its line names no place.
#[derive(Clone, Copy)]
struct Answer<'a> {
    places: Option<(usize, usize)>,
    text: &'a str,
}

/// The answers that a block has. A place that a line names has the answers of such lines alone, and every other
/// place those of the lines that name none.
#[derive(Drop)]
pub(crate) struct Answers<'a> {
    lines: Vec<Answer<'a>>,
}

/// The places of a word: `AT`, or `FIRST-LAST`.
fn places_of(word: &str) -> Option<(usize, usize)> {
    let (first, last) = word.split_once('-').unwrap_or((word, word));
    match (first.parse::<usize>(), last.parse::<usize>()) {
        (Ok(first), Ok(last)) => Some((first, last)),
        _ => None,
    }
}

fn answer_of(line: &str) -> Answer<'_> {
    let (word, behind) = line.split_once(' ').unwrap_or((line, ""));
    match places_of(word) {
        Some(places) => Answer {
            places: Some(places),
            text: behind,
        },
        None => Answer {
            places: None,
            text: line,
        },
    }
}

impl<'a> Answers<'a> {
    pub(crate) fn new(alloc: Global, body: &'a str) -> Result<Answers<'a>, AllocError> {
        let mut lines = Vec::new(alloc);
        for line in body.lines() {
            lines.push(answer_of(line))?;
        }
        Ok(Answers { lines })
    }

    /// Whether a text that was damaged at this place may come to this.
    pub(crate) fn allow(&self, at: usize, text: &str) -> bool {
        let mut is_named = false;
        let mut is_allowed = false;
        for answer in &self.lines {
            let is_here = match answer.places {
                Some((first, last)) => first <= at && at <= last,
                None => false,
            };
            if is_here && !is_named {
                // what was allowed so far, was by lines that name no place
                is_allowed = false;
                is_named = true;
            }
            if is_here || answer.places.is_none() && !is_named {
                is_allowed = is_allowed || answer.text == text;
            }
        }
        is_allowed
    }
}
