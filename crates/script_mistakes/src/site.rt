//! Where a fault stands, and what stands there.

ghost use Rattle.std.specs.Prelude.{◌≤◌, length};

use crate::kind::Kind;
use script::first_fault;
use script_reader::fault::{Fault, Problem};
use script_token::{Placed, Symbol, Token};
use std::alloc::{AllocError, Global};

/// A fault of a text: its bytes and its tokens, the fault, how many bytes stand before it, and the kinds of what may
/// stand there.
#[derive(Drop)]
pub(crate) struct Site<'a> {
    pub(crate) bytes: &'a [u8],
    pub(crate) tokens: &'a [Placed<'a>],
    pub(crate) fault: Fault,
    pub(crate) at: usize,
    pub(crate) kinds: &'a [Kind],
}

impl<'a> Site<'a> {
    /// How many tokens stand before the fault.
    pub(crate) fn place(&self) -> usize
        ensures { result ≤ length self.now.tokens.now }
    {
        self.tokens.len().saturating_sub(self.fault.left)
    }

    /// The token at the fault; none is at the end of the text.
    pub(crate) fn here(&self) -> Option<Placed<'a>> {
        let placed = self.tokens.get(self.place())?;
        Some(*placed)
    }

    /// The token before the fault.
    pub(crate) fn before(&self) -> Option<Placed<'a>> {
        let placed = self.tokens.get(self.place().checked_sub(1)?)?;
        Some(*placed)
    }

    /// Whether so many tokens behind the fault the keyword or the mark stands.
    pub(crate) fn is_behind(&self, count: usize, symbol: Symbol) -> bool {
        match self.tokens.get(self.place().saturating_add(count)) {
            Some(placed) => is_symbol(placed.token, symbol),
            None => false,
        }
    }

    /// The line of the innermost block that is open there, if one is.
    pub(crate) fn open_block(&self) -> Option<usize> {
        let mut closed = 0usize;
        for placed in self.tokens[..self.place()].iter().rev() {
            if is_symbol(placed.token, Symbol::CloseBrace) {
                closed = closed.saturating_add(1);
            } else if is_symbol(placed.token, Symbol::OpenBrace) {
                if closed == 0 {
                    return Some(placed.line);
                }
                closed -= 1;
            }
        }
        None
    }

    pub(crate) fn is_here(&self, symbol: Symbol) -> bool {
        match self.here() {
            Some(placed) => is_symbol(placed.token, symbol),
            None => false,
        }
    }

    pub(crate) fn is_before(&self, symbol: Symbol) -> bool {
        match self.before() {
            Some(placed) => is_symbol(placed.token, symbol),
            None => false,
        }
    }

    /// Whether the keyword or the mark may stand there.
    pub(crate) fn expects(&self, symbol: Symbol) -> bool {
        self.expects_kind(Kind::Symbol(symbol))
    }

    pub(crate) fn expects_kind(&self, kind: Kind) -> bool {
        for found in self.kinds {
            if *found == kind {
                return true;
            }
        }
        false
    }

    /// Whether nothing else may stand there.
    pub(crate) fn expects_only(&self, kind: Kind) -> bool {
        self.kinds.len() == 1 && self.kinds[0] == kind
    }

    /// Whether with this token in place of the one there the fault would be this one.
    pub(crate) fn has_with(
        &self,
        alloc: Global,
        token: Token<'a>,
        problem: Problem,
    ) -> Result<bool, AllocError> {
        let mut tokens = Vec::from_slice(alloc, &self.tokens[..self.place()])?;
        tokens.push(Placed { token, line: 0 })?;
        Ok(match first_fault(alloc, &tokens)? {
            Some(fault) => fault.problem == problem && fault.left == 1,
            None => false,
        })
    }
}

fn is_symbol(token: Token<'_>, symbol: Symbol) -> bool {
    match token {
        Token::Symbol(found) => found == symbol,
        Token::Name(_) | Token::Number(_) | Token::Bad => false,
    }
}
