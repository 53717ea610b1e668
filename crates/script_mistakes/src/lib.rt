//! What is wrong with a text that is no script.
//!
//! `expected` lists the kinds of what may stand where the grammar does not allow a token (`specs/Expected`): each is
//! tried, by reading the tokens before the place with one of that kind behind them. `why_not` tells the text's first
//! fault with its number, line and column, the line itself with a mark where the fault stands, what helps, and what
//! may stand there (`specs/Telling`). `why_short` tells the first fault in one line (`specs/Short`). The help is words
//! alone: no clause says of it more than that it stands there.
#![tactic(auto)]

ghost use Rattle.script_mistakes.specs.Words.{AreSpelled};

mod help;
mod kind;
mod limit;
mod nearest;
mod place;
mod short;
mod site;
mod telling;
mod trying;

pub use kind::Kind;
pub use short::why_short;
pub use telling::why_not;
pub use trying::expected;

/// The words and marks of the language are told as they are written.
pub fn spelling_law()
    ensures { AreSpelled }
{}
