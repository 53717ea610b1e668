//! What each atomic step tells the pass that makes it.

ghost use Rattle.meet_directory.specs.Directory.{heard, nothing, has_glanced, has_marked, has_seen};

use crate::view::View;
use atomic_table::{Join as JoinSeats, Play, Split};

/// A count is raised, or a bit is set: what is written stands from then on.
pub struct Mark;

impl Play<(), View> for Mark {
    ghost then = { has_marked };
}

/// A word is read: all that any pass had written by then stands there.
pub struct See;

impl Play<(), View> for See {
    ghost then = { has_seen };
}

/// A word is read: all that any pass had written by then stands there, and of any two looks that the pass knows of
/// then, one saw the other.
pub struct Glance;

impl Play<(), View> for Glance {
    ghost then = { has_glanced };
}

/// A new pass begins, which has written and read nothing.
pub struct Enter;

impl Split<View> for Enter {
    ghost left = { λ v. v };

    ghost right = { λ v. nothing };
}

/// A pass tells another what it has written and read.
pub struct Tell;

impl Split<View> for Tell {
    ghost left = { λ v. v };

    ghost right = { λ v. v };
}

impl JoinSeats<View> for Tell {
    ghost both = { heard };

    ghost spent = { nothing };
}
