//! The lines of the columns, with the gaps between them.

ghost use Rattle.std.specs.Prelude.{◌≡◌, ◌≤◌, ◌+◌, length, map};
ghost use Rattle.std.specs.List.{range_with_len};
ghost use Rattle.pcml_chart_layout.specs.Places.{line_at};

use crate::spot::Spot;
use std::alloc::{AllocError, Global};

/// The widths of the gaps, and where each begins, with the right border at last.
#[derive(Drop)]
pub(crate) struct Lines {
    gaps: Vec<u16>,
    lines: Vec<u32>,
    ghost few: { length gaps.items ≤ 66 },
    ghost summed: { lines.items ≡ map (line_at gaps.items) (range_with_len 0 (length gaps.items + 1)) },
}

impl Lines {
    ghost use Rattle.std.specs.Prelude.{◌<◌, ◌^◌, IfOk};
    ghost use Rattle.pcml_chart_layout.specs.Places.{middle, spot_in};

    pub(crate) fn new(alloc: Global, gaps: Vec<u16>) -> Result<Lines, AllocError>
        requires { length gaps.items ≤ 66 }
        ensures { IfOk result (λ made. made.gaps.items ≡ gaps.items) }
    {
        let mut lines = Vec::with_capacity(alloc, gaps.len() + 1)?;
        let mut line = 0;
        lines.push(line)?;
        for gap in &gaps {
            line += u32::from(*gap);
            lines.push(line)?;
        }
        Ok(Lines { gaps, lines })
    }

    /// The line of a column, from the left border on.
    pub(crate) fn at(&self, place: usize) -> u64
        ensures value { result ≡ line_at self.now.gaps.items place }
        ensures small { result < 2 ^ 32 }
    {
        u64::from(self.lines[place.min(self.gaps.len())])
    }

    fn middle(&self, place: usize) -> u64
        requires { place ≤ 66 }
        ensures { result ≡ middle self.now.gaps.items place }
    {
        (self.at(place) + self.at(place + 1)) / 2
    }

    /// Where the label of a mark stands.
    pub(crate) fn spot_in(&self, place: usize, is_arrow: bool) -> Spot
        requires { place ≤ 66 }
        ensures { result ≡ spot_in self.now.gaps.items place is_arrow }
    {
        if is_arrow {
            Spot::Round(self.middle(place))
        } else {
            Spot::Behind(self.at(place) + 9)
        }
    }
}
