//! The layout of a chart, reckoned once.

use crate::columns::Columns;
use crate::foot::{Foot, lines_below};
use crate::label::{gap_of, is_arrow};
use crate::lines::Lines;
use crate::places::{bottom, page_height};
use crate::spot::Spot;
use crate::widths::{gaps_and_labels, page_width};
use protocol_values::Commit;
use script::Script;
use std::alloc::{AllocError, Global};

/// Which processes have a column of their own, where the lines of the columns stand, what stands beside each commit,
/// and how large the page is.
#[derive(Drop)]
pub struct Layout<'a> {
    columns: Columns<'a>,
    lines: Lines,
    labels: Vec<String>,
    width: u64,
    height: u64,
}

impl<'a> Layout<'a> {
    ghost use Rattle.std.specs.Prelude.{◌≡◌, ◌<◌, ◌≤◌, IfOk, Some, length, slice_get};
    ghost use Rattle.script.specs.Scripts.{script_of};
    ghost use Rattle.journal_text.specs.Names.{named};
    ghost use Rattle.pcml_chart_layout.specs.Labels.{spot_of};
    ghost use Rattle.pcml_chart_layout.specs.Laid.{IsLaid, laid, tall, written};
    ghost use Rattle.pcml_chart_layout.specs.Places.{column, has_others, is_own, line_at, line_of, others_column};

    /// The layout for these commits, of processes that stand so, where those have a column of their own that `own`
    /// tells, below a heading of so many bytes.
    pub fn new(
        alloc: Global,
        script: &Script,
        own: &'a [bool],
        feet: &[Foot<'_>],
        commits: &[Commit],
        heading: usize,
    ) -> Result<Layout<'a>, AllocError>
        requires threads { length own.now ≤ 64 }
        requires count { length feet.now ≡ length own.now }
        requires few { length commits.now ≤ 1250 }
        ensures { IfOk result (λ layout. IsLaid (named (script_of script.now)) own.now feet.now commits.now heading layout) }
    {
        let columns = Columns::new(alloc, own)?;
        let (gaps, labels) = gaps_and_labels(alloc, script, &columns, feet, commits)?;
        let lines = Lines::new(alloc, gaps)?;
        let width = page_width(&columns, &lines, heading);
        let height = page_height(bottom(commits.len()), lines_below(&columns, feet));
        Ok(Layout {
            columns,
            lines,
            labels,
            width,
            height,
        })
    }

    /// How many processes there are.
    pub fn processes(&self) -> usize
        ensures { result ≡ length (laid self.now).own }
    {
        self.columns.processes()
    }

    /// Whether the process has a column of its own.
    pub fn is_own(&self, thread: usize) -> bool
        ensures { result ≡ is_own (laid self.now).own thread }
    {
        self.columns.is_own(thread)
    }

    /// Whether there are others, which share the last column.
    pub fn has_others(&self) -> bool
        ensures { result ≡ has_others (laid self.now).own }
    {
        self.columns.has_others()
    }

    /// The column of the process, from 1 on.
    pub fn column(&self, thread: u8) -> usize
        ensures { result ≡ column (laid self.now).own thread }
    {
        self.columns.of(thread)
    }

    /// The line of life of the process.
    pub fn line_of(&self, thread: u8) -> u64
        ensures { result ≡ line_of (laid self.now) thread }
    {
        self.lines.at(self.columns.of(thread))
    }

    /// That of the others.
    pub fn others_line(&self) -> u64
        ensures { result ≡ line_at (laid self.now).gaps (others_column (laid self.now).own) }
    {
        self.lines.at(self.columns.others())
    }

    /// Where the label of the commit stands.
    pub fn spot_of(&self, commit: &Commit) -> Spot
        ensures { result ≡ spot_of (laid self.now).own (laid self.now).gaps commit.now }
    {
        let columns = &self.columns;
        self.lines
            .spot_in(gap_of(columns, commit), is_arrow(columns, commit))
    }

    /// What stands beside the commit at the place among those of the layout.
    pub fn label(&self, place: usize) -> &str
        requires { place < length (written self.now) }
        ensures { Some result.now ≡ slice_get (written self.now) place }
    {
        self.labels[place].as_str()
    }

    /// How wide the page is.
    pub fn width(&self) -> u64
        ensures { result ≡ (laid self.now).width }
    {
        self.width
    }

    /// How high the page is.
    pub fn height(&self) -> u64
        ensures { result ≡ tall self.now }
    {
        self.height
    }
}
