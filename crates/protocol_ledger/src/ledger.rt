//! Ledgers: the commits that a table's words name.

ghost use Rattle.std.specs.Prelude.{◌≡◌, ◌*◌, ◌≤◌, ◌↔◌, IfOk, IfSome, IfNone, IsPermutation, Contains, length};

use crate::layout::Layout;
use crate::sheet::{OFFERS, Sheet};
use crate::stamps::nearly_by_stamp;
use protocol_values::{Commit, Row};
use std::alloc::AllocError;
use std::marker::Model;

/// The commits that words name, with the offers of the opened rows and the bound nacks. Every
/// ledger is lawful.
#[derive(Debug, Drop)]
pub struct Ledger {
    pub(crate) sheet: Sheet,
}

impl Model for Ledger {
    ghost use Rattle.protocol_ledger.specs.Ledgers.{Ledger};

    ghost Value = { Ledger };

    ghost use Rattle.protocol_ledger.specs.Ledgers.{ledger_of, IsLawful};
    ghost use Rattle.protocol_ledger.specs.Sheets.{table_of};

    ghost view = { λ l. ledger_of (table_of l.sheet) };

    ghost invariant = { λ l. IsLawful (ledger_of (table_of l.sheet)) };
}

ghost use Rattle.protocol_ledger.specs.Ledgers.{ledger_of, IsLawful, HasCommit, Involves, IsCausal, marks_in, commits_in, pending_in};
ghost use Rattle.protocol_values.specs.Commits.{IsInOrder};
ghost use Rattle.protocol_ledger.specs.Short.{Fits, wide_table, words_below};
ghost use Rattle.protocol_ledger.specs.Tables.{thread_len};
ghost use Rattle.protocol_ledger.specs.Sheets.{table_of};
ghost use Rattle.protocol_values.specs.declared.Commit.{Commit};

impl Ledger {
    /// The ledger of a sheet's words.
    pub fn of_sheet(sheet: Sheet) -> Ledger
        requires { IsLawful (ledger_of (table_of sheet)) }
        ensures { result ≡ ledger_of (table_of sheet) }
    {
        Ledger { sheet }
    }

    /// The ledger of words that lie thread by thread: a thread's rows first, 34 words each, and
    /// then its 64 nacks, and its life; `opening` is the greatest stamp of what went before, 0 of a first
    /// table. It takes no memory.
    pub fn of_words(threads: u8, rows: u16, words: Vec<u64>, opening: u32) -> Ledger
        requires some_threads { 1 ≤ threads }
        requires few_threads { threads ≤ 64 }
        requires some_rows { 1 ≤ rows }
        requires few_rows { rows ≤ 1024 }
        requires sized { length words.items ≡ threads * thread_len rows }
        requires lawful { IsLawful (ledger_of (record { threads = threads; rows = rows; words = words.items; opening = opening })) }
        ensures { result ≡ ledger_of (record { threads = threads; rows = rows; words = words.items; opening = opening }) }
    {
        let layout = Layout::even(OFFERS, rows);
        Ledger::of_short_words(threads, rows, layout, words, opening)
    }

    /// The ledger of words that are laid out so: a row has 2 words, and 4 for each offer for which it has room, and a
    /// thread has few rows. The words that are not there are 0.
    pub fn of_short_words(
        threads: u8,
        rows: u16,
        layout: Layout,
        words: Vec<u64>,
        opening: u32,
    ) -> Ledger
        requires some_threads { 1 ≤ threads }
        requires few_threads { threads ≤ 64 }
        requires some_rows { 1 ≤ rows }
        requires few_rows { rows ≤ 1024 }
        requires fits { Fits layout rows }
        requires sized { length words.items ≡ words_below layout threads }
        requires lawful { IsLawful (ledger_of (wide_table layout (record { threads = threads; rows = rows; words = words.items; opening = opening }))) }
        ensures { result ≡ ledger_of (wide_table layout (record { threads = threads; rows = rows; words = words.items; opening = opening })) }
    {
        Ledger {
            sheet: Sheet {
                threads: usize::from(threads),
                rows: usize::from(rows),
                layout,
                starts: layout.starts(),
                words,
                opening,
            },
        }
    }

    /// The commit that the row is in, from the join on.
    pub fn commit_of(&self, row: Row) -> Option<Commit>
        ensures found { IfSome result (λ c. HasCommit self.now c × Involves c row) }
        ensures none { IfNone result ((c : Commit) → HasCommit self.now c → Involves c row → ⊥) }
    {
        self.sheet.commit_of(row)
    }

    /// All commits, by stamp and then by the thread named first.
    pub fn commits(&self) -> Result<Vec<Commit>, AllocError>
        ensures once { IfOk result (λ cs. IsPermutation (commits_in self.now) cs.items) }
        ensures members { IfOk result (λ cs. (c : Commit) → Contains cs.items c ↔ HasCommit self.now c) }
        ensures in_order { IfOk result (λ cs. IsInOrder cs.items) }
        ensures causal { IfOk result (λ cs. IsCausal (marks_in self.now) cs.items) }
        ensures lawful { IsLawful self.now }
    {
        let told = self.sheet.commits()?;
        let mut commits = nearly_by_stamp(told)?;
        // They are mostly in order now, except where a pair is pending: this looks at each once, and moves few.
        commits.sort_by_key(|commit| commit.order())?;
        Ok(commits)
    }

    /// How many pairs are joined and not yet sealed. It takes no memory.
    pub fn pending(&self) -> u32
        ensures { result ≡ pending_in self.now }
    {
        self.sheet.pending()
    }
}
