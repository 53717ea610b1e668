//! The commits that a sheet's words name.

ghost use Rattle.std.specs.Prelude.{◌≡◌, ◌≤◌, ◌<◌, ◌++◌, ◌∷◌, [], IfOk, IsOk, IfSome, IfNone, Some, true, false, is_some, option_and_then, option_to_list};
ghost use Rattle.std.specs.List.{flat_map};
ghost use Rattle.protocol_ledger.specs.Tables.{all_rows, rows_below, cell_at, is_fresh, is_row, word_at, joined_at, offer_at, namer_of, is_partner};
ghost use Rattle.protocol_ledger.specs.Ledgers.{alone_by, pair_by, commit_by, commit_named, named_at, commit_at, told_at, commits_of, pending_of, is_pending, ledger_of, IsLawful};
ghost use Rattle.protocol_ledger.specs.Sheets.{table_of};
ghost use Rattle.protocol_ledger.specs.CellWords.{joined_by, partner_by};

use crate::sheet::{Sheet, is_fresh};
use protocol_values::{Base, Cause, Cell, Commit, Joined, Message, Offer, Row, unpack_cell};
use std::alloc::AllocError;

impl Sheet {
    /// The commit of a row by its own offer. A partner's offer is read only where the own one is no
    /// send.
    #[inline(always)]
    fn commit_by(&self, row: Row, joined: Joined, own: Offer) -> Option<Commit>
        requires { is_some (commit_by (offer_at (table_of self.now)) row joined joined.partner (Some own)) ≡ true }
        ensures { result ≡ commit_by (offer_at (table_of self.now)) row joined joined.partner (Some own) }
    {
        match joined.partner {
            None => alone_commit(row, joined, own.base),
            Some(partner) => self.pair_commit(row, joined, partner, own.base),
        }
    }

    /// The commit of a row that is paired, by what it offered.
    fn pair_commit(
        &self,
        row: Row,
        joined: Joined,
        partner: (Row, u8),
        base: Base,
    ) -> Option<Commit>
        requires { is_some (pair_by row joined partner base (offer_at (table_of self.now) partner.0 partner.1)) ≡ true }
        ensures { result ≡ pair_by row joined partner base (offer_at (table_of self.now) partner.0 partner.1) }
    {
        match base {
            Base::Send(chan, msg) => Some(Commit::Pair {
                sender: (row, joined.own),
                receiver: partner,
                chan,
                msg,
                stamp: joined.stamp,
            }),
            Base::Recv(_) => match self.known_offer(partner.0, partner.1).base {
                Base::Send(chan, msg) => Some(Commit::Pair {
                    sender: partner,
                    receiver: (row, joined.own),
                    chan,
                    msg,
                    stamp: joined.stamp,
                }),
                _ => None,
            },
            _ => None,
        }
    }

    /// Adds the commit that a row with this word tells, if it tells one. A row that sent tells it by its word and its
    /// offer. One that received leaves it to a partner who is committed, so each commit is told once.
    #[inline(always)]
    fn tell_row(&self, row: Row, word: u64, commits: &mut Vec<Commit>) -> Result<(), AllocError>
        requires lawful { IsLawful (ledger_of (table_of self.now)) }
        requires row { is_row (table_of self.now) row ≡ true }
        requires word { word ≡ word_at (table_of self.now) row 0 }
        ensures { IsOk result → commits.new.items ≡ commits.old.items ++ option_to_list (told_at (joined_at (table_of self.now)) (offer_at (table_of self.now)) row) }
    {
        if !is_of_pair(word) {
            return self.tell_named(row, commits);
        }
        let (own, partner, stamp) = read_pair(word);
        match self.known_offer(row, own).base {
            Base::Send(chan, msg) => match msg {
                // as most messages are: then nothing is chosen by the kind of the message
                Message::One(atom) => add_pair(
                    commits,
                    (row, own),
                    partner,
                    chan,
                    Message::One(atom),
                    stamp,
                ),
                _ => add_pair(commits, (row, own), partner, chan, msg, stamp),
            },
            _ if self.is_committed(partner.0) => Ok(()),
            _ => self.tell_named(row, commits),
        }
    }

    /// Adds the commit that the row names, if it names one.
    #[inline(never)]
    fn tell_named(&self, row: Row, commits: &mut Vec<Commit>) -> Result<(), AllocError>
        requires { IsLawful (ledger_of (table_of self.now)) }
        ensures { IsOk result → commits.new.items ≡ commits.old.items ++ option_to_list (named_at (joined_at (table_of self.now)) (offer_at (table_of self.now)) row) }
    {
        if let Some(commit) = self.named(row) {
            commits.push(commit)?;
        }
        Ok(())
    }

    /// The commit that the row names, whether it has a partner or none.
    fn named(&self, row: Row) -> Option<Commit>
        requires { IsLawful (ledger_of (table_of self.now)) }
        ensures { result ≡ named_at (joined_at (table_of self.now)) (offer_at (table_of self.now)) row }
    {
        let joined = self.joined(row)?;
        self.commit_named(row, joined)
    }

    /// Whether a row that is known to be opened is committed, by the state in its word.
    fn is_committed(&self, row: Row) -> bool
        requires { is_fresh (cell_at (table_of self.now) row) ≡ false }
        ensures { result ≡ is_some (joined_at (table_of self.now) row) }
    {
        self.cell_word(row) % 8 > 2
    }

    /// The commit that the row is in. No commit has a Fresh row.
    pub(crate) fn commit_of(&self, row: Row) -> Option<Commit>
        requires { IsLawful (ledger_of (table_of self.now)) }
        ensures { result ≡ commit_at (all_rows self.now.threads self.now.rows) (joined_at (table_of self.now)) (offer_at (table_of self.now)) row }
    {
        let cell = self.cell(row);
        if is_fresh(cell) {
            return None;
        }
        match cell.joined() {
            Some(joined) => self.commit_named(row, joined),
            None => self.commit_naming(row),
        }
    }

    /// The commit that a committed row names.
    #[tactic(auto, unfolding(crate::specs::Ledgers::commit_named))]
    fn commit_named(&self, row: Row, joined: Joined) -> Option<Commit>
        requires lawful { IsLawful (ledger_of (table_of self.now)) }
        requires joined { joined_at (table_of self.now) row ≡ Some joined }
        ensures { result ≡ commit_named (offer_at (table_of self.now)) row joined }
    {
        let own = self.known_offer(row, joined.own);
        self.commit_by(row, joined, own)
    }

    /// The commit of the row that is committed with this one as its partner.
    fn commit_naming(&self, row: Row) -> Option<Commit>
        requires { IsLawful (ledger_of (table_of self.now)) }
        ensures { result ≡ option_and_then (named_at (joined_at (table_of self.now)) (offer_at (table_of self.now))) (namer_of (all_rows self.now.threads self.now.rows) (joined_at (table_of self.now)) row) }
    {
        for thread in 0..self.threads {
            if let Some((namer, joined)) = self.namer_in(thread as u8, row) {
                return self.commit_named(namer, joined);
            }
        }
        None
    }

    /// The row of a thread that is committed with this one as its partner, and how. No row behind a
    /// Fresh one is committed.
    fn namer_in(&self, thread: u8, row: Row) -> Option<(Row, Joined)>
        requires { IsLawful (ledger_of (table_of self.now)) }
        ensures found { IfSome result (λ n. (joined_at (table_of self.now) n.0 ≡ Some n.1) × (namer_of (rows_below thread self.now.rows) (joined_at (table_of self.now)) row ≡ Some n.0)) }
        ensures none { IfNone result (namer_of (rows_below thread self.now.rows) (joined_at (table_of self.now)) row ≡ None) }
    {
        for sync in 0..self.rows {
            let namer = Row {
                thread,
                sync: sync as u32,
            };
            let cell = self.cell(namer);
            if is_fresh(cell) {
                return None;
            }
            if let Some(joined) = cell.joined() {
                if is_partner(joined.partner, row) {
                    return Some((namer, joined));
                }
            }
        }
        None
    }

    /// All commits, thread by thread. There is room at once for half as many as there are rows, since
    /// a pair has two: only where many stand alone the list grows.
    pub(crate) fn commits(&self) -> Result<Vec<Commit>, AllocError>
        requires { IsLawful (ledger_of (table_of self.now)) }
        ensures { IfOk result (λ cs. cs.items ≡ commits_of (all_rows self.now.threads self.now.rows) (joined_at (table_of self.now)) (offer_at (table_of self.now))) }
    {
        let mut commits = Vec::with_capacity(self.allocator(), self.len() / 2)?;
        for thread in 0..self.threads {
            self.tell(thread as u8, &mut commits)?;
        }
        Ok(commits)
    }

    /// Adds the commits of a thread, row by row. No row behind a Fresh one is committed, nor one that has no words.
    fn tell(&self, thread: u8, commits: &mut Vec<Commit>) -> Result<(), AllocError>
        requires lawful { IsLawful (ledger_of (table_of self.now)) }
        requires thread { thread < self.now.threads }
        ensures { IsOk result → commits.new.items ≡ commits.old.items ++ commits_of (rows_below thread self.now.rows) (joined_at (table_of self.now)) (offer_at (table_of self.now)) }
    {
        let rows = usize::from(self.layout.lens[usize::from(thread)]);
        for sync in 0..rows {
            let row = Row {
                thread,
                sync: sync as u32,
            };
            let word = self.cell_word(row);
            if word == 0 {
                return Ok(());
            }
            self.tell_row(row, word, commits)?;
        }
        Ok(())
    }

    /// How many pairs are joined and not yet sealed.
    #[tactic(auto, unfolding(crate::specs::Ledgers::pending_of))]
    pub(crate) fn pending(&self) -> u32
        requires { IsLawful (ledger_of (table_of self.now)) }
        ensures { result ≡ pending_of (all_rows self.now.threads self.now.rows) (joined_at (table_of self.now)) }
    {
        let mut pending = 0;
        for thread in 0..self.threads {
            pending += self.pending_in(thread as u8);
        }
        pending
    }

    /// How many rows of a thread wait for their partner's seal. No row behind a Fresh one is committed.
    #[tactic(auto, unfolding(crate::specs::Ledgers::pending_of))]
    fn pending_in(&self, thread: u8) -> u32
        requires { IsLawful (ledger_of (table_of self.now)) }
        ensures value { result ≡ pending_of (rows_below thread self.now.rows) (joined_at (table_of self.now)) }
        ensures few { result ≤ self.now.rows }
    {
        let mut pending = 0;
        for sync in 0..self.rows {
            let row = Row {
                thread,
                sync: sync as u32,
            };
            let cell = self.cell(row);
            if is_fresh(cell) {
                return pending;
            }
            if self.is_pending(cell.joined()) {
                pending += 1;
            }
        }
        pending
    }

    /// Whether a row that is joined so waits for its partner's seal.
    fn is_pending(&self, joined: Option<Joined>) -> bool
        ensures { result ≡ is_pending (joined_at (table_of self.now)) joined }
    {
        match joined {
            Some(
                Joined {
                    partner: Some((partner, _)),
                    ..
                },
            ) => self.joined(partner).is_none(),
            _ => false,
        }
    }
}

/// Adds a pair. It stands in line, so that where the kind of the message is known it is written as it is.
#[inline(always)]
fn add_pair(
    commits: &mut Vec<Commit>,
    sender: (Row, u8),
    receiver: (Row, u8),
    chan: u8,
    msg: Message,
    stamp: u32,
) -> Result<(), AllocError>
    ensures { IsOk result → commits.new.items ≡ commits.old.items ++ Commit.Pair sender receiver chan msg stamp ∷ [] }
{
    commits.push(Commit::Pair {
        sender,
        receiver,
        chan,
        msg,
        stamp,
    })?;
    Ok(())
}

fn alone_commit(row: Row, joined: Joined, base: Base) -> Option<Commit>
    ensures { result ≡ alone_by row joined base }
{
    let cause = match base {
        Base::Always(msg) => Cause::Always(msg),
        Base::OnNack(nack) => Cause::Nack(nack),
        Base::OnEnd(thread) => Cause::End(thread),
        Base::Send(..) | Base::Recv(_) | Base::Never => return None,
    };
    Some(Commit::Alone {
        at: (row, joined.own),
        cause,
        stamp: joined.stamp,
    })
}

/// Whether this is the word of a row that is committed with a partner. Such a word has no bits but of what it says,
/// and any numbers stand for something: only its stamp can be out of range.
fn is_of_pair(word: u64) -> bool
    ensures { result ≡ is_some (partner_by word) }
{
    let state = word % 8;
    let stamp = word >> 26;
    if state < 3 || state > 4 || (word >> 6) % 2 == 0 {
        return false;
    }
    stamp > 0 && stamp >> 32 == 0
}

/// How a row of such a word is committed: its own offer, its partner with the offer of that, and the stamp.
fn read_pair(word: u64) -> (u8, (Row, u8), u32)
    requires { is_some (partner_by word) ≡ true }
    ensures { joined_by word ≡ Some (record { own = result.0; partner = Some result.1; stamp = result.2 }) }
{
    let own = (word >> 3) % 8;
    let partner = Row {
        thread: ((word >> 20) % 64) as u8,
        sync: ((word >> 10) % 1024) as u32,
    };
    let chosen = (word >> 7) % 8;
    let stamp = (word >> 26) % (1 << 32);
    (own as u8, (partner, chosen as u8), stamp as u32)
}

/// Whether a row with this partner is committed with this row.
fn is_partner(partner: Option<(Row, u8)>, row: Row) -> bool
    ensures { result ≡ is_partner partner row }
{
    match partner {
        Some((partner, _)) => partner.thread == row.thread && partner.sync == row.sync,
        None => false,
    }
}
