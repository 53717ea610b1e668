//! The line of a commit, read from the front of the bytes.

ghost use Rattle.std.specs.Prelude.{◌≤◌, IfSome};
ghost use Rattle.digits.specs.Reading.{Gives, ended_by, leading_at, number_at, count_at, after_word};
ghost use Rattle.script_reader.specs.Places.{texts};
ghost use Rattle.journal_text.specs.Answers.{listed};
ghost use Rattle.journal_text.specs.Reading.{Leads, Passes, after_byte, word_at, named_at, row_at, place_at, nack_at, num_at, chan_at, cancel_at, atom_at, later_at, one_at, two_at, three_at, none_at, atoms_at, closed_at, message_at, partner_at, told_at, meets_at, always_at, cancelled_at, joined_at, deed_at, head_at, line_at};

use crate::listing::{Listing, Word, next_hash};
use crate::names::Names;
use digits::{count, leading, number};
use protocol_values::{Atom, Cause, Commit, Message, NackName, Row};

const LINE_END: u8 = b'\n';

/// The greatest number of a sync.
const LAST_SYNC: u64 = 67_107_839;

/// What a row did that its line names first.
pub(crate) enum Deed {
    Meets {
        receiver: (Row, u8),
        chan: u8,
        msg: Message,
    },
    Alone(Cause),
}

/// What may be a name, the byte behind it, the first of those before `0`, and the bytes behind that.
#[inline(always)]
#[tactic(auto, unfolding(crate::specs::Reading::word_at))]
fn word(bytes: &[u8]) -> Option<((Word<'_>, u8), &[u8])>
    ensures { Gives (λ x. ((x.0.0.text.now, x.0.1), x.1.now)) result (word_at bytes.now) }
{
    let mut hash = 0;
    for (at, byte) in bytes.iter().enumerate() {
        if *byte < b'0' {
            let word = Word {
                text: &bytes[..at],
                hash,
            };
            return Some(((word, *byte), &bytes[at + 1..]));
        }
        hash = next_hash(hash, *byte);
    }
    None
}

/// The bytes that are left to be read. Each function reads what it names from their front, and leaves what
/// stands behind it; where it fails, it may leave anything.
#[derive(Drop)]
pub(crate) struct Front<'a> {
    pub(crate) bytes: &'a [u8],
}

impl Front<'_> {
    #[inline(always)]
    fn byte(&mut self, byte: u8) -> Option<()>
        ensures { Passes result self.new.bytes.now (after_byte byte self.old.bytes.now) }
    {
        match self.bytes {
            [first, rest @ ..] if *first == byte => {
                self.bytes = rest;
                Some(())
            }
            _ => None,
        }
    }

    #[inline(always)]
    fn text(&mut self, text: &[u8]) -> Option<()>
        ensures { Passes result self.new.bytes.now (after_word text.now self.old.bytes.now) }
    {
        self.bytes = self.bytes.strip_prefix(text)?;
        Some(())
    }

    /// A number, and the byte behind it.
    #[inline(always)]
    fn leading(&mut self, limit: u64) -> Option<(u64, u8)>
        ensures value { Leads result self.new.bytes.now (leading_at limit self.old.bytes.now) }
        ensures within { IfSome result (λ x. x.0 ≤ limit) }
    {
        let (found, rest) = leading(self.bytes, limit)?;
        self.bytes = rest;
        Some(found)
    }

    #[inline(never)]
    fn number(&mut self, limit: u64, end: u8) -> Option<u64>
        ensures value { Leads result self.new.bytes.now (number_at limit end self.old.bytes.now) }
        ensures within { IfSome result (λ x. x ≤ limit) }
    {
        let (value, rest) = number(self.bytes, limit, end)?;
        self.bytes = rest;
        Some(value)
    }

    /// The number of an offer: one digit.
    #[inline(always)]
    fn offer(&mut self) -> Option<u64>
        ensures value { Leads result self.new.bytes.now (number_at 7 32 self.old.bytes.now) }
        ensures within { IfSome result (λ x. x ≤ 7) }
    {
        let (value, rest) = number(self.bytes, 7, b' ')?;
        self.bytes = rest;
        Some(value)
    }

    fn stamp(&mut self) -> Option<u64>
        ensures value { Leads result self.new.bytes.now (count_at 4294967295 32 self.old.bytes.now) }
        ensures within { IfSome result (λ x. x ≤ 4294967295) }
    {
        let (value, rest) = count(self.bytes, u64::from(u32::MAX), b' ')?;
        self.bytes = rest;
        Some(value)
    }

    /// The number of a name, and the byte behind it.
    #[inline(always)]
    #[tactic(auto, unfolding(crate::specs::Reading::named_at))]
    fn named(&mut self, names: &Listing<'_>) -> Option<(u8, u8)>
        ensures { Leads result self.new.bytes.now (named_at (texts names.now.names.items) self.old.bytes.now) }
    {
        let ((word, behind), rest) = word(self.bytes)?;
        let number = names.number(word)?;
        self.bytes = rest;
        Some((number, behind))
    }

    /// The number of a name, where the byte behind it is the end.
    #[inline(always)]
    fn name(&mut self, names: &Listing<'_>, end: u8) -> Option<u8>
        ensures { Leads result self.new.bytes.now (ended_by end (named_at (texts names.now.names.items) self.old.bytes.now)) }
    {
        let (number, behind) = self.named(names)?;
        if behind == end { Some(number) } else { None }
    }

    #[inline(always)]
    #[tactic(auto, unfolding(crate::specs::Reading::row_at))]
    fn row(&mut self, names: &Names<'_>) -> Option<Row>
        ensures { Leads result self.new.bytes.now (row_at (listed names.now) self.old.bytes.now) }
    {
        let thread = self.name(&names.threads, b'.')?;
        let sync = self.number(LAST_SYNC, b'.')?;
        Some(Row {
            thread,
            sync: sync as u32,
        })
    }

    #[inline(always)]
    #[tactic(auto, unfolding(crate::specs::Reading::place_at))]
    fn place(&mut self, names: &Names<'_>) -> Option<(Row, u8)>
        ensures { Leads result self.new.bytes.now (place_at (listed names.now) self.old.bytes.now) }
    {
        let row = self.row(names)?;
        let offer = self.offer()?;
        Some((row, offer as u8))
    }

    /// A nack, and the byte behind it.
    #[tactic(auto, unfolding(crate::specs::Reading::nack_at))]
    fn nack(&mut self, names: &Names<'_>) -> Option<(NackName, u8)>
        ensures { Leads result self.new.bytes.now (nack_at (listed names.now) self.old.bytes.now) }
    {
        let thread = self.name(&names.threads, b'.')?;
        let (k, behind) = self.leading(63)?;
        let nack = NackName { thread, k: k as u8 };
        Some((nack, behind))
    }

    #[inline(always)]
    #[tactic(auto, unfolding(crate::specs::Reading::num_at))]
    fn num(&mut self) -> Option<(Atom, u8)>
        ensures { Leads result self.new.bytes.now (num_at self.old.bytes.now) }
    {
        let (value, behind) = self.leading(u64::from(u32::MAX))?;
        Some((Atom::Num(value as u32), behind))
    }

    #[tactic(auto, unfolding(crate::specs::Reading::chan_at))]
    fn chan(&mut self, names: &Names<'_>) -> Option<(Atom, u8)>
        ensures { Leads result self.new.bytes.now (chan_at (listed names.now) self.old.bytes.now) }
    {
        self.text(b"#")?;
        let (chan, behind) = self.named(&names.channels)?;
        Some((Atom::Chan(chan), behind))
    }

    #[tactic(auto, unfolding(crate::specs::Reading::cancel_at))]
    fn cancel(&mut self, names: &Names<'_>) -> Option<(Atom, u8)>
        ensures { Leads result self.new.bytes.now (cancel_at (listed names.now) self.old.bytes.now) }
    {
        self.text(b"!")?;
        let (nack, behind) = self.nack(names)?;
        Some((Atom::Nack(nack), behind))
    }

    /// An atom, and the byte behind it.
    #[inline(always)]
    #[tactic(auto, unfolding(crate::specs::Reading::atom_at))]
    fn atom(&mut self, names: &Names<'_>) -> Option<(Atom, u8)>
        ensures { Leads result self.new.bytes.now (atom_at (listed names.now) self.old.bytes.now) }
    {
        let bytes = self.bytes;
        if let Some(found) = self.num() {
            return Some(found);
        }
        self.bytes = bytes;
        if let Some(found) = self.chan(names) {
            return Some(found);
        }
        self.bytes = bytes;
        self.cancel(names)
    }

    /// One more atom, where a comma stood behind the one before it.
    #[tactic(auto, unfolding(crate::specs::Reading::later_at))]
    fn later(&mut self, names: &Names<'_>, behind: u8) -> Option<(Atom, u8)>
        ensures { Leads result self.new.bytes.now (later_at (listed names.now) behind self.old.bytes.now) }
    {
        if behind != b',' {
            return None;
        }
        self.text(b" ")?;
        self.atom(names)
    }

    /// A message of which two atoms have been read, with the byte behind them.
    #[tactic(auto, unfolding(crate::specs::Reading::three_at))]
    fn three(&mut self, names: &Names<'_>, front: (Atom, Atom), behind: u8) -> Option<Message>
        ensures { Leads result self.new.bytes.now (three_at (listed names.now) front behind self.old.bytes.now) }
    {
        let (third, behind) = self.later(names, behind)?;
        if behind == b')' {
            let (first, second) = front;
            return Some(Message::Three(first, second, third));
        }
        None
    }

    /// A message of which one atom has been read, with the byte behind it.
    #[tactic(auto, unfolding(crate::specs::Reading::two_at))]
    fn two(&mut self, names: &Names<'_>, first: Atom, behind: u8) -> Option<Message>
        ensures { Leads result self.new.bytes.now (two_at (listed names.now) first behind self.old.bytes.now) }
    {
        let (second, behind) = self.later(names, behind)?;
        if behind == b')' {
            return Some(Message::Two(first, second));
        }
        self.three(names, (first, second), behind)
    }

    #[inline(always)]
    #[tactic(auto, unfolding(crate::specs::Reading::one_at))]
    fn one(&mut self, names: &Names<'_>) -> Option<Message>
        ensures { Leads result self.new.bytes.now (one_at (listed names.now) self.old.bytes.now) }
    {
        let (first, behind) = self.atom(names)?;
        if behind == b')' {
            return Some(Message::One(first));
        }
        self.two(names, first, behind)
    }

    #[tactic(auto, unfolding(crate::specs::Reading::none_at))]
    fn none(&mut self) -> Option<Message>
        ensures { Leads result self.new.bytes.now (none_at self.old.bytes.now) }
    {
        self.byte(b')')?;
        Some(Message::Empty)
    }

    /// The atoms of a message, up to the parenthesis.
    #[inline(always)]
    #[tactic(auto, unfolding(crate::specs::Reading::atoms_at))]
    fn atoms(&mut self, names: &Names<'_>) -> Option<Message>
        ensures { Leads result self.new.bytes.now (atoms_at (listed names.now) self.old.bytes.now) }
    {
        let bytes = self.bytes;
        if let Some(found) = self.one(names) {
            return Some(found);
        }
        self.bytes = bytes;
        self.none()
    }

    #[inline(always)]
    #[tactic(auto, unfolding(crate::specs::Reading::closed_at))]
    fn closed(&mut self, names: &Names<'_>) -> Option<Message>
        ensures { Leads result self.new.bytes.now (closed_at (listed names.now) self.old.bytes.now) }
    {
        let message = self.atoms(names)?;
        self.byte(LINE_END)?;
        Some(message)
    }

    /// The rest of a line that a message ends.
    #[inline(always)]
    #[tactic(auto, unfolding(crate::specs::Reading::message_at))]
    fn message(&mut self, names: &Names<'_>) -> Option<Message>
        ensures { Leads result self.new.bytes.now (message_at (listed names.now) self.old.bytes.now) }
    {
        self.text(b"(")?;
        self.closed(names)
    }

    /// A receiver, and the channel.
    #[tactic(auto, unfolding(crate::specs::Reading::partner_at))]
    fn partner(&mut self, names: &Names<'_>) -> Option<((Row, u8), u8)>
        ensures { Leads result self.new.bytes.now (partner_at (listed names.now) self.old.bytes.now) }
    {
        let receiver = self.place(names)?;
        let chan = self.name(&names.channels, b' ')?;
        Some((receiver, chan))
    }

    #[tactic(auto, unfolding(crate::specs::Reading::told_at))]
    fn told(&mut self, names: &Names<'_>) -> Option<Deed>
        ensures { Leads result self.new.bytes.now (told_at (listed names.now) self.old.bytes.now) }
    {
        let (receiver, chan) = self.partner(names)?;
        let msg = self.message(names)?;
        Some(Deed::Meets {
            receiver,
            chan,
            msg,
        })
    }

    #[tactic(auto, unfolding(crate::specs::Reading::meets_at))]
    fn meets(&mut self, names: &Names<'_>) -> Option<Deed>
        ensures { Leads result self.new.bytes.now (meets_at (listed names.now) self.old.bytes.now) }
    {
        self.text(b"-> ")?;
        self.told(names)
    }

    #[tactic(auto, unfolding(crate::specs::Reading::always_at))]
    fn always(&mut self, names: &Names<'_>) -> Option<Deed>
        ensures { Leads result self.new.bytes.now (always_at (listed names.now) self.old.bytes.now) }
    {
        self.text(b"always ")?;
        let message = self.message(names)?;
        Some(Deed::Alone(Cause::Always(message)))
    }

    #[tactic(auto, unfolding(crate::specs::Reading::cancelled_at))]
    fn cancelled(&mut self, names: &Names<'_>) -> Option<Deed>
        ensures { Leads result self.new.bytes.now (cancelled_at (listed names.now) self.old.bytes.now) }
    {
        self.text(b"cancelled ")?;
        let (nack, behind) = self.nack(names)?;
        if behind != LINE_END {
            return None;
        }
        Some(Deed::Alone(Cause::Nack(nack)))
    }

    #[tactic(auto, unfolding(crate::specs::Reading::joined_at))]
    fn joined(&mut self, names: &Names<'_>) -> Option<Deed>
        ensures { Leads result self.new.bytes.now (joined_at (listed names.now) self.old.bytes.now) }
    {
        self.text(b"joined ")?;
        let thread = self.name(&names.threads, LINE_END)?;
        Some(Deed::Alone(Cause::End(thread)))
    }

    /// What the row did, up to the line's end.
    #[tactic(auto, unfolding(crate::specs::Reading::deed_at))]
    fn deed(&mut self, names: &Names<'_>) -> Option<Deed>
        ensures { Leads result self.new.bytes.now (deed_at (listed names.now) self.old.bytes.now) }
    {
        let bytes = self.bytes;
        if let Some(found) = self.meets(names) {
            return Some(found);
        }
        self.bytes = bytes;
        if let Some(found) = self.always(names) {
            return Some(found);
        }
        self.bytes = bytes;
        if let Some(found) = self.cancelled(names) {
            return Some(found);
        }
        self.bytes = bytes;
        self.joined(names)
    }

    /// The stamp, and the row that is named first.
    #[tactic(auto, unfolding(crate::specs::Reading::head_at))]
    fn head(&mut self, names: &Names<'_>) -> Option<(u32, (Row, u8))>
        ensures { Leads result self.new.bytes.now (head_at (listed names.now) self.old.bytes.now) }
    {
        let stamp = self.stamp()?;
        let place = self.place(names)?;
        Some((stamp as u32, place))
    }

    /// The line of a commit.
    #[tactic(auto, unfolding(crate::specs::Reading::line_at))]
    pub(crate) fn line(&mut self, names: &Names<'_>) -> Option<Commit>
        ensures { Leads result self.new.bytes.now (line_at (listed names.now) self.old.bytes.now) }
    {
        let (stamp, at) = self.head(names)?;
        let commit = match self.deed(names)? {
            Deed::Meets {
                receiver,
                chan,
                msg,
            } => Commit::Pair {
                sender: at,
                receiver,
                chan,
                msg,
                stamp,
            },
            Deed::Alone(cause) => Commit::Alone { at, cause, stamp },
        };
        Some(commit)
    }
}
