//! The words of the table: values packed into words of 64 bits, and words unpacked again. Which
//! bit stands for what is at the head of each section of the crate's definitions of words.
ghost use Rattle.std.specs.Prelude.{ℕ, ◌≡◌, ◌^◌, ◌<◌, ◌≤◌, true, is_some, IfSome, Some, Option, List, [], ◌∷◌, slice_index};
ghost use Rattle.protocol_values.specs.declared.Atom.{Atom};
ghost use Rattle.protocol_values.specs.declared.Binding.{Binding};
ghost use Rattle.protocol_values.specs.declared.Cell.{Cell};
ghost use Rattle.protocol_values.specs.declared.Course.{Course};
ghost use Rattle.protocol_values.specs.declared.Head.{Head};
ghost use Rattle.protocol_values.specs.declared.NackWord.{NackWord};
ghost use Rattle.protocol_values.specs.Words.{
  IsAtomInRange,
  IsBindingInRange,
  IsCellInRange,
  IsCourseInRange,
  IsDirectionInRange,
  IsHeadInRange,
  IsJoinedInRange,
  IsNackInRange,
  IsNackWordInRange,
  IsRowInRange,
  atom_fields,
  atom_of,
  atom_word,
  cell_fields,
  cell_of,
  cell_word,
  count_of,
  course_fields,
  course_of,
  course_word,
  direction_bits,
  direction_fields,
  ends_in_a_table,
  field,
  has_stamp,
  head_fields,
  head_of,
  head_word,
  joined_bits,
  joined_fields,
  nack_fields,
  nack_of,
  nack_word,
  partner_bits,
  partner_fields,
  IsMessageInRange,
  IsOfferInRange,
  atom_count,
  head_in,
  message_in,
  first_word,
  second_word,
  third_word,
  offer_words,
  offer_of,
  message_of,
  base_of,
  is_word_for,
};

use crate::{
    Atom, Base, Binding, Cell, Course, Direction, Head, Joined, Message, NackName, NackWord, Offer,
    Row,
};

/// The number in `width` bits of a word, from bit `low` on.
#[inline(always)]
fn field(word: u64, low: u32, width: u32) -> u64
    requires low { low < 64 }
    requires width { width < 64 }
    ensures value { result ≡ field word low width }
    ensures below { result < 2 ^ width }
{
    (word >> low) & ((1 << width) - 1)
}

// ---- the cell

fn partner_bits(partner: Option<(Row, u8)>) -> u64
    requires { IfSome partner (λ p. IsRowInRange p.0 × (p.1 < 8)) }
    ensures value { result ≡ partner_bits partner }
    ensures below { result < 2 ^ 26 }
{
    match partner {
        None => 0,
        Some((row, offer)) => (1 << 6)
            + u64::from(offer) * (1 << 7)
            + u64::from(row.sync) * (1 << 10)
            + u64::from(row.thread) * (1 << 20),
    }
}

fn joined_bits(joined: Joined) -> u64
    requires { IsJoinedInRange joined }
    ensures value { result ≡ joined_bits joined }
    ensures below { result < 2 ^ 59 }
{
    u64::from(joined.own) * (1 << 3)
        + partner_bits(joined.partner)
        + u64::from(joined.stamp) * (1 << 26)
}

/// The word of a cell: threads 0 to 63, syncs 0 to 1023, offers 0 to 7, and the stamp from 1 on.
#[tactic(auto, unfolding(crate::specs::Words::cell_word))]
pub fn pack_cell(cell: Cell) -> u64
    requires { IsCellInRange cell }
    ensures { result ≡ cell_word cell }
{
    match cell {
        Cell::Fresh => 0,
        Cell::Waiting => 1,
        Cell::Claimed => 2,
        Cell::Synched(joined) => 3 + joined_bits(joined),
        Cell::Taken(joined) => 4 + joined_bits(joined),
    }
}

#[inline(always)]
fn partner_fields(word: u64) -> Option<(Row, u8)>
    ensures { result ≡ partner_fields word }
{
    if field(word, 6, 1) == 1 {
        let row = Row {
            thread: field(word, 20, 6) as u8,
            sync: field(word, 10, 10) as u32,
        };
        Some((row, field(word, 7, 3) as u8))
    } else {
        None
    }
}

#[inline(always)]
fn joined_fields(word: u64) -> Joined
    ensures { result ≡ joined_fields word }
{
    Joined {
        own: field(word, 3, 3) as u8,
        partner: partner_fields(word),
        stamp: field(word, 26, 32) as u32,
    }
}

#[inline(always)]
fn cell_fields(word: u64) -> Cell
    ensures value { result ≡ cell_fields word }
{
    match field(word, 0, 3) {
        1 => Cell::Waiting,
        2 => Cell::Claimed,
        3 => Cell::Synched(joined_fields(word)),
        4 => Cell::Taken(joined_fields(word)),
        _ => Cell::Fresh,
    }
}

fn has_stamp(cell: Cell) -> bool
    ensures { result ≡ has_stamp cell }
{
    match cell {
        Cell::Fresh | Cell::Waiting | Cell::Claimed => true,
        Cell::Synched(joined) | Cell::Taken(joined) => joined.stamp >= 1,
    }
}

/// The cell of a word, or none where the word is no cell's.
#[inline(always)]
#[tactic(auto, unfolding(crate::specs::Words::cell_of))]
pub fn unpack_cell(word: u64) -> Option<Cell>
    ensures value { result ≡ cell_of word }
    ensures sound { IfSome result (λ c. IsCellInRange c × (word ≡ cell_word c)) }
    ensures complete { (c : Cell) → IsCellInRange c → word ≡ cell_word c → result ≡ Some c }
{
    if word == 0 {
        return Some(Cell::Fresh);
    }
    let cell = cell_fields(word);
    if has_stamp(cell) && pack_cell(cell) == word {
        Some(cell)
    } else {
        None
    }
}

/// The cell of a word of which it is known that it is a cell's: nothing is tested.
#[inline(always)]
pub fn read_cell(word: u64) -> Cell
    requires { is_some (cell_of word) ≡ true }
    ensures { cell_of word ≡ Some result }
{
    cell_fields(word)
}

// ---- the number of offers

/// The word of the number of a row's offers, which is that number.
pub fn pack_count(count: u8) -> u64
    requires { count ≤ 8 }
    ensures { result ≡ count }
{
    u64::from(count)
}

/// The number of offers that a word stands for, 0 to 8, or none where the word is larger.
#[inline(always)]
#[tactic(auto, unfolding(crate::specs::Words::count_of))]
pub fn unpack_count(word: u64) -> Option<u8>
    ensures value { result ≡ count_of word }
    ensures sound { IfSome result (λ count. (count ≤ 8) × (word ≡ count)) }
    ensures complete { (count : ℕ) → count ≤ 8 → word ≡ count → result ≡ Some count }
{
    if word <= 8 { Some(word as u8) } else { None }
}

// ---- the head of an offer

fn direction_bits(direction: Direction) -> u64
    requires { IsDirectionInRange direction }
    ensures value { result ≡ direction_bits direction }
    ensures below { result < 2 ^ 25 }
{
    match direction {
        Direction::Never => 0,
        Direction::Send { chan, atoms } => 1
            + u64::from(chan) * (1 << 3)
            + u64::from(atoms) * (1 << 23),
        Direction::Recv { chan } => 2 + u64::from(chan) * (1 << 3),
        Direction::Always { atoms } => 3 + u64::from(atoms) * (1 << 23),
        Direction::OnNack(nack) => 4
            + u64::from(nack.thread) * (1 << 11)
            + u64::from(nack.k) * (1 << 17),
        Direction::OnEnd(thread) => 5 + u64::from(thread) * (1 << 11),
    }
}

/// The head word of an offer: up to three atoms, and scopes 0 to 3.
#[tactic(auto, unfolding(crate::specs::Words::head_word))]
pub fn pack_head(head: Head) -> u64
    requires { IsHeadInRange head }
    ensures { result ≡ head_word head }
{
    direction_bits(head.direction) + u64::from(head.scopes) * (1 << 25)
}

#[inline(always)]
fn direction_fields(word: u64) -> Direction
    ensures { result ≡ direction_fields word }
{
    match field(word, 0, 3) {
        1 => Direction::Send {
            chan: field(word, 3, 8) as u8,
            atoms: field(word, 23, 2) as u8,
        },
        2 => Direction::Recv {
            chan: field(word, 3, 8) as u8,
        },
        3 => Direction::Always {
            atoms: field(word, 23, 2) as u8,
        },
        4 => Direction::OnNack(NackName {
            thread: field(word, 11, 6) as u8,
            k: field(word, 17, 6) as u8,
        }),
        5 => Direction::OnEnd(field(word, 11, 6) as u8),
        _ => Direction::Never,
    }
}

#[inline(always)]
fn head_fields(word: u64) -> Head
    ensures value { result ≡ head_fields word }
    ensures in_range { IsHeadInRange result }
{
    Head {
        direction: direction_fields(word),
        scopes: field(word, 25, 4) as u8,
    }
}

/// The head of a word, or none where the word is no head's.
#[tactic(auto, unfolding(crate::specs::Words::head_of))]
pub fn unpack_head(word: u64) -> Option<Head>
    ensures value { result ≡ head_of word }
    ensures sound { IfSome result (λ h. IsHeadInRange h × (word ≡ head_word h)) }
    ensures complete { (h : Head) → IsHeadInRange h → word ≡ head_word h → result ≡ Some h }
{
    let head = head_fields(word);
    if pack_head(head) == word {
        Some(head)
    } else {
        None
    }
}

/// The head of a word of which it is known that it is a head's: nothing is tested.
#[inline(always)]
pub fn read_head(word: u64) -> Head
    requires { is_some (head_of word) ≡ true }
    ensures { head_of word ≡ Some result }
{
    head_fields(word)
}

// ---- an atom

/// The word of an atom: the thread and the number of a nack are each 0 to 63.
#[tactic(auto, unfolding(crate::specs::Words::atom_word))]
pub fn pack_atom(atom: Atom) -> u64
    requires { IsAtomInRange atom }
    ensures { result ≡ atom_word atom }
{
    match atom {
        Atom::Num(number) => u64::from(number) * (1 << 2),
        Atom::Chan(chan) => 1 + u64::from(chan) * (1 << 2),
        Atom::Nack(nack) => 2 + (u64::from(nack.thread) * 64 + u64::from(nack.k)) * (1 << 2),
    }
}

#[inline(always)]
fn atom_fields(word: u64) -> Atom
    ensures value { result ≡ atom_fields word }
    ensures in_range { IsAtomInRange result }
{
    match field(word, 0, 2) {
        1 => Atom::Chan(field(word, 2, 8) as u8),
        2 => Atom::Nack(NackName {
            thread: field(word, 8, 6) as u8,
            k: field(word, 2, 6) as u8,
        }),
        _ => Atom::Num(field(word, 2, 32) as u32),
    }
}

/// The atom of a word, or none where the word is no atom's.
#[tactic(auto, unfolding(crate::specs::Words::atom_of))]
pub fn unpack_atom(word: u64) -> Option<Atom>
    ensures value { result ≡ atom_of word }
    ensures sound { IfSome result (λ a. IsAtomInRange a × (word ≡ atom_word a)) }
    ensures complete { (a : Atom) → IsAtomInRange a → word ≡ atom_word a → result ≡ Some a }
{
    let atom = atom_fields(word);
    if pack_atom(atom) == word {
        Some(atom)
    } else {
        None
    }
}

// ---- a nack

/// The word of a nack: a sync is 0 to 1023, a scope 0 to 3.
#[tactic(auto, unfolding(crate::specs::Words::nack_word))]
pub fn pack_nack(nack: NackWord) -> u64
    requires { IsNackWordInRange nack }
    ensures { result ≡ nack_word nack }
{
    match nack {
        NackWord::Unbound => 0,
        NackWord::Bound(bound) => 1
            + u64::from(bound.sync) * 2
            + u64::from(bound.scope) * (1 << 11),
        NackWord::Carried(stamp) => 1 + (1 << 13) + u64::from(stamp) * (1 << 14),
    }
}

fn nack_fields(word: u64) -> NackWord
    ensures value { result ≡ nack_fields word }
    ensures in_range { IsNackWordInRange result }
{
    if field(word, 0, 1) == 0 {
        return NackWord::Unbound;
    }
    if field(word, 13, 1) == 1 {
        return NackWord::Carried(field(word, 14, 32) as u32);
    }
    NackWord::Bound(Binding {
        sync: field(word, 1, 10) as u16,
        scope: field(word, 11, 2) as u8,
    })
}

/// What the word of a nack says, or none where the word is no nack's.
#[tactic(auto, unfolding(crate::specs::Words::nack_of))]
pub fn unpack_nack(word: u64) -> Option<NackWord>
    ensures value { result ≡ nack_of word }
    ensures sound { IfSome result (λ n. IsNackWordInRange n × (word ≡ nack_word n)) }
    ensures complete { (n : NackWord) → IsNackWordInRange n → word ≡ nack_word n → result ≡ Some n }
{
    let nack = nack_fields(word);
    if pack_nack(nack) == word {
        Some(nack)
    } else {
        None
    }
}

// ---- a life

/// The word of a thread's life: the sync at its end is 0 to 1024.
#[tactic(auto, unfolding(crate::specs::Words::course_word))]
pub fn pack_course(course: Course) -> u64
    requires { IsCourseInRange course }
    ensures { result ≡ course_word course }
{
    match course {
        Course::Unstarted => 0,
        Course::Running(start) => 1 + u64::from(start) * 2,
        Course::Ended(start, sync) => 1
            + u64::from(start) * 2
            + (1 << 33)
            + u64::from(sync) * (1 << 34),
    }
}

fn course_fields(word: u64) -> Course
    ensures value { result ≡ course_fields word }
{
    if field(word, 0, 1) == 0 {
        return Course::Unstarted;
    }
    let start = field(word, 1, 32) as u32;
    if field(word, 33, 1) == 1 {
        Course::Ended(start, field(word, 34, 11) as u16)
    } else {
        Course::Running(start)
    }
}

fn ends_in_a_table(course: Course) -> bool
    ensures { result ≡ ends_in_a_table course }
{
    match course {
        Course::Unstarted | Course::Running(_) => true,
        Course::Ended(_, sync) => sync <= 1024,
    }
}

/// The life of a word, or none where the word is no life's.
#[tactic(auto, unfolding(crate::specs::Words::course_of))]
pub fn unpack_course(word: u64) -> Option<Course>
    ensures value { result ≡ course_of word }
    ensures sound { IfSome result (λ c. IsCourseInRange c × (word ≡ course_word c)) }
    ensures complete { (c : Course) → IsCourseInRange c → word ≡ course_word c → result ≡ Some c }
{
    let course = course_fields(word);
    if ends_in_a_table(course) && pack_course(course) == word {
        Some(course)
    } else {
        None
    }
}

// ---- a whole offer

#[inline(always)]
fn atom_count(message: Message) -> u8
    ensures { result ≡ atom_count message }
{
    match message {
        Message::Empty => 0,
        Message::One(_) => 1,
        Message::Two(_, _) => 2,
        Message::Three(_, _, _) => 3,
    }
}

#[inline(always)]
fn head_in(offer: Offer) -> Head
    ensures { result ≡ head_in offer }
{
    let direction = match offer.base {
        Base::Send(chan, message) => Direction::Send {
            chan,
            atoms: atom_count(message),
        },
        Base::Recv(chan) => Direction::Recv { chan },
        Base::Always(message) => Direction::Always {
            atoms: atom_count(message),
        },
        Base::OnNack(nack) => Direction::OnNack(nack),
        Base::OnEnd(thread) => Direction::OnEnd(thread),
        Base::Never => Direction::Never,
    };
    Head {
        direction,
        scopes: offer.scopes,
    }
}

#[inline(always)]
fn message_in(base: Base) -> Message
    ensures { result ≡ message_in base }
{
    match base {
        Base::Send(_, message) | Base::Always(message) => message,
        Base::Recv(_) | Base::OnNack(_) | Base::OnEnd(_) | Base::Never => Message::Empty,
    }
}

#[inline(always)]
fn message_words(message: Message) -> [u64; 3]
    requires { IsMessageInRange message }
    ensures { result ≡ first_word message ∷ second_word message ∷ third_word message ∷ [] }
{
    match message {
        Message::Empty => [0, 0, 0],
        Message::One(first) => [pack_atom(first), 0, 0],
        Message::Two(first, second) => [pack_atom(first), pack_atom(second), 0],
        Message::Three(first, second, third) => [
            pack_atom(first),
            pack_atom(second),
            pack_atom(third),
        ],
    }
}

/// The four words of an offer: its head, and three atoms, of which those past the message are 0.
#[inline(always)]
pub fn pack_offer(offer: Offer) -> [u64; 4]
    requires { IsOfferInRange offer }
    ensures words { result ≡ offer_words offer }
    ensures back { offer_of (slice_index result 0) (slice_index result 1) (slice_index result 2) (slice_index result 3) ≡ Some offer }
{
    let [first, second, third] = message_words(message_in(offer.base));
    [pack_head(head_in(offer)), first, second, third]
}

fn message_of(count: u8, first: Atom, second: Atom, third: Atom) -> Message
    ensures { result ≡ message_of count first second third }
{
    match count {
        0 => Message::Empty,
        1 => Message::One(first),
        2 => Message::Two(first, second),
        _ => Message::Three(first, second, third),
    }
}

fn base_of(direction: Direction, first: Atom, second: Atom, third: Atom) -> Base
    ensures { result ≡ base_of direction first second third }
{
    match direction {
        Direction::Never => Base::Never,
        Direction::Send { chan, atoms } => Base::Send(
            chan,
            message_of(atoms, first, second, third),
        ),
        Direction::Recv { chan } => Base::Recv(chan),
        Direction::Always { atoms } => Base::Always(message_of(atoms, first, second, third)),
        Direction::OnNack(nack) => Base::OnNack(nack),
        Direction::OnEnd(thread) => Base::OnEnd(thread),
    }
}

/// The offer of four words, or none where one of them is not well-formed. The atoms past the
/// number in the head have to be well-formed too, but are not looked at.
#[tactic(auto, unfolding(crate::specs::Words::offer_of))]
pub fn unpack_offer(head: u64, first: u64, second: u64, third: u64) -> Option<Offer>
    ensures value { result ≡ offer_of head first second third }
    ensures in_range { IfSome result IsOfferInRange }
{
    let head = unpack_head(head)?;
    let first = unpack_atom(first)?;
    let second = unpack_atom(second)?;
    let third = unpack_atom(third)?;
    Some(Offer {
        base: base_of(head.direction, first, second, third),
        scopes: head.scopes,
    })
}

#[inline(always)]
fn read_message(count: u8, first: u64, second: u64, third: u64) -> Message
    ensures { result ≡ message_of count (atom_fields first) (atom_fields second) (atom_fields third) }
{
    match count {
        0 => Message::Empty,
        1 => Message::One(atom_fields(first)),
        2 => Message::Two(atom_fields(first), atom_fields(second)),
        _ => Message::Three(atom_fields(first), atom_fields(second), atom_fields(third)),
    }
}

#[inline(always)]
fn read_base(direction: Direction, first: u64, second: u64, third: u64) -> Base
    ensures { result ≡ base_of direction (atom_fields first) (atom_fields second) (atom_fields third) }
{
    match direction {
        Direction::Never => Base::Never,
        Direction::Send { chan, atoms } => Base::Send(
            chan,
            read_message(atoms, first, second, third),
        ),
        Direction::Recv { chan } => Base::Recv(chan),
        Direction::Always { atoms } => Base::Always(read_message(atoms, first, second, third)),
        Direction::OnNack(nack) => Base::OnNack(nack),
        Direction::OnEnd(thread) => Base::OnEnd(thread),
    }
}

/// The offer of four words of which it is known that they are an offer's: nothing is tested, and the
/// atoms past the number in the head are not unpacked.
#[inline(always)]
pub fn read_offer(head: u64, first: u64, second: u64, third: u64) -> Offer
    requires { is_some (offer_of head first second third) ≡ true }
    ensures { offer_of head first second third ≡ Some result }
{
    let said = head_fields(head);
    Offer {
        base: read_base(said.direction, first, second, third),
        scopes: said.scopes,
    }
}

// ---- the places of a row

/// Whether a word is well-formed for its place in a row: 0 is the cell, 1 the number of offers,
/// 2 + 4n the head of offer n, and the three after that its atoms. No place is out of range.
#[tactic(auto, unfolding(crate::specs::Words::is_word_for))]
pub fn is_word_for(place: u8, word: u64) -> bool
    ensures { result ≡ is_word_for place word }
{
    match place {
        0 => unpack_cell(word).is_some(),
        1 => unpack_count(word).is_some(),
        _ if (place - 2) % 4 == 0 => unpack_head(word).is_some(),
        _ => unpack_atom(word).is_some(),
    }
}
