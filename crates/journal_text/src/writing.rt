//! The line of a commit, written from its end to its front, so that a number's digits fall where they
//! stand. A name that is not declared is left out.
//!
//! Each function writes what it names in front of the place at which it is told that the line begins, and
//! returns where the line begins then.

ghost use Rattle.std.specs.Prelude.{◌≡◌, ◌++◌, ◌∷◌, ◌+◌, ◌-◌, ◌*◌, ◌≤◌, [], IfSome, length, drop, codes};
ghost use Rattle.std.specs.Fmt.{decimal};
ghost use Rattle.journal_text.specs.Labels.{reach, naming_of};
ghost use Rattle.journal_text.specs.Texts.{place_text, nack_text, atom_text, message_text, cause_text, commit_text, commit_line};

use crate::labels::{BLOCK, Block, Labels};
use itoa::write_digits;
use protocol_values::{Atom, Cause, Commit, Message, NackName, Row};

/// How long a line is at most, but for its names.
pub(crate) const LINE_LEN: usize = 88;

/// How much room is kept for a number that stands for a name.
pub(crate) const LONGEST_NUMBER: usize = 5;

/// How many names stand in a line at most.
pub(crate) const LINE_NAMES: usize = 6;

#[inline(always)]
fn put_byte(line: &mut [u8], at: usize, byte: u8) -> usize
    requires { (1 ≤ at) × (at ≤ length line.old) }
    ensures text { drop result line.new ≡ byte ∷ drop at line.old }
    ensures width { at ≡ result + 1 }
{
    line[at - 1] = byte;
    at - 1
}

#[inline(always)]
fn put_text(line: &mut [u8], at: usize, text: &[u8]) -> usize
    requires { (length text.now ≤ at) × (at ≤ length line.old) }
    ensures text { drop result line.new ≡ text.now ++ drop at line.old }
    ensures width { at ≡ result + length text.now }
{
    let from = at - text.len();
    line[from..at].copy_from_slice(text);
    from
}

/// A name that is not longer than its block, by all of the block.
#[inline(always)]
fn put_block(line: &mut [u8], at: usize, block: &Block, len: usize) -> usize
    requires { (32 ≤ at) × (at ≤ length line.old) × (len ≤ 32) }
    ensures text { drop result line.new ≡ drop (32 - len) block.now ++ drop at line.old }
    ensures width { at ≡ result + len }
{
    line[at - BLOCK..at].copy_from_slice(block);
    at - len
}

/// A name, by its block where it has one and is not longer.
#[inline(always)]
fn put_name(line: &mut [u8], at: usize, name: &[u8], block: Option<&Block>) -> usize
    requires room { (32 ≤ at) × (length name.now ≤ at) × (at ≤ length line.old) }
    requires ends { IfSome block (λ b. length name.now ≤ 32 → drop (32 - length name.now) b.now ≡ name.now) }
    ensures text { drop result line.new ≡ name.now ++ drop at line.old }
    ensures width { at ≡ result + length name.now }
{
    match block {
        Some(block) if name.len() <= BLOCK => put_block(line, at, block, name.len()),
        _ => put_text(line, at, name),
    }
}

#[inline(always)]
fn put_small(line: &mut [u8], at: usize, number: u16) -> usize
    requires { (5 ≤ at) × (at ≤ length line.old) }
    ensures text { drop result line.new ≡ decimal number ++ drop at line.old }
    ensures width { (result ≤ at) × (at ≤ result + 5) }
{
    write_digits(u64::from(number), line, at)
}

#[inline(always)]
fn put_number(line: &mut [u8], at: usize, number: u32) -> usize
    requires { (10 ≤ at) × (at ≤ length line.old) }
    ensures text { drop result line.new ≡ decimal number ++ drop at line.old }
    ensures width { (result ≤ at) × (at ≤ result + 10) }
{
    write_digits(u64::from(number), line, at)
}

#[inline(always)]
fn put_thread(line: &mut [u8], at: usize, labels: Option<&Labels<'_>>, thread: u8) -> usize
    requires { (reach labels ≤ at) × (at ≤ length line.old) }
    ensures text { drop result line.new ≡ (naming_of labels.entry).thread thread ++ drop at line.old }
    ensures width { (result ≤ at) × (at ≤ result + reach labels.entry) }
{
    match labels {
        Some(labels) => match labels.threads.get(usize::from(thread)) {
            Some(name) => {
                let block = labels.thread_blocks.get(usize::from(thread));
                put_name(line, at, name.as_bytes(), block)
            }
            None => at,
        },
        None => put_small(line, at, u16::from(thread)),
    }
}

#[inline(always)]
fn put_channel(line: &mut [u8], at: usize, labels: Option<&Labels<'_>>, chan: u8) -> usize
    requires { (reach labels ≤ at) × (at ≤ length line.old) }
    ensures text { drop result line.new ≡ (naming_of labels.entry).channel chan ++ drop at line.old }
    ensures width { (result ≤ at) × (at ≤ result + reach labels.entry) }
{
    match labels {
        Some(labels) => match labels.channels.get(usize::from(chan)) {
            Some(name) => {
                let block = labels.channel_blocks.get(usize::from(chan));
                put_name(line, at, name.as_bytes(), block)
            }
            None => at,
        },
        None => put_small(line, at, u16::from(chan)),
    }
}

#[inline(always)]
fn put_place(line: &mut [u8], at: usize, labels: Option<&Labels<'_>>, place: (Row, u8)) -> usize
    requires { (reach labels + 17 ≤ at) × (at ≤ length line.old) }
    ensures text { drop result line.new ≡ place_text (naming_of labels.entry) place ++ drop at line.old }
    ensures width { (result ≤ at) × (at ≤ result + (reach labels.entry + 17)) }
{
    let (row, offer) = place;
    let at = put_small(line, at, u16::from(offer));
    let at = put_byte(line, at, b'.');
    let at = put_number(line, at, row.sync);
    let at = put_byte(line, at, b'.');
    put_thread(line, at, labels, row.thread)
}

fn put_nack(line: &mut [u8], at: usize, labels: Option<&Labels<'_>>, nack: NackName) -> usize
    requires { (reach labels + 6 ≤ at) × (at ≤ length line.old) }
    ensures text { drop result line.new ≡ nack_text (naming_of labels.entry) nack ++ drop at line.old }
    ensures width { (result ≤ at) × (at ≤ result + (reach labels.entry + 6)) }
{
    let at = put_small(line, at, u16::from(nack.k));
    let at = put_byte(line, at, b'.');
    put_thread(line, at, labels, nack.thread)
}

fn put_atom(line: &mut [u8], at: usize, labels: Option<&Labels<'_>>, atom: Atom) -> usize
    requires { (reach labels + 10 ≤ at) × (at ≤ length line.old) }
    ensures text { drop result line.new ≡ atom_text (naming_of labels.entry) atom ++ drop at line.old }
    ensures width { (result ≤ at) × (at ≤ result + (reach labels.entry + 10)) }
{
    match atom {
        Atom::Num(number) => put_number(line, at, number),
        Atom::Chan(chan) => {
            let at = put_channel(line, at, labels, chan);
            put_byte(line, at, b'#')
        }
        Atom::Nack(nack) => {
            let at = put_nack(line, at, labels, nack);
            put_byte(line, at, b'!')
        }
    }
}

/// An atom, and what stands between it and the next.
fn put_earlier(line: &mut [u8], at: usize, labels: Option<&Labels<'_>>, atom: Atom) -> usize
    requires { (reach labels + 12 ≤ at) × (at ≤ length line.old) }
    ensures text { drop result line.new ≡ atom_text (naming_of labels.entry) atom ++ codes ", " ++ drop at line.old }
    ensures width { (result ≤ at) × (at ≤ result + (reach labels.entry + 12)) }
{
    let at = put_text(line, at, b", ");
    put_atom(line, at, labels, atom)
}

#[inline(always)]
fn put_message(line: &mut [u8], at: usize, labels: Option<&Labels<'_>>, message: Message) -> usize
    requires { (3 * reach labels + 36 ≤ at) × (at ≤ length line.old) }
    ensures text { drop result line.new ≡ message_text (naming_of labels.entry) message ++ drop at line.old }
    ensures width { (result ≤ at) × (at ≤ result + (3 * reach labels.entry + 36)) }
{
    let at = put_byte(line, at, b')');
    let at = match message {
        Message::Empty => at,
        Message::One(first) => put_atom(line, at, labels, first),
        Message::Two(first, second) => {
            let at = put_atom(line, at, labels, second);
            put_earlier(line, at, labels, first)
        }
        Message::Three(first, second, third) => {
            let at = put_atom(line, at, labels, third);
            let at = put_earlier(line, at, labels, second);
            put_earlier(line, at, labels, first)
        }
    };
    put_byte(line, at, b'(')
}

fn put_cause(line: &mut [u8], at: usize, labels: Option<&Labels<'_>>, cause: Cause) -> usize
    requires { (3 * reach labels + 43 ≤ at) × (at ≤ length line.old) }
    ensures text { drop result line.new ≡ cause_text (naming_of labels.entry) cause ++ drop at line.old }
    ensures width { (result ≤ at) × (at ≤ result + (3 * reach labels.entry + 43)) }
{
    match cause {
        Cause::Always(message) => {
            let at = put_message(line, at, labels, message);
            put_text(line, at, b"always ")
        }
        Cause::Nack(nack) => {
            let at = put_nack(line, at, labels, nack);
            put_text(line, at, b"cancelled ")
        }
        Cause::End(thread) => {
            let at = put_thread(line, at, labels, thread);
            put_text(line, at, b"joined ")
        }
    }
}

fn put_commit(line: &mut [u8], at: usize, labels: Option<&Labels<'_>>, commit: &Commit) -> usize
    requires { (6 * reach labels + 87 ≤ at) × (at ≤ length line.old) }
    ensures text { drop result line.new ≡ commit_text (naming_of labels.entry) commit.now ++ drop at line.old }
{
    match *commit {
        Commit::Pair {
            sender,
            receiver,
            chan,
            msg,
            stamp,
        } => {
            let at = put_message(line, at, labels, msg);
            let at = put_byte(line, at, b' ');
            let at = put_channel(line, at, labels, chan);
            let at = put_byte(line, at, b' ');
            let at = put_place(line, at, labels, receiver);
            let at = put_text(line, at, b" -> ");
            let at = put_place(line, at, labels, sender);
            let at = put_byte(line, at, b' ');
            put_number(line, at, stamp)
        }
        Commit::Alone {
            at: row,
            cause,
            stamp,
        } => {
            let at = put_cause(line, at, labels, cause);
            let at = put_byte(line, at, b' ');
            let at = put_place(line, at, labels, row);
            let at = put_byte(line, at, b' ');
            put_number(line, at, stamp)
        }
    }
}

/// The line of a commit, which ends where the bytes do, with the labels, or with numbers where there are none.
pub(crate) fn put_line(line: &mut [u8], labels: Option<&Labels<'_>>, commit: &Commit) -> usize
    requires { 6 * reach labels + 88 ≤ length line.old }
    ensures { drop result line.new ≡ commit_line (naming_of labels.entry) commit.now }
{
    let at = line.len();
    let at = put_byte(line, at, b'\n');
    put_commit(line, at, labels, commit)
}
