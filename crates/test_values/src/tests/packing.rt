//! The words of the format's own table, each way, and words that stand for nothing.
ghost use Rattle.std.specs.Prelude.{◌≡◌, IfSome, None, Some};
ghost use Rattle.protocol_values.specs.Words.{IsAtomInRange, IsCellInRange, IsCourseInRange, IsHeadInRange, IsNackWordInRange};

use super::checks::check_same;
use protocol_values::*;
use std::process::Abort;

fn check_cell(rt: &impl Abort, cell: Cell, word: u64)
    requires { IsCellInRange cell }
{
    check_same(rt, pack_cell(cell), word, "the word of a cell");
    check_same(rt, unpack_cell(word), Some(cell), "the cell of a word");
}

fn check_head(rt: &impl Abort, direction: Direction, scopes: u8, word: u64)
    requires { IsHeadInRange (record { direction = direction; scopes = scopes }) }
{
    let head = Head { direction, scopes };
    check_same(rt, pack_head(head), word, "the word of a head");
    check_same(rt, unpack_head(word), Some(head), "the head of a word");
}

fn check_atom(rt: &impl Abort, atom: Atom, word: u64)
    requires { IsAtomInRange atom }
{
    check_same(rt, pack_atom(atom), word, "the word of an atom");
    check_same(rt, unpack_atom(word), Some(atom), "the atom of a word");
}

fn check_nack(rt: &impl Abort, nack: NackWord, word: u64)
    requires { IsNackWordInRange nack }
{
    check_same(rt, pack_nack(nack), word, "the word of a nack");
    check_same(rt, unpack_nack(word), Some(nack), "the nack of a word");
}

fn check_course(rt: &impl Abort, course: Course, word: u64)
    requires { IsCourseInRange course }
{
    check_same(rt, pack_course(course), word, "the word of a life");
    check_same(rt, unpack_course(word), Some(course), "the life of a word");
}

fn met(thread: u8) -> Joined
    ensures { result ≡ record { own = 0; partner = Some (record { thread = thread; sync = 0 }, 0); stamp = 1 } }
{
    Joined {
        own: 0,
        partner: Some((Row { thread, sync: 0 }, 0)),
        stamp: 1,
    }
}

#[test]
fn cells(rt: HostRuntime) {
    check_cell(&rt, Cell::Fresh, 0);
    check_cell(&rt, Cell::Waiting, 1);
    check_cell(&rt, Cell::Claimed, 2);
    check_cell(&rt, Cell::Synched(met(0)), 67108931);
    check_cell(&rt, Cell::Synched(met(1)), 68157507);
    check_cell(&rt, Cell::Taken(met(1)), 68157508);
    check_cell(
        &rt,
        Cell::Synched(Joined {
            own: 1,
            partner: None,
            stamp: 3,
        }),
        201326603,
    );
}

#[test]
fn counts(rt: HostRuntime) {
    check_same(&rt, pack_count(8), 8, "the word of 8");
    check_same(&rt, unpack_count(8), Some(8), "the count of 8");
    check_same(&rt, unpack_count(0), Some(0), "the count of 0");
}

#[test]
fn heads(rt: HostRuntime) {
    check_head(&rt, Direction::Never, 0, 0);
    check_head(&rt, Direction::Send { chan: 0, atoms: 1 }, 0, 8388609);
    check_head(&rt, Direction::Recv { chan: 5 }, 0, 42);
    check_head(&rt, Direction::Recv { chan: 3 }, 3, 100663322);
    check_head(
        &rt,
        Direction::OnNack(NackName { thread: 1, k: 2 }),
        0,
        264196,
    );
    check_head(&rt, Direction::OnEnd(0), 0, 5);
    check_head(&rt, Direction::OnEnd(1), 0, 2053);
    check_head(&rt, Direction::OnEnd(63), 0, 129029);
    check_head(&rt, Direction::OnEnd(5), 3, 100673541);
    check_head(&rt, Direction::OnEnd(63), 15, 503445509);
}

#[test]
fn atoms(rt: HostRuntime) {
    check_atom(&rt, Atom::Num(42), 168);
    check_atom(&rt, Atom::Num(4294967295), 17179869180);
    check_atom(&rt, Atom::Chan(255), 1021);
    check_atom(&rt, Atom::Nack(NackName { thread: 63, k: 63 }), 16382);
}

#[test]
fn nacks(rt: HostRuntime) {
    check_nack(&rt, NackWord::Unbound, 0);
    check_nack(&rt, NackWord::Bound(Binding { sync: 1, scope: 0 }), 3);
    check_nack(
        &rt,
        NackWord::Bound(Binding {
            sync: 1023,
            scope: 3,
        }),
        8191,
    );
    check_nack(&rt, NackWord::Carried(0), 8193);
    check_nack(&rt, NackWord::Carried(2), 40961);
    check_nack(&rt, NackWord::Carried(4294967295), 70368744169473);
}

#[test]
fn courses(rt: HostRuntime) {
    check_course(&rt, Course::Unstarted, 0);
    check_course(&rt, Course::Running(0), 1);
    check_course(&rt, Course::Running(2), 5);
    check_course(&rt, Course::Ended(0, 0), 8589934593);
    check_course(&rt, Course::Ended(2, 1), 25769803781);
    check_course(&rt, Course::Ended(1, 1024), 17600775979011);
    check_course(&rt, Course::Ended(4294967295, 1024), 17609365913599);
}

const SENT: Offer = Offer {
    base: Base::Send(0, Message::One(Atom::Num(42))),
    scopes: 0,
};

const RECEIVED: Offer = Offer {
    base: Base::Recv(3),
    scopes: 3,
};

const ENDED: Offer = Offer {
    base: Base::OnEnd(5),
    scopes: 3,
};

/// The words of an offer, and what they stand for.
const OFFERS: [([u64; 4], Option<Offer>, &str); 7] = [
    ([8388609, 168, 0, 0], Some(SENT), "an offer to send"),
    (
        [8388609, 168, 1021, 8],
        Some(SENT),
        "atoms past the message",
    ),
    ([100663322, 0, 0, 0], Some(RECEIVED), "an offer to receive"),
    ([8388609, 3, 0, 0], None, "an atom of kind 3"),
    ([100673541, 0, 0, 0], Some(ENDED), "an offer on an end"),
    ([13, 168, 0, 0], None, "an end with channel bits"),
    ([6, 168, 0, 0], None, "a head of direction 6"),
];

#[test]
fn offers(rt: HostRuntime) {
    check_same(
        &rt,
        pack_offer(SENT),
        [8388609, 168, 0, 0],
        "the words of an offer",
    );
    for (words, offer, what) in &OFFERS {
        let [head, first, second, third] = *words;
        let found = unpack_offer(head, first, second, third);
        check_same(&rt, found, *offer, what);
    }
}

#[derive(Clone, Copy, Debug)]
enum Form {
    Cell,
    Count,
    Head,
    Atom,
    Nack,
    Course,
}

fn stands_for_nothing(form: Form, word: u64) -> bool {
    match form {
        Form::Cell => unpack_cell(word) == None,
        Form::Count => unpack_count(word) == None,
        Form::Head => unpack_head(word) == None,
        Form::Atom => unpack_atom(word) == None,
        Form::Nack => unpack_nack(word) == None,
        Form::Course => unpack_course(word) == None,
    }
}

const ILL_FORMED: [(Form, u64, &str); 28] = [
    (Form::Cell, 5, "a sixth state"),
    (Form::Cell, 3, "no stamp"),
    (Form::Cell, (1 << 63) + 1, "a stray high bit"),
    (Form::Cell, 9, "fields in Waiting"),
    (
        Form::Cell,
        (1 << 26) + (1 << 7) + 3,
        "a partner that is not there",
    ),
    (Form::Count, 9, "too many"),
    (Form::Count, 1 << 63, "a stray high bit"),
    (Form::Head, 6, "a seventh direction"),
    (Form::Head, 12, "channel bits on OnNack"),
    (Form::Head, 8, "channel bits on Never"),
    (Form::Head, 13, "channel bits on OnEnd"),
    (Form::Head, (1 << 17) + 5, "a nack's number on OnEnd"),
    (Form::Head, (1 << 23) + 5, "atoms on OnEnd"),
    (Form::Head, 1 << 29, "a stray high bit"),
    (Form::Atom, 3, "a fourth kind"),
    (Form::Atom, 1025, "channel 256"),
    (Form::Atom, 16386, "a nack of thread 64"),
    (Form::Atom, 1 << 34, "a number of 33 bits"),
    (Form::Nack, 2, "a sync of no binding"),
    (Form::Nack, 8192, "carried and not told so"),
    (Form::Nack, 8195, "a sync of a carried nack"),
    (Form::Nack, 140737488347137, "a stray high bit"),
    (Form::Course, 2, "a start of no thread"),
    (Form::Course, 4, "a start of no thread"),
    (
        Form::Course,
        1025 * (1 << 34) + (1 << 33) + 1,
        "an end at sync 1025",
    ),
    (Form::Course, 1 << 33, "an end without a start"),
    (Form::Course, (1 << 34) + 1, "a sync without an end"),
    (Form::Course, (1 << 45) + (1 << 33) + 1, "a stray high bit"),
];

#[test]
fn ill_formed(rt: HostRuntime) {
    for (form, word, what) in &ILL_FORMED {
        assert!(rt; stands_for_nothing(*form, *word), "{form:?} {word}: {what}");
    }
}

/// Whether a word may stand at a place.
const PLACES: [(u8, u64, bool); 14] = [
    (0, 67108931, true),
    (0, 5, false),
    (1, 8, true),
    (1, 9, false),
    (2, 42, true),
    (2, 5, true),
    (2, 6, false),
    (2, 1021, false),
    (3, 1021, true),
    (4, 3, false),
    (5, 168, true),
    (6, 12, false),
    (33, 16382, true),
    (255, 3, false),
];

#[test]
fn places(rt: HostRuntime) {
    for (place, word, fits) in &PLACES {
        assert!(rt; is_word_for(*place, *word) == *fits, "{word} at {place}");
    }
}
