//! Machines: one process, event by event.

ghost use Rattle.std.specs.Prelude.{◌≡◌, IfOk};
ghost use Rattle.thread.specs.Machines.{Ready};

use super::check_same;
use protocol_values::{Atom, Base, Direction, Head, Message, Offer, unpack_head};
use script::parse;
use std::alloc::{AllocError, Global};
use std::process::Abort;
use std::test::Fail;
use std::thread::{Threads, join};
use thread::{Fault, Machine, Turn};

/// The process with this number, as thread 0, before its beginning.
fn machine(alloc: Global, text: &str, process: usize) -> Result<Machine, Fail>
    ensures { IfOk result (λ m. m.phase ≡ Ready) }
{
    let script = parse(alloc, text.as_bytes())?;
    let process = script.processes().get(process).ok_or("no such process")?;
    let machine = Machine::new(alloc, process, 0)?;
    Ok(machine)
}

/// Commits the open sync by an offer, which has to be there.
pub(super) fn resume(machine: &mut Machine, chosen: u8, message: Message) -> Result<Turn, Fail>
    ensures { machine.new.keeps ≡ machine.old.keeps }
{
    if usize::from(chosen) >= machine.offers().len() {
        return Err(Fail::from("no such offer"));
    }
    let turn = machine.resume(chosen, message)?;
    Ok(turn)
}

/// The first process of the text, run over these results, and its last turn.
fn after(alloc: Global, text: &str, results: &[(u8, Message)]) -> Result<(Machine, Turn), Fail> {
    let mut machine = machine(alloc, text, 0)?;
    let mut turn = machine.begin()?;
    for (chosen, message) in results {
        turn = resume(&mut machine, *chosen, *message)?;
    }
    Ok((machine, turn))
}

#[test]
fn results_are_kept_or_counted(rt: HostRuntime) -> Result<(), Fail> {
    let alloc = rt.alloc();
    let script = parse(alloc, b"channel c; process b { sync recv c; sync recv c; }")?;
    let process = script.processes().first().ok_or("no process")?;
    let mut counting = Machine::counting(alloc, process, 0)?;
    counting.begin()?;
    resume(&mut counting, 0, one(42))?;
    check_same(&rt, counting.count(), 1);
    let mut keeping = Machine::new(alloc, process, 0)?;
    keeping.begin()?;
    assert!(rt; keeping.offers().len() == 1);
    keeping.resume(0, one(42))?;
    check_same(&rt, keeping.results(), [(0, one(42))].as_slice());
    let copy = keeping.try_clone(alloc)?;
    check_same(&rt, copy.results(), keeping.results());
    check_same(&rt, copy.offers(), keeping.offers());
    Ok(())
}

fn one(number: u32) -> Message {
    Message::One(Atom::Num(number))
}

fn check_prints(rt: &(impl Abort + AllocGlobal), machine: &Machine, printed: &[u32]) {
    check_same(rt, machine.output().len(), printed.len());
    for (atom, number) in machine.output().iter().zip(printed) {
        check_same(rt, *atom, Atom::Num(*number));
    }
}

#[test]
fn a_message_is_received(rt: HostRuntime) -> Result<(), Fail> {
    let alloc = rt.alloc();
    let text =
        "channel c; process a { sync send c (42); } process b { x <- sync recv c; print x; }";
    let mut b = machine(alloc, text, 1)?;
    assert!(rt; !b.is_offering());
    let turn = b.begin()?;
    assert!(rt; b.is_offering());
    assert!(rt; turn == Turn::Offering);
    let recv = Offer {
        base: Base::Recv(0),
        scopes: 0,
    };
    check_same(&rt, b.offers(), [recv].as_slice());
    check_same(&rt, b.nacks().len(), 0);
    let turn = resume(&mut b, 0, one(42))?;
    assert!(rt; turn == Turn::Ended);
    check_prints(&rt, &b, &[42]);
    check_same(&rt, b.count(), 1);
    check_same(&rt, b.offers().len(), 0);
    check_same(&rt, b.nacks().len(), 0);
    Ok(())
}

#[test]
fn scopes_and_their_nacks(rt: HostRuntime) -> Result<(), Fail> {
    let text =
        "channel w; channel v; channel u; channel c; process a { sync nack m { sync send w (m); } choose [nack n { sync send v (n); } recv c, always ()]; }";
    let results = [(0, Message::Empty), (0, Message::Empty)];
    let (machine, turn) = after(rt.alloc(), text, &results)?;
    assert!(rt; turn == Turn::Offering);
    check_same(&rt, machine.nacks(), [0, 1].as_slice());
    let receive = Offer {
        base: Base::Recv(3),
        scopes: 3,
    };
    let always = Offer {
        base: Base::Always(Message::Empty),
        scopes: 1,
    };
    check_same(&rt, machine.offers(), [receive, always].as_slice());
    let heads = [
        Head {
            direction: Direction::Recv { chan: 3 },
            scopes: 3,
        },
        Head {
            direction: Direction::Always { atoms: 0 },
            scopes: 1,
        },
    ];
    assert!(rt; unpack_head(100_663_322) == Some(heads[0]));
    assert!(rt; unpack_head(33_554_435) == Some(heads[1]));
    Ok(())
}

#[test]
fn what_a_process_spawns(rt: HostRuntime) -> Result<(), Fail> {
    let alloc = rt.alloc();
    let text =
        "process k { } process j { } process a { loop 2 { sync always (); spawn k; } spawn j; }";
    let mut machine = machine(alloc, text, 2)?;
    let _first = machine.begin()?;
    check_same(&rt, machine.spawned().len(), 0);
    let _second = resume(&mut machine, 0, Message::Empty)?;
    check_same(&rt, machine.spawned(), [0].as_slice());
    let turn = resume(&mut machine, 0, Message::Empty)?;
    assert!(rt; turn == Turn::Ended);
    check_same(&rt, machine.spawned(), [0, 1].as_slice());
    Ok(())
}

#[test]
fn the_last_nack(rt: HostRuntime) -> Result<(), Fail> {
    let alloc = rt.alloc();
    let text = "process a { forever { sync nack n {} always (); } }";
    let mut machine = machine(alloc, text, 0)?;
    let _first = machine.begin()?;
    for _ in 0..63 {
        let _turn = resume(&mut machine, 0, Message::Empty)?;
    }
    check_same(&rt, machine.nacks(), [63].as_slice());
    let last = resume(&mut machine, 0, Message::Empty)?;
    assert!(rt; last == Turn::Faulted(Fault::Range));
    Ok(())
}

#[test]
fn machines_lie_in_slots(rt: HostRuntime) -> Result<(), Fail> {
    let alloc = rt.alloc();
    let mut slots: Vec<Option<Machine>> = Vec::new(alloc);
    slots.push(Some(machine(alloc, "process a { sync always (); }", 0)?))?;
    if let Some(Some(machine)) = slots.pop() {
        assert!(rt; !machine.is_offering());
    }
    Ok(())
}

/// The machine at its first stop.
fn begun(alloc: Global, mut machine: Machine) -> Result<Machine, AllocError>
    requires { machine.phase ≡ Ready }
{
    let _turn = machine.begin()?;
    Ok(machine)
}

/// Two machines, each begun in a thread of its own.
fn both_begun<R: Threads>(
    rt: &R,
    alloc: Global,
    first: Machine,
    second: Machine,
) -> (Result<Machine, AllocError>, Result<Machine, AllocError>)
    requires first { first.phase ≡ Ready }
    requires second { second.phase ≡ Ready }
{
    join(
        rt,
        || -> Result<Machine, AllocError>
            requires { first.phase ≡ Ready }
        { begun(alloc, first) },
        || -> Result<Machine, AllocError>
            requires { second.phase ≡ Ready }
        { begun(alloc, second) },
    )
}

/// Gives the value back. Values of its type may cross threads.
fn crosses<T: Send>(value: T) -> T {
    value
}

#[test]
fn machines_cross_threads(rt: HostRuntime) -> Result<(), Fail> {
    let alloc = rt.alloc();
    let text =
        "channel c; process a { sync send c (42); } process b { x <- sync recv c; print x; }";
    let a = machine(alloc, text, 0)?;
    let b = machine(alloc, text, 1)?;
    let (a, b) = both_begun(&rt, alloc, a, b);
    let mut b = crosses(b?);
    let _turn = resume(&mut b, 0, one(42))?;
    check_prints(&rt, &b, &[42]);
    let mut slots: Vec<Option<Machine>> = Vec::new(alloc);
    slots.push(Some(a?))?;
    let slots = crosses(slots);
    check_same(&rt, slots.len(), 1);
    Ok(())
}

/// Where memory runs out in `begin` or in `resume`, both have to answer so from then on.
#[test]
fn broken_for_good(rt: HostRuntime) -> Result<(), Fail> {
    let alloc = rt.alloc();
    let text = "process a { sync wrap guard { print 1; } always (2) to (3); print 4; }";
    let mut machine = machine(alloc, text, 0)?;
    if let Err(error) = machine.begin() {
        assert!(rt; machine.begin().is_err());
        assert!(rt; machine.resume(0, Message::Empty).is_err());
        assert!(rt; !machine.is_offering());
        return Err(Fail::from(error));
    }
    if machine.offers().is_empty() {
        return Err(Fail::from("no offer"));
    }
    if let Err(error) = machine.resume(0, one(2)) {
        assert!(rt; machine.resume(0, one(2)).is_err());
        check_same(&rt, machine.offers().len(), 0);
        return Err(Fail::from(error));
    }
    check_prints(&rt, &machine, &[1, 4]);
    Ok(())
}
