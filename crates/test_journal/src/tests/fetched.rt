//! The machines of a script in a table: what each of them was given before it is fetched.

ghost use Rattle.std.specs.Prelude.{◌≡◌, ◌≢◌, ◌⊎◌, ◌<◌, ℕ, List, [], ◌∷◌, Option, None, IfOk};
ghost use Rattle.protocol_values.specs.Values.{next_row};
ghost use Rattle.protocol_values.specs.Words.{IsBaseInRange, IsOfferInRange};
ghost use Rattle.protocol_values.specs.declared.Binding.{Binding};
ghost use Rattle.protocol_values.specs.declared.NackName.{NackName};
ghost use Rattle.protocol_ledger.specs.Tables.{bound_row};
ghost use Rattle.cell.specs.Calls.{Holds, IsHousing, IsPassOf, IsRowOf};
ghost use Rattle.cell_table.specs.Rule.{seen_nothing};
ghost use Rattle.cell_table.specs.Sight.{AreOffers, Has, SawEnded};
ghost use Rattle.protocol_ledger.specs.Worlds.{first_row};
ghost use Rattle.test_journal.specs.Fetched.{HasNacks, HasResults};
ghost use Rattle.test_journal.specs.declared.tests.suspended.Suspended.{Suspended};

use super::processes::resume;
use super::suspended::{Suspended, begun};
use super::{SERVER, check_same};
use cell::{Attempt, Cells, Grant, NoGate, Pass};
use protocol_values::{Atom, Base, Cell, Message, NackName, Offer, Row};
use script::{Script, parse};
use std::alloc::Global;
use std::process::Abort;
use std::test::Fail;
use thread::Turn;

/// The client's one nack.
const NACK: NackName = NackName { thread: 0, k: 0 };

/// The request: the channel for the reply, and the client's nack.
const REQUEST: Message = Message::Two(Atom::Chan(0), Atom::Nack(NACK));

/// What a send gives, which is the row's only offer.
const SENT: (u8, Message) = (0, Message::Empty);

/// A table of the script's first two processes with four rows each, and the pass that holds their first rows.
fn table(alloc: Global, script: &Script) -> Result<(Cells<Suspended>, Pass<Suspended>), Fail>
    ensures size { IfOk result (λ t. (t.0.threads ≡ 2) × (t.0.rows ≡ 4) × IsHousing t.0) }
    ensures room { IfOk result (λ t. t.0.layout.offers ≡ 8) }
    ensures here { IfOk result (λ t. IsPassOf t.0 t.1) }
    ensures seen { IfOk result (λ t. t.1.seen ≡ seen_nothing (first_row 1 ∷ first_row 0 ∷ [])) }
{
    let client = begun(alloc, script, 0)?;
    let server = begun(alloc, script, 1)?;
    let first = vec![in alloc; client, server]?;
    let (cells, mut passes) = Cells::with_machines(alloc, first, 4, 1)?;
    let Some(pass) = passes.pop() else {
        unreachable!()
    };
    Ok((cells, pass))
}

fn offer(base: Base, scopes: u8) -> Offer
    requires { IsBaseInRange base × (scopes < 16) }
    ensures { IsOfferInRange result }
{
    Offer { base, scopes }
}

/// Binds the machine's nack to the row, if it has one there.
fn bind(
    rt: &impl Abort,
    cells: &Cells<Suspended>,
    pass: &mut Pass<Suspended>,
    row: Row,
    nacks: &[u8],
)
    requires here { IsPassOf cells.now pass.old × IsRowOf cells.now row × IsHousing cells.now }
    requires room { cells.now.layout.offers ≡ 8 }
    requires fresh { Has pass.old.seen.held row × (¬ Has pass.old.seen.opened row) }
    requires free { (n : NackName) (b : Binding) → Has pass.old.seen.bound (n, b) → bound_row n b ≢ row }
    requires alive { ¬ SawEnded pass.old.seen row.thread }
    ensures here { IsPassOf cells.now pass.new }
    ensures fresh { Has pass.new.seen.held row × (¬ Has pass.new.seen.opened row) }
    ensures nacks { HasNacks pass.new.seen row }
    ensures kept { (pass.new.results ≡ pass.old.results) × (pass.new.out ≡ pass.old.out) }
    ensures alive { ¬ SawEnded pass.new.seen row.thread }
{
    match nacks {
        [] => {}
        [0] => assert!(rt; cells.bind(pass, 0, row, 0), "the nack was bound before"),
        _ => panic!(rt; "other nacks"),
    }
}

/// Opens the row with what the machine offers: these.
fn enter(
    rt: &impl Abort,
    cells: &Cells<Suspended>,
    pass: &mut Pass<Suspended>,
    row: Row,
    suspended: Suspended,
    offers: &[Offer],
)
    requires here { IsPassOf cells.now pass.old × IsRowOf cells.now row × IsHousing cells.now }
    requires room { cells.now.layout.offers ≡ 8 }
    requires fresh { Has pass.old.seen.held row × (¬ Has pass.old.seen.opened row) }
    requires fetched { Holds pass.old row None }
    requires results { HasResults pass.old.results row }
    requires nacks { HasNacks pass.old.seen row }
    requires begun { row.sync ≡ 0 → Has pass.old.seen.begun row }
    requires offers { AreOffers offers.now }
    requires alive { ¬ SawEnded pass.old.seen row.thread }
    ensures here { IsPassOf cells.now pass.new }
    ensures ended { pass.new.seen.ended ≡ pass.old.seen.ended }
    ensures held { pass.new.seen.held ≡ pass.old.seen.held }
    ensures opened { pass.new.seen.opened ≡ row ∷ pass.old.seen.opened }
    ensures begun { pass.new.seen.begun ≡ pass.old.seen.begun }
    ensures bound { pass.new.seen.bound ≡ pass.old.seen.bound }
    ensures out { (others : List (ℕ × Option Suspended)) → pass.old.out ≡ (row.thread, None) ∷ others → pass.new.out ≡ others }
{
    check_same(rt, suspended.machine.offers(), offers);
    cells.draft(pass, row, offers);
    cells.park(pass, row, suspended);
    cells.open(pass, row);
}

/// Opens the first rows of both.
fn start(rt: &impl Abort, cells: &Cells<Suspended>, pass: &mut Pass<Suspended>)
    requires here { IsPassOf cells.now pass.old × (cells.now.threads ≡ 2) × (cells.now.rows ≡ 4) × IsHousing cells.now }
    requires room { cells.now.layout.offers ≡ 8 }
    requires seen { pass.old.seen ≡ seen_nothing (first_row 1 ∷ first_row 0 ∷ []) }
    ensures here { IsPassOf cells.now pass.new }
{
    let (client, server) = (Row { thread: 0, sync: 0 }, Row { thread: 1, sync: 0 });
    let first = cells.fetch(pass, client);
    let second = cells.fetch(pass, server);
    check_same(rt, first.machine.results(), [].as_slice());
    check_same(rt, second.machine.results(), [].as_slice());
    enter(rt, cells, pass, server, second, &[offer(Base::Recv(1), 0)]);
    enter(
        rt,
        cells,
        pass,
        client,
        first,
        &[offer(Base::Send(1, REQUEST), 0)],
    );
}

/// Attempts to commit a row, which waits, with another one.
fn meet(
    rt: &impl Abort,
    cells: &Cells<Suspended>,
    pass: &mut Pass<Suspended>,
    mine: (Row, u8),
    other: (Row, u8),
) -> Attempt
    requires { IsPassOf cells.now pass.old × IsRowOf cells.now mine.0 × IsRowOf cells.now other.0 }
    ensures { IsPassOf cells.now pass.new }
{
    assert!(rt; pass.holds(mine.0), "the row is another's");
    let Cell::Waiting = cells.look(pass, mine.0) else {
        panic!(rt; "the row does not wait")
    };
    cells.attempt(pass, &NoGate, mine.0, mine.1, other.0, other.1)
}

/// Takes the row, which is committed, and fetches its thread's machine, which was given these results and not yet
/// the row's own. Gives it that, and opens the next row with what the machine offers there: these, none at its end.
fn go_on(
    rt: &impl Abort,
    cells: &Cells<Suspended>,
    pass: &mut Pass<Suspended>,
    row: Row,
    given: &[(u8, Message)],
    offers: &[Offer],
) -> Result<(), Fail>
    requires here { IsPassOf cells.now pass.old × IsRowOf cells.now (next_row row) × IsHousing cells.now × (row.sync < 3) }
    requires room { cells.now.layout.offers ≡ 8 }
    requires offers { AreOffers offers.now }
    ensures { IsPassOf cells.now pass.new }
{
    let message = cells.result(pass, row).ok_or("not committed")?;
    let joined = cells.take(pass, row).ok_or("taken before")?;
    let next = row.next();
    let mut fetched = cells.fetch(pass, next);
    check_same(rt, fetched.machine.results(), given);
    match resume(&mut fetched.machine, joined.own, message)? {
        Turn::Offering => {
            bind(rt, cells, pass, next, fetched.machine.nacks());
            enter(rt, cells, pass, next, fetched, offers);
        }
        _ => check_same(rt, offers, &[]),
    }
    Ok(())
}

// The machine that is fetched for row g of its thread, when the row before was taken, lacks that one's result: it has
// those of the rows 0 to g - 2.
#[test]
fn a_machine_has_the_results_before_the_last(rt: HostRuntime) -> Result<(), Fail> {
    let alloc = rt.alloc();
    let script = parse(alloc, SERVER.as_bytes())?;
    let (cells, mut pass) = table(alloc, &script)?;
    start(&rt, &cells, &mut pass);
    let client = [Row { thread: 0, sync: 0 }, Row { thread: 0, sync: 1 }];
    let server = [
        Row { thread: 1, sync: 0 },
        Row { thread: 1, sync: 1 },
        Row { thread: 1, sync: 2 },
    ];
    let met = meet(&rt, &cells, &mut pass, (client[0], 0), (server[0], 0));
    check_same(&rt, met, Attempt::Met(1));
    let replies = [offer(Base::Recv(0), 1), offer(Base::Recv(2), 0)];
    go_on(&rt, &cells, &mut pass, client[0], &[], &replies)?;
    let go = Message::One(Atom::Num(9));
    go_on(
        &rt,
        &cells,
        &mut pass,
        server[0],
        &[],
        &[offer(Base::Send(2, go), 0)],
    )?;
    let met = meet(&rt, &cells, &mut pass, (server[1], 0), (client[1], 1));
    check_same(&rt, met, Attempt::Met(2));
    go_on(&rt, &cells, &mut pass, client[1], &[SENT], &[])?;
    let reply = Message::One(Atom::Num(7));
    let answers = [offer(Base::Send(0, reply), 0), offer(Base::OnNack(NACK), 0)];
    go_on(&rt, &cells, &mut pass, server[1], &[(0, REQUEST)], &answers)?;
    check_same(&rt, cells.grant(&mut pass, server[2], 1), Grant::Given);
    go_on(
        &rt,
        &cells,
        &mut pass,
        server[2],
        &[(0, REQUEST), SENT],
        &[],
    )
}
