//! That each call does its work where there is memory, which no clause says.

use engine::{Answer, Answered, Engine, Entered, Kind, Offer, Refusal};
use std::test::Fail;

#[test]
fn each_call_once(rt: HostRuntime) -> Result<(), Fail> {
    let mut engine = Engine::new(rt.alloc());
    let channel = engine.open_channel()?;
    let latch = engine.open_latch()?;
    let send = [Offer::Latch(latch), Offer::Send(channel)];
    let receive = [Offer::Receive(channel)];
    assert!(rt; engine.knows(Offer::Send(channel)));
    assert_eq!(rt; engine.poll(&receive, 7), Ok(None));
    let Ok(Entered::Waits(sync)) = engine.enter(&send, 7) else {
        panic!(rt; "it does not wait");
    };
    assert!(rt; engine.waits(sync));
    let kind = Kind::Partner { sync, other: 1 };
    let met = Answer { own: 0, kind };
    assert_eq!(rt; engine.enter(&receive, 7), Ok(Entered::Now(met)));
    assert!(rt; !engine.withdraw(sync));
    let Ok(Entered::Waits(later)) = engine.enter(&send, 7) else {
        panic!(rt; "it does not wait again");
    };
    let first = Answered {
        sync: later,
        own: 0,
    };
    assert_eq!(rt; engine.fire(latch), Ok(Some(first)));
    assert_eq!(rt; engine.fire(latch), Ok(None));
    assert_eq!(rt; engine.renew(latch), Ok(()));
    assert_eq!(rt; engine.close_channel(channel), Ok(None));
    assert_eq!(rt; engine.close_channel(channel), Err(Refusal::Unknown));
    assert_eq!(rt; engine.close_latch(latch), Ok(None));
    assert!(rt; !engine.knows(Offer::Latch(latch)));
    Ok(())
}
