//! The words of a row have room for what a machine offers. By its type a number or a channel is in range; so are
//! the nacks, the threads and the scopes, as a machine has them. Nothing is done here, and no test is left.

ghost use Rattle.std.specs.Prelude.{◌≤◌, length};
ghost use Rattle.protocol_values.specs.Words.{IsAtomInRange, IsMessageInRange, IsOfferInRange};
ghost use Rattle.thread.specs.Ranges.{AtomIsIn, MessageIsIn};
ghost use Rattle.cell_table.specs.Sight.{AreOffers};
ghost use Rattle.runtime_worker.specs.Machines.{IsIn, NamesInRange};

use protocol_values::{Atom, Base, Message, Offer};

fn atom_fits(atom: Atom)
    requires { AtomIsIn atom }
    ensures { IsAtomInRange atom }
{
    match atom {
        Atom::Num(_) | Atom::Chan(_) | Atom::Nack(_) => (),
    }
}

fn message_fits(message: Message)
    requires { MessageIsIn message }
    ensures { IsMessageInRange message }
{
    match message {
        Message::Empty => (),
        Message::One(a) => atom_fits(a),
        Message::Two(a, b) => {
            atom_fits(a);
            atom_fits(b);
        }
        Message::Three(a, b, c) => {
            atom_fits(a);
            atom_fits(b);
            atom_fits(c);
        }
    }
}

fn offer_fits(offer: Offer)
    requires { IsIn offer }
    ensures { IsOfferInRange offer }
{
    match offer.base {
        Base::Send(_, message) => message_fits(message),
        Base::Always(message) => message_fits(message),
        Base::OnNack(_) | Base::OnEnd(_) | Base::Recv(_) | Base::Never => (),
    }
}

/// The words of a row have room for the offers.
pub(crate) fn offers_fit(offers: &[Offer])
    requires few { length offers.now ≤ 8 }
    requires names { NamesInRange offers.now }
    ensures { AreOffers offers.now }
{
    for offer in offers {
        offer_fits(*offer);
    }
}
