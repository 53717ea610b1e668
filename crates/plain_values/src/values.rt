//! Atoms, messages and offers.

ghost use Rattle.std.specs.Prelude.{◌≡◌, ◌⊎◌, ◌≤◌, ◌<◌, ℕ, All, IfNone, IfSome, Some, length, slice_get};
ghost use Rattle.protocol_values.specs.Words.{IsAtomInRange, IsMessageInRange, IsNackInRange, IsOfferInRange};
ghost use Rattle.protocol_values.specs.declared.Atom.{Atom};
ghost use Rattle.protocol_values.specs.declared.Message.{Message};
ghost use Rattle.protocol_values.specs.declared.Offer.{Offer};
ghost use Rattle.plain_values.specs.Plain.{AreListed, IsAtom, IsMessage, IsOffer, NotAll, nack_number};

use protocol_values::{Atom, Base, Message, NackName, Offer};

/// A number (kind 0), a channel (1), or a nack (2): 64 times its thread plus its number there.
#[repr(C)]
#[derive(Clone, Copy, Debug, Drop)]
pub struct PlainAtom {
    pub kind: u32,
    pub value: u32,
}

/// Up to three atoms.
#[repr(C)]
#[derive(Clone, Copy, Debug, Drop)]
pub struct PlainMessage {
    pub count: u32,
    pub first: PlainAtom,
    pub second: PlainAtom,
    pub third: PlainAtom,
}

/// Kind 0 never, 1 send, 2 receive, 3 always, 4 a nack, 5 a thread's end. `of` is the channel, the nack or the thread.
#[repr(C)]
#[derive(Clone, Copy, Debug, Drop)]
pub struct PlainOffer {
    pub kind: u32,
    pub of: u32,
    pub scopes: u32,
    pub message: PlainMessage,
}

const NOTHING: PlainAtom = PlainAtom { kind: 0, value: 0 };

/// The nack of this number, which is 64 times its thread plus its number there.
fn nack_of(number: u32) -> NackName
    requires { number < 4096 }
    ensures { (result.thread < 64) × (result.k < 64) × (number ≡ nack_number result) }
{
    NackName {
        thread: (number / 64) as u8,
        k: (number % 64) as u8,
    }
}

/// 64 times the nack's thread, plus its number there.
pub(crate) fn number_of(nack: NackName) -> u32
    ensures { result ≡ nack_number nack }
{
    64 * u32::from(nack.thread) + u32::from(nack.k)
}

/// The nack of this number. None where it is above 4095.
pub fn read_nack(number: u32) -> Option<NackName>
    ensures some { IfSome result (λ n. IsNackInRange n × (nack_number n ≡ number)) }
    ensures none { IfNone result (4095 < number) }
{
    if number > 4095 {
        return None;
    }
    Some(nack_of(number))
}

impl PlainAtom {
    /// The atom that it stands for. None where a number is out of its range.
    pub fn read(self) -> Option<Atom>
        ensures some { IfSome result (λ a. IsAtomInRange a × IsAtom self a) }
        ensures none { IfNone result ((a : Atom) → IsAtomInRange a → ¬ IsAtom self a) }
    {
        match self.kind {
            0 => Some(Atom::Num(self.value)),
            1 if self.value < 256 => Some(Atom::Chan(self.value as u8)),
            2 if self.value < 4096 => Some(Atom::Nack(nack_of(self.value))),
            _ => None,
        }
    }

    pub fn of(atom: Atom) -> PlainAtom
        ensures { IsAtom result atom }
    {
        match atom {
            Atom::Num(value) => PlainAtom { kind: 0, value },
            Atom::Chan(chan) => PlainAtom {
                kind: 1,
                value: u32::from(chan),
            },
            Atom::Nack(nack) => PlainAtom {
                kind: 2,
                value: number_of(nack),
            },
        }
    }
}

impl PlainMessage {
    /// The message that it stands for. None where a number is out of its range.
    pub fn read(&self) -> Option<Message>
        ensures some { IfSome result (λ m. IsMessageInRange m × IsMessage self.now m) }
        ensures none { IfNone result ((m : Message) → IsMessageInRange m → ¬ IsMessage self.now m) }
    {
        match self.count {
            0 => Some(Message::Empty),
            1 => Some(Message::One(self.first.read()?)),
            2 => Some(Message::Two(self.first.read()?, self.second.read()?)),
            3 => Some(Message::Three(self.first.read()?, self.second.read()?, self.third.read()?)),
            _ => None,
        }
    }

    /// Atoms past the last one are number 0.
    pub fn of(message: Message) -> PlainMessage
        ensures { IsMessage result message }
    {
        let (count, first, second, third) = match message {
            Message::Empty => (0, NOTHING, NOTHING, NOTHING),
            Message::One(a) => (1, PlainAtom::of(a), NOTHING, NOTHING),
            Message::Two(a, b) => (2, PlainAtom::of(a), PlainAtom::of(b), NOTHING),
            Message::Three(a, b, c) => (3, PlainAtom::of(a), PlainAtom::of(b), PlainAtom::of(c)),
        };
        PlainMessage {
            count,
            first,
            second,
            third,
        }
    }
}

impl PlainOffer {
    /// The offer that it stands for. None where a number is out of its range.
    pub fn read(&self) -> Option<Offer>
        ensures some { IfSome result (λ o. IsOfferInRange o × IsOffer self.now o) }
        ensures none { IfNone result ((o : Offer) → IsOfferInRange o → ¬ IsOffer self.now o) }
    {
        if self.scopes > 15 {
            return None;
        }
        let base = match self.kind {
            0 => Base::Never,
            1 if self.of < 256 => Base::Send(self.of as u8, self.message.read()?),
            2 if self.of < 256 => Base::Recv(self.of as u8),
            3 => Base::Always(self.message.read()?),
            4 if self.of < 4096 => Base::OnNack(nack_of(self.of)),
            5 if self.of < 64 => Base::OnEnd(self.of as u8),
            _ => return None,
        };
        Some(Offer {
            base,
            scopes: self.scopes as u8,
        })
    }

    /// What is not asked for is 0.
    pub fn of(offer: Offer) -> PlainOffer
        ensures { IsOffer result offer }
    {
        let (kind, of, message) = match offer.base {
            Base::Never => (0, 0, Message::Empty),
            Base::Send(chan, message) => (1, u32::from(chan), message),
            Base::Recv(chan) => (2, u32::from(chan), Message::Empty),
            Base::Always(message) => (3, 0, message),
            Base::OnNack(nack) => (4, number_of(nack), Message::Empty),
            Base::OnEnd(thread) => (5, u32::from(thread), Message::Empty),
        };
        PlainOffer {
            kind,
            of,
            scopes: u32::from(offer.scopes),
            message: PlainMessage::of(message),
        }
    }
}

/// The offers that these stand for, with `never` behind them. None where there are more than 8, or a number is out of
/// its range.
pub fn read_offers(plain: &[PlainOffer]) -> Option<[Offer; 8]>
    ensures few { IfSome result (λ offers. (length plain.now ≤ 8) × (length offers ≡ 8)) }
    ensures in_range { IfSome result (All IsOfferInRange) }
    ensures listed { IfSome result (AreListed plain.now) }
    ensures none { IfNone result ((8 < length plain.now) ⊎ NotAll plain.now) }
{
    if plain.len() > 8 {
        return None;
    }
    let mut offers = [Offer::default(); 8];
    for n in 0..plain.len() {
        offers[n] = plain[n].read()?;
    }
    Some(offers)
}
