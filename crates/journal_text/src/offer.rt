//! What an offer is, in words.

ghost use Rattle.std.specs.Prelude.{OnOk};
ghost use Rattle.journal_text.specs.Names.{named};
ghost use Rattle.journal_text.specs.Offers.{offer_text};
ghost use Rattle.script.specs.Appending.{Adds};
ghost use Rattle.script.specs.Scripts.{script_of};

use crate::name::{push_channel, push_nack, push_thread};
use crate::value::push_message;
use protocol_values::Base;
use script::Script;
use std::alloc::AllocError;

/// Appends what an offer is, in the names of the script.
pub fn push_offer(out: &mut String, script: &Script, base: Base) -> Result<(), AllocError>
    ensures { OnOk result (Adds out.old out.new (offer_text (named (script_of script.now)) base)) }
{
    match base {
        Base::Send(chan, message) => {
            out.push_str("send ")?;
            push_channel(out, script, chan)?;
            out.push_str(" ")?;
            push_message(out, script, message)
        }
        Base::Recv(chan) => {
            out.push_str("recv ")?;
            push_channel(out, script, chan)
        }
        Base::Always(message) => {
            out.push_str("always ")?;
            push_message(out, script, message)
        }
        Base::OnNack(nack) => {
            out.push_str("cancelled ")?;
            push_nack(out, script, nack)
        }
        Base::OnEnd(ended) => {
            out.push_str("joined ")?;
            push_thread(out, script, ended)
        }
        Base::Never => out.push_str("never"),
    }
}
