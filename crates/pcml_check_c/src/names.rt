//! Names that C gives.

ghost use Rattle.std.specs.Prelude.{◌≡◌, IfErr, IfOk};
ghost use Rattle.std.specs.Option.{option_copied};
ghost use Rattle.std.specs.Str.{IsUtf8};
ghost use Rattle.pcml_check_c.specs.Names.{Wants, given};
ghost use Rattle.pcml_check_c.specs.declared.refusal.Refusal.TheVariants.{NoText};

use crate::refusal::Refusal;
use pcml_request::Wanted;

/// The names; none, where there are no bytes.
pub(crate) fn names_in(bytes: &[u8]) -> Result<Option<&str>, Refusal>
    ensures names { IfOk result (λ names. option_copied names ≡ given bytes.now) }
    ensures refused { IfErr result (λ refusal. (refusal ≡ NoText) × (¬ IsUtf8 bytes.now)) }
{
    if bytes.len() == 0 {
        return Ok(None);
    }
    match str::from_utf8(bytes) {
        Ok(names) => Ok(Some(names)),
        Err(_) => Err(Refusal::NoText),
    }
}

/// The outcomes in which a process of these names has not ended, and else all.
pub(crate) fn wanted_by<'a>(need: Option<&'a str>) -> Wanted<'a>
    ensures { Wants (option_copied need.entry) result }
{
    match need {
        Some(names) => Wanted::Lacking(names),
        None => Wanted::Each,
    }
}
