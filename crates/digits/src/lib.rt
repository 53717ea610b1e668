//! Numbers in lines of text: decimal digits without leading zeros, and a byte that ends them. Each is
//! read from the front of the bytes.
#![tactic(auto)]

ghost use Rattle.std.specs.Prelude.{◌≡◌, ◌≤◌, ◌<◌, ◌⊎◌, IfSome, OnSome};
ghost use Rattle.digits.specs.Reading.{Gives, digit_of, with_digit, leading_at, number_at, count_at};

/// Ten times a number below this, with a digit, fits.
const NO_OVERFLOW: u64 = 1 << 60;

/// What a byte says as a decimal digit.
#[inline(always)]
fn digit(byte: u8) -> Option<u64>
    ensures { result ≡ digit_of byte }
{
    match byte {
        b'0'..=b'9' => Some(u64::from(byte - b'0')),
        _ => None,
    }
}

/// The number at the front of the bytes, if it is at most the limit, with the byte behind it, which is one
/// of those before `0`; and the bytes behind that.
#[inline(always)]
#[tactic(auto, unfolding(crate::specs::Reading::leading_at, crate::specs::Reading::digits_at))]
pub fn leading(bytes: &[u8], limit: u64) -> Option<((u64, u8), &[u8])>
    ensures value { Gives (λ x. (x.0, x.1.now)) result (leading_at limit bytes.now) }
    ensures within { IfSome result (λ x. x.0.0 ≤ limit) }
{
    let [first, rest @ ..] = bytes else {
        return None;
    };
    let mut value = digit(*first)?;
    if value > limit {
        return None;
    }
    let mut rest = rest;
    while let [byte, after @ ..] = rest {
        if *byte < b'0' {
            return Some(((value, *byte), after));
        }
        let digit = digit(*byte)?;
        if value == 0 {
            return None;
        }
        let more = if limit < NO_OVERFLOW {
            value * 10 + digit
        } else {
            value.checked_mul(10)?.checked_add(digit)?
        };
        if more > limit {
            return None;
        }
        value = more;
        rest = after;
    }
    None
}

/// The number at the front of the bytes, if it is at most the limit and the byte behind it is the end; and
/// the bytes behind that.
#[inline(always)]
#[tactic(auto, unfolding(crate::specs::Reading::number_at))]
pub fn number(bytes: &[u8], limit: u64, end: u8) -> Option<(u64, &[u8])>
    ensures value { Gives (λ x. (x.0, x.1.now)) result (number_at limit end bytes.now) }
    ensures within { IfSome result (λ x. x.0 ≤ limit) }
{
    let ((value, behind), rest) = leading(bytes, limit)?;
    if behind == end {
        Some((value, rest))
    } else {
        None
    }
}

/// A number from 1 on.
#[inline(always)]
#[tactic(auto, unfolding(crate::specs::Reading::count_at))]
pub fn count(bytes: &[u8], limit: u64, end: u8) -> Option<(u64, &[u8])>
    ensures value { Gives (λ x. (x.0, x.1.now)) result (count_at limit end bytes.now) }
    ensures within { IfSome result (λ x. x.0 ≤ limit) }
{
    match number(bytes, limit, end)? {
        (0, _) => None,
        found => Some(found),
    }
}
