//! Numerals: `0`, or a digit from 1 to 9 followed by digits.

ghost use Rattle.std.specs.Prelude.{◌≡◌, ◌≤◌, ◌&&◌, ◌^◌, nat_le, IfOk, Some, None, if◌then◌else◌};
ghost use Rattle.std.specs.List.{list_all};
ghost use Rattle.trace_types.specs.Reading.{is_digit, numeral_value, numeral_to};

use trace_types::Fault;

/// The number that the digits write, where it is at most the limit. A number only grows with its
/// digits, so no byte behind one that takes it above the limit is looked at.
fn digits_to(text: &[u8], limit: u64) -> Option<u64>
    requires { limit ≤ 2 ^ 60 }
    ensures { result ≡ (if list_all is_digit text.now && nat_le (numeral_value text.now) limit then Some (numeral_value text.now) else None) }
{
    let mut value: u64 = 0;
    for c in text {
        if *c < b'0' || b'9' < *c {
            return None;
        }
        value = value * 10 + (*c - b'0') as u64;
        if limit < value {
            return None;
        }
    }
    Some(value)
}

/// The number of a numeral that is at most the limit, or the fault.
pub fn read_numeral(text: &[u8], limit: u64, fault: Fault) -> Result<u64, Fault>
    requires { limit ≤ 2 ^ 60 }
    ensures value { result ≡ numeral_to limit fault text.now }
    ensures in_range { IfOk result (λ n. n ≤ limit) }
{
    match text {
        [] | [b'0', _, ..] => Err(fault),
        _ => digits_to(text, limit).ok_or(fault),
    }
}
