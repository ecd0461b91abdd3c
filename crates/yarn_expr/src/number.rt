//! Reads the digits of a number.
ghost use Rattle.std.specs.Prelude.{◌≡◌, ◌≤◌, ◌<◌, ◌^◌, ◌+◌, ◌*◌, ◌-◌, MatchOption, IfSome};
ghost use Rattle.yarn_expr.specs.Plain.{value_after, number_of};

/// The number that the digits write, if it is at most 9223372036854775807.
#[tactic(auto, unfolding(crate::specs::Plain::number_of))]
pub fn number(digits: &str) -> Option<u64>
    ensures exact { result ≡ number_of digits.now }
    ensures small { IfSome result (λ n. n < 2 ^ 63) }
{
    match value(digits.as_bytes()) {
        Some(n) if n < 0x8000_0000_0000_0000 => Some(n),
        _ => None,
    }
}

#[tactic(auto, using(crate::proofs::NumberLemmas::least))]
fn value(digits: &[u8]) -> Option<u64>
    ensures { MatchOption result (2 ^ 64 ≤ value_after 0 digits.now) (λ n. n ≡ value_after 0 digits.now) }
{
    let mut value: u64 = 0;
    for digit in digits {
        match next(value, *digit) {
            Some(n) => value = n,
            None => return None,
        }
    }
    Some(value)
}

fn next(value: u64, digit: u8) -> Option<u64>
    ensures { MatchOption result (2 ^ 64 ≤ value * 10 + (digit - 48)) (λ n. n ≡ value * 10 + (digit - 48)) }
{
    let tens = value.checked_mul(10)?;
    tens.checked_add(u64::from(digit.saturating_sub(b'0')))
}
