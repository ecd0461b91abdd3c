//! Reads whole numbers.
ghost use Rattle.std.specs.Prelude.{◌≡◌, ◌≤◌, ◌+◌, ◌*◌, ◌-◌, ◌^◌, MatchOption, Some, pos};
ghost use Rattle.std.specs.List.{list_all};
ghost use Rattle.yarn_value.specs.Numbers.{value_after, digits_value, is_digit as digit_is, signed_number, fitting, negated as negated_of, IsLarge};

/// The number of 64 bits that an optional `-` and one digit or more write.
pub(crate) fn signed(text: &[u8]) -> Option<i64>
    ensures { result ≡ signed_number text.now }
{
    match text {
        [b'-', digits @ ..] => negated(unsigned(digits)?),
        _ => kept(unsigned(text)?),
    }
}

fn kept(size: u64) -> Option<i64>
    ensures { result ≡ fitting (Some (pos size)) }
{
    0i64.checked_add_unsigned(size)
}

fn negated(size: u64) -> Option<i64>
    ensures { result ≡ fitting (Some (negated_of size)) }
{
    0i64.checked_sub_unsigned(size)
}

/// The number that the digits write, where there are some and nothing else.
fn unsigned(digits: &[u8]) -> Option<u64>
    ensures { MatchOption result (IsLarge (digits_value digits.now)) (λ n. digits_value digits.now ≡ Some n) }
{
    if digits.is_empty() || !all_digits(digits) {
        return None;
    }
    value(digits)
}

fn all_digits(digits: &[u8]) -> bool
    ensures { result ≡ list_all digit_is digits.now }
{
    digits.iter().all(|digit| *digit >= b'0' && *digit <= b'9')
}

#[tactic(auto, using(crate::proofs::NumberLemmas::least))]
fn value(digits: &[u8]) -> Option<u64>
    ensures { MatchOption result (2 ^ 64 ≤ value_after 0 digits.now) (λ n. n ≡ value_after 0 digits.now) }
{
    let mut value: u64 = 0;
    for digit in digits {
        match next(value, *digit) {
            Some(n) => value = n,
            None => return None,
        }
    }
    Some(value)
}

fn next(value: u64, digit: u8) -> Option<u64>
    ensures { MatchOption result (2 ^ 64 ≤ value * 10 + (digit - 48)) (λ n. n ≡ value * 10 + (digit - 48)) }
{
    let tens = value.checked_mul(10)?;
    tens.checked_add(u64::from(digit.saturating_sub(b'0')))
}
