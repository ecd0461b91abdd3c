//! What single words of a command may stand for.
ghost use Rattle.std.specs.Prelude.{◌≡◌, ◌<◌, ◌≤◌, IfSome, MatchOption};
ghost use Rattle.std.specs.List.{list_all};
ghost use Rattle.yarn_cli.specs.CommandLine.{fits_form};
ghost use Rattle.yarn_cli.specs.Words.{is_digit, is_name_word, is_number, number_behind, number_in};

/// The most bytes of a name.
const NAME_LIMIT: usize = 65536;

/// The most digits of a number.
const DIGIT_LIMIT: usize = 20;

/// What may be given under a name.
#[derive(Clone, Copy, Debug, PartialEq, Eq)]
pub(crate) enum Form {
    /// A title or a file.
    Name,
    /// A number from the first to the second.
    Number(u64, u64),
}

/// Whether the word may be given there.
pub(crate) fn fits(form: Form, word: &str) -> bool
    ensures { result ≡ fits_form form word.now }
{
    match form {
        Form::Name => is_name_word_str(word),
        Form::Number(least, most) => number_in_word(word, least, most).is_some(),
    }
}

/// Whether the word may stand for a name or a file.
pub(crate) fn is_name_word_str(word: &str) -> bool
    ensures { result ≡ is_name_word word.now }
{
    match word.as_bytes() {
        [] => false,
        [first, ..] => *first != b'-' && word.len() <= NAME_LIMIT,
    }
}

/// The number that the word gives, where it is one from `least` to `most`.
pub(crate) fn number_in_word(word: &str, least: u64, most: u64) -> Option<u64>
    ensures number { result ≡ number_in least most word.now }
    ensures within { IfSome result (λ number. number ≤ most) }
{
    if !is_number_str(word) {
        return None;
    }
    match number_up_to(word.as_bytes(), most) {
        Some(number) if least <= number => Some(number),
        _ => None,
    }
}

// The number of digits, where it is at most that.
fn number_up_to(digits: &[u8], most: u64) -> Option<u64>
    ensures { MatchOption result (most < number_behind 0 digits.now)
        (λ n. (n ≡ number_behind 0 digits.now) × (n ≤ most)) }
{
    let mut number = 0u64;
    for byte in digits {
        let more = u128::from(number) * 10 + u128::from(byte.saturating_sub(b'0'));
        if more > u128::from(most) {
            return None;
        }
        number = more as u64;
    }
    Some(number)
}

fn is_number_str(word: &str) -> bool
    ensures { result ≡ is_number word.now }
{
    0 < word.len() && word.len() <= DIGIT_LIMIT && has_only_digits(word)
}

fn has_only_digits(word: &str) -> bool
    ensures { result ≡ list_all is_digit word.now }
{
    word.as_bytes()
        .iter()
        .all(|byte| b'/' < *byte && *byte < b':')
}
