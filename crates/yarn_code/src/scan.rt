//! Finds the number of a line whose bytes come one by one.
ghost use Rattle.std.specs.Prelude.{◌≡◌, ◌≤◌, ◌<◌, ◌^◌};
ghost use Rattle.yarn_value.specs.Numbers.{is_digit as digit_is};
ghost use Rattle.yarn_code.specs.Answer.{is_blank as blank_is};
ghost use Rattle.yarn_code.specs.Scan.{Fits, scanned, with_digit as digit_added, scan_number};

// How many digits a number has at most.
const MAX_DIGITS: u32 = 9;

/// What is known of a line by the bytes so far.
#[derive(Clone, Copy, Debug, PartialEq, Eq)]
pub(crate) enum Scan {
    /// Only blanks.
    Blank,
    /// Digits behind the blanks: their value, and how many they are.
    Digits(u32, u32),
    /// Blanks behind the digits of this value.
    Behind(u32),
    /// No number.
    Bad,
}

impl Scan {
    /// What is known with one more byte.
    pub fn after(self, byte: u8) -> Scan
        requires { Fits self }
        ensures next { result ≡ scanned self byte }
        ensures fits { Fits result }
    {
        let blank = is_blank(byte);
        match self {
            Scan::Blank if blank => Scan::Blank,
            Scan::Blank => with_digit(0, 0, byte),
            Scan::Digits(value, _) if blank => Scan::Behind(value),
            Scan::Digits(value, count) => with_digit(value, count, byte),
            Scan::Behind(value) if blank => Scan::Behind(value),
            Scan::Behind(_) | Scan::Bad => Scan::Bad,
        }
    }

    /// The number of the line that ends here; 0 where it is none.
    pub fn number(self) -> u32
        ensures { result ≡ scan_number self }
    {
        match self {
            Scan::Digits(value, _) | Scan::Behind(value) => value,
            Scan::Blank | Scan::Bad => 0,
        }
    }
}

fn with_digit(value: u32, count: u32, byte: u8) -> Scan
    requires value { value < 10 ^ count }
    requires count { count ≤ 9 }
    ensures next { result ≡ digit_added value count byte }
    ensures fits { Fits result }
{
    if is_digit(byte) && count < MAX_DIGITS {
        Scan::Digits(value * 10 + u32::from(byte - b'0'), count + 1)
    } else {
        Scan::Bad
    }
}

fn is_digit(byte: u8) -> bool
    ensures { result ≡ digit_is byte }
{
    byte >= b'0' && byte <= b'9'
}

#[tactic(auto, unfolding(crate::specs::Answer::is_blank))]
fn is_blank(byte: u8) -> bool
    ensures { result ≡ blank_is byte }
{
    byte == b' ' || byte == b'\t' || byte == b'\r'
}
