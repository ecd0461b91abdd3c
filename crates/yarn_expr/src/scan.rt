//! Steps over a text character by character: the first one, and runs of characters of a class.
ghost use Rattle.std.specs.Prelude.{◌≡◌, ◌<◌, ◌++◌, [], ◌∷◌, length, MatchOption, IfSome, IsUtf8, encode_utf8, encode_utf8_all};
ghost use Rattle.std.specs.Str.{chars};
ghost use Rattle.yarn_expr.specs.Tokens.{front, past, passes as class_passes, StepsPast, is_blank, is_digit};
ghost use Rattle.yarn_base.specs.Name.{starts_name as starts_name_of, continues_name as continues_name_of};

/// What a run of characters is made of.
#[derive(Clone, Copy, Debug, PartialEq, Eq)]
pub enum Class {
    /// Spaces and tabs.
    Blank,
    /// Decimal digits.
    Digit,
    /// Characters that may continue a name.
    Name,
}

/// The first character, and what stands behind it.
#[tactic(auto, using(std::proofs::lemmas::Str::chars_past_char))]
pub fn first_char(text: &str) -> Option<(char, &str)>
    ensures chars { MatchOption result (chars text.now ≡ []) (λ p. chars text.now ≡ p.0 ∷ chars p.1.now) }
    ensures bytes { MatchOption result (text.now ≡ []) (λ p. text.now ≡ encode_utf8 p.0 ++ p.1.now) }
    ensures utf8 { IfSome result (λ p. IsUtf8 p.1.now) }
    ensures shorter { IfSome result (λ p. length p.1.now < length text.now) }
{
    let mut all = text.chars();
    match all.next() {
        None => None,
        Some(c) => Some((c, all.as_str())),
    }
}

pub(crate) fn starts_name(c: char) -> bool
    ensures { result ≡ starts_name_of c }
{
    unicode_ident::is_xid_start(c) || c == '_'
}

fn passes(class: Class, c: char) -> bool
    ensures { result ≡ class_passes class c }
{
    match class {
        Class::Blank => c == ' ' || c == '\t',
        Class::Digit => c >= '0' && c <= '9',
        Class::Name => unicode_ident::is_xid_continue(c) || c == '.',
    }
}

/// The longest front of characters of a class, and the rest.
pub fn cut(class: Class, text: &str) -> (&str, &str)
    ensures front { result.0.now ≡ encode_utf8_all (front (class_passes class) (chars text.now)) }
    ensures rest { chars result.1.now ≡ past (class_passes class) (chars text.now) }
    ensures utf8 { IsUtf8 result.1.now }
{
    let mut rest = text;
    while let Some(after) = past_one(class, rest) {
        rest = after;
    }
    text.split_at(text.len() - rest.len())
}

// What stands behind one character of the class.
fn past_one(class: Class, rest: &str) -> Option<&str>
    ensures { MatchOption result (past (class_passes class) (chars rest.now) ≡ chars rest.now) (λ after. StepsPast class rest.now after.now) }
{
    match first_char(rest) {
        None => None,
        Some((c, after)) => { if passes(class, c) { Some(after) } else { None } }
    }
}
