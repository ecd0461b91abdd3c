//! The numbers of a variables file (docs/formats.md, Variables file).
ghost use Rattle.std.specs.Prelude.{MatchOption, ◌≡◌};
ghost use Rattle.yarn_store.specs.Variables.{SpellsNumber};
ghost use Rattle.yarn_store.specs.Steps.{IsNumber, begins_plainly as begins_plainly_of};

/// The number of 64 bits that a text spells in the one way that a file has.
pub(crate) fn read_number(text: &str) -> Option<i64>
    ensures { MatchOption result (¬ IsNumber text.now) (λ n. SpellsNumber text.now n) }
{
    if begins_plainly(text.as_bytes()) {
        text.parse().ok()
    } else {
        None
    }
}

// Whether it begins with no `+`, no `-0` and no zero before a further byte.
fn begins_plainly(text: &[u8]) -> bool
    ensures { result ≡ begins_plainly_of text.now }
{
    match text {
        [b'+', ..] | [b'-', b'0', ..] | [b'0', _, ..] => false,
        _ => true,
    }
}
