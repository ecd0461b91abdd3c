//! Where a substitution ends.
ghost use Rattle.std.specs.Prelude.{◌≡◌, ◌+◌, ◌<◌, length, take, drop, MatchOption, IfSome, None, Some};
ghost use Rattle.yarn_items.specs.Brace.{Cut, is_end, place_behind, to_brace};

/// Where a character of a substitution stands.
#[derive(Clone, Copy)]
pub(crate) enum Place {
    /// Outside its quoted strings.
    Outside,
    /// In a quoted string.
    Quoted,
    /// In a quoted string, behind the `\` that skips this character.
    Skipping,
}

/// How many bytes stand before the `}` that ends a substitution, behind its `{`.
pub(crate) fn length_to_brace(bytes: &[u8]) -> Option<usize>
    ensures cut { MatchOption result (to_brace Place.Outside bytes.now ≡ None)
        (λ n. to_brace Place.Outside bytes.now ≡ Some (record { inside = take n bytes.now; rest = drop (n + 1) bytes.now })) }
    ensures within { IfSome result (λ n. n < length bytes.now) }
{
    let mut place = Place::Outside;
    for (at, byte) in bytes.iter().enumerate() {
        if is_end_byte(place, *byte) {
            return Some(at);
        }
        place = place_after(place, *byte);
    }
    None
}

fn is_end_byte(place: Place, byte: u8) -> bool
    ensures { result ≡ is_end place byte }
{
    match place {
        Place::Outside => byte == b'}',
        Place::Quoted | Place::Skipping => false,
    }
}

fn place_after(place: Place, byte: u8) -> Place
    ensures { result ≡ place_behind place byte }
{
    match (place, byte) {
        (Place::Outside, b'"') => Place::Quoted,
        (Place::Outside, _) => Place::Outside,
        (Place::Quoted, b'"') => Place::Outside,
        (Place::Quoted, b'\\') => Place::Skipping,
        (Place::Quoted, _) | (Place::Skipping, _) => Place::Quoted,
    }
}
