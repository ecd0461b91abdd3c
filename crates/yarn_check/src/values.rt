//! Values that an instruction takes.
ghost use Rattle.std.specs.Prelude.{◌≡◌, [], ◌∷◌, ℕ, suc, List, None, IfOk, MatchOption, map, reverse, if◌then◌else◌};
ghost use Rattle.yarn_check.specs.Shapes as spec;
ghost use Rattle.yarn_value.specs.declared.value.Kind.{Kind as AKind};
ghost use Rattle.yarn_check.specs.Views.{entry_of};

use crate::ShapeEntry;
use smallvec::SmallVec;
use std::alloc::Global;
use yarn_base::Memory;
use yarn_value::Kind;

/// Takes so many values, and gives their kinds, that of the top last; none where one is no value.
pub(crate) fn take(
    alloc: Global,
    entries: &mut SmallVec<ShapeEntry, 8>,
    count: u8,
) -> Result<Option<Vec<Kind>>, Memory>
    ensures { IfOk result (λ r. (go : List AKind → List spec.ShapeEntry → spec.Flow) →
        MatchOption r (spec.take_kinds count [] (reverse (map entry_of entries.old.items)) go ≡ None)
        (λ kinds. spec.take_kinds count [] (reverse (map entry_of entries.old.items)) go ≡ go kinds.items (reverse (map entry_of entries.new.items)))) }
{
    let mut kinds = Vec::new(alloc);
    for _ in 0..count {
        match pop_kind(entries) {
            Some(kind) => kinds.push(kind)?,
            None => return Ok(None),
        }
    }
    kinds.as_mut_slice().reverse();
    Ok(Some(kinds))
}

// Takes a value, and gives its kind.
fn pop_kind(entries: &mut SmallVec<ShapeEntry, 8>) -> Option<Kind>
    ensures { (go : List AKind → List spec.ShapeEntry → spec.Flow) (kinds : List AKind) (more : ℕ) →
        MatchOption result (spec.take_kinds (suc more) kinds (reverse (map entry_of entries.old.items)) go ≡ None)
        (λ kind. spec.take_kinds (suc more) kinds (reverse (map entry_of entries.old.items)) go ≡ spec.take_kinds more (kind ∷ kinds) (reverse (map entry_of entries.new.items)) go) }
{
    match entries.pop() {
        Some(ShapeEntry::Number) => Some(Kind::Number),
        Some(ShapeEntry::Str) => Some(Kind::Str),
        Some(ShapeEntry::Truth) => Some(Kind::Truth),
        Some(ShapeEntry::Null) => None,
        Some(ShapeEntry::Destination(_)) => None,
        None => None,
    }
}

/// Takes a truth where it is wanted, and says whether it could.
pub(crate) fn take_truth(entries: &mut SmallVec<ShapeEntry, 8>, wanted: bool) -> bool
    ensures { (go : List spec.ShapeEntry → spec.Flow) → spec.on_condition wanted (reverse (map entry_of entries.old.items)) go ≡ (if result then go (reverse (map entry_of entries.new.items)) else None) }
{
    if wanted {
        match entries.pop() {
            Some(ShapeEntry::Truth) => true,
            Some(ShapeEntry::Number) => false,
            Some(ShapeEntry::Str) => false,
            Some(ShapeEntry::Null) => false,
            Some(ShapeEntry::Destination(_)) => false,
            None => false,
        }
    } else {
        true
    }
}
