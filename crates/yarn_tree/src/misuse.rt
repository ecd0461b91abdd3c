//! Uses that are refused by their names.
ghost use Rattle.std.specs.Prelude.{◌≡◌, map, IfOk};
ghost use Rattle.yarn_tree.specs.Checks.{first_use, is_reserved, is_reserved_name, is_unknown_title, is_unknown_function, has_wrong_count, declarations_in};
ghost use Rattle.yarn_tree.specs.Names.{has, no_sight, sees_all};
ghost use Rattle.yarn_tree.specs.Uses.{use_of, use_at};

use crate::functions::Functions;
use crate::names::{Names, Seen};
use crate::uses::{Used, UsedAt};
use std::alloc::Global;
use yarn_base::{Memory, Place, Text};

/// The first variable whose name is kept for the language.
pub(crate) fn first_reserved(uses: &[UsedAt]) -> Option<Place>
    ensures { result ≡ first_use is_reserved (map use_at uses.now) }
{
    for one in uses {
        if is_reserved(one.used) {
            return Some(one.place);
        }
    }
    None
}

fn is_reserved(used: Used) -> bool
    ensures { result ≡ is_reserved (use_of used.entry) }
{
    match used {
        Used::Variable(name) => is_reserved_name(name),
        Used::Declaration(name) => is_reserved_name(name),
        Used::Title(_) | Used::Function(_, _) => false,
    }
}

fn is_reserved_name(name: &Text) -> bool
    ensures { result ≡ is_reserved_name name.now }
{
    name.as_str().as_bytes().starts_with(b"$Yarn.Internal.")
}

/// The place of the first variable that is declared again.
pub(crate) fn second_declaration(alloc: Global, uses: &[UsedAt]) -> Result<Option<Place>, Memory>
    ensures { IfOk result (λ again. again ≡ (sees_all no_sight (declarations_in (map use_at uses.now))).again) }
{
    let mut seen = Seen::new(alloc);
    for one in uses {
        if let Used::Declaration(name) = one.used {
            seen.see(name.as_str(), one.place)?;
        }
    }
    Ok(seen.again)
}

/// The first jump to a title that isn't known.
pub(crate) fn first_unknown_title(known: &Names, uses: &[UsedAt]) -> Option<Place>
    ensures { result ≡ first_use (is_unknown_title (has known.now)) (map use_at uses.now) }
{
    for one in uses {
        if is_unknown_title(known, one.used) {
            return Some(one.place);
        }
    }
    None
}

fn is_unknown_title(known: &Names, used: Used) -> bool
    ensures { result ≡ is_unknown_title (has known.now) (use_of used.entry) }
{
    match used {
        Used::Title(title) => !known.contains(title.as_str()),
        Used::Variable(_) | Used::Declaration(_) | Used::Function(_, _) => false,
    }
}

/// The first call of a function that there isn't.
pub(crate) fn first_unknown_function(functions: &Functions, uses: &[UsedAt]) -> Option<Place>
    ensures { result ≡ first_use (is_unknown_function functions.now) (map use_at uses.now) }
{
    for one in uses {
        if is_unknown_function(functions, one.used) {
            return Some(one.place);
        }
    }
    None
}

fn is_unknown_function(functions: &Functions, used: Used) -> bool
    ensures { result ≡ is_unknown_function functions.now (use_of used.entry) }
{
    match used {
        Used::Function(name, _) => functions.arity_of(name).is_none(),
        Used::Variable(_) | Used::Declaration(_) | Used::Title(_) => false,
    }
}

/// The first call with another number of arguments than the function has.
pub(crate) fn first_wrong_count(functions: &Functions, uses: &[UsedAt]) -> Option<Place>
    ensures { result ≡ first_use (has_wrong_count functions.now) (map use_at uses.now) }
{
    for one in uses {
        if has_wrong_count(functions, one.used) {
            return Some(one.place);
        }
    }
    None
}

fn has_wrong_count(functions: &Functions, used: Used) -> bool
    ensures { result ≡ has_wrong_count functions.now (use_of used.entry) }
{
    match used {
        Used::Function(name, count) => match functions.arity_of(name) {
            Some(arity) => arity != count,
            None => false,
        },
        Used::Variable(_) | Used::Declaration(_) | Used::Title(_) => false,
    }
}
