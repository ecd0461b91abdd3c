//! The one typing of a project's lines.
ghost use Rattle.std.specs.Prelude.{◌≡◌, ◌≤◌, ◌+◌, ◌*◌, IfOk, IfErr, length, map};
ghost use Rattle.yarn_types.specs.Classes.{count_of, Stands, IsAlone};
ghost use Rattle.yarn_types.specs.Firsts.{appearance_of};
ghost use Rattle.yarn_types.specs.Units.{unit_of, units_size};
ghost use Rattle.yarn_types.specs.Stops.{ReadsOpen};
ghost use Rattle.yarn_types.specs.Typings.{IsOneTyping, Explains, kinds_in, names_in_entries};

use crate::asking::keep_units;
use crate::class::Classes;
use crate::collection::variables;
use crate::expression::Scope;
use crate::function::Functions;
use crate::name::First;
use crate::{TypeFault, TypeUnit, TypedName, Typing};
use std::alloc::Global;
use std::sync::ledger::Ledger;
use yarn_base::{List, Steps};
use yarn_value::Signatures;

/// The one typing that fits all lines, which stand in order of the project's text, or why there is none
/// (docs/language.md, Typing). Sets of kinds are narrowed; no typing is tried.
pub fn infer_units<L: Ledger>(
    alloc: Global,
    units: &[TypeUnit<'_>],
    signatures: &Signatures,
    steps: &mut Steps<L>,
) -> Result<Typing, TypeFault>
    ensures ok { IfOk result (λ typing. IsOneTyping signatures.now (map unit_of units.now) typing) }
    ensures err { IfErr result (λ fault. Explains signatures.now (map unit_of units.now) fault) }
    ensures steps { steps.new ≤ steps.old + 16 * units_size (map unit_of units.now) }
{
    let names = variables(alloc, units)?;
    let functions = Functions::new(alloc, signatures.as_slice())?;
    let mut classes = Classes::new(alloc, names.len())?;
    let scope = Scope { names, functions };
    match keep_units(units, &scope, &mut classes, steps) {
        Ok(()) => read_off(alloc, scope.names.as_slice(), &classes),
        Err(place) => Err(TypeFault::NoTyping(place)),
    }
}

/// The kind of each variable where each has one, or the first variable that may have more.
fn read_off(alloc: Global, firsts: &[First<'_>], classes: &Classes) -> Result<Typing, TypeFault>
    requires stands { Stands classes.now }
    requires counted { length firsts.now ≡ count_of classes.now }
    ensures ok { IfOk result (λ typing. IsAlone classes.now (kinds_in typing.entries)) }
    ensures named { IfOk result (λ typing. names_in_entries typing.entries ≡ map (λ first. first.name.now) firsts.now) }
    ensures err { IfErr result (λ fault. ReadsOpen classes.now (map appearance_of firsts.now) fault) }
{
    let mut entries = List::new(alloc);
    for (variable, first) in firsts.iter().enumerate() {
        match classes.set_of(variable).lone() {
            Some(kind) => {
                let name = first.name.copy()?;
                match entries.push(TypedName { name, kind }) {
                    Ok(()) => {}
                    Err(_) => return Err(TypeFault::Memory),
                }
            }
            None => return Err(TypeFault::ManyTypings(first.name.copy()?, first.place)),
        }
    }
    Ok(Typing { entries })
}
