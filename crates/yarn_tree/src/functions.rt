//! How many arguments functions have: the builtins, and those of the game.
ghost use Rattle.std.specs.Prelude.{◌≡◌, IfOk};
ghost use Rattle.yarn_value.specs.Builtins.{row_of};
ghost use Rattle.yarn_value.specs.Signatures.{row_arity, declared_arity, arity_of};

use std::alloc::Global;
use std::collections::BTreeMap;
use std::marker::Model;
use yarn_base::{Memory, Text};
use yarn_value::{Builtin, Signature, find_builtin};

/// The functions of the game beside the builtins, which contracts see as their signatures.
#[derive(Drop)]
pub(crate) struct Functions<'a> {
    signatures: &'a [Signature],
    arities: BTreeMap<&'a str, usize>,
}

impl<'a> Model for Functions<'a> {
    ghost use Rattle.std.specs.Prelude.{List};
    ghost use Rattle.yarn_value.specs.declared.signature.Signature.{Signature};
    ghost use Rattle.yarn_tree.specs.Arities.{HasArities};

    ghost Value = { List Signature };

    ghost view = { λ f. f.signatures.now };

    ghost invariant = { λ f. HasArities f.arities f.signatures.now };
}

impl<'a> Functions<'a> {
    pub(crate) fn new(alloc: Global, signatures: &'a [Signature]) -> Result<Functions<'a>, Memory>
        ensures { IfOk result (λ functions. functions ≡ signatures.now) }
    {
        let mut arities = BTreeMap::new(alloc);
        for signature in signatures.iter().rev() {
            arities.insert(signature.name.as_str(), signature.params.len())?;
        }
        Ok(Functions {
            signatures,
            arities,
        })
    }

    /// How many arguments the function of that name has.
    pub(crate) fn arity_of(&self, name: &Text) -> Option<usize>
        ensures { result ≡ arity_of self.now name.now }
    {
        match find_builtin(name.as_str()) {
            Some(row) => Some(builtin_arity(row)),
            None => self.declared(name),
        }
    }

    fn declared(&self, name: &Text) -> Option<usize>
        ensures { result ≡ declared_arity self.now name.now }
    {
        self.arities.get(name.as_str()).copied()
    }
}

fn builtin_arity(row: Builtin) -> usize
    ensures { result ≡ row_arity (row_of row) }
{
    usize::from(row.first.is_some()) + usize::from(row.second.is_some())
}
