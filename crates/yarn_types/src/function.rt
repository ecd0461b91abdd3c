//! The signatures of host functions, found by their names.
ghost use Rattle.std.specs.Prelude.{◌≡◌, IfOk};
ghost use Rattle.std.specs.Option.{option_copied};
ghost use Rattle.yarn_value.specs.Signatures.{signature_named};

use std::alloc::Global;
use std::collections::BTreeMap;
use std::marker::Model;
use yarn_base::{Memory, Text};
use yarn_value::Signature;

/// Signatures, which contracts see as their list.
#[derive(Drop)]
pub(crate) struct Functions<'p> {
    signatures: &'p [Signature],
    first: BTreeMap<&'p str, &'p Signature>,
}

impl<'p> Model for Functions<'p> {
    ghost use Rattle.std.specs.Prelude.{List};
    ghost use Rattle.yarn_types.specs.FunctionMaps.{Finds};
    ghost use Rattle.yarn_value.specs.declared.signature.Signature.{Signature};

    ghost Value = { List Signature };

    ghost view = { λ f. f.signatures.now };

    ghost invariant = { λ f. Finds f.first f.signatures.now };
}

impl<'p> Functions<'p> {
    pub(crate) fn new(alloc: Global, signatures: &'p [Signature]) -> Result<Functions<'p>, Memory>
        ensures { IfOk result (λ functions. functions ≡ signatures.now) }
    {
        let mut first = BTreeMap::new(alloc);
        for signature in signatures.iter().rev() {
            first.insert(signature.name.as_str(), signature)?;
        }
        Ok(Functions { signatures, first })
    }

    /// The first signature of that name.
    pub(crate) fn find(&self, name: &Text) -> Option<&'p Signature>
        ensures { option_copied result ≡ signature_named self.now name.now }
    {
        self.first.get(name.as_str()).copied()
    }
}
