//! Variables that must have one kind form a class, which has one set of kinds.
//!
//! Only the sets at labels are looked at, so two classes that become one are met once and for all.
ghost use Rattle.std.specs.Prelude.{◌≡◌, ◌≤◌, ◌<◌, ◌+◌, length, OnOk, OnErr, IfOk};
ghost use Rattle.yarn_value.specs.Rows.{same_kind};
ghost use Rattle.yarn_types.specs.KindSets.{holds};
ghost use Rattle.yarn_types.specs.Sets.{set_at, leaves_some};
ghost use Rattle.yarn_types.specs.Typings.{kind_at};
ghost use Rattle.yarn_types.specs.Founds.{kind_in};
ghost use Rattle.yarn_types.specs.Classes.{count_of, label_of, IsFresh, Stands, IsPlaced, Narrows, Refuses};

use crate::finding::{Found, Misfit};
use crate::label::Labels;
use crate::{KindSet, Kinds, Meet};
use std::alloc::Global;
use std::sync::ledger::Ledger;
use yarn_base::{Memory, Steps};

/// The classes of a project's variables, and the kinds that each class may have.
#[derive(Drop)]
pub(crate) struct Classes {
    kinds: Kinds,
    labels: Labels,
}

impl Classes {
    /// Each variable in a class of its own, which may have each kind.
    pub(crate) fn new(alloc: Global, count: usize) -> Result<Classes, Memory>
        ensures { IfOk result (λ classes. IsFresh classes count) }
    {
        let kinds = Kinds::new(alloc, count)?;
        let labels = Labels::new(alloc, count)?;
        Ok(Classes { kinds, labels })
    }

    /// The kinds that a variable may have.
    pub(crate) fn set_of(&self, variable: usize) -> KindSet
        requires stands { Stands self.now }
        requires placed { variable < count_of self.now }
        ensures { result ≡ set_at self.now.kinds (label_of self.now variable) }
    {
        self.kinds.get(self.labels.label(variable))
    }

    /// How many variables there are.
    pub(crate) fn len(&self) -> usize
        ensures { result ≡ count_of self.now }
    {
        self.labels.len()
    }

    /// Keeps the lists in which what was found has one of these kinds.
    pub(crate) fn keep(&mut self, found: Found, kinds: KindSet) -> Result<(), Misfit>
        requires stands { Stands self.old }
        requires placed { IsPlaced self.old found }
        ensures ok { OnOk result (Narrows self.old self.new (λ typing. holds kinds (kind_in found typing))) }
        ensures err { OnErr result (Refuses self.old (λ typing. holds kinds (kind_in found typing))) }
    {
        match found {
            Found::Known(kind) => {
                if kinds.holds(kind) {
                    Ok(())
                } else {
                    Err(Misfit)
                }
            }
            Found::OfVariable(variable) => self.keep_variable(variable, kinds),
        }
    }

    fn keep_variable(&mut self, variable: usize, kinds: KindSet) -> Result<(), Misfit>
        requires stands { Stands self.old }
        requires placed { variable < count_of self.old }
        ensures ok { OnOk result (Narrows self.old self.new (λ typing. holds kinds (kind_at typing variable))) }
        ensures err { OnErr result (Refuses self.old (λ typing. holds kinds (kind_at typing variable))) }
    {
        let label = self.labels.label(variable);
        if leaves_some(self.kinds.keep(label, kinds)) {
            Ok(())
        } else {
            Err(Misfit)
        }
    }

    /// Keeps the lists in which both have one kind.
    pub(crate) fn alike<L: Ledger>(
        &mut self,
        one: Found,
        other: Found,
        steps: &mut Steps<L>,
    ) -> Result<(), Misfit>
        requires stands { Stands self.old }
        requires one { IsPlaced self.old one }
        requires other { IsPlaced self.old other }
        ensures ok { OnOk result (Narrows self.old self.new (λ typing. same_kind (kind_in one typing) (kind_in other typing))) }
        ensures err { OnErr result (Refuses self.old (λ typing. same_kind (kind_in one typing) (kind_in other typing))) }
        ensures steps { steps.new ≤ steps.old + 1 }
    {
        match (one, other) {
            (Found::Known(kind), _) => self.keep(other, KindSet::only(kind)),
            (_, Found::Known(kind)) => self.keep(one, KindSet::only(kind)),
            (Found::OfVariable(first), Found::OfVariable(second)) => {
                self.join(first, second, steps)
            }
        }
    }

    /// Makes one class of the classes of two variables. The smaller class goes into the larger one.
    fn join<L: Ledger>(
        &mut self,
        one: usize,
        other: usize,
        steps: &mut Steps<L>,
    ) -> Result<(), Misfit>
        requires stands { Stands self.old }
        requires one { one < count_of self.old }
        requires other { other < count_of self.old }
        ensures ok { OnOk result (Narrows self.old self.new (λ typing. same_kind (kind_at typing one) (kind_at typing other))) }
        ensures err { OnErr result (Refuses self.old (λ typing. same_kind (kind_at typing one) (kind_at typing other))) }
        ensures steps { steps.new ≤ steps.old + 1 }
    {
        let label = self.labels.label(one);
        let gone = self.labels.label(other);
        if label == gone {
            Ok(())
        } else if self.labels.is_smaller(label, gone) {
            self.unite(gone, label, steps)
        } else {
            self.unite(label, gone, steps)
        }
    }

    /// Puts the class of one label into that of another.
    fn unite<L: Ledger>(
        &mut self,
        label: usize,
        gone: usize,
        steps: &mut Steps<L>,
    ) -> Result<(), Misfit>
        requires stands { Stands self.old }
        requires label { label < count_of self.old }
        requires gone { gone < count_of self.old }
        requires label_settled { label_of self.old label ≡ label }
        requires gone_settled { label_of self.old gone ≡ gone }
        requires apart { label ≡ gone → ⊥ }
        ensures ok { OnOk result (Narrows self.old self.new (λ typing. same_kind (kind_at typing label) (kind_at typing gone))) }
        ensures err { OnErr result (Refuses self.old (λ typing. same_kind (kind_at typing label) (kind_at typing gone))) }
        ensures steps { steps.new ≤ steps.old + 1 }
    {
        if leaves_some(self.kinds.meet(label, gone, steps)) {
            self.labels.join(label, gone);
            Ok(())
        } else {
            Err(Misfit)
        }
    }
}

fn leaves_some(meet: Meet) -> bool
    ensures { result ≡ leaves_some meet }
{
    match meet {
        Meet::Same | Meet::Narrowed => true,
        Meet::Empty => false,
    }
}
