//! Labels of variables: two variables have one label exactly where they are in one class.
//!
//! A class is named by one of its variables, its label. Its members are linked, so that joining two classes goes over
//! the members of the smaller one alone: each variable is given a new label at most as often as its class doubles.
ghost use Rattle.std.specs.Prelude.{◌≡◌, ◌<◌, length, map, IfOk, true};
ghost use Rattle.yarn_types.specs.Labels.{nth, below, IsEachItsOwn, renamed, walk, relabelled};

use std::alloc::Global;
use std::marker::Model;
use yarn_base::Memory;

/// The label of each variable, which contracts see as their list.
#[derive(Drop)]
pub(crate) struct Labels {
    labels: Vec<usize>,
    /// For each label the first of its class's members.
    heads: Vec<usize>,
    /// For each member the next one; the label is the last.
    next: Vec<usize>,
    /// For each label how many members its class has, and 0 for any other variable.
    sizes: Vec<usize>,
}

impl Model for Labels {
    ghost use Rattle.std.specs.Prelude.{List, ℕ};
    ghost use Rattle.yarn_types.specs.Labels.{Linked};

    ghost Value = { List ℕ };

    ghost view = { λ l. l.labels.items };

    ghost invariant = { λ l. Linked l.labels.items l.heads.items l.next.items l.sizes.items };
}

impl Labels {
    /// Each variable in a class of its own.
    pub(crate) fn new(alloc: Global, count: usize) -> Result<Labels, Memory>
        ensures { IfOk result (λ labels. IsEachItsOwn labels count) }
    {
        Ok(Labels {
            labels: numbers(alloc, count)?,
            heads: numbers(alloc, count)?,
            next: numbers(alloc, count)?,
            sizes: vec![in alloc; 1; count]?,
        })
    }

    /// How many variables there are.
    pub(crate) fn len(&self) -> usize
        ensures { result ≡ length self.now }
    {
        self.labels.len()
    }

    /// The variable that stands for a variable's class.
    pub(crate) fn label(&self, variable: usize) -> usize
        requires { variable < length self.now }
        ensures { result ≡ nth self.now variable }
    {
        self.labels[variable]
    }

    /// Whether the class of the first label has fewer members than that of the other.
    pub(crate) fn is_smaller(&self, one: usize, other: usize) -> bool
        requires one { one < length self.now }
        requires other { other < length self.now }
    {
        self.sizes[one] < self.sizes[other]
    }

    /// Puts the members of the class of `gone` into that of `label`.
    pub(crate) fn join(&mut self, label: usize, gone: usize)
        requires label { label < length self.old }
        requires gone { gone < length self.old }
        requires label_settled { nth self.old label ≡ label }
        requires gone_settled { nth self.old gone ≡ gone }
        requires apart { label ≡ gone → ⊥ }
        ensures { self.new ≡ map (renamed gone label) self.old }
    {
        relabel(
            &mut self.labels,
            &self.next,
            self.heads[gone],
            self.sizes[gone],
            label,
        );
        self.next[gone] = self.heads[label];
        self.heads[label] = self.heads[gone];
        self.sizes[label] += self.sizes[gone];
        self.sizes[gone] = 0;
    }
}

/// The numbers from 0 below the count.
fn numbers(alloc: Global, count: usize) -> Result<Vec<usize>, Memory>
    ensures { IfOk result (λ numbers. IsEachItsOwn numbers.items count) }
{
    let mut numbers = Vec::new(alloc);
    for number in 0..count {
        numbers.push(number)?;
    }
    Ok(numbers)
}

/// Gives the label to so many variables, from one of them on by the links.
fn relabel(labels: &mut Vec<usize>, next: &Vec<usize>, from: usize, count: usize, label: usize)
    requires inside { below (length labels.old.items) (walk next.now.items from count) ≡ true }
    requires long { length next.now.items ≡ length labels.old.items }
    ensures { labels.new.items ≡ relabelled labels.old.items label (walk next.now.items from count) }
{
    let mut one = from;
    for _ in 0..count {
        labels[one] = label;
        one = next[one];
    }
}
