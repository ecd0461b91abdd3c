//! A plural rule as it is read: a category and its condition, a list of lists of relations.
ghost use Rattle.std.specs.Prelude.{◌≡◌};
ghost use Rattle.std.specs.List.{list_any};
ghost use Rattle.yarn_plural.specs.Category.{operand_of, reduced, is_listed, holds_relation, holds_together, holds_condition};

use yarn_base::List;

/// The category of a number, by which a text chooses its form.
#[derive(Clone, Copy, Debug, PartialEq, Eq)]
pub enum Category {
    Zero,
    One,
    Two,
    Few,
    Many,
    /// That of a number for which no rule holds.
    Other,
}

/// The letter of an operand. What it is of a whole number is docs/formats.md, Plural rules.
#[derive(Clone, Copy, Debug, PartialEq, Eq)]
pub enum Operand {
    N,
    I,
    V,
    W,
    F,
    T,
    C,
    E,
}

/// What may stand in the list of a relation.
#[derive(Clone, Copy, Debug, PartialEq, Eq)]
pub enum Listed {
    /// One value.
    Value(u64),
    /// The values from the first to the last, both with. There are none where the first is the larger.
    Range(u64, u64),
}

/// A relation, as `n % 10 = 2..4`.
#[derive(Debug, Drop)]
pub struct Relation {
    /// What is compared.
    pub operand: Operand,
    /// By what it is divided first, where the remainder is compared. No file gives 0.
    pub modulus: Option<u64>,
    /// `true` for `=`, `false` for `!=`.
    pub equal: bool,
    /// With what it is compared.
    pub among: List<Listed>,
}

/// A rule of a form.
#[derive(Debug, Drop)]
pub struct Rule {
    /// The category of the numbers for which the condition holds.
    pub category: Category,
    /// It holds where all relations of one of its lists hold. That of `other` is empty and never holds.
    pub condition: List<List<Relation>>,
}

impl Operand {
    fn of(self, absolute: u64) -> u64
        ensures { result ≡ operand_of self absolute }
    {
        match self {
            Operand::N | Operand::I => absolute,
            Operand::V | Operand::W | Operand::F | Operand::T | Operand::C | Operand::E => 0,
        }
    }
}

impl Listed {
    fn contains(self, value: u64) -> bool
        ensures { result ≡ is_listed value self }
    {
        match self {
            Listed::Value(only) => value == only,
            Listed::Range(first, last) => first <= value && value <= last,
        }
    }
}

impl Relation {
    fn holds(&self, absolute: u64) -> bool
        ensures { result ≡ holds_relation absolute self.now }
    {
        let value = remainder(self.operand.of(absolute), self.modulus);
        let found = contain(&self.among, value);
        if self.equal { found } else { !found }
    }
}

fn contain(among: &List<Listed>, value: u64) -> bool
    ensures { result ≡ list_any (is_listed value) among.now }
{
    among.as_slice().iter().any(|listed| listed.contains(value))
}

fn remainder(value: u64, modulus: Option<u64>) -> u64
    ensures { result ≡ reduced modulus value }
{
    match modulus {
        Some(modulus) if modulus != 0 => value % modulus,
        _ => value,
    }
}

impl Rule {
    /// Whether the rule's condition holds of the whole number with this absolute value.
    pub(crate) fn holds(&self, absolute: u64) -> bool
        ensures { result ≡ holds_condition absolute self.now.condition }
    {
        self.condition
            .as_slice()
            .iter()
            .any(|relations| hold_together(relations, absolute))
    }
}

fn hold_together(relations: &List<Relation>, absolute: u64) -> bool
    ensures { result ≡ holds_together absolute relations.now }
{
    relations
        .as_slice()
        .iter()
        .all(|relation| relation.holds(absolute))
}
