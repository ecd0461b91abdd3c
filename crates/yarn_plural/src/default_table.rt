//! The default table of plural rules (docs/formats.md, Plural rules).
ghost use Rattle.std.specs.Prelude.{◌≡◌, ◌++◌, ◌∷◌, [], IfOk, OnOk};
ghost use Rattle.yarn_plural.specs.English.{english_table, relation as relation_of, rule_of_both as rule_of_both_of, rule_of_end as rule_of_end_of, rule_of_others};

use crate::rule::{Category, Listed, Operand, Relation, Rule};
use crate::table::PluralTable;
use std::alloc::Global;
use yarn_base::{List, Memory};

/// The default table: the rules of English (docs/formats.md, Plural rules).
pub fn english(alloc: Global) -> Result<PluralTable, Memory>
    ensures { IfOk result (λ table. table ≡ english_table) }
{
    let mut cardinal = List::new(alloc);
    let one = relation(alloc, Operand::I, None, true, 1)?;
    let whole = relation(alloc, Operand::V, None, true, 0)?;
    push(
        &mut cardinal,
        rule_of_both(alloc, Category::One, one, whole)?,
    )?;
    push(&mut cardinal, others(alloc))?;
    let mut ordinal = List::new(alloc);
    push(&mut ordinal, rule_of_end(alloc, Category::One, 1, 11)?)?;
    push(&mut ordinal, rule_of_end(alloc, Category::Two, 2, 12)?)?;
    push(&mut ordinal, rule_of_end(alloc, Category::Few, 3, 13)?)?;
    push(&mut ordinal, others(alloc))?;
    Ok(PluralTable { cardinal, ordinal })
}

// `n % 10 = last and n % 100 != but`
fn rule_of_end(alloc: Global, category: Category, last: u64, but: u64) -> Result<Rule, Memory>
    ensures { IfOk result (λ rule. rule ≡ rule_of_end_of category last but) }
{
    let first = relation(alloc, Operand::N, Some(10), true, last)?;
    let second = relation(alloc, Operand::N, Some(100), false, but)?;
    rule_of_both(alloc, category, first, second)
}

fn rule_of_both(
    alloc: Global,
    category: Category,
    first: Relation,
    second: Relation,
) -> Result<Rule, Memory>
    ensures { IfOk result (λ rule. rule ≡ rule_of_both_of category first second) }
{
    let mut relations = List::new(alloc);
    push(&mut relations, first)?;
    push(&mut relations, second)?;
    let mut condition = List::new(alloc);
    push(&mut condition, relations)?;
    Ok(Rule {
        category,
        condition,
    })
}

fn others(alloc: Global) -> Rule
    ensures { result ≡ rule_of_others }
{
    Rule {
        category: Category::Other,
        condition: List::new(alloc),
    }
}

fn relation(
    alloc: Global,
    operand: Operand,
    modulus: Option<u64>,
    equal: bool,
    value: u64,
) -> Result<Relation, Memory>
    ensures { IfOk result (λ relation. relation ≡ relation_of operand modulus equal value) }
{
    let mut among = List::new(alloc);
    push(&mut among, Listed::Value(value))?;
    Ok(Relation {
        operand,
        modulus,
        equal,
        among,
    })
}

fn push<T: Drop>(list: &mut List<T>, item: T) -> Result<(), Memory>
    ensures { OnOk result (list.new ≡ list.old ++ item ∷ []) }
{
    list.push(item).map_err(|_| Memory)
}
