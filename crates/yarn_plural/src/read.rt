//! Reads a plural file line by line.
ghost use Rattle.std.specs.Prelude.{◌≡◌, ◌≤◌, [], None, IfOk, OnOk, length};
ghost use Rattle.yarn_plural.specs.Reading.{ReadsPlural, same_category as same_category_of, has_category as has_category_of};
ghost use Rattle.yarn_plural.specs.ReadingSteps.{after_rule, Adds};

use crate::line::{Line, read_line};
use crate::lines::first_line;
use crate::rule::{Category, Rule};
use crate::table::{Form, PluralTable};
use std::alloc::Global;
use yarn_base::{List, Memory};

/// Why a plural file gives no table.
#[derive(Clone, Copy, Debug, PartialEq, Eq)]
pub enum PluralFault {
    /// The first line, from 1, that isn't read, as `one i = 1`. It comes before every `DuplicateCategory`.
    BadRule(u32),
    /// The first line, from 1, whose category its form has already.
    DuplicateCategory(u32),
    /// Want of memory.
    Memory,
}

impl From<Memory> for PluralFault {
    ghost use Rattle.std.specs.Prelude.{◌≡◌};
    ghost use Rattle.yarn_plural.specs.declared.read.PluralFault.TheVariants.{Memory};

    ghost from_gives = { λ _ e. e ≡ Memory };

    fn from(_: Memory) -> PluralFault {
        PluralFault::Memory
    }
}

/// The table of a plural file, or its first line that is refused (docs/formats.md, Plural rules).
pub fn read_plural(alloc: Global, bytes: &List<u8>) -> Result<PluralTable, PluralFault>
    requires { length bytes.now ≤ 1073741824 }
    ensures { ReadsPlural bytes.now result }
{
    let mut reader = Reader::new(alloc);
    let mut number = 1;
    let mut rest = bytes.as_slice();
    while !rest.is_empty() {
        let (line, after) = first_line(rest);
        let Some(found) = read_line(alloc, line)? else {
            return Err(PluralFault::BadRule(number));
        };
        if !reader.add(found, number)? {
            return Err(PluralFault::BadRule(number));
        }
        number += 1;
        rest = after;
    }
    match reader.repeated {
        Some(repeated) => Err(PluralFault::DuplicateCategory(repeated)),
        None => Ok(reader.table),
    }
}

// What the lines so far give.
#[derive(Debug, Drop)]
struct Reader {
    table: PluralTable,
    // The form in which the next line stands.
    form: Option<Form>,
    // The first line whose category its form had already.
    repeated: Option<u32>,
}

impl Reader {
    fn new(alloc: Global) -> Reader
        ensures cardinal { result.table.cardinal ≡ [] }
        ensures ordinal { result.table.ordinal ≡ [] }
        ensures form { result.form ≡ None }
        ensures repeated { result.repeated ≡ None }
    {
        let table = PluralTable {
            cardinal: List::new(alloc),
            ordinal: List::new(alloc),
        };
        Reader {
            table,
            form: None,
            repeated: None,
        }
    }

    // Takes the line in, and says whether it may stand there.
    fn add(&mut self, line: Line, number: u32) -> Result<bool, Memory>
        ensures { IfOk result (λ added. Adds self.old line number self.new added) }
    {
        match line {
            Line::Ignored => Ok(true),
            Line::Begins(form) => {
                self.form = Some(form);
                Ok(true)
            }
            Line::Gives(rule) => {
                let Some(form) = self.form else {
                    return Ok(false);
                };
                self.add_rule(form, rule, number)?;
                Ok(true)
            }
        }
    }

    fn add_rule(&mut self, form: Form, rule: Rule, number: u32) -> Result<(), Memory>
        ensures { OnOk result (self.new ≡ after_rule self.old form rule number) }
    {
        if self.repeated.is_none() && has_category(self.table.rules(form), rule.category) {
            self.repeated = Some(number);
        }
        let pushed = match form {
            Form::Cardinal => self.table.cardinal.push(rule),
            Form::Ordinal => self.table.ordinal.push(rule),
        };
        pushed.map_err(|_| Memory)
    }
}

fn has_category(rules: &List<Rule>, category: Category) -> bool
    ensures { result ≡ has_category_of category rules.now }
{
    rules
        .as_slice()
        .iter()
        .any(|rule| same_category(rule.category, category))
}

fn same_category(one: Category, other: Category) -> bool
    ensures { result ≡ same_category_of one other }
{
    one == other
}
