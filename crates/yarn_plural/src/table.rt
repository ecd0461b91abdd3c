//! The rules of both forms.
ghost use Rattle.std.specs.Prelude.{◌≡◌};
ghost use Rattle.yarn_plural.specs.Category.{rules_of, first_category, category_of};

use crate::rule::{Category, Rule};
use yarn_base::List;

/// What a number counts: how many there are, or the place of one.
#[derive(Clone, Copy, Debug, PartialEq, Eq)]
pub enum Form {
    Cardinal,
    Ordinal,
}

/// The rules of a language, for each form in the order in which they are tried.
#[derive(Debug, Drop)]
pub struct PluralTable {
    /// The rules of cardinal numbers.
    pub cardinal: List<Rule>,
    /// The rules of ordinal numbers.
    pub ordinal: List<Rule>,
}

impl PluralTable {
    /// The category of a number: that of the form's first rule that holds, and `Other` where none does
    /// (docs/formats.md, Plural rules). It takes no memory.
    pub fn category(&self, n: i64, form: Form) -> Category
        ensures { result ≡ category_of self.now form n }
    {
        first_that_holds(self.rules(form).as_slice(), n.unsigned_abs())
    }

    /// The rules of a form.
    pub(crate) fn rules(&self, form: Form) -> &List<Rule>
        ensures { result.now ≡ rules_of self.now form }
    {
        match form {
            Form::Cardinal => &self.cardinal,
            Form::Ordinal => &self.ordinal,
        }
    }
}

fn first_that_holds(rules: &[Rule], absolute: u64) -> Category
    ensures { result ≡ first_category absolute rules.now }
{
    for rule in rules {
        if rule.holds(absolute) {
            return rule.category;
        }
    }
    Category::Other
}
