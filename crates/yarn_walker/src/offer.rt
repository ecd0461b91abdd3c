//! The options of a group as they are shown.
ghost use Rattle.std.specs.Prelude.{◌≡◌, [], IfOk};
ghost use Rattle.yarn_blocks.specs.View.{options_of};
ghost use Rattle.yarn_meaning.specs.Does.{asked};
ghost use Rattle.yarn_code.specs.Answers.{any_open as any_open_of};
ghost use Rattle.yarn_walker.specs.Means.{Means};
ghost use Rattle.yarn_walker.specs.Offers.{all_shown, Offers, OffersOne, AreOf};
ghost use Rattle.yarn_walker.specs.States.{no_hosts};

use crate::evaluate::{evaluate, evaluate_all, is_true};
use crate::halt::{Halt, at_line};
use std::alloc::Global;
use yarn_base::{List, Memory};
use yarn_expr::Expr;
use yarn_store::Store;
use yarn_tree::{LineText, OptionItem};
use yarn_value::{OpFault, Value};

/// An option as it is shown.
#[derive(Debug, Drop)]
pub struct Offer<'p> {
    pub text: &'p LineText,
    /// The values of its substitutions, in order.
    pub values: List<Value>,
    /// Whether it can be chosen.
    pub available: bool,
}

/// Whether one of them can be chosen.
pub(crate) fn any_open(offers: &[Offer]) -> bool
    ensures { result ≡ any_open_of (all_shown offers.now) }
{
    offers.iter().any(|offer| offer.available)
}

/// The options of a group as they are shown, each evaluated in order: its substitutions, and then its condition.
pub(crate) fn offers_of<'p>(
    alloc: Global,
    options: &'p [OptionItem],
    store: &Store,
) -> Result<Vec<Offer<'p>>, Halt>
    ensures meaning { Offers (options_of options.now) store.now result }
    ensures texts { IfOk result (λ offers. AreOf (options_of options.now) offers.items) }
{
    let mut offers = Vec::new(alloc);
    for option in options {
        let offer = at_line(option.text.line, offer_of(alloc, option, store))?;
        offers.push(offer).map_err(|_| Memory)?;
    }
    Ok(offers)
}

fn offer_of<'p>(alloc: Global, option: &'p OptionItem, store: &Store) -> Result<Offer<'p>, OpFault>
    ensures meaning { OffersOne option.now store.now result }
    ensures text { IfOk result (λ offer. offer.text.now ≡ option.now.text) }
{
    let text = &option.text;
    let values = evaluate_all(alloc, text.holes.as_slice(), store)?;
    let available = holds(alloc, &option.condition, store)?;
    Ok(Offer {
        text,
        values,
        available,
    })
}

// Whether the condition of an option holds; one without a condition can be chosen.
fn holds(alloc: Global, condition: &Option<Expr>, store: &Store) -> Result<bool, OpFault>
    ensures { Means (asked no_hosts condition.now store.now []) result }
{
    match condition {
        Some(expr) => Ok(is_true(&evaluate(alloc, expr, store)?)),
        None => Ok(true),
    }
}
