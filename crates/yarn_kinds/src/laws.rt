//! The laws of this crate, each proved as the contract of a function that does nothing, or that cites the law of items.
ghost use Rattle.yarn_kinds.specs.Typed.{Kinds, AcceptedIsTyped};
ghost use Rattle.yarn_kinds.specs.Kept.{Conditions, Titles, StatementsKeep, RunsKeep, HeldIsSound, AcceptedIsSound, BegunHolds};
ghost use Rattle.yarn_kinds.specs.Strict.{MakesNothingUp, SetsMakeNothingUp};

use yarn_items::items_are_found;

/// The typing of an accepted project fits its lines, and no variable of it is a count.
pub fn accepted_projects_are_typed()
    ensures { AcceptedIsTyped }
{
    items_are_found();
}

/// The value of an expression is of the kind that the typing gives it.
pub fn values_have_their_kinds()
    ensures { Kinds }
{}

/// The value of a condition is a truth.
pub fn conditions_are_truths()
    ensures { Conditions }
{}

/// The value of a jump's expression is a text.
pub fn titles_are_texts()
    ensures { Titles }
{}

/// No value is made up in the evaluation of an expression that has a kind.
pub fn nothing_is_made_up()
    ensures { MakesNothingUp }
{}

/// No value is made up for what is set.
pub fn sets_make_nothing_up()
    ensures { SetsMakeNothingUp }
{}

/// Statements keep the kinds of variables, and the counts as numbers.
pub fn statements_keep_kinds()
    ensures { StatementsKeep }
{}

/// A run keeps them.
pub fn runs_keep_kinds()
    ensures { RunsKeep }
{}

/// The store with which a run begins holds the variables of the project.
pub fn begun_stores_hold()
    ensures { BegunHolds }
{
    items_are_found();
}

/// A store that holds the variables of a project has their kinds.
pub fn held_stores_are_sound()
    ensures { HeldIsSound }
{}

/// A run of an accepted project has them at each moment.
pub fn accepted_runs_are_sound()
    ensures { AcceptedIsSound }
{
    items_are_found();
}
