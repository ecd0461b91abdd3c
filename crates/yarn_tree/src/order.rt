//! One refusal after the other: the first kind that has a place decides.
ghost use Rattle.std.specs.Prelude.{◌≡◌, map, Some, None, MatchResult};
ghost use Rattle.yarn_tree.specs.Checks.{titles_seen};
ghost use Rattle.yarn_tree.specs.Names.{has};
ghost use Rattle.yarn_tree.specs.Order.{AreRead, lines_checked, project_checked, uses_checked, variables_checked, targets_checked};
ghost use Rattle.yarn_tree.specs.Reading.{Answers, AreNamed, IsFault, IsTold, no_fault, structure_checked, counts_checked, titles_checked, ids_checked};
ghost use Rattle.yarn_tree.specs.Uses.{uses_in, use_at};

use crate::checks::{first_noted, has_own_ids, second_id, see_titles};
use crate::excess::first_excess;
use crate::functions::Functions;
use crate::misuse::{
    first_reserved, first_unknown_function, first_unknown_title, first_wrong_count,
    second_declaration,
};
use crate::names::Names;
use crate::uses::{UsedAt, collect};
use crate::{ProjectFault, Refusal, RefusalKind};
use std::alloc::Global;
use yarn_base::Place;
use yarn_nodes::{FileRead, Note};
use yarn_value::Signature;

/// Refuses a file that is read alone.
pub(crate) fn check_lines(alloc: Global, reads: &[FileRead]) -> Result<(), ProjectFault>
    ensures { Answers (lines_checked reads.now) result }
{
    check_structure(reads)?;
    let uses = collect(alloc, reads)?;
    check_counts(alloc, reads, uses.as_slice())
}

/// Refuses the files of a project.
pub(crate) fn check_project(
    alloc: Global,
    reads: &[FileRead],
    signatures: &[Signature],
) -> Result<(), ProjectFault>
    requires { AreRead reads.now }
    ensures { Answers (project_checked signatures.now reads.now) result }
{
    check_structure(reads)?;
    let uses = collect(alloc, reads)?;
    check_counts(alloc, reads, uses.as_slice())?;
    let titles = check_titles(alloc, reads)?;
    check_names(alloc, &titles, uses.as_slice(), signatures)?;
    check_ids(alloc, reads)
}

fn check_structure(reads: &[FileRead]) -> Result<(), ProjectFault>
    ensures { Answers (structure_checked reads.now no_fault) result }
{
    refuse_at(RefusalKind::BadLine, first_noted(Note::Bad, reads))?;
    refuse_at(
        RefusalKind::BadStructure,
        first_noted(Note::Misplaced, reads),
    )?;
    refuse_at(RefusalKind::TooDeep, first_noted(Note::TooDeep, reads))
}

fn check_counts(alloc: Global, reads: &[FileRead], uses: &[UsedAt]) -> Result<(), ProjectFault>
    requires { map use_at uses.now ≡ uses_in reads.now }
    ensures { Answers (counts_checked reads.now no_fault) result }
{
    refuse_at(RefusalKind::TooMany, first_excess(alloc, reads, uses)?)?;
    refuse_at(RefusalKind::Fraction, first_noted(Note::Fraction, reads))?;
    refuse_at(
        RefusalKind::NumberTooLarge,
        first_noted(Note::TooLarge, reads),
    )
}

// The titles, where each is fine and none comes again.
fn check_titles<'a>(alloc: Global, reads: &'a [FileRead]) -> Result<Names<'a>, ProjectFault>
    ensures { MatchResult result
        (λ names. (titles_checked reads.now no_fault ≡ no_fault) × (has names ≡ (titles_seen reads.now).names))
        (λ fault. IsFault (titles_checked reads.now no_fault) fault) }
{
    refuse_at(RefusalKind::BadTitle, first_noted(Note::Mistitled, reads))?;
    let seen = see_titles(alloc, reads)?;
    refuse_at(RefusalKind::DuplicateTitle, seen.again)?;
    Ok(seen.names)
}

fn check_names(
    alloc: Global,
    titles: &Names,
    uses: &[UsedAt],
    signatures: &[Signature],
) -> Result<(), ProjectFault>
    ensures { Answers (uses_checked signatures.now (has titles.now) (map use_at uses.now)) result }
{
    check_variables(alloc, uses)?;
    let functions = Functions::new(alloc, signatures)?;
    check_targets(titles, &functions, uses)
}

fn check_variables(alloc: Global, uses: &[UsedAt]) -> Result<(), ProjectFault>
    ensures { Answers (variables_checked (map use_at uses.now) no_fault) result }
{
    refuse_at(RefusalKind::ReservedName, first_reserved(uses))?;
    refuse_at(
        RefusalKind::DuplicateDeclare,
        second_declaration(alloc, uses)?,
    )
}

fn check_targets(titles: &Names, functions: &Functions, uses: &[UsedAt]) -> Result<(), ProjectFault>
    ensures { Answers (targets_checked functions.now (has titles.now) (map use_at uses.now) no_fault) result }
{
    refuse_at(RefusalKind::UnknownNode, first_unknown_title(titles, uses))?;
    refuse_at(
        RefusalKind::UnknownFunction,
        first_unknown_function(functions, uses),
    )?;
    refuse_at(
        RefusalKind::WrongArguments,
        first_wrong_count(functions, uses),
    )
}

// Where no line has an id of its own, the ids differ since the titles do.
#[tactic(auto, using(crate::proofs::IdLemmas::named_plain))]
fn check_ids(alloc: Global, reads: &[FileRead]) -> Result<(), ProjectFault>
    requires { AreNamed reads.now }
    ensures { Answers (ids_checked reads.now no_fault) result }
{
    if !has_own_ids(reads) {
        return Ok(());
    }
    refuse_at(RefusalKind::DuplicateLineId, second_id(alloc, reads)?)
}

fn refuse_at(kind: RefusalKind, place: Option<Place>) -> Result<(), ProjectFault>
    ensures { MatchResult result (λ _. place ≡ None) (λ fault. IsTold kind place fault) }
{
    match place {
        None => Ok(()),
        Some(place) => Err(refused(kind, place)),
    }
}

pub(crate) fn refused(kind: RefusalKind, place: Place) -> ProjectFault
    ensures { IsTold kind (Some place) result }
{
    ProjectFault::Refused(Refusal { kind, place })
}
