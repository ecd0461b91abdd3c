//! The piece at the front of a text.
ghost use Rattle.std.specs.Prelude.{◌≡◌, IfOk, None};
ghost use Rattle.yarn_markup.specs.Choice.{choice_of};
ghost use Rattle.yarn_markup.specs.Pieces.{closing, given, is_bare, attribute_piece, verbatim, verbatim_step, step_to, selected_piece, plural_piece};
ghost use Rattle.std.specs.Option.{option_copied};
ghost use Rattle.yarn_markup.specs.Tags.{close_at};
ghost use Rattle.yarn_markup.specs.Steps.{IsPieceAnswer, IsBracketAnswer, IsMeaningAnswer, IsStepAnswer};

use crate::Property;
use crate::choice::{choice_in, counted_in, number_in, selected_in};
use crate::close::read_close;
use crate::front::{Front, front_of};
use crate::kind::{Kind, kind_of};
use crate::tag::{Tag, TagRead, read_tag};
use crate::verbatim::read_verbatim;
use std::alloc::Global;
use yarn_base::{Memory, Text};
use yarn_plural::{Form, PluralTable};

/// What a piece of a text is.
#[derive(Drop)]
pub(crate) enum Piece {
    /// A character of the plain text.
    Stands(char),
    /// A tag that opens an attribute.
    Opens(Tag),
    /// A tag that is an attribute of length 0.
    Lone(Tag),
    /// A tag that closes the latest open attribute of its name.
    Closes(Text),
    /// A tag that closes all open attributes.
    ClosesAll,
    /// The text between `[nomarkup]` and its end.
    Verbatim(Text),
    /// The text in the place of a tag.
    Given(Text),
    /// A tag that has no text for its value.
    Lacks,
}

/// A piece, and what follows it.
#[derive(Drop)]
pub(crate) struct PieceRead<'a> {
    pub piece: Piece,
    pub rest: &'a [char],
}

/// The piece at the front; none at the end, and where a `[` begins no tag.
pub(crate) fn read_piece<'a>(
    alloc: Global,
    plural: &PluralTable,
    text: &'a [char],
) -> Result<Option<PieceRead<'a>>, Memory>
    ensures { IfOk result (IsPieceAnswer plural.now text.now) }
{
    match front_of(text) {
        Front::Nothing => Ok(None),
        Front::Character(c, rest) => Ok(Some(PieceRead {
            piece: Piece::Stands(c),
            rest,
        })),
        Front::Bracket(inside) => read_bracketed(alloc, plural, inside),
    }
}

fn read_bracketed<'a>(
    alloc: Global,
    plural: &PluralTable,
    inside: &'a [char],
) -> Result<Option<PieceRead<'a>>, Memory>
    ensures { IfOk result (IsBracketAnswer plural.now inside.now) }
{
    match read_close(alloc, inside)? {
        Some(read) => Ok(Some(PieceRead {
            piece: closing(read.name),
            rest: read.rest,
        })),
        None => read_opening(alloc, plural, inside),
    }
}

fn closing(name: Option<Text>) -> Piece
    ensures { result ≡ closing name }
{
    match name {
        Some(name) => Piece::Closes(name),
        None => Piece::ClosesAll,
    }
}

fn read_opening<'a>(
    alloc: Global,
    plural: &PluralTable,
    inside: &'a [char],
) -> Result<Option<PieceRead<'a>>, Memory>
    requires { close_at inside.now ≡ None }
    ensures { IfOk result (IsBracketAnswer plural.now inside.now) }
{
    match read_tag(alloc, inside)? {
        Some(read) => meaning_of(alloc, plural, read),
        None => Ok(None),
    }
}

fn meaning_of<'a>(
    alloc: Global,
    plural: &PluralTable,
    read: TagRead<'a>,
) -> Result<Option<PieceRead<'a>>, Memory>
    ensures { IfOk result (IsMeaningAnswer plural.now read.entry) }
{
    let TagRead { tag, lone, rest } = read;
    let kind = kind_of(tag.name.as_str());
    match kind {
        Kind::NoMarkup => {
            if is_bare(tag.properties.as_slice(), lone) {
                verbatim_piece(alloc, rest)
            } else {
                Ok(None)
            }
        }
        Kind::Select => {
            if lone {
                selected_piece(&tag, rest)
            } else {
                Ok(None)
            }
        }
        Kind::Counted(form) => {
            if lone {
                plural_piece(alloc, plural, form, &tag, rest)
            } else {
                Ok(None)
            }
        }
        Kind::Other => Ok(Some(PieceRead {
            piece: attribute_piece(tag, lone),
            rest,
        })),
    }
}

fn attribute_piece(tag: Tag, lone: bool) -> Piece
    ensures { result ≡ attribute_piece tag lone }
{
    if lone {
        Piece::Lone(tag)
    } else {
        Piece::Opens(tag)
    }
}

fn is_bare(properties: &[Property], lone: bool) -> bool
    ensures { result ≡ is_bare properties.now lone }
{
    match properties {
        [] => !lone,
        _ => false,
    }
}

fn verbatim_piece(alloc: Global, text: &[char]) -> Result<Option<PieceRead<'_>>, Memory>
    ensures { IfOk result (IsStepAnswer (verbatim_step (verbatim text.now))) }
{
    match read_verbatim(alloc, text)? {
        Some(read) => Ok(Some(PieceRead {
            piece: Piece::Verbatim(read.value),
            rest: read.rest,
        })),
        None => Ok(None),
    }
}

fn selected_piece<'a>(tag: &Tag, rest: &'a [char]) -> Result<Option<PieceRead<'a>>, Memory>
    ensures { IfOk result (IsStepAnswer (step_to rest.now (selected_piece (choice_of tag.now)))) }
{
    match choice_in(tag) {
        Some(choice) => {
            let piece = given_copy(selected_in(choice))?;
            Ok(Some(PieceRead { piece, rest }))
        }
        None => Ok(None),
    }
}

fn given_copy(text: Option<&Text>) -> Result<Piece, Memory>
    ensures { IfOk result (λ piece. piece ≡ given (option_copied text.entry)) }
{
    match text {
        Some(text) => {
            let own = text.copy()?;
            Ok(Piece::Given(own))
        }
        None => Ok(Piece::Lacks),
    }
}

fn plural_piece<'a>(
    alloc: Global,
    plural: &PluralTable,
    form: Form,
    tag: &Tag,
    rest: &'a [char],
) -> Result<Option<PieceRead<'a>>, Memory>
    ensures { IfOk result (IsStepAnswer (step_to rest.now (plural_piece plural.now form (choice_of tag.now)))) }
{
    let Some(choice) = choice_in(tag) else {
        return Ok(None);
    };
    match number_in(alloc, choice.value)? {
        Some(number) => {
            let text = counted_in(alloc, plural, form, choice, number)?;
            Ok(Some(PieceRead {
                piece: given(text),
                rest,
            }))
        }
        None => Ok(None),
    }
}

fn given(text: Option<Text>) -> Piece
    ensures { result ≡ given text }
{
    match text {
        Some(text) => Piece::Given(text),
        None => Piece::Lacks,
    }
}
