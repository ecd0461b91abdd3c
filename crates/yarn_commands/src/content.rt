//! What the code tells of a content, of the text of an expression, and of the front of a content.
ghost use Rattle.std.specs.Prelude.{◌≡◌, IfOk};
ghost use Rattle.std.specs.Str.{chars};
ghost use Rattle.yarn_commands.specs.FirstWord.{is_for_game};
ghost use Rattle.yarn_commands.specs.Reading.{content as content_of, expression as expression_of};

use crate::read::{Found, Part, expression, read_content};
use crate::word::{FirstWord, first_word};
use std::alloc::Global;
use yarn_base::Memory;
use yarn_expr::{Class, Refusal, cut};

/// Reads a content: what stands between `<<` and its `>>`, without the blanks around it. None: it is no command.
pub fn read_command(alloc: Global, content: &str) -> Result<Option<Found>, Memory>
    // What is found is what the content says: `commands_are_found`.
    ensures exact { IfOk result (λ found. found ≡ content_of (chars content.now)) }
{
    match read_content(alloc, content) {
        Ok(found) => Ok(Some(found)),
        Err(Refusal::NotExpr) => Ok(None),
        Err(Refusal::Memory) => Err(Memory),
    }
}

/// Reads an expression that is all of a text. None: it is none.
pub fn read_expression(alloc: Global, text: &str) -> Result<Option<Part>, Memory>
    // What is found is what the text says: `expressions_are_found`.
    ensures exact { IfOk result (λ part. part ≡ expression_of (chars text.now)) }
{
    match expression(alloc, text) {
        Ok(part) => Ok(Some(part)),
        Err(Refusal::NotExpr) => Ok(None),
        Err(Refusal::Memory) => Err(Memory),
    }
}

/// Whether a content that begins so may be a command for the game, by its first word: a word that begins no other
/// command, or `stop`.
pub fn may_be_for_game(text: &str) -> bool
    ensures { result ≡ is_for_game (chars text.now) }
{
    let (word, _) = cut(Class::Name, text);
    match first_word(word) {
        FirstWord::Stop | FirstWord::Other => true,
        FirstWord::If | FirstWord::ElseIf | FirstWord::Else | FirstWord::EndIf => false,
        FirstWord::Set | FirstWord::Declare | FirstWord::Jump | FirstWord::Call => false,
        FirstWord::LeftOut => false,
    }
}
