//! An option, and its condition.
ghost use Rattle.std.specs.Prelude.{◌≡◌, IfOk, IsUtf8, Some, false};
ghost use Rattle.std.specs.Str.{chars};
ghost use Rattle.yarn_commands.specs.Reading.{content as content_of};
ghost use Rattle.yarn_items.specs.Item.{literals_of};
ghost use Rattle.yarn_items.specs.ContentForm.{content_found};
ghost use Rattle.yarn_items.specs.Body.{condition_is, condition_of, condition_in, condition_found, offer_with, offer_behind, offer_found, IsAskedAnswer};

use crate::bytes::text_of;
use crate::content::{ContentRead, content_in};
use crate::hashtags::{has_fine_ids_in, tags_in};
use crate::item::{Found, Item, Literals, Said};
use crate::literals::{both, literals_in, no_literals};
use crate::text::{TextRead, read_text};
use std::alloc::Global;
use yarn_base::{List, Memory, Text};
use yarn_commands::{Command, Found as CommandFound, read_command};
use yarn_expr::Expr;

/// A condition or none, and what follows it.
#[derive(Drop)]
struct Asked<'a> {
    condition: Option<Expr>,
    literals: Literals,
    rest: &'a [u8],
}

/// The option whose text begins there, behind a `->`.
pub(crate) fn read_offer(alloc: Global, bytes: &[u8]) -> Result<Option<Found>, Memory>
    requires { IsUtf8 bytes.now }
    ensures { IfOk result (λ found. found ≡ offer_found bytes.now) }
{
    match read_text(alloc, bytes)? {
        Some(read) => read_offer_of(alloc, read),
        None => Ok(None),
    }
}

fn read_offer_of(alloc: Global, read: TextRead) -> Result<Option<Found>, Memory>
    requires { IsUtf8 read.rest.now }
    ensures { IfOk result (λ found. found ≡ offer_behind read.entry.text read.entry.holes read.entry.literals read.entry.rest.now) }
{
    if read.text.as_str().is_empty() {
        return Ok(None);
    }
    match read_condition(alloc, read.rest)? {
        Some(asked) => {
            let literals = both(read.literals, asked.literals);
            let tags = tags_in(alloc, asked.rest)?;
            Ok(offer_of(read.text, read.holes, literals, asked.condition, tags))
        }
        None => Ok(None),
    }
}

// The option, where it can have its hashtags.
fn offer_of(
    text: Text,
    holes: List<Expr>,
    literals: Literals,
    condition: Option<Expr>,
    tags: Option<List<Text>>,
) -> Option<Found>
    ensures { result ≡ offer_with text holes literals condition tags }
{
    let tags = tags?;
    if has_fine_ids_in(tags.as_slice()) {
        let said = Said { text, holes, tags };
        Some(Found {
            item: Item::Offer(said, condition),
            literals,
        })
    } else {
        None
    }
}

// The condition behind the text of an option, where one begins there. None: it is no condition.
fn read_condition(alloc: Global, rest: &[u8]) -> Result<Option<Asked<'_>>, Memory>
    requires { IsUtf8 rest.now }
    ensures { IfOk result (IsAskedAnswer (condition_found rest.now)) }
{
    match rest.strip_prefix(b"<<") {
        Some(bytes) => read_condition_in(alloc, bytes),
        None => Ok(Some(Asked {
            condition: None,
            literals: no_literals(),
            rest,
        })),
    }
}

fn read_condition_in(alloc: Global, bytes: &[u8]) -> Result<Option<Asked<'_>>, Memory>
    requires { IsUtf8 bytes.now }
    ensures { IfOk result (IsAskedAnswer (condition_in (content_found false bytes.now))) }
{
    match content_in(false, bytes) {
        Some(content) => read_condition_of(alloc, content),
        None => Ok(None),
    }
}

fn read_condition_of(alloc: Global, content: ContentRead<'_>) -> Result<Option<Asked<'_>>, Memory>
    requires own { IsUtf8 content.own.now }
    requires rest { IsUtf8 content.rest.now }
    ensures { IfOk result (IsAskedAnswer (condition_of (content_of (chars content.entry.own.now)) content.entry.rest.now)) }
{
    match read_command(alloc, text_of(content.own))? {
        Some(found) => Ok(condition_with(found, content.rest)),
        None => Ok(None),
    }
}

fn condition_with(found: CommandFound, rest: &[u8]) -> Option<Asked<'_>>
    requires { IsUtf8 rest.now }
    ensures { IsAskedAnswer (condition_is found.command (literals_of found.tokens) rest.now) result }
{
    let CommandFound { command, tokens } = found;
    let literals = literals_in(tokens.as_slice());
    match command {
        Command::If(condition) => Some(Asked {
            condition: Some(condition),
            literals,
            rest,
        }),
        _other => None,
    }
}
