//! A line that is a command.
ghost use Rattle.std.specs.Prelude.{◌≡◌, IfOk, IsUtf8, Some};
ghost use Rattle.std.specs.Str.{chars};
ghost use Rattle.yarn_commands.specs.Reading.{content as content_of};
ghost use Rattle.yarn_items.specs.Hashtags.{tags_of};
ghost use Rattle.yarn_items.specs.TextForm.{game_found};
ghost use Rattle.yarn_items.specs.Body.{is_game, game_with, command_with, command_tagged, command_found};

use crate::bytes::text_of;
use crate::content::{ContentRead, content_in};
use crate::game::read_game;
use crate::hashtags::tags_in;
use crate::item::{Found, Item, Said};
use crate::literals::literals_in;
use std::alloc::Global;
use yarn_base::{List, Memory, Text};
use yarn_commands::{Command, Found as CommandFound, may_be_for_game, read_command};
use yarn_lines::without_blanks_before;

/// The command whose content begins there, behind a `<<`.
pub(crate) fn read_command_line(alloc: Global, bytes: &[u8]) -> Result<Option<Found>, Memory>
    requires { IsUtf8 bytes.now }
    ensures { IfOk result (λ found. found ≡ command_found bytes.now) }
{
    let games = may_be_for_game(text_of(without_blanks_before(bytes)));
    match content_in(games, bytes) {
        Some(content) => read_command_in(alloc, content),
        None => Ok(None),
    }
}

fn read_command_in(alloc: Global, content: ContentRead) -> Result<Option<Found>, Memory>
    requires own { IsUtf8 content.own.now }
    requires rest { IsUtf8 content.rest.now }
    ensures { IfOk result (λ found. found ≡ command_tagged content.entry.own.now (tags_of content.entry.rest.now)) }
{
    match tags_in(alloc, content.rest)? {
        Some(tags) => read_command_with(alloc, content.own, tags),
        None => Ok(None),
    }
}

fn read_command_with(alloc: Global, own: &[u8], tags: List<Text>) -> Result<Option<Found>, Memory>
    requires { IsUtf8 own.now }
    ensures { IfOk result (λ found. found ≡ command_with own.now tags (content_of (chars own.now))) }
{
    match read_command(alloc, text_of(own))? {
        Some(command) => read_command_of(alloc, own, tags, command),
        None => Ok(None),
    }
}

fn read_command_of(
    alloc: Global,
    own: &[u8],
    tags: List<Text>,
    command: CommandFound,
) -> Result<Option<Found>, Memory>
    requires { IsUtf8 own.now }
    ensures { IfOk result (λ found. found ≡ command_with own.now tags (Some command)) }
{
    if is_game_in(&command.command) {
        read_game_line(alloc, own, tags)
    } else {
        let literals = literals_in(command.tokens.as_slice());
        Ok(Some(Found {
            item: Item::Command(command.command, tags),
            literals,
        }))
    }
}

fn is_game_in(command: &Command) -> bool
    ensures { result ≡ is_game command.now }
{
    matches!(command, Command::Game)
}

fn read_game_line(alloc: Global, own: &[u8], tags: List<Text>) -> Result<Option<Found>, Memory>
    requires { IsUtf8 own.now }
    ensures { IfOk result (λ found. found ≡ game_with (game_found own.now) tags) }
{
    match read_game(alloc, own)? {
        Some(game) => {
            let said = Said {
                text: game.text,
                holes: game.holes,
                tags,
            };
            Ok(Some(Found {
                item: Item::Game(said),
                literals: game.literals,
            }))
        }
        None => Ok(None),
    }
}
