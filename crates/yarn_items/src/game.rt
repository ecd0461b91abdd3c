//! The text of a command for the game.
ghost use Rattle.std.specs.Prelude.{IfOk, IsUtf8};
ghost use Rattle.yarn_items.specs.TextForm.{game_found, IsGameAnswer};

use crate::first::Kind;
use crate::item::Literals;
use crate::pieces::read_pieces;
use std::alloc::Global;
use yarn_base::{List, Memory, Text};
use yarn_expr::Expr;

/// The text of a command for the game, as string tables have it.
#[derive(Drop)]
pub(crate) struct GameRead {
    pub text: Text,
    pub holes: List<Expr>,
    pub literals: Literals,
}

/// The text that the content is. None: a substitution doesn't end, or holds no expression.
pub(crate) fn read_game(alloc: Global, content: &[u8]) -> Result<Option<GameRead>, Memory>
    requires { IsUtf8 content.now }
    ensures { IfOk result (IsGameAnswer (game_found content.now)) }
{
    match read_pieces(alloc, Kind::Game, content)? {
        Some(read) => Ok(Some(GameRead {
            text: read.text,
            holes: read.holes,
            literals: read.literals,
        })),
        None => Ok(None),
    }
}
