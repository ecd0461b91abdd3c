//! The lines of bodies that items are.
ghost use Rattle.std.specs.Prelude.{◌≡◌};
ghost use Rattle.yarn_nodes.specs.Entries.{text_at as text_of, command_at as command_of};

use yarn_base::{List, Text};
use yarn_blocks::{Head, LineId, LineText, Simple, What};
use yarn_commands::Command;
use yarn_items::Said;

/// Where a line of a file stands.
#[derive(Clone, Copy)]
pub(crate) struct Spot {
    /// Its line, counted from 1.
    pub line: u32,
    pub indent: u32,
}

/// What is said on a line under that id.
pub(crate) fn text_at(line: u32, id: LineId, said: Said) -> LineText
    ensures { result ≡ text_of line id said }
{
    let Said { text, holes, tags } = said;
    LineText {
        line,
        id,
        text,
        holes,
        tags,
    }
}

/// The body line that a command is; nothing where it is one for the game.
pub(crate) fn command_at(line: u32, tags: List<Text>, command: Command) -> Option<What>
    ensures { result ≡ command_of line tags command }
{
    let head = Head { line, tags };
    match command {
        Command::If(condition) => Some(What::If(head, condition)),
        Command::ElseIf(condition) => Some(What::ElseIf(head, condition)),
        Command::Else => Some(What::Else(head)),
        Command::EndIf => Some(What::EndIf(head)),
        Command::Set(name, op, value) => {
            Some(What::Statement(Simple::Set(head, name, op, value)))
        }
        Command::Declare(name, value, kind) => {
            Some(What::Statement(Simple::Declare(head, name, value, kind)))
        }
        Command::Jump(title) => Some(What::Statement(Simple::Jump(head, title))),
        Command::JumpTo(title) => Some(What::Statement(Simple::JumpTo(head, title))),
        Command::Stop => Some(What::Statement(Simple::Stop(head))),
        Command::Call(call) => Some(What::Statement(Simple::Call(head, call))),
        Command::Game => None,
    }
}
