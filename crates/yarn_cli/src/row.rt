//! The words of the commands and of their pairs.
ghost use Rattle.std.specs.Prelude.{◌≡◌};
ghost use Rattle.yarn_cli.specs.CommandLine.{row_in, rows_of};
ghost use Rattle.yarn_cli.specs.Found.{kind_of};
ghost use Rattle.yarn_cli.specs.View.{more_rows};

use crate::CommandKind;
use crate::words::Form;

/// A pair of a command: its name, and what may be given under it.
#[derive(Clone, Copy, Debug)]
pub(crate) struct Row {
    pub name: &'static str,
    pub form: Form,
}

/// The kind whose word it is.
pub(crate) fn kind_in_word(word: &str) -> Option<CommandKind>
    ensures { result ≡ kind_of word.now }
{
    match word {
        "check" => Some(CommandKind::Check),
        "format" => Some(CommandKind::Format),
        "strings" => Some(CommandKind::Strings),
        "tag" => Some(CommandKind::Tag),
        "list" => Some(CommandKind::List),
        "play" => Some(CommandKind::Play),
        _ => None,
    }
}

/// The row whose name the word spells.
pub(crate) fn row_in_word(kind: CommandKind, word: &str) -> Option<Row>
    ensures { more_rows result ≡ row_in word.now (rows_of kind) }
{
    match kind {
        CommandKind::Play => play_row(word),
        CommandKind::Tag => tag_row(word),
        CommandKind::Check | CommandKind::Format | CommandKind::Strings | CommandKind::List => None,
    }
}

fn tag_row(word: &str) -> Option<Row>
    ensures { more_rows result ≡ row_in word.now (rows_of CommandKind.Tag) }
{
    match word {
        "--from" => Some(Row {
            name: "from",
            form: Form::Number(0, 268435455),
        }),
        _ => None,
    }
}

fn play_row(word: &str) -> Option<Row>
    ensures { more_rows result ≡ row_in word.now (rows_of CommandKind.Play) }
{
    let row = |name, form| Some(Row { name, form });
    match word {
        "--start" => row("start", Form::Name),
        "--limit" => row("limit", Form::Number(1, 1000000000)),
        "--vars" => row("vars", Form::Name),
        "--save-vars" => row("save-vars", Form::Name),
        _ => None,
    }
}
