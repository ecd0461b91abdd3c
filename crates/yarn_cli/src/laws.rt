//! Laws that tie the command that is found of words to what the words say (docs/commands.md, Words), and that the table of
//! `strings` can be read. Each is proved as the contract of a function that does nothing, or but cites laws of other crates.
ghost use Rattle.yarn_cli.specs.Laws.{CommandsAreFound, OneCommand, NoCommandIsLeft};
ghost use Rattle.yarn_cli.specs.TableLaws.{TablesAreReadBack};

use yarn_ids::laws::{ids_differ, texts_are_templates};
use yarn_table::written_is_read;

/// The command that is found of words is the one that they say: `play`, each pair at most once, and the file.
pub fn commands_are_found()
    ensures { CommandsAreFound }
{}

/// Words say at most one command.
pub fn one_command()
    ensures { OneCommand }
{}

/// No command is found exactly where the words say none.
pub fn no_command_is_left()
    ensures { NoCommandIsLeft }
{}

/// The table of an accepted project's lines and options is read back as the table of their own texts.
pub fn tables_are_read_back()
    ensures { TablesAreReadBack }
{
    ids_differ();
    texts_are_templates();
    written_is_read();
}
