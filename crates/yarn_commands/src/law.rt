//! Laws that tie what is found of characters to what the characters say, each proved as the contract of a function
//! that does nothing.
ghost use Rattle.std.specs.Prelude.{◌≡◌, ℕ, List};
ghost use Rattle.yarn_expr.specs.declared.token.Token.{Token};
ghost use Rattle.yarn_commands.specs.declared.command.Command.{Command};
ghost use Rattle.yarn_commands.specs.Command.{IsCommand};
ghost use Rattle.yarn_commands.specs.Laws.{CommandsAreFound, ExpressionsAreFound};

/// A content is at most one command, with the tokens in which its literals stand.
pub fn one_command()
    ensures { (content : List ℕ) (ts us : List Token) (c d : Command) → IsCommand content ts c
        → IsCommand content us d → (c ≡ d) × (ts ≡ us) }
{}

/// The command that is found of a content is the one that it is, with its tokens.
pub fn commands_are_found()
    ensures { CommandsAreFound }
{}

/// The expression that is found of a text is the one that all of it is, with its tokens.
pub fn expressions_are_found()
    ensures { ExpressionsAreFound }
{}
