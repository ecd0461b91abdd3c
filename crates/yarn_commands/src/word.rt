//! The first words of commands.
//!
//! A new one is a line here, one in specs/FirstWord.antt, one in `read_behind` of read.rt and its relation, and one
//! in `may_be_for_game` of content.rt.
ghost use Rattle.std.specs.Prelude.{◌≡◌};
ghost use Rattle.yarn_commands.specs.FirstWord.{first_word_of};

/// What the first word of a content says.
#[derive(Clone, Copy, Debug, PartialEq, Eq)]
pub(crate) enum FirstWord {
    If,
    ElseIf,
    Else,
    EndIf,
    Set,
    Declare,
    Jump,
    Stop,
    Call,
    /// `enum`, `case` and `endenum`, which begin no command.
    LeftOut,
    Other,
}

/// What a word says as the first one.
#[tactic(auto, unfolding(crate::specs::FirstWord::first_word_of))]
pub(crate) fn first_word(word: &str) -> FirstWord
    ensures { result ≡ first_word_of word.now }
{
    match word {
        "if" => FirstWord::If,
        "elseif" => FirstWord::ElseIf,
        "else" => FirstWord::Else,
        "endif" => FirstWord::EndIf,
        "set" => FirstWord::Set,
        "declare" => FirstWord::Declare,
        "jump" => FirstWord::Jump,
        "stop" => FirstWord::Stop,
        "call" => FirstWord::Call,
        "enum" | "case" | "endenum" => FirstWord::LeftOut,
        _ => FirstWord::Other,
    }
}
