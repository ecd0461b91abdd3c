//! The tokens of a line of a plural file.
ghost use Rattle.std.specs.Prelude.{◌≡◌};
ghost use Rattle.yarn_plural.specs.Tokens.{word_text};
ghost use Rattle.yarn_plural.specs.Steps.{word_of, is_samples as is_samples_of, separates as separates_of};

use crate::rule::{Category, Operand};
use crate::table::Form;

/// One token of docs/formats.md, Plural rules.
#[derive(Clone, Copy, Debug)]
pub(crate) enum Token {
    /// A run of letters.
    Word(Word),
    /// A run of 1 to 18 digits.
    Value(u64),
    Sign(Sign),
    /// `#` and all that follows.
    Comment,
    /// `@` and all that follows.
    Samples,
}

#[derive(Clone, Copy, Debug)]
pub(crate) enum Word {
    Form(Form),
    Category(Category),
    Operand(Operand),
    And,
    Or,
}

#[derive(Clone, Copy, Debug)]
pub(crate) enum Sign {
    /// `:`
    Colon,
    /// `%`
    Percent,
    /// `=`
    Equal,
    /// `!=`
    Differ,
    /// `,`
    Comma,
    /// `..`
    To,
}

/// What joins the conditions, the relations and the list of a rule.
#[derive(Clone, Copy, Debug)]
pub(crate) enum Joint {
    Or,
    And,
    Comma,
}

const WORDS: [Word; 18] = [
    Word::Form(Form::Cardinal),
    Word::Form(Form::Ordinal),
    Word::Category(Category::Zero),
    Word::Category(Category::One),
    Word::Category(Category::Two),
    Word::Category(Category::Few),
    Word::Category(Category::Many),
    Word::Category(Category::Other),
    Word::Operand(Operand::N),
    Word::Operand(Operand::I),
    Word::Operand(Operand::V),
    Word::Operand(Operand::W),
    Word::Operand(Operand::F),
    Word::Operand(Operand::T),
    Word::Operand(Operand::C),
    Word::Operand(Operand::E),
    Word::And,
    Word::Or,
];

impl Token {
    /// Whether the token is samples.
    pub fn is_samples(self) -> bool
        ensures { result ≡ is_samples_of self }
    {
        matches!(self, Token::Samples)
    }
}

impl Word {
    /// The word with these letters.
    pub fn find(text: &[u8]) -> Option<Word>
        ensures { result ≡ word_of text.now }
    {
        for word in &WORDS {
            if text == word.text() {
                return Some(*word);
            }
        }
        None
    }

    fn text(self) -> &'static [u8]
        ensures { result.now ≡ word_text self }
    {
        match self {
            Word::Form(Form::Cardinal) => b"cardinal",
            Word::Form(Form::Ordinal) => b"ordinal",
            Word::Category(Category::Zero) => b"zero",
            Word::Category(Category::One) => b"one",
            Word::Category(Category::Two) => b"two",
            Word::Category(Category::Few) => b"few",
            Word::Category(Category::Many) => b"many",
            Word::Category(Category::Other) => b"other",
            Word::Operand(Operand::N) => b"n",
            Word::Operand(Operand::I) => b"i",
            Word::Operand(Operand::V) => b"v",
            Word::Operand(Operand::W) => b"w",
            Word::Operand(Operand::F) => b"f",
            Word::Operand(Operand::T) => b"t",
            Word::Operand(Operand::C) => b"c",
            Word::Operand(Operand::E) => b"e",
            Word::And => b"and",
            Word::Or => b"or",
        }
    }
}

impl Joint {
    /// Whether the token is this joint.
    pub fn is(self, token: Token) -> bool
        ensures { result ≡ separates_of self token }
    {
        match (self, token) {
            (Joint::Or, Token::Word(Word::Or))
            | (Joint::And, Token::Word(Word::And))
            | (Joint::Comma, Token::Sign(Sign::Comma)) => true,
            _ => false,
        }
    }
}
