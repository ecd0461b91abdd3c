//! The command that the words are.
ghost use Rattle.std.specs.Prelude.{◌≡◌, ◌<◌, [], ◌∷◌, ◌++◌, List as Items, drop, length, if◌then◌else◌, Some, None, IfOk, MatchOption};
ghost use Rattle.std.specs.List.{list_all};
ghost use Rattle.std.specs.Option.{option_copied};
ghost use Rattle.yarn_cli.specs.declared.command.Pair.{Pair};
ghost use Rattle.yarn_cli.specs.Command.{or_default, value_of, start_of, limit_of, from_of, vars_name_of, save_vars_of};
ghost use Rattle.yarn_cli.specs.CommandLine.{are_names_of, is_count_of, row_in, rows_of};
ghost use Rattle.yarn_cli.specs.Found.{command_of, found_behind, given, with_names, with_pair};
ghost use Rattle.yarn_cli.specs.Laws.{WordsSay};
ghost use Rattle.yarn_cli.specs.Messages.{name_at};
ghost use Rattle.yarn_cli.specs.View.{row_seen};
ghost use Rattle.yarn_cli.specs.Words.{is_name_word, number_in};

use crate::row::{Row, kind_in_word, row_in_word};
use crate::words::{fits, is_name_word_str, number_in_word};
use std::alloc::Global;
use std::marker::Model;
use yarn_base::{List, Memory, Text, Words};

/// The commands of this version.
#[derive(Clone, Copy, Debug, PartialEq, Eq)]
pub enum CommandKind {
    Check,
    Format,
    Strings,
    Tag,
    List,
    Play,
}

/// A pair that was given: its name without the `--`, and its value.
#[derive(Debug, Drop)]
pub(crate) struct Pair {
    pub name: Text,
    pub value: Text,
}

/// A command with its pairs and names, as its words say them (docs/commands.md, Words).
#[derive(Debug, Drop)]
pub struct Command {
    kind: CommandKind,
    pairs: List<Pair>,
    names: Words,
}

impl Model for Command {
    ghost use Rattle.yarn_cli.specs.Command.{Command};
    ghost use Rattle.yarn_cli.specs.CommandLine.{CommandLine, spelled};
    ghost use Rattle.yarn_cli.specs.View.{made};

    ghost Value = { Command };

    ghost view = { λ c. made c.kind c.pairs c.names };

    ghost invariant = { λ c. CommandLine (spelled (made c.kind c.pairs c.names)) (made c.kind c.pairs c.names) };
}

/// The command that the words are, and `None` where they are none.
pub fn read_words(alloc: Global, words: &Words) -> Result<Option<Command>, Memory>
    ensures found { IfOk result (λ found. found ≡ command_of words.now) }
    ensures says { IfOk result (WordsSay words.now) }
{
    find_command(alloc, words.as_slice())
}

fn find_command(alloc: Global, words: &[Text]) -> Result<Option<Command>, Memory>
    ensures { IfOk result (λ found. found ≡ command_of words.now) }
{
    match words {
        [word, rest @ ..] => match kind_in_word(word.as_str()) {
            Some(kind) => read_behind(alloc, kind, rest),
            None => Ok(None),
        },
        [] => Ok(None),
    }
}

// The command, whose word was read: pairs, and then names.
fn read_behind(alloc: Global, kind: CommandKind, words: &[Text]) -> Result<Option<Command>, Memory>
    ensures { IfOk result (λ found. found ≡ found_behind kind [] words.now) }
{
    let mut pairs = List::new(alloc);
    let mut rest = words;
    while let Some(next) = next_pair(kind, rest) {
        if !add_pair(alloc, next.row, next.value, &mut pairs)? {
            return Ok(None);
        }
        rest = next.rest;
    }
    if !are_names(kind, rest) {
        return Ok(None);
    }
    let names = copy_words(alloc, rest)?;
    Ok(Some(Command { kind, pairs, names }))
}

// A pair in front of words: its row, its value and the words behind it.
#[derive(Clone, Copy, Debug)]
struct Next<'w> {
    row: Row,
    value: &'w Text,
    rest: &'w [Text],
}

fn next_pair<'w>(kind: CommandKind, words: &'w [Text]) -> Option<Next<'w>>
    ensures { MatchOption result
        ((taken : Items Pair) → found_behind kind taken words.now ≡ with_names kind taken words.now)
        (λ next. ((taken : Items Pair) → found_behind kind taken words.now
        ≡ given (with_pair taken (row_seen next.row) next.value.now) (λ more. found_behind kind more next.rest.now))
        × (length next.rest.now < length words.now)) }
{
    let [word, value, rest @ ..] = words else {
        return None;
    };
    match row_in_word(kind, word.as_str()) {
        Some(row) => Some(Next { row, value, rest }),
        None => None,
    }
}

// Puts the pair last, unless its name was given before or its value may not stand there.
fn add_pair(alloc: Global, row: Row, value: &Text, pairs: &mut List<Pair>) -> Result<bool, Memory>
    ensures { IfOk result (λ added. with_pair pairs.old (row_seen row) value.now ≡ (if added then Some pairs.new else None)) }
{
    if value_in(pairs.as_slice(), row.name).is_some() || !fits(row.form, value.as_str()) {
        return Ok(false);
    }
    let name = Text::from_str(alloc, row.name)?;
    let value = value.copy()?;
    pairs.push(Pair { name, value }).map_err(|_| Memory)?;
    Ok(true)
}

// The value that was given under the name.
fn value_in<'c>(pairs: &'c [Pair], name: &str) -> Option<&'c Text>
    ensures { option_copied result ≡ value_of name.now pairs.now }
{
    for pair in pairs {
        if pair.name.as_str() == name {
            return Some(&pair.value);
        }
    }
    None
}

fn are_names(kind: CommandKind, words: &[Text]) -> bool
    ensures { result ≡ are_names_of kind words.now }
{
    is_count(kind, words.len()) && all_names(words)
}

fn all_names(words: &[Text]) -> bool
    ensures { result ≡ list_all is_name_word words.now }
{
    for word in words {
        if !is_name_word_str(word.as_str()) {
            return false;
        }
    }
    true
}

// Whether the command has so many names.
fn is_count(kind: CommandKind, count: usize) -> bool
    ensures { result ≡ is_count_of kind count }
{
    match kind {
        CommandKind::Check | CommandKind::Strings | CommandKind::Play => 0 < count,
        CommandKind::Format | CommandKind::Tag | CommandKind::List => count == 1,
    }
}

fn copy_words(alloc: Global, words: &[Text]) -> Result<Words, Memory>
    ensures { IfOk result (λ copy. copy ≡ words.now) }
{
    let mut copy = Words::new(alloc);
    for word in words {
        copy.push(word.copy()?).map_err(|_| Memory)?;
    }
    Ok(copy)
}

impl Command {
    /// Which command it is.
    pub fn kind(&self) -> CommandKind
        ensures { result ≡ self.now.kind }
    {
        self.kind
    }

    /// The value that was given under the name, which is written without its `--`.
    pub fn pair(&self, name: &Text) -> Option<&Text>
        ensures { option_copied result ≡ value_of name.now self.now.pairs }
    {
        value_in(self.pairs.as_slice(), name.as_str())
    }

    /// The names behind the pairs.
    pub fn names(&self) -> &Words
        ensures { result.now ≡ self.now.names }
    {
        &self.names
    }

    /// The first of them; each command has one.
    pub(crate) fn first_name(&self) -> &Text
        ensures at { result.now ≡ name_at self.now.names 0 }
        ensures first { self.now.names ≡ result.now ∷ drop 1 self.now.names }
    {
        match self.names.as_slice() {
            [name, ..] => name,
            [] => unreachable!(),
        }
    }

    /// The title of the node to start from.
    pub(crate) fn start(&self, alloc: Global) -> Result<Text, Memory>
        ensures { IfOk result (λ start. start ≡ start_of self.now) }
    {
        match value_in(self.pairs.as_slice(), "start") {
            Some(start) => start.copy(),
            None => Text::from_str(alloc, "Start"),
        }
    }

    /// The most events of the run.
    pub(crate) fn limit(&self) -> u64
        ensures { result ≡ limit_of self.now }
    {
        match value_in(self.pairs.as_slice(), "limit") {
            Some(word) => number_in_word(word.as_str(), 1, 1000000000).unwrap_or(100000),
            None => 100000,
        }
    }

    /// The first number of a tag.
    pub(crate) fn first_number(&self) -> u32
        ensures { result ≡ from_of self.now }
    {
        match value_in(self.pairs.as_slice(), "from") {
            Some(word) => tag_number(word.as_str()),
            None => 0,
        }
    }

    /// The name of the file with the variables to begin with, where one was given.
    pub(crate) fn vars(&self) -> Option<&Text>
        ensures { option_copied result ≡ vars_name_of self.now }
    {
        value_in(self.pairs.as_slice(), "vars")
    }

    /// The name of the file to which the variables are written, where one was given.
    pub(crate) fn save_vars(&self) -> Option<&Text>
        ensures { option_copied result ≡ save_vars_of self.now }
    {
        value_in(self.pairs.as_slice(), "save-vars")
    }
}

// The number that the word gives for the first number of a tag.
fn tag_number(word: &str) -> u32
    ensures { result ≡ or_default 0 (number_in 0 268435455 word.now) }
{
    match number_in_word(word, 0, 268435455) {
        Some(number) => number as u32,
        None => 0,
    }
}
