//! Writes the words of an instruction, each behind a space (docs/formats.md, Listing).
ghost use Rattle.std.specs.Prelude.{◌≡◌, ◌++◌, ◌∷◌, [], OnOk};
ghost use Rattle.std.specs.Fmt.{decimal, signed_decimal};
ghost use Rattle.yarn_value.specs.Quoting.{quoted};
ghost use Rattle.yarn_code.specs.Listing.{spaced, truth_word as word_of_truth};
ghost use Rattle.yarn_code.specs.ListingSteps.{AddsWords};

use crate::Instr;
use std::alloc::Global;
use yarn_base::{Memory, Text};
use yarn_value::quote;

/// The name of the opcode, and the operands.
#[tactic(auto, using(crate::proofs::WordLemmas::adds_words))]
pub(crate) fn put_instr(alloc: Global, out: &mut Text, instr: &Instr) -> Result<(), Memory>
    ensures { OnOk result (AddsWords instr.now out.old out.new) }
{
    match instr {
        Instr::JumpTo(label) => put_label(alloc, out, "JUMP_TO", *label),
        Instr::Jump => put_word(out, "JUMP"),
        Instr::RunLine(count, id) => put_counted(alloc, out, "RUN_LINE", *count, id.as_str()),
        Instr::RunCommand(count, text) => {
            let text = quote(alloc, text)?;
            put_counted(alloc, out, "RUN_COMMAND", *count, text.as_str())
        }
        Instr::AddOption(count, id, label, conditional) => {
            put_counted(alloc, out, "ADD_OPTION", *count, id.as_str())?;
            let label = format!(in alloc; "{label}")?;
            put_named(out, label.as_str(), truth_word(*conditional))
        }
        Instr::ShowOptions => put_word(out, "SHOW_OPTIONS"),
        Instr::PushString(text) => {
            let text = quote(alloc, text)?;
            put_named(out, "PUSH_STRING", text.as_str())
        }
        Instr::PushFloat(number) => put_number(alloc, out, "PUSH_FLOAT", *number),
        Instr::PushBool(value) => put_named(out, "PUSH_BOOL", truth_word(*value)),
        Instr::PushNull => put_word(out, "PUSH_NULL"),
        Instr::JumpIfFalse(label) => put_label(alloc, out, "JUMP_IF_FALSE", *label),
        Instr::Pop => put_word(out, "POP"),
        Instr::CallFunc(count, name) => put_counted(alloc, out, "CALL_FUNC", *count, name.as_str()),
        Instr::PushVariable(name) => put_named(out, "PUSH_VARIABLE", name.as_str()),
        Instr::StoreVariable(name) => put_named(out, "STORE_VARIABLE", name.as_str()),
        Instr::Stop => put_word(out, "STOP"),
        Instr::RunNode => put_word(out, "RUN_NODE"),
    }
}

pub(crate) fn put_word(out: &mut Text, word: &str) -> Result<(), Memory>
    ensures { OnOk result (out.new ≡ out.old ++ spaced (word.now ∷ [])) }
{
    out.push_str(" ")?;
    out.push_str(word)
}

fn put_named(out: &mut Text, name: &str, operand: &str) -> Result<(), Memory>
    ensures { OnOk result (out.new ≡ out.old ++ spaced (name.now ∷ operand.now ∷ [])) }
{
    put_word(out, name)?;
    put_word(out, operand)
}

fn put_label(alloc: Global, out: &mut Text, name: &str, label: u32) -> Result<(), Memory>
    ensures { OnOk result (out.new ≡ out.old ++ spaced (name.now ∷ decimal label ∷ [])) }
{
    let label = format!(in alloc; "{label}")?;
    put_named(out, name, label.as_str())
}

fn put_number(alloc: Global, out: &mut Text, name: &str, number: i64) -> Result<(), Memory>
    ensures { OnOk result (out.new ≡ out.old ++ spaced (name.now ∷ signed_decimal number ∷ [])) }
{
    let number = format!(in alloc; "{number}")?;
    put_named(out, name, number.as_str())
}

fn put_counted(
    alloc: Global,
    out: &mut Text,
    name: &str,
    count: u8,
    operand: &str,
) -> Result<(), Memory>
    ensures { OnOk result (out.new ≡ out.old ++ spaced (name.now ∷ decimal count ∷ operand.now ∷ [])) }
{
    let count = format!(in alloc; "{count}")?;
    put_named(out, name, count.as_str())?;
    put_word(out, operand)
}

pub(crate) fn truth_word(truth: bool) -> &'static str
    ensures { result.now ≡ word_of_truth truth }
{
    if truth { "true" } else { "false" }
}
