//! Writes instructions: number, line and operands (docs/formats.md, Program files).
ghost use Rattle.std.specs.Prelude.{◌<◌, ◌^◌, [], length, All, OnOk};
ghost use Rattle.yarn_code.specs.Fields.{HasOperands, HasWords, IsCodedWords};
ghost use Rattle.yarn_code.specs.Format.{times};
ghost use Rattle.yarn_code.specs.Layout.{coded, instructions};
ghost use Rattle.yarn_code.specs.Writing.{Writes, HasHead, HasLabel, HasText, HasCounted};

use crate::writer::{put_i64, put_text, put_truth, put_u8, put_u32};
use crate::{Coded, Instr, opcode};
use yarn_base::{List, Memory, Text};

pub(crate) fn put_instructions(out: &mut List<u8>, code: &List<Coded>) -> Result<(), Memory>
    requires operands { All (λ c. HasOperands c.instr) code.now }
    requires words { All IsCodedWords code.now }
    ensures { OnOk result (Writes (times (length code.now) instructions []) code.now out.old out.new) }
{
    for one in code.as_slice() {
        put_coded(out, one)?;
    }
    Ok(())
}

fn put_coded(out: &mut List<u8>, one: &Coded) -> Result<(), Memory>
    requires operands { HasOperands one.now.instr }
    requires words { IsCodedWords one.now }
    ensures { OnOk result (Writes coded one.now out.old out.new) }
{
    let line = one.line;
    match &one.instr {
        Instr::JumpTo(label) => put_label(out, opcode::JUMP_TO, line, *label),
        Instr::Jump => put_head(out, opcode::JUMP, line),
        Instr::RunLine(count, id) => put_counted(out, opcode::RUN_LINE, line, *count, id),
        Instr::RunCommand(count, text) => put_counted(out, opcode::RUN_COMMAND, line, *count, text),
        Instr::AddOption(count, id, label, conditional) => {
            put_counted(out, opcode::ADD_OPTION, line, *count, id)?;
            put_u32(out, *label)?;
            put_truth(out, *conditional)
        }
        Instr::ShowOptions => put_head(out, opcode::SHOW_OPTIONS, line),
        Instr::PushString(text) => put_named(out, opcode::PUSH_STRING, line, text),
        Instr::PushFloat(number) => {
            put_head(out, opcode::PUSH_FLOAT, line)?;
            put_i64(out, *number)
        }
        Instr::PushBool(value) => {
            put_head(out, opcode::PUSH_BOOL, line)?;
            put_truth(out, *value)
        }
        Instr::PushNull => put_head(out, opcode::PUSH_NULL, line),
        Instr::JumpIfFalse(label) => put_label(out, opcode::JUMP_IF_FALSE, line, *label),
        Instr::Pop => put_head(out, opcode::POP, line),
        Instr::CallFunc(count, name) => put_counted(out, opcode::CALL_FUNC, line, *count, name),
        Instr::PushVariable(name) => put_named(out, opcode::PUSH_VARIABLE, line, name),
        Instr::StoreVariable(name) => put_named(out, opcode::STORE_VARIABLE, line, name),
        Instr::Stop => put_head(out, opcode::STOP, line),
        Instr::RunNode => put_head(out, opcode::RUN_NODE, line),
    }
}

// The number of an instruction, and its line.
fn put_head(out: &mut List<u8>, number: u8, line: u32) -> Result<(), Memory>
    ensures { OnOk result (HasHead number line out.old out.new) }
{
    put_u8(out, number)?;
    put_u32(out, line)?;
    Ok(())
}

fn put_label(out: &mut List<u8>, number: u8, line: u32, label: u32) -> Result<(), Memory>
    ensures { OnOk result (HasLabel number line label out.old out.new) }
{
    put_head(out, number, line)?;
    put_u32(out, label)?;
    Ok(())
}

fn put_named(out: &mut List<u8>, number: u8, line: u32, text: &Text) -> Result<(), Memory>
    requires { length text.now < 2 ^ 32 }
    ensures { OnOk result (HasText number line text.now out.old out.new) }
{
    put_head(out, number, line)?;
    put_text(out, text)?;
    Ok(())
}

fn put_counted(
    out: &mut List<u8>,
    number: u8,
    line: u32,
    count: u8,
    text: &Text,
) -> Result<(), Memory>
    requires { length text.now < 2 ^ 32 }
    ensures { OnOk result (HasCounted number line count text.now out.old out.new) }
{
    put_head(out, number, line)?;
    put_u8(out, count)?;
    put_text(out, text)?;
    Ok(())
}
