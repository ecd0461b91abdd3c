//! Reads instructions: number, line and operands (docs/formats.md, Program files).
ghost use Rattle.std.specs.Prelude.{◌<◌, [], length, slice_get, IfOk};
ghost use Rattle.yarn_code.specs.Decoding.{Gives};
ghost use Rattle.yarn_code.specs.Format.{U8, times};
ghost use Rattle.yarn_code.specs.FormatReading.{number_at, read};
ghost use Rattle.yarn_code.specs.Layout.{coded, instructions, is_opcode, operands_at};
ghost use Rattle.yarn_code.specs.Opcodes.{opcodes};

use crate::fault::Stop;
use crate::reader::{
    read_few, read_filled, read_i64, read_short, read_text, read_truth, read_u8, read_u32,
    refuse_unless,
};
use crate::{Coded, Instr, opcode};
use std::alloc::Global;
use yarn_base::List;

pub(crate) fn read_instructions(
    alloc: Global,
    count: u32,
    bytes: &[u8],
) -> Result<(List<Coded>, &[u8]), Stop>
    ensures { Gives (λ x. (x.0, x.1.now)) result (read (times count instructions []) bytes.now) }
{
    let mut code = Vec::new(alloc);
    let mut rest = bytes;
    for _ in 0..count {
        let (one, after) = read_coded(alloc, rest)?;
        code.push(one)?;
        rest = after;
    }
    Ok((List::from_vec(code), rest))
}

#[tactic(auto, unfolding(crate::specs::Layout::coded))]
fn read_coded(alloc: Global, bytes: &[u8]) -> Result<(Coded, &[u8]), Stop>
    ensures { Gives (λ x. (x.0, x.1.now)) result (read coded bytes.now) }
{
    let (number, rest) = read_opcode(bytes)?;
    let (line, rest) = read_u32(rest)?;
    let (instr, rest) = read_operands(alloc, number, rest)?;
    Ok((Coded { line, instr }, rest))
}

fn read_opcode(bytes: &[u8]) -> Result<(u8, &[u8]), Stop>
    ensures value { Gives (λ x. (x.0, x.1.now)) result (number_at U8 is_opcode bytes.now) }
    ensures known { IfOk result (λ x. x.0 < length opcodes) }
{
    let (number, rest) = read_u8(bytes)?;
    refuse_unless(number < opcode::COUNT, bytes)?;
    Ok((number, rest))
}

fn read_operands(alloc: Global, number: u8, bytes: &[u8]) -> Result<(Instr, &[u8]), Stop>
    requires { number < length opcodes }
    ensures { Gives (λ x. (x.0, x.1.now)) result (read (operands_at (slice_get opcodes number)) bytes.now) }
{
    match number {
        opcode::JUMP_TO => {
            let (label, rest) = read_u32(bytes)?;
            Ok((Instr::JumpTo(label), rest))
        }
        opcode::JUMP => Ok((Instr::Jump, bytes)),
        opcode::RUN_LINE => {
            let (count, rest) = read_few(bytes)?;
            let (id, rest) = read_text(alloc, rest)?;
            Ok((Instr::RunLine(count, id), rest))
        }
        opcode::RUN_COMMAND => {
            let (count, rest) = read_few(bytes)?;
            let (text, rest) = read_filled(alloc, count, rest)?;
            Ok((Instr::RunCommand(count, text), rest))
        }
        opcode::ADD_OPTION => {
            let (count, rest) = read_few(bytes)?;
            let (id, rest) = read_text(alloc, rest)?;
            let (label, rest) = read_u32(rest)?;
            let (conditional, rest) = read_truth(rest)?;
            Ok((Instr::AddOption(count, id, label, conditional), rest))
        }
        opcode::SHOW_OPTIONS => Ok((Instr::ShowOptions, bytes)),
        opcode::PUSH_STRING => {
            let (text, rest) = read_short(alloc, bytes)?;
            Ok((Instr::PushString(text), rest))
        }
        opcode::PUSH_FLOAT => {
            let (number, rest) = read_i64(bytes)?;
            Ok((Instr::PushFloat(number), rest))
        }
        opcode::PUSH_BOOL => {
            let (value, rest) = read_truth(bytes)?;
            Ok((Instr::PushBool(value), rest))
        }
        opcode::PUSH_NULL => Ok((Instr::PushNull, bytes)),
        opcode::JUMP_IF_FALSE => {
            let (label, rest) = read_u32(bytes)?;
            Ok((Instr::JumpIfFalse(label), rest))
        }
        opcode::POP => Ok((Instr::Pop, bytes)),
        opcode::CALL_FUNC => {
            let (count, rest) = read_few(bytes)?;
            let (name, rest) = read_text(alloc, rest)?;
            Ok((Instr::CallFunc(count, name), rest))
        }
        opcode::PUSH_VARIABLE => {
            let (name, rest) = read_text(alloc, bytes)?;
            Ok((Instr::PushVariable(name), rest))
        }
        opcode::STORE_VARIABLE => {
            let (name, rest) = read_text(alloc, bytes)?;
            Ok((Instr::StoreVariable(name), rest))
        }
        opcode::STOP => Ok((Instr::Stop, bytes)),
        opcode::RUN_NODE => Ok((Instr::RunNode, bytes)),
        _ => unreachable!(),
    }
}
