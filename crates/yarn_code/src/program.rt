//! Programs: what a project is compiled to (docs/instructions.md).
use yarn_base::{List, Text};
use yarn_value::{Base, Signatures, Value};

/// An instruction with its operands. A label is the place of an instruction in its node, from 0.
#[derive(Debug, Drop)]
pub enum Instr {
    /// Goes to the label.
    JumpTo(u32),
    /// Goes to the destination on top of the stack.
    Jump,
    /// Takes so many values, and gives the line of that id.
    RunLine(u8, Text),
    /// Takes so many values, and gives the command of that text with the values put in.
    RunCommand(u8, Text),
    /// Takes a truth where it is conditional, then so many values, and adds the option of that id and label.
    AddOption(u8, Text, u32, bool),
    /// Gives the options that were added. The destination of the one that is chosen is pushed.
    ShowOptions,
    PushString(Text),
    PushFloat(i64),
    PushBool(bool),
    PushNull,
    /// Goes to the label where the top of the stack is False.
    JumpIfFalse(u32),
    /// Drops the top of the stack.
    Pop,
    /// Takes so many values, and pushes what the function of that name gives on them.
    CallFunc(u8, Text),
    PushVariable(Text),
    /// Stores the top of the stack under that name.
    StoreVariable(Text),
    /// Ends the node and the run.
    Stop,
    /// Takes a title, ends the node and enters the node of that title.
    RunNode,
}

/// An instruction, with the number of its line in the source, from 1. A fault names that line.
#[derive(Debug, Drop)]
pub struct Coded {
    pub line: u32,
    pub instr: Instr,
}

/// The instructions of a node.
#[derive(Debug, Drop)]
pub struct CodeNode {
    pub title: Text,
    /// The place of its file among the program's files, from 0.
    pub file: u32,
    pub code: List<Coded>,
}

/// A variable of a program, with the value with which it begins.
#[derive(Debug, Drop)]
pub struct Variable {
    pub name: Text,
    pub initial: Value,
}

/// A program.
#[derive(Debug, Drop)]
pub struct Program {
    /// The names of its source files.
    pub files: List<Text>,
    pub variables: List<Variable>,
    /// The host functions that its instructions call.
    pub functions: Signatures,
    pub nodes: List<CodeNode>,
    /// Its lines and options.
    pub lines: Base,
}
