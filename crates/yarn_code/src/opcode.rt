//! The numbers of the instructions in a program file. The table is docs/formats.md, Program files.

pub(crate) const JUMP_TO: u8 = 0;

pub(crate) const JUMP: u8 = 1;

pub(crate) const RUN_LINE: u8 = 2;

pub(crate) const RUN_COMMAND: u8 = 3;

pub(crate) const ADD_OPTION: u8 = 4;

pub(crate) const SHOW_OPTIONS: u8 = 5;

pub(crate) const PUSH_STRING: u8 = 6;

pub(crate) const PUSH_FLOAT: u8 = 7;

pub(crate) const PUSH_BOOL: u8 = 8;

pub(crate) const PUSH_NULL: u8 = 9;

pub(crate) const JUMP_IF_FALSE: u8 = 10;

pub(crate) const POP: u8 = 11;

pub(crate) const CALL_FUNC: u8 = 12;

pub(crate) const PUSH_VARIABLE: u8 = 13;

pub(crate) const STORE_VARIABLE: u8 = 14;

pub(crate) const STOP: u8 = 15;

pub(crate) const RUN_NODE: u8 = 16;

/// How many instructions there are.
pub(crate) const COUNT: u8 = 17;
