//! The listings of two programs.
use crate::{CodeNode, Coded, Instr, Program, Variable, list_program};
use std::alloc::Global;
use yarn_base::{List, Memory, Text};
use yarn_value::{BaseLine, Kind, Signature, Value};

const VISITS: &str = "$Yarn.Internal.Visiting.Start";

const HELLO: &str = "program YSP1
file 0 a.yarn
variable $Yarn.Internal.Visiting.Start number 0
node Start 0
  0 3 RUN_LINE 0 line:Start-0
  1 4 PUSH_VARIABLE $Yarn.Internal.Visiting.Start
  2 4 PUSH_FLOAT 1
  3 4 CALL_FUNC 2 #add
  4 4 STORE_VARIABLE $Yarn.Internal.Visiting.Start
  5 4 POP
  6 4 STOP
line line:Start-0 0 \"Hello\"
";

const EACH: &str = "program YSP1
file 0 a.yarn
file 1 b c.yarn
variable $number number -3
variable $text string \"a \\\"b\\\"\\n\"
variable $lit bool true
variable $out bool false
function dice() number
function pick(number,string,bool) string
node Empty 0
node Each 1
  0 1 JUMP_TO 12
  1 2 JUMP
  2 3 RUN_LINE 1 line:Each-0
  3 4 RUN_COMMAND 2 \"say {0} {1} \\\\\"
  4 5 ADD_OPTION 0 line:Each-1 13 true
  5 5 ADD_OPTION 16 line:Each-2 4294967295 false
  6 6 SHOW_OPTIONS
  7 7 PUSH_STRING \"\"
  8 8 PUSH_FLOAT -9223372036854775808
  9 9 PUSH_BOOL true
  10 9 PUSH_BOOL false
  11 10 PUSH_NULL
  12 11 JUMP_IF_FALSE 0
  13 12 POP
  14 13 CALL_FUNC 0 dice
  15 14 PUSH_VARIABLE $number
  16 15 STORE_VARIABLE $lit
  17 16 STOP
  18 4294967295 RUN_NODE
line line:Each-0 1 \"{0}!\"
line line:Each-1 0 \"Yes\\r\"
";

fn text(alloc: Global, text: &str) -> Result<Text, Memory> {
    Text::from_str(alloc, text)
}

fn coded(line: u32, instr: Instr) -> Coded {
    Coded { line, instr }
}

fn variable(alloc: Global, name: &str, initial: Value) -> Result<Variable, Memory> {
    let name = text(alloc, name)?;
    Ok(Variable { name, initial })
}

fn base_line(alloc: Global, id: &str, holes: u8, template: &str) -> Result<BaseLine, Memory> {
    Ok(BaseLine {
        id: text(alloc, id)?,
        holes,
        text: text(alloc, template)?,
        file: 0,
        node: 0,
        line: 3,
    })
}

fn hello(alloc: Global) -> Result<Program, Memory> {
    let code = vec![in alloc;
        coded(3, Instr::RunLine(0, text(alloc, "line:Start-0")?)),
        coded(4, Instr::PushVariable(text(alloc, VISITS)?)),
        coded(4, Instr::PushFloat(1)),
        coded(4, Instr::CallFunc(2, text(alloc, "#add")?)),
        coded(4, Instr::StoreVariable(text(alloc, VISITS)?)),
        coded(4, Instr::Pop),
        coded(4, Instr::Stop),
    ]?;
    let start = CodeNode {
        title: text(alloc, "Start")?,
        file: 0,
        code: List::from_vec(code),
    };
    Ok(Program {
        files: List::from_vec(vec![in alloc; text(alloc, "a.yarn")?]?),
        variables: List::from_vec(vec![in alloc; variable(alloc, VISITS, Value::Number(0))?]?),
        functions: List::new(alloc),
        nodes: List::from_vec(vec![in alloc; start]?),
        lines: List::from_vec(vec![in alloc; base_line(alloc, "line:Start-0", 0, "Hello")?]?),
    })
}

fn each_code(alloc: Global) -> Result<List<Coded>, Memory> {
    let code = vec![in alloc;
        coded(1, Instr::JumpTo(12)),
        coded(2, Instr::Jump),
        coded(3, Instr::RunLine(1, text(alloc, "line:Each-0")?)),
        coded(4, Instr::RunCommand(2, text(alloc, "say {0} {1} \\")?)),
        coded(
            5,
            Instr::AddOption(0, text(alloc, "line:Each-1")?, 13, true)
        ),
        coded(
            5,
            Instr::AddOption(16, text(alloc, "line:Each-2")?, 4_294_967_295, false)
        ),
        coded(6, Instr::ShowOptions),
        coded(7, Instr::PushString(text(alloc, "")?)),
        coded(8, Instr::PushFloat(-9_223_372_036_854_775_808)),
        coded(9, Instr::PushBool(true)),
        coded(9, Instr::PushBool(false)),
        coded(10, Instr::PushNull),
        coded(11, Instr::JumpIfFalse(0)),
        coded(12, Instr::Pop),
        coded(13, Instr::CallFunc(0, text(alloc, "dice")?)),
        coded(14, Instr::PushVariable(text(alloc, "$number")?)),
        coded(15, Instr::StoreVariable(text(alloc, "$lit")?)),
        coded(16, Instr::Stop),
        coded(4_294_967_295, Instr::RunNode),
    ]?;
    Ok(List::from_vec(code))
}

fn each_functions(alloc: Global) -> Result<List<Signature>, Memory> {
    let dice = Signature {
        name: text(alloc, "dice")?,
        params: List::new(alloc),
        result: Kind::Number,
    };
    let pick = Signature {
        name: text(alloc, "pick")?,
        params: List::from_vec(vec![in alloc; Kind::Number, Kind::Str, Kind::Truth]?),
        result: Kind::Str,
    };
    Ok(List::from_vec(vec![in alloc; dice, pick]?))
}

// A program with each kind, each opcode and a node without instructions.
fn each(alloc: Global) -> Result<Program, Memory> {
    let variables = vec![in alloc;
        variable(alloc, "$number", Value::Number(-3))?,
        variable(alloc, "$text", Value::Str(text(alloc, "a \"b\"\n")?))?,
        variable(alloc, "$lit", Value::Truth(true))?,
        variable(alloc, "$out", Value::Truth(false))?,
    ]?;
    let empty = CodeNode {
        title: text(alloc, "Empty")?,
        file: 0,
        code: List::new(alloc),
    };
    let each = CodeNode {
        title: text(alloc, "Each")?,
        file: 1,
        code: each_code(alloc)?,
    };
    let lines = vec![in alloc;
        base_line(alloc, "line:Each-0", 1, "{0}!")?,
        base_line(alloc, "line:Each-1", 0, "Yes\r")?,
    ]?;
    Ok(Program {
        files: List::from_vec(vec![in alloc; text(alloc, "a.yarn")?, text(alloc, "b c.yarn")?]?),
        variables: List::from_vec(variables),
        functions: each_functions(alloc)?,
        nodes: List::from_vec(vec![in alloc; empty, each]?),
        lines: List::from_vec(lines),
    })
}

#[test]
fn programs_are_listed(rt: HostRuntime) -> Result<(), Memory> {
    let alloc = rt.alloc();
    let hello = list_program(alloc, &hello(alloc)?)?;
    assert_eq!(rt; hello.as_str(), HELLO);
    let each = list_program(alloc, &each(alloc)?)?;
    assert_eq!(rt; each.as_str(), EACH);
    Ok(())
}
