//! The commands of a script.
use yarn_base::Text;
use yarn_expr::{BinaryOp, Expr};
use yarn_value::{Kind, Value};

/// What the content of a command is, by docs/language.md, "Body lines".
#[derive(Debug, Drop, PartialEq, Eq)]
pub enum Command {
    /// `if e`
    If(Expr),
    /// `elseif e`
    ElseIf(Expr),
    /// `else`
    Else,
    /// `endif`
    EndIf,
    /// `set $x to e`, and with an operator `set $x += e` and its kin. The variable has its `$`
    Set(Text, Option<BinaryOp>, Expr),
    /// `declare $x = v` and `declare $x = v as number`
    Declare(Text, Value, Option<Kind>),
    /// `jump Name`
    Jump(Text),
    /// `jump {e}`, where a string is meant
    JumpTo(Expr),
    /// `stop`
    Stop,
    /// `call f(e, ..)`, where the expression is a `Call`
    Call(Expr),
    /// A command for the game
    Game,
}
