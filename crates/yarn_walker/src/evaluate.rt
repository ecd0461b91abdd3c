//! The values of expressions (docs/language.md, The meaning; Operators and builtins).
ghost use Rattle.std.specs.Prelude.{◌≡◌, [], ◌∷◌, IfOk, IsTrue};
ghost use Rattle.yarn_value.specs.Rows.{HasKinds, first_of, second_of, takes as kinds_taken};
ghost use Rattle.yarn_meaning.specs.Eval.{eval, eval_all, operated as operated_of, unary_op as unary_op_of, binary_op as binary_op_of, called, stored as stored_of, known_value as known_value_of, plus_of};
ghost use Rattle.yarn_value.specs.Builtins.{builtin_named};
ghost use Rattle.yarn_value.specs.Visits.{of_visits as value_of_visits};
ghost use Rattle.yarn_meaning.specs.Does.{is_true as is_true_of};
ghost use Rattle.yarn_walker.specs.Means.{Means};
ghost use Rattle.yarn_walker.specs.States.{no_hosts};

use crate::stored::visits;
use std::alloc::Global;
use yarn_base::{List, Memory, Text};
use yarn_expr::{BinaryOp, Expr, UnaryOp};
use yarn_store::Store;
use yarn_value::{Kind, Op, OpFault, Value, apply, find_builtin};

/// The value of an expression, or the fault of the run. A call of what isn't a builtin, and operands of other kinds
/// than the operator's, are answered by `Memory`: no project with one typing has them.
#[cycle(evaluation)]
pub(crate) fn evaluate(alloc: Global, expr: &Expr, store: &Store) -> Result<Value, OpFault>
    ensures { Means (eval no_hosts store.now expr.now []) result }
{
    match expr {
        Expr::Number(number) => Ok(Value::Number(*number)),
        Expr::Str(text) => Ok(Value::Str(text.copy()?)),
        Expr::Truth(truth) => Ok(Value::Truth(*truth)),
        Expr::Variable(name) => Ok(stored(store, name)?),
        Expr::Group(inner) => evaluate(alloc, inner.get(), store),
        Expr::Unary(op, inner) => {
            let value = evaluate(alloc, inner.get(), store)?;
            operated(alloc, unary_op(*op), &[value])
        }
        Expr::Binary(op, left, right) => {
            let left = evaluate(alloc, left.get(), store)?;
            let right = evaluate(alloc, right.get(), store)?;
            operated(alloc, binary_op(*op, &left), &[left, right])
        }
        Expr::Call(name, args) => {
            let values = evaluate_all(alloc, args.as_slice(), store)?;
            call(alloc, name, values.as_slice(), store)
        }
    }
}

/// The values of expressions, from the left.
#[cycle(evaluation)]
pub(crate) fn evaluate_all(
    alloc: Global,
    exprs: &[Expr],
    store: &Store,
) -> Result<List<Value>, OpFault>
    ensures { Means (eval_all no_hosts store.now exprs.now []) result }
{
    let mut values = List::new(alloc);
    for expr in exprs {
        let value = evaluate(alloc, expr, store)?;
        values.push(value).map_err(|_| Memory)?;
    }
    Ok(values)
}

/// What an operator makes of a variable's value and another.
pub(crate) fn combined(
    alloc: Global,
    op: BinaryOp,
    name: &Text,
    value: Value,
    store: &Store,
) -> Result<Value, OpFault>
    ensures { Means (operated_of (binary_op_of op (stored_of store.now name.now)) (stored_of store.now name.now ∷ value ∷ []) []) result }
{
    let before = stored(store, name)?;
    operated(alloc, binary_op(op, &before), &[before, value])
}

/// Whether a condition holds that has this value.
pub(crate) fn is_true(value: &Value) -> bool
    ensures { result ≡ is_true_of value.now }
{
    match value {
        Value::Truth(truth) => *truth,
        Value::Number(_) | Value::Str(_) => false,
    }
}

// The value of a variable.
fn stored(store: &Store, name: &Text) -> Result<Value, Memory>
    ensures { IfOk result (λ value. value ≡ stored_of store.now name.now) }
{
    match store.get(name) {
        Some(value) => value.copy(),
        None => Ok(Value::Number(0)),
    }
}

fn unary_op(op: UnaryOp) -> Op
    ensures { result ≡ unary_op_of op }
{
    match op {
        UnaryOp::Neg => Op::Neg,
        UnaryOp::Not => Op::Not,
    }
}

// The operation of an operator behind such a left side: `+` joins texts, and adds numbers.
fn binary_op(op: BinaryOp, left: &Value) -> Op
    ensures { result ≡ binary_op_of op left.now }
{
    match op {
        BinaryOp::Mul => Op::Mul,
        BinaryOp::Div => Op::Div,
        BinaryOp::Rem => Op::Rem,
        BinaryOp::Add => plus(left),
        BinaryOp::Sub => Op::Sub,
        BinaryOp::Lte => Op::Lte,
        BinaryOp::Gte => Op::Gte,
        BinaryOp::Lt => Op::Lt,
        BinaryOp::Gt => Op::Gt,
        BinaryOp::Eq => Op::Eq,
        BinaryOp::Neq => Op::Neq,
        BinaryOp::And => Op::And,
        BinaryOp::Or => Op::Or,
        BinaryOp::Xor => Op::Xor,
    }
}

fn plus(left: &Value) -> Op
    ensures { result ≡ plus_of left.now }
{
    match left {
        Value::Str(_) => Op::Concat,
        Value::Number(_) | Value::Truth(_) => Op::Add,
    }
}

fn operated(alloc: Global, op: Op, args: &[Value]) -> Result<Value, OpFault>
    ensures { Means (operated_of op args.now []) result }
{
    if takes(op, args) {
        apply(alloc, op, args)
    } else {
        Err(OpFault::Memory)
    }
}

// Whether the operation takes arguments of these kinds.
fn takes(op: Op, args: &[Value]) -> bool
    ensures { IsTrue result → HasKinds op args.now }
{
    match args {
        [only] => takes_one(op, only.kind()),
        [first, second] => takes_two(op, first.kind(), second.kind()),
        _ => false,
    }
}

fn takes_one(op: Op, kind: Kind) -> bool
    ensures { IsTrue result → IsTrue (kinds_taken (first_of op) (second_of op) (kind ∷ [])) }
{
    match op {
        Op::Neg => kind == Kind::Number,
        Op::Not => kind == Kind::Truth,
        Op::TruthOf | Op::NumberOf | Op::TextOf => true,
        _ => false,
    }
}

fn takes_two(op: Op, first: Kind, second: Kind) -> bool
    ensures { IsTrue result → IsTrue (kinds_taken (first_of op) (second_of op) (first ∷ second ∷ [])) }
{
    match op {
        Op::Eq | Op::Neq => first == second,
        Op::Concat => first == Kind::Str && second == Kind::Str,
        Op::And | Op::Or | Op::Xor => first == Kind::Truth && second == Kind::Truth,
        Op::Neg | Op::Not | Op::TruthOf | Op::NumberOf | Op::TextOf => false,
        _ => first == Kind::Number && second == Kind::Number,
    }
}

#[tactic(auto, unfolding(yarn_value::specs::Builtins::builtin_named))]
fn call(alloc: Global, name: &Text, args: &[Value], store: &Store) -> Result<Value, OpFault>
    ensures { Means (called no_hosts store.now (builtin_named name.now) name.now args.now []) result }
{
    match find_builtin(name.as_str()) {
        Some(row) => match row.op {
            Some(op) => operated(alloc, op, args),
            None => Ok(known_value(alloc, row.result, args, store)?),
        },
        None => Err(OpFault::Memory),
    }
}

// What `visited` and `visited_count` say of a title.
fn known_value(alloc: Global, kind: Kind, args: &[Value], store: &Store) -> Result<Value, Memory>
    ensures { IfOk result (λ value. value ≡ known_value_of no_hosts store.now kind args.now) }
{
    match args {
        [Value::Str(title)] => Ok(of_visits(kind, visits(alloc, store, title)?)),
        _ => Ok(Value::Truth(false)),
    }
}

fn of_visits(kind: Kind, count: i64) -> Value
    ensures { result ≡ value_of_visits kind count }
{
    match kind {
        Kind::Truth => Value::Truth(count > 0),
        Kind::Number | Kind::Str => Value::Number(count),
    }
}
