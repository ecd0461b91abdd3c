//! The table of operators and builtins, which is searched by name (docs/language.md).
//!
//! A new row keeps the rising order of names, which the check proves, and the number of rows in
//! the type of `BUILTINS`.
ghost use Rattle.std.specs.Prelude.{◌≡◌, length, true, option_map, MatchOption, [], ◌∷◌, ◌++◌};
ghost use Rattle.yarn_value.specs.Builtins.{is_rising, rows_of, row_of, row_named, builtin_rows};

use crate::{Kind, Op};
use std::cmp::Ordering;

/// What a builtin takes at a place.
#[derive(Clone, Copy, Debug, PartialEq, Eq)]
pub enum Param {
    /// An argument of this kind.
    One(Kind),
    /// An argument of any kind.
    Any,
    /// An argument of the first argument's kind.
    Same,
}

/// A row of the table: an operator or a builtin under the name that programs use.
#[derive(Clone, Copy, Debug)]
pub struct Builtin {
    pub name: &'static str,
    /// What it takes first.
    pub first: Option<Param>,
    /// What it takes behind that.
    pub second: Option<Param>,
    /// The kind of what it gives.
    pub result: Kind,
    /// The operation of `apply`; none where the row needs the store.
    pub op: Option<Op>,
}

/// A table of `N` rows in strictly rising order of names.
#[derive(Clone, Copy, Debug)]
pub struct Builtins<const N: usize> {
    rows: &'static [Builtin],
    ghost all: { length rows.now ≡ N },
    ghost rising: { is_rising (rows_of rows.now) ≡ true },
}

impl<const N: usize> Builtins<N> {
    ghost use Rattle.yarn_value.specs.BuiltinTable.{rows_in};

    /// The row of that name, and none where the table has no such row.
    pub fn find(&self, name: &str) -> Option<Builtin>
        ensures { option_map row_of result ≡ row_named (rows_in self.now) name.now }
    {
        let mut rows = self.rows;
        while let Some((front, row, after)) = halves(rows) {
            match row.name.cmp(name) {
                Ordering::Equal => return Some(*row),
                Ordering::Less => rows = after,
                Ordering::Greater => rows = front,
            }
        }
        None
    }
}

/// The row in the middle, with what stands before it and what stands behind it.
fn halves(rows: &[Builtin]) -> Option<(&[Builtin], &Builtin, &[Builtin])>
    ensures parts { MatchOption result (rows.now ≡ []) (λ p. rows.now ≡ p.0.now ++ p.1.now ∷ p.2.now) }
{
    let (front, back) = rows.split_at(rows.len() / 2);
    let (row, after) = back.split_first()?;
    Some((front, row, after))
}

const NUMBER: Option<Param> = Some(Param::One(Kind::Number));

const TEXT: Option<Param> = Some(Param::One(Kind::Str));

const TRUTH: Option<Param> = Some(Param::One(Kind::Truth));

const ANY: Option<Param> = Some(Param::Any);

const SAME: Option<Param> = Some(Param::Same);

/// The rows, in the order of their names.
const ROWS: [Builtin; 22] = [
    Builtin {
        name: "#add",
        first: NUMBER,
        second: NUMBER,
        result: Kind::Number,
        op: Some(Op::Add),
    },
    Builtin {
        name: "#and",
        first: TRUTH,
        second: TRUTH,
        result: Kind::Truth,
        op: Some(Op::And),
    },
    Builtin {
        name: "#concat",
        first: TEXT,
        second: TEXT,
        result: Kind::Str,
        op: Some(Op::Concat),
    },
    Builtin {
        name: "#div",
        first: NUMBER,
        second: NUMBER,
        result: Kind::Number,
        op: Some(Op::Div),
    },
    Builtin {
        name: "#eq",
        first: ANY,
        second: SAME,
        result: Kind::Truth,
        op: Some(Op::Eq),
    },
    Builtin {
        name: "#gt",
        first: NUMBER,
        second: NUMBER,
        result: Kind::Truth,
        op: Some(Op::Gt),
    },
    Builtin {
        name: "#gte",
        first: NUMBER,
        second: NUMBER,
        result: Kind::Truth,
        op: Some(Op::Gte),
    },
    Builtin {
        name: "#lt",
        first: NUMBER,
        second: NUMBER,
        result: Kind::Truth,
        op: Some(Op::Lt),
    },
    Builtin {
        name: "#lte",
        first: NUMBER,
        second: NUMBER,
        result: Kind::Truth,
        op: Some(Op::Lte),
    },
    Builtin {
        name: "#mul",
        first: NUMBER,
        second: NUMBER,
        result: Kind::Number,
        op: Some(Op::Mul),
    },
    Builtin {
        name: "#neg",
        first: NUMBER,
        second: None,
        result: Kind::Number,
        op: Some(Op::Neg),
    },
    Builtin {
        name: "#neq",
        first: ANY,
        second: SAME,
        result: Kind::Truth,
        op: Some(Op::Neq),
    },
    Builtin {
        name: "#not",
        first: TRUTH,
        second: None,
        result: Kind::Truth,
        op: Some(Op::Not),
    },
    Builtin {
        name: "#or",
        first: TRUTH,
        second: TRUTH,
        result: Kind::Truth,
        op: Some(Op::Or),
    },
    Builtin {
        name: "#rem",
        first: NUMBER,
        second: NUMBER,
        result: Kind::Number,
        op: Some(Op::Rem),
    },
    Builtin {
        name: "#sub",
        first: NUMBER,
        second: NUMBER,
        result: Kind::Number,
        op: Some(Op::Sub),
    },
    Builtin {
        name: "#xor",
        first: TRUTH,
        second: TRUTH,
        result: Kind::Truth,
        op: Some(Op::Xor),
    },
    Builtin {
        name: "bool",
        first: ANY,
        second: None,
        result: Kind::Truth,
        op: Some(Op::TruthOf),
    },
    Builtin {
        name: "number",
        first: ANY,
        second: None,
        result: Kind::Number,
        op: Some(Op::NumberOf),
    },
    Builtin {
        name: "string",
        first: ANY,
        second: None,
        result: Kind::Str,
        op: Some(Op::TextOf),
    },
    Builtin {
        name: "visited",
        first: TEXT,
        second: None,
        result: Kind::Truth,
        op: None,
    },
    Builtin {
        name: "visited_count",
        first: TEXT,
        second: None,
        result: Kind::Number,
        op: None,
    },
];

/// The operators and builtins of the language.
pub const BUILTINS: Builtins<22> = Builtins { rows: &ROWS };

/// The row of that name among the operators and builtins of the language.
pub fn find_builtin(name: &str) -> Option<Builtin>
    ensures { option_map row_of result ≡ row_named builtin_rows name.now }
{
    BUILTINS.find(name)
}
