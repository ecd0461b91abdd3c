//! Reads the expression that stands between two places of a text.
ghost use Rattle.std.specs.Prelude.{◌≡◌, ◌≤◌, IfOk, IsErrOf, List};
ghost use Rattle.std.specs.Str.{chars, IsCharBoundary};
ghost use Rattle.yarn_expr.specs.declared.token.Token.{Token as TokenOf};
ghost use Rattle.yarn_expr.specs.Plain.{Tree, expr_of};
ghost use Rattle.yarn_expr.specs.Gives.{piece_answer};
ghost use Rattle.yarn_expr.specs.Piece.{Answers, answer_to, piece_of, HasTree, IsKept, HasFraction, HasLarge};

use crate::answer::answer;
use crate::refusal::Refusal;
use crate::tokenize::tokenize;
use crate::{Expr, ExprFault};
use std::alloc::Global;
use yarn_base::Text;

/// Reads the piece of the text from the byte `from` up to the byte `to`, counted from 0.
pub fn read_expr(alloc: Global, text: &Text, from: usize, to: usize) -> Result<Expr, ExprFault>
    requires order { from ≤ to }
    requires start { IsCharBoundary text.now from }
    requires end { IsCharBoundary text.now to }

    // Ok is the tree of the piece, and its literals can be kept.
    ensures found { IfOk result (IsKept (piece_of text.now from to)) }

    // Each tree of the piece is answered, but for a fraction, and else for a number that is too large.
    ensures only { (tokens : List TokenOf) (tree : Tree) → HasTree (piece_of text.now from to) tokens tree
        → Answers result (answer_to (expr_of tree) tokens) }

    // A refusal comes only where its cause stands. A piece with a fraction or a large number has a tree.
    ensures not_expr { IsErrOf result ExprFault.NotExpr → (tokens : List TokenOf) (tree : Tree)
        → HasTree (piece_of text.now from to) tokens tree → ⊥ }
    ensures fraction { IsErrOf result ExprFault.Fraction → HasFraction (piece_of text.now from to) }
    ensures too_large { IsErrOf result ExprFault.NumberTooLarge → HasLarge (piece_of text.now from to) }
{
    read_piece(alloc, &text.as_str()[from..to])
}

fn read_piece(alloc: Global, piece: &str) -> Result<Expr, ExprFault>
    ensures { Answers result (piece_answer (chars piece.now)) }
{
    match tokenize(alloc, piece) {
        Ok(tokens) => answer(alloc, tokens.as_slice()),
        Err(Refusal::NotExpr) => Err(ExprFault::NotExpr),
        Err(Refusal::Memory) => Err(ExprFault::Memory),
    }
}
