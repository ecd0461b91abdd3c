//! A law of the relation between tokens and trees.
ghost use Rattle.std.specs.Prelude.{◌≡◌, List};
ghost use Rattle.yarn_expr.specs.declared.token.Token.{Token};
ghost use Rattle.yarn_expr.specs.Plain.{Tree};
ghost use Rattle.yarn_expr.specs.Expression.{Expression};

/// A list of tokens is at most one tree, with its digits.
pub fn one_tree()
    ensures { (tokens : List Token) (t u : Tree) → Expression tokens t → Expression tokens u → t ≡ u }
{}
