//! Token expressions.

use tb_literal::LiteralMatcher;

/// A token expression, with the matchers of its literals.
pub type Expr = tb_syntax::Expr<LiteralMatcher>;
