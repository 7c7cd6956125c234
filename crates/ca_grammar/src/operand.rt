//! Expressions as they are spelled.

use ca_tree::Pos;
use ca_tree::tree::Exp;

/// An expression with what its spelling tells beside its tree: where it begins, and where with its parentheses; how deep
/// it is, and whether it stands directly in parentheses.
///
/// A number, `NULL` or a name has depth 1, and an operator or a postfix is one deeper than its deepest part. Parentheses
/// add nothing, but round an expression that stands directly in parentheses they add one.
#[derive(Drop)]
pub struct Operand {
    pub exp: Exp,
    pub pos: Pos,
    pub start: Pos,
    pub depth: u32,
    pub in_parentheses: bool,
}
