//! The precedences of expressions, and which of them needs parentheses in which.
ghost use Rattle.std.specs.Prelude.{◌≡◌};
ghost use Rattle.operator_terms.specs.Precedence.{needs_parentheses_in};
ghost use Rattle.ras_operators.specs.Levels.{as_precedence};

/// How strongly an expression binds, from weakest to strongest.
///
/// (Rust Reference, "Expression precedence"; upstream's `ast::prec::ExprPrecedence`.)
#[derive(Debug, Clone, Copy, PartialEq, PartialOrd)]
pub enum ExprPrecedence {
    /// `return`, `break`, `continue`, `yield`, `do yeet`, `become`, with or without a value; a
    /// closure without a return type.
    Jump,
    /// `=`, and an operator with it.
    Assign,
    /// `..`, `..=`
    Range,
    /// `||`
    LOr,
    /// `&&`
    LAnd,
    /// `==`, `!=`, `<`, `>`, `<=`, `>=`
    Compare,
    /// `|`
    BitOr,
    /// `^`
    BitXor,
    /// `&`
    BitAnd,
    /// `<<`, `>>`
    Shift,
    /// `+`, `-`
    Sum,
    /// `*`, `/`, `%`
    Product,
    /// `as`
    Cast,
    /// `-`, `*`, `!`, `&`, `let`
    Prefix,
    /// A call, an index, a field, `?`, `.await`.
    Postfix,
    /// A path, a literal, a block, a loop, an expression in delimiters.
    Unambiguous,
}

/// The associativity of the operators of one precedence. No call returns it; callers can use it in
/// tests of their own.
#[derive(Debug, PartialEq)]
pub enum Fixity {
    /// `a - b - c` is `(a - b) - c`.
    Left,
    /// `a = b = c` is `a = (b = c)`.
    Right,
    /// Neither groups: `a < b < c` is not an expression.
    None,
}

impl ExprPrecedence {
    /// Whether an expression of this precedence needs parentheses in one of precedence `other`, by
    /// precedences alone. It ignores on which side the expression is, so it often asks for
    /// parentheses that are not needed. It knows no context, so it asks for none in three cases
    /// that need them: a field that is called, a cast's name before `<` or `<<`, and a record in a
    /// condition.
    ///
    /// Parentheses are never needed in an unambiguous expression. They are needed in a postfix
    /// expression if this one binds less; in a prefix expression if this one binds less and is no
    /// jump; in any other unless this one binds more.
    pub fn needs_parentheses_in(self, other: ExprPrecedence) -> bool
        ensures { result ≡ needs_parentheses_in (as_precedence self) (as_precedence other) }
    {
        match other {
            ExprPrecedence::Unambiguous => false,
            ExprPrecedence::Postfix => self < ExprPrecedence::Postfix,
            ExprPrecedence::Prefix => ExprPrecedence::Jump < self && self < ExprPrecedence::Prefix,
            parent => self <= parent,
        }
    }
}
