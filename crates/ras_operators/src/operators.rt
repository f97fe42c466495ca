//! The operators of expressions and patterns: their tokens and their texts.
ghost use Rattle.std.specs.Prelude.{◌≡◌, Some};
ghost use Rattle.ras_operators.specs.OperatorTexts.{unary_op, range_op, binary_op, logic_text, arith_text, cmp_text, binary_text};

use std::fmt;
use syntax_kind::SyntaxKind;

/// A prefix operator: `*`, `!`, `-`.
#[derive(Clone, Copy, Debug, PartialEq, Eq, Hash)]
pub enum UnaryOp {
    /// `*`
    Deref,
    /// `!`
    Not,
    /// `-`
    Neg,
}

/// The operator of a range.
#[derive(Clone, Copy, Debug, PartialEq, Eq, Hash)]
pub enum RangeOp {
    /// `..`
    Exclusive,
    /// `..=`
    Inclusive,
}

/// An operator on booleans that may not evaluate its second operand.
#[derive(Clone, Copy, Debug, PartialEq, Eq, Hash)]
pub enum LogicOp {
    /// `&&`
    And,
    /// `||`
    Or,
}

/// An operator on numbers and bits.
#[derive(Clone, Copy, Debug, PartialEq, Eq, Hash)]
pub enum ArithOp {
    /// `+`
    Add,
    /// `*`
    Mul,
    /// `-`
    Sub,
    /// `/`
    Div,
    /// `%`
    Rem,
    /// `<<`
    Shl,
    /// `>>`
    Shr,
    /// `^`
    BitXor,
    /// `|`
    BitOr,
    /// `&`
    BitAnd,
}

/// Which side of a comparison is the greater one.
#[derive(Clone, Copy, Debug, PartialEq, Eq, Hash)]
pub enum Ordering {
    /// The left operand is less.
    Less,
    /// The left operand is greater.
    Greater,
}

/// A comparison.
#[derive(Clone, Copy, Debug, PartialEq, Eq, Hash)]
pub enum CmpOp {
    /// `==`, negated `!=`.
    Eq { negated: bool },
    /// `<`, `>`, and `<=`, `>=` if it is not strict.
    Ord { ordering: Ordering, strict: bool },
}

/// A binary operator.
#[derive(Clone, Copy, Debug, PartialEq, Eq, Hash)]
pub enum BinaryOp {
    LogicOp(LogicOp),
    ArithOp(ArithOp),
    CmpOp(CmpOp),
    /// `=`, or an operator with it, as `+=`.
    Assignment { op: Option<ArithOp> },
}

/// The prefix operator that a kind of token is, or `None` if it is not one.
pub fn unary_op(kind: SyntaxKind) -> Option<UnaryOp>
    ensures { result ≡ unary_op kind }
{
    match kind {
        SyntaxKind::STAR => Some(UnaryOp::Deref),
        SyntaxKind::BANG => Some(UnaryOp::Not),
        SyntaxKind::MINUS => Some(UnaryOp::Neg),
        _ => None,
    }
}

/// The range operator that a kind of token is, or `None` if it is not one.
pub fn range_op(kind: SyntaxKind) -> Option<RangeOp>
    ensures { result ≡ range_op kind }
{
    match kind {
        SyntaxKind::DOT2 => Some(RangeOp::Exclusive),
        SyntaxKind::DOT2EQ => Some(RangeOp::Inclusive),
        _ => None,
    }
}

/// The binary operator that a kind of token is, or `None` if it is not one.
pub fn binary_op(kind: SyntaxKind) -> Option<BinaryOp>
    ensures { result ≡ binary_op kind }
{
    match kind {
        SyntaxKind::PIPE2 => Some(BinaryOp::LogicOp(LogicOp::Or)),
        SyntaxKind::AMP2 => Some(BinaryOp::LogicOp(LogicOp::And)),
        SyntaxKind::EQ2 => Some(BinaryOp::CmpOp(CmpOp::Eq { negated: false })),
        SyntaxKind::NEQ => Some(BinaryOp::CmpOp(CmpOp::Eq { negated: true })),
        SyntaxKind::LTEQ => Some(BinaryOp::CmpOp(CmpOp::Ord {
            ordering: Ordering::Less,
            strict: false,
        })),
        SyntaxKind::GTEQ => Some(BinaryOp::CmpOp(CmpOp::Ord {
            ordering: Ordering::Greater,
            strict: false,
        })),
        SyntaxKind::L_ANGLE => Some(BinaryOp::CmpOp(CmpOp::Ord {
            ordering: Ordering::Less,
            strict: true,
        })),
        SyntaxKind::R_ANGLE => Some(BinaryOp::CmpOp(CmpOp::Ord {
            ordering: Ordering::Greater,
            strict: true,
        })),
        SyntaxKind::PLUS => Some(BinaryOp::ArithOp(ArithOp::Add)),
        SyntaxKind::STAR => Some(BinaryOp::ArithOp(ArithOp::Mul)),
        SyntaxKind::MINUS => Some(BinaryOp::ArithOp(ArithOp::Sub)),
        SyntaxKind::SLASH => Some(BinaryOp::ArithOp(ArithOp::Div)),
        SyntaxKind::PERCENT => Some(BinaryOp::ArithOp(ArithOp::Rem)),
        SyntaxKind::SHL => Some(BinaryOp::ArithOp(ArithOp::Shl)),
        SyntaxKind::SHR => Some(BinaryOp::ArithOp(ArithOp::Shr)),
        SyntaxKind::CARET => Some(BinaryOp::ArithOp(ArithOp::BitXor)),
        SyntaxKind::PIPE => Some(BinaryOp::ArithOp(ArithOp::BitOr)),
        SyntaxKind::AMP => Some(BinaryOp::ArithOp(ArithOp::BitAnd)),
        SyntaxKind::EQ => Some(BinaryOp::Assignment { op: None }),
        SyntaxKind::PLUSEQ => Some(BinaryOp::Assignment {
            op: Some(ArithOp::Add),
        }),
        SyntaxKind::STAREQ => Some(BinaryOp::Assignment {
            op: Some(ArithOp::Mul),
        }),
        SyntaxKind::MINUSEQ => Some(BinaryOp::Assignment {
            op: Some(ArithOp::Sub),
        }),
        SyntaxKind::SLASHEQ => Some(BinaryOp::Assignment {
            op: Some(ArithOp::Div),
        }),
        SyntaxKind::PERCENTEQ => Some(BinaryOp::Assignment {
            op: Some(ArithOp::Rem),
        }),
        SyntaxKind::SHLEQ => Some(BinaryOp::Assignment {
            op: Some(ArithOp::Shl),
        }),
        SyntaxKind::SHREQ => Some(BinaryOp::Assignment {
            op: Some(ArithOp::Shr),
        }),
        SyntaxKind::CARETEQ => Some(BinaryOp::Assignment {
            op: Some(ArithOp::BitXor),
        }),
        SyntaxKind::PIPEEQ => Some(BinaryOp::Assignment {
            op: Some(ArithOp::BitOr),
        }),
        SyntaxKind::AMPEQ => Some(BinaryOp::Assignment {
            op: Some(ArithOp::BitAnd),
        }),
        _ => None,
    }
}

impl LogicOp {
    // The text of the operator.
    fn text(self) -> &'static str
        ensures { result.now ≡ logic_text self }
    {
        match self {
            LogicOp::And => "&&",
            LogicOp::Or => "||",
        }
    }
}

impl ArithOp {
    // The text of the operator.
    fn text(self) -> &'static str
        ensures { result.now ≡ arith_text self }
    {
        match self {
            ArithOp::Add => "+",
            ArithOp::Mul => "*",
            ArithOp::Sub => "-",
            ArithOp::Div => "/",
            ArithOp::Rem => "%",
            ArithOp::Shl => "<<",
            ArithOp::Shr => ">>",
            ArithOp::BitXor => "^",
            ArithOp::BitOr => "|",
            ArithOp::BitAnd => "&",
        }
    }

    // The text of the operator with an assignment.
    fn assigning(self) -> &'static str
        ensures { result.now ≡ binary_text (BinaryOp.Assignment (Some self)) }
    {
        match self {
            ArithOp::Add => "+=",
            ArithOp::Mul => "*=",
            ArithOp::Sub => "-=",
            ArithOp::Div => "/=",
            ArithOp::Rem => "%=",
            ArithOp::Shl => "<<=",
            ArithOp::Shr => ">>=",
            ArithOp::BitXor => "^=",
            ArithOp::BitOr => "|=",
            ArithOp::BitAnd => "&=",
        }
    }
}

impl CmpOp {
    // The text of the operator.
    fn text(self) -> &'static str
        ensures { result.now ≡ cmp_text self }
    {
        match self {
            CmpOp::Eq { negated: false } => "==",
            CmpOp::Eq { negated: true } => "!=",
            CmpOp::Ord {
                ordering: Ordering::Less,
                strict: false,
            } => "<=",
            CmpOp::Ord {
                ordering: Ordering::Less,
                strict: true,
            } => "<",
            CmpOp::Ord {
                ordering: Ordering::Greater,
                strict: false,
            } => ">=",
            CmpOp::Ord {
                ordering: Ordering::Greater,
                strict: true,
            } => ">",
        }
    }
}

impl BinaryOp {
    // The text of the operator.
    fn text(self) -> &'static str
        ensures { result.now ≡ binary_text self }
    {
        match self {
            BinaryOp::LogicOp(op) => op.text(),
            BinaryOp::ArithOp(op) => op.text(),
            BinaryOp::CmpOp(op) => op.text(),
            BinaryOp::Assignment { op: None } => "=",
            BinaryOp::Assignment { op: Some(op) } => op.assigning(),
        }
    }
}

impl fmt::Display for LogicOp {
    ghost output = { λ it. Some (logic_text it) };

    fn fmt<W: fmt::Write>(&self, f: &mut fmt::Formatter<W>) -> fmt::Result {
        let text = self.text();
        write!(f, "{text}")
    }
}

impl fmt::Display for ArithOp {
    ghost output = { λ it. Some (arith_text it) };

    fn fmt<W: fmt::Write>(&self, f: &mut fmt::Formatter<W>) -> fmt::Result {
        let text = self.text();
        write!(f, "{text}")
    }
}

impl fmt::Display for CmpOp {
    ghost output = { λ it. Some (cmp_text it) };

    fn fmt<W: fmt::Write>(&self, f: &mut fmt::Formatter<W>) -> fmt::Result {
        let text = self.text();
        write!(f, "{text}")
    }
}

impl fmt::Display for BinaryOp {
    ghost output = { λ it. Some (binary_text it) };

    fn fmt<W: fmt::Write>(&self, f: &mut fmt::Formatter<W>) -> fmt::Result {
        let text = self.text();
        write!(f, "{text}")
    }
}
