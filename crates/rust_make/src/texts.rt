//! The texts of operators.
ghost use Rattle.std.specs.Prelude.{◌≡◌, Some};
ghost use Rattle.ra_ap_syntax.specs.OperatorTexts.{logic_text, arith_text, cmp_text, binary_text};
ghost use Rattle.ras_operators.specs.declared.operators.BinaryOp.TheVariants as variant;
ghost use Rattle.rust_make.specs.Makes.{prefix_text};

use ra_ap_syntax::ast::{ArithOp, BinaryOp, CmpOp, LogicOp, Ordering, UnaryOp};

/// The text of a prefix operator.
pub(crate) fn prefix_text(op: UnaryOp) -> &'static str
    ensures { result.now ≡ prefix_text op }
{
    match op {
        UnaryOp::Deref => "*",
        UnaryOp::Not => "!",
        UnaryOp::Neg => "-",
    }
}

fn logic_text(op: LogicOp) -> &'static str
    ensures { result.now ≡ logic_text op }
{
    match op {
        LogicOp::And => "&&",
        LogicOp::Or => "||",
    }
}

fn arith_text(op: ArithOp) -> &'static str
    ensures { result.now ≡ arith_text op }
{
    match op {
        ArithOp::Add => "+",
        ArithOp::Mul => "*",
        ArithOp::Sub => "-",
        ArithOp::Div => "/",
        ArithOp::Rem => "%",
        ArithOp::Shl => "<<",
        ArithOp::Shr => ">>",
        ArithOp::BitXor => "^",
        ArithOp::BitOr => "|",
        ArithOp::BitAnd => "&",
    }
}

fn assigning_text(op: ArithOp) -> &'static str
    ensures { result.now ≡ binary_text (variant.Assignment (Some op)) }
{
    match op {
        ArithOp::Add => "+=",
        ArithOp::Mul => "*=",
        ArithOp::Sub => "-=",
        ArithOp::Div => "/=",
        ArithOp::Rem => "%=",
        ArithOp::Shl => "<<=",
        ArithOp::Shr => ">>=",
        ArithOp::BitXor => "^=",
        ArithOp::BitOr => "|=",
        ArithOp::BitAnd => "&=",
    }
}

fn cmp_text(op: CmpOp) -> &'static str
    ensures { result.now ≡ cmp_text op }
{
    match op {
        CmpOp::Eq { negated: false } => "==",
        CmpOp::Eq { negated: true } => "!=",
        CmpOp::Ord {
            ordering: Ordering::Less,
            strict: false,
        } => "<=",
        CmpOp::Ord {
            ordering: Ordering::Less,
            strict: true,
        } => "<",
        CmpOp::Ord {
            ordering: Ordering::Greater,
            strict: false,
        } => ">=",
        CmpOp::Ord {
            ordering: Ordering::Greater,
            strict: true,
        } => ">",
    }
}

/// The text of a binary operator.
pub(crate) fn binary_text(op: BinaryOp) -> &'static str
    ensures { result.now ≡ binary_text op }
{
    match op {
        BinaryOp::LogicOp(op) => logic_text(op),
        BinaryOp::ArithOp(op) => arith_text(op),
        BinaryOp::CmpOp(op) => cmp_text(op),
        BinaryOp::Assignment { op: None } => "=",
        BinaryOp::Assignment { op: Some(op) } => assigning_text(op),
    }
}
