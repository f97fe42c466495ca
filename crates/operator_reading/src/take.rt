//! Reading the children of a node from the left, trivia left out.
ghost use Rattle.std.specs.Prelude.{◌≡◌, option_map, option_and_then, Some, false, List, ℕ};
ghost use Rattle.tree_model.specs.Tree.{Tree};
ghost use Rattle.lossless_tree.specs.Trees.{is_done, first_of};
ghost use Rattle.operator_terms.specs.Sign.{sign_of};
ghost use Rattle.operator_trees.specs.Forms.{form_of};
ghost use Rattle.operator_trees.specs.Shown.{leaf, IsSign};
ghost use Rattle.operator_trees.specs.Shape.{assumed, blank_of};
ghost use Rattle.operator_reading.specs.Take.{is_sign, is_what, take, is_end, first_meaning};
ghost use Rattle.operator_reading.specs.declared.take.What.TheVariants as what;

use crate::texts::text_fits;
use lossless_tree::SiblingsLeft;
use operator_trees::{Form, form_of};
use syntax_kind::SyntaxKind;

/// What may be among the children of a node.
#[derive(Clone, Copy)]
pub enum What {
    ALiteral,
    AWord,
    AName,
    ASegment,
    APath,
    AType,
    ATerm,
    AList,
    Opening,
    Closing,
    OpensIndex,
    ClosesIndex,
    Comma,
    Dot,
    Question,
    AwaitWord,
    MutWord,
    PrefixSign,
    As,
    Amp,
    AnOperator,
    Dots,
    AnyDots,
}

fn is_operator(kind: SyntaxKind) -> bool
    ensures { (t : List ℕ) → result ≡ is_sign what.AnOperator (sign_of kind t) }
{
    matches!(
        kind,
        SyntaxKind::PLUS
            | SyntaxKind::MINUS
            | SyntaxKind::STAR
            | SyntaxKind::SLASH
            | SyntaxKind::PERCENT
            | SyntaxKind::SHL
            | SyntaxKind::SHR
            | SyntaxKind::CARET
            | SyntaxKind::PIPE
            | SyntaxKind::AMP
            | SyntaxKind::PIPE2
            | SyntaxKind::AMP2
            | SyntaxKind::EQ2
            | SyntaxKind::NEQ
            | SyntaxKind::L_ANGLE
            | SyntaxKind::LTEQ
            | SyntaxKind::R_ANGLE
            | SyntaxKind::GTEQ
            | SyntaxKind::EQ
            | SyntaxKind::PLUSEQ
            | SyntaxKind::MINUSEQ
            | SyntaxKind::STAREQ
            | SyntaxKind::SLASHEQ
            | SyntaxKind::PERCENTEQ
            | SyntaxKind::SHLEQ
            | SyntaxKind::SHREQ
            | SyntaxKind::CARETEQ
            | SyntaxKind::PIPEEQ
            | SyntaxKind::AMPEQ
    )
}

fn is_literal(kind: SyntaxKind) -> bool
    ensures { (t : List ℕ) → result ≡ is_sign what.ALiteral (sign_of kind t) }
{
    matches!(
        kind,
        SyntaxKind::INT_NUMBER
            | SyntaxKind::FLOAT_NUMBER
            | SyntaxKind::CHAR
            | SyntaxKind::BYTE
            | SyntaxKind::STRING
            | SyntaxKind::BYTE_STRING
            | SyntaxKind::C_STRING
            | SyntaxKind::TRUE_KW
            | SyntaxKind::FALSE_KW
    )
}

// A token of this kind, with its text, is what is wanted.
fn kind_is(wanted: What, kind: SyntaxKind) -> bool
    ensures { (t : List ℕ) → result ≡ is_sign wanted (sign_of kind t) }
{
    match wanted {
        What::ALiteral => is_literal(kind),
        What::AnOperator => is_operator(kind),
        What::AWord => matches!(kind, SyntaxKind::IDENT),
        What::Opening => matches!(kind, SyntaxKind::L_PAREN),
        What::Closing => matches!(kind, SyntaxKind::R_PAREN),
        What::OpensIndex => matches!(kind, SyntaxKind::L_BRACK),
        What::ClosesIndex => matches!(kind, SyntaxKind::R_BRACK),
        What::Comma => matches!(kind, SyntaxKind::COMMA),
        What::Dot => matches!(kind, SyntaxKind::DOT),
        What::Question => matches!(kind, SyntaxKind::QUESTION),
        What::AwaitWord => matches!(kind, SyntaxKind::AWAIT_KW),
        What::MutWord => matches!(kind, SyntaxKind::MUT_KW),
        What::PrefixSign => matches!(
            kind,
            SyntaxKind::BANG | SyntaxKind::STAR | SyntaxKind::MINUS
        ),
        What::As => matches!(kind, SyntaxKind::AS_KW),
        What::Amp => matches!(kind, SyntaxKind::AMP),
        What::Dots => matches!(kind, SyntaxKind::DOT2),
        What::AnyDots => matches!(kind, SyntaxKind::DOT2 | SyntaxKind::DOT2EQ),
        _ => false,
    }
}

fn token_is(wanted: What, kind: SyntaxKind, text: &str) -> bool
    ensures { result ≡ is_what wanted (IsSign (leaf kind text.now)) }
{
    text_fits(kind, text) && kind_is(wanted, kind)
}

fn form_is(wanted: What, form: Form) -> bool
    ensures { result ≡ is_what wanted (blank_of form) }
{
    match wanted {
        What::AName => matches!(form, Form::NameRef),
        What::ASegment => matches!(form, Form::Segment),
        What::APath => matches!(form, Form::Path),
        What::AType => matches!(form, Form::PathType),
        What::AList => matches!(form, Form::Arguments),
        What::ATerm => !matches!(
            form,
            Form::NameRef
                | Form::Segment
                | Form::Path
                | Form::PathType
                | Form::Arguments
                | Form::Foreign
        ),
        _ => false,
    }
}

fn first_is(here: &SiblingsLeft<'_>, wanted: What) -> bool
    requires { is_done here.now.trees ≡ false }
    ensures { result ≡ is_what wanted (first_meaning (first_of here.now.trees)) }
{
    if here.is_token() {
        token_is(wanted, here.kind(), here.text())
    } else {
        form_is(wanted, form_of(here.kind()))
    }
}

/// The siblings after the first that is not trivia, if that one is `wanted`.
pub fn take<'t>(trees: &SiblingsLeft<'t>, wanted: What) -> Option<SiblingsLeft<'t>>
    ensures { option_map (λ s. assumed s.trees) result ≡ take wanted (assumed trees.now.trees) }
{
    let here = trees.without_trivia();
    if here.is_done() {
        return None;
    }
    if first_is(&here, wanted) {
        Some(here.rest())
    } else {
        None
    }
}

/// Whether nothing but trivia is left.
pub fn is_end(trees: &SiblingsLeft<'_>) -> bool
    ensures { result ≡ is_end (Some (assumed trees.now.trees)) }
{
    trees.without_trivia().is_done()
}

/// Whether just this is left, trivia aside.
pub fn is_one(trees: &SiblingsLeft<'_>, a: What) -> bool
    ensures { result ≡ is_end (take a (assumed trees.now.trees)) }
{
    match take(trees, a) {
        Some(rest) => is_end(&rest),
        None => false,
    }
}

/// Whether just these two are left, in this order.
pub fn is_two(trees: &SiblingsLeft<'_>, a: What, b: What) -> bool
    ensures { result ≡ is_end (option_and_then (take b) (take a (assumed trees.now.trees))) }
{
    match take(trees, a) {
        Some(rest) => is_one(&rest, b),
        None => false,
    }
}

/// Whether just these three are left, in this order.
pub fn is_three(trees: &SiblingsLeft<'_>, a: What, b: What, c: What) -> bool
    ensures { result
        ≡ is_end (option_and_then (take c)
        (option_and_then (take b) (take a (assumed trees.now.trees)))) }
{
    match take(trees, a) {
        Some(rest) => is_two(&rest, b, c),
        None => false,
    }
}

/// Whether just these four are left, in this order.
pub fn is_four(trees: &SiblingsLeft<'_>, a: What, b: What, c: What, d: What) -> bool
    ensures { result
        ≡ is_end (option_and_then (take d) (option_and_then (take c)
        (option_and_then (take b) (take a (assumed trees.now.trees))))) }
{
    match take(trees, a) {
        Some(rest) => is_three(&rest, b, c, d),
        None => false,
    }
}
