//! The operator and the powers of a node.
ghost use Rattle.std.specs.Prelude.{◌≡◌};
ghost use Rattle.operator_terms.specs.Powers.{pow};
ghost use Rattle.operator_trees.specs.Forms.{form_of};
ghost use Rattle.operator_powers.specs.Rules.{token_start, opening_start, operator_token, start_or, operator_start, form_powers, powers_or, is_field_form, is_call_form, is_arguments, is_list};
ghost use Rattle.operator_powers.specs.declared.look.Wanted.TheVariants as want;
ghost use Rattle.lossless_tree.specs.Trees.{first_of};
ghost use Rattle.tree_model.specs.Tree.{is_token, kind_of};

use crate::look::{Wanted, token_start};
use crate::powers::{Strength, kind_powers};
use lossless_tree::SiblingsLeft;
use operator_trees::{Form, form_of};
use syntax_kind::SyntaxKind;

fn is_arguments(kind: SyntaxKind) -> bool
    ensures { result ≡ is_arguments (form_of kind) }
{
    matches!(form_of(kind), Form::Arguments)
}

fn is_list(left: &SiblingsLeft<'_>) -> bool
    ensures { result ≡ is_list (first_of left.now.trees) }
{
    !left.is_token() && is_arguments(left.kind())
}

// Where the first `(` in the first list of arguments starts.
fn opening_start(trees: &SiblingsLeft<'_>) -> Option<(usize, SyntaxKind)>
    ensures { result ≡ opening_start trees.now.trees trees.now.start }
{
    let mut left = trees.all();
    while !left.is_done() {
        if is_list(&left) {
            return token_start(&left.inside(), Wanted::Opening);
        }
        left = left.rest();
    }
    None
}

// The operator of a node of a form.
fn operator_token(form: Form, trees: &SiblingsLeft<'_>) -> Option<(usize, SyntaxKind)>
    ensures { result ≡ operator_token form trees.now.trees trees.now.start }
{
    match form {
        Form::Binary => token_start(trees, Wanted::Operator),
        Form::Range => token_start(trees, Wanted::Dots),
        Form::Borrow => token_start(trees, Wanted::Amp),
        Form::Cast => token_start(trees, Wanted::As),
        Form::Field | Form::Await | Form::Method => token_start(trees, Wanted::Dot),
        Form::Try => token_start(trees, Wanted::Question),
        Form::Index => token_start(trees, Wanted::Bracket),
        Form::Call => opening_start(trees),
        _ => None,
    }
}

/// Where the operator of a node starts; where the node does, if it has none.
pub fn operator_start(form: Form, trees: &SiblingsLeft<'_>) -> usize
    ensures { result ≡ operator_start form trees.now.trees trees.now.start }
{
    match operator_token(form, trees) {
        Some((start, _)) => start,
        None => trees.start().raw() as usize,
    }
}

fn binary_powers(trees: &SiblingsLeft<'_>) -> Strength
    ensures { pow result.left result.right
        ≡ powers_or (token_start want.Operator trees.now.trees trees.now.start) }
{
    match token_start(trees, Wanted::Operator) {
        Some((_, kind)) => kind_powers(kind),
        None => Strength { left: 0, right: 0 },
    }
}

/// The powers of a node of a form that a term has.
pub fn form_powers(form: Form, trees: &SiblingsLeft<'_>) -> Strength
    ensures { pow result.left result.right ≡ form_powers form trees.now.trees trees.now.start }
{
    match form {
        Form::Prefix | Form::Borrow => Strength { left: 0, right: 27 },
        Form::Binary => binary_powers(trees),
        Form::Range => Strength { left: 5, right: 5 },
        Form::Field => Strength {
            left: 31,
            right: 32,
        },
        Form::Cast => Strength {
            left: 25,
            right: 26,
        },
        Form::Await | Form::Try | Form::Index | Form::Call | Form::Method => {
            Strength { left: 29, right: 0 }
        }
        _ => Strength { left: 0, right: 0 },
    }
}

/// Whether it is a field.
pub fn is_field_form(form: Form) -> bool
    ensures { result ≡ is_field_form form }
{
    matches!(form, Form::Field)
}

/// Whether it is a call.
pub fn is_call_form(form: Form) -> bool
    ensures { result ≡ is_call_form form }
{
    matches!(form, Form::Call)
}
