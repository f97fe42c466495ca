//! Whether a node has the shape of its form.
ghost use Rattle.std.specs.Prelude.{◌≡◌, option_map, option_and_then};
ghost use Rattle.tree_model.specs.Tree.{IsNode};
ghost use Rattle.tree_model.specs.Cursor.{focus};
ghost use Rattle.operator_trees.specs.Shown.{is_right, means, ref_form, range_form, rest_form, arguments_form};
ghost use Rattle.operator_trees.specs.Shape.{assumed, shape};
ghost use Rattle.operator_reading.specs.Take.{take};
ghost use Rattle.operator_reading.specs.declared.take.What.TheVariants as what;

use crate::take::{What, is_four, is_one, is_three, is_two, take};
use lossless_tree::{SiblingsLeft, SyntaxNode};
use operator_trees::{Form, form_of};

fn is_borrow(trees: &SiblingsLeft<'_>) -> bool
    ensures { result ≡ is_right (ref_form (assumed trees.now.trees)) }
{
    is_two(trees, What::Amp, What::ATerm) || is_three(trees, What::Amp, What::MutWord, What::ATerm)
}

fn is_range(trees: &SiblingsLeft<'_>) -> bool
    ensures { result ≡ is_right (range_form (assumed trees.now.trees)) }
{
    is_one(trees, What::Dots)
        || is_two(trees, What::ATerm, What::Dots)
        || is_two(trees, What::AnyDots, What::ATerm)
        || is_three(trees, What::ATerm, What::AnyDots, What::ATerm)
}

// What follows an argument and its comma.
fn next_argument<'t>(trees: &SiblingsLeft<'t>) -> Option<SiblingsLeft<'t>>
    ensures { option_map (λ s. assumed s.trees) result
        ≡ option_and_then (take what.Comma) (take what.ATerm (assumed trees.now.trees)) }
{
    match take(trees, What::ATerm) {
        Some(rest) => take(&rest, What::Comma),
        None => None,
    }
}

fn are_arguments_up_to_end(trees: &SiblingsLeft<'_>) -> bool
    ensures { result ≡ is_right (rest_form (assumed trees.now.trees)) }
{
    let mut left = trees.all();
    while !is_one(&left, What::Closing) {
        match next_argument(&left) {
            None => return is_two(&left, What::ATerm, What::Closing),
            Some(next) => left = next,
        }
    }
    true
}

fn are_arguments(trees: &SiblingsLeft<'_>) -> bool
    ensures { result ≡ is_right (arguments_form (assumed trees.now.trees)) }
{
    match take(trees, What::Opening) {
        Some(rest) => are_arguments_up_to_end(&rest),
        None => false,
    }
}

/// Whether children have the shape of a form.
pub fn form_fits(form: Form, trees: &SiblingsLeft<'_>) -> bool
    ensures { result ≡ is_right (means form (assumed trees.now.trees)) }
{
    match form {
        Form::Literal => is_one(trees, What::ALiteral),
        Form::NameRef => is_one(trees, What::AWord),
        Form::Segment => is_one(trees, What::AName),
        Form::Path => is_one(trees, What::ASegment),
        Form::PathExpr => is_one(trees, What::APath),
        Form::PathType => is_one(trees, What::APath),
        Form::Paren => is_three(trees, What::Opening, What::ATerm, What::Closing),
        Form::Prefix => is_two(trees, What::PrefixSign, What::ATerm),
        Form::Binary => is_three(trees, What::ATerm, What::AnOperator, What::ATerm),
        Form::Field => is_three(trees, What::ATerm, What::Dot, What::AName),
        Form::Await => is_three(trees, What::ATerm, What::Dot, What::AwaitWord),
        Form::Try => is_two(trees, What::ATerm, What::Question),
        Form::Cast => is_three(trees, What::ATerm, What::As, What::AType),
        Form::Index => is_four(
            trees,
            What::ATerm,
            What::OpensIndex,
            What::ATerm,
            What::ClosesIndex,
        ),
        Form::Call => is_two(trees, What::ATerm, What::AList),
        Form::Method => is_four(trees, What::ATerm, What::Dot, What::AName, What::AList),
        Form::Borrow => is_borrow(trees),
        Form::Range => is_range(trees),
        Form::Arguments => are_arguments(trees),
        Form::Foreign => false,
    }
}

/// Whether the node has the shape of its form.
pub fn has_shape(node: &SyntaxNode) -> bool
    requires { IsNode (focus node.now) }
    ensures { result ≡ is_right (shape (focus node.now)) }
{
    form_fits(form_of(node.kind()), &node.trees())
}
