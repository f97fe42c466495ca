//! Nodes from text.
ghost use Rattle.std.specs.Prelude.{◌≡◌, IfOk, IfErr, option_map, string_bytes, length};
ghost use Rattle.ras_parsing.specs.AllErrors.{all_errors};
ghost use Rattle.syntax_make.specs.Places.{before_of, in_place, place_of};
ghost use Rattle.syntax_make.specs.Made.{IsFirstOf, IsCleanOf, IsUnclean, is_at, node_there, IsMadeIn, IsRefusedIn, IsMadeFrom, IsRefusedFrom, IsMadeAt, IsRefusedAt};

use crate::error::{MakeError, is_misread};
use crate::place::{Place, place_of};
use lossless_tree::SyntaxNode;
use ras_front_end::{Edition, Entry, FrontEnd, SyntaxError};
use ras_node::AstNode;
use ras_parsing::{Parse, read};
use std::alloc::{AllocError, Global};

// The text in its surroundings.
fn in_place(alloc: Global, place: Place, text: &str) -> Result<String, AllocError>
    ensures { IfOk result (λ s. string_bytes s ≡ in_place place text.now) }
{
    let mut whole = String::with_capacity(alloc, text.len())?;
    whole.push_str(place.before())?;
    whole.push_str(text)?;
    whole.push_str(place.after())?;
    Ok(whole)
}

// The first error of a parse.
fn first_error<T>(alloc: Global, parse: &Parse<T>) -> Result<Option<SyntaxError>, AllocError>
    ensures { IfOk result (IsFirstOf (all_errors parse.now)) }
{
    let errors = parse.errors(alloc)?;
    let mut all = errors.into_iter();
    Ok(all.next())
}

// The parse of a file, if it has no errors.
fn clean_file<F: FrontEnd>(
    alloc: Global,
    front: &F,
    text: &str,
    edition: Edition,
) -> Result<Parse<SyntaxNode>, MakeError>
    ensures ok { IfOk result (IsCleanOf (F.answers front.now) edition text.now) }
    ensures err { IfErr result (IsUnclean (F.answers front.now) edition text.now) }
{
    let parse = read(alloc, front, Entry::SourceFile, text, edition)?;
    match first_error(alloc, &parse)? {
        None => Ok(parse),
        Some(error) => Err(MakeError::Syntax(error)),
    }
}

// Whether a node starts there and has this text.
fn is_at(node: &SyntaxNode, start: usize, text: &str) -> bool
    ensures { result ≡ is_at start text.now node.now }
{
    node.text_range().start().raw() as usize == start && node.as_str() == text
}

// The first of these nodes of a tree that can be an `N`.
fn node_there<N: AstNode>(root: &SyntaxNode, start: usize, text: &str) -> Option<N>
    ensures { option_map N.node result ≡ node_there N.casts start text.now root.now }
{
    let mut nodes = root.descendants();
    while let Some(node) = nodes.next() {
        if N::can_cast(node.kind()) && is_at(&node, start, text) {
            return N::cast(node);
        }
    }
    None
}

/// The node of a text at a place: the outermost node there that is exactly the text and can be an
/// `N`, as the root of a tree of its own.
///
/// The text must have no white space or comments at its ends, unless they are parts of the node, as
/// the comments before an item are. Takes the time of the front end for the text and its
/// surroundings, and memory for two trees.
///
/// # Errors
///
/// `TooLong` if the text with its surroundings is; `Syntax` if they have errors, those of
/// [`Parse::errors`]; `NotOne` if there is no such node; `Memory` at any time.
pub fn node_in<N: AstNode + Drop, F: FrontEnd>(
    alloc: Global,
    front: &F,
    place: Place,
    text: &str,
    edition: Edition,
) -> Result<N, MakeError>
    ensures made { IfOk result
        (λ n. IsMadeIn (F.answers front.now) edition place N.casts text.now (N.node n)) }
    ensures refused { IfErr result
        (IsRefusedIn (F.answers front.now) edition place N.casts text.now) }
{
    let whole = in_place(alloc, place, text)?;
    let file = clean_file(alloc, front, whole.as_str(), edition)?;
    match node_there::<N>(file.root(), place.before().len(), text) {
        None => Err(MakeError::NotOne),
        Some(there) => Ok(there.clone_subtree(alloc)?),
    }
}

// The node of a text at a place, or at the second one if it is misread there.
#[tactic(auto, using(crate::proofs::SecondLemmas::made_second, crate::proofs::SecondLemmas::none_second, crate::proofs::SecondLemmas::misread_both, crate::proofs::SecondLemmas::stopped_second))]
fn node_from<N: AstNode + Drop, F: FrontEnd>(
    alloc: Global,
    front: &F,
    place: Place,
    text: &str,
    edition: Edition,
) -> Result<N, MakeError>
    ensures made { IfOk result (λ n.
        IsMadeFrom (F.answers front.now) edition place N.casts text.now (N.node n)) }
    ensures refused { IfErr result
        (IsRefusedFrom (F.answers front.now) edition place N.casts text.now) }
{
    let first = match node_in(alloc, front, place, text, edition) {
        Ok(made) => return Ok(made),
        Err(error) => error,
    };
    if !is_misread(&first) {
        return Err(first);
    }
    let Some(second) = place.second() else {
        return Err(first);
    };
    match node_in(alloc, front, second, text, edition) {
        Ok(made) => Ok(made),
        Err(error) => if is_misread(&error) {
            Err(first)
        } else {
            Err(error)
        },
    }
}

/// The node of a text, as the root of a tree of its own: that of [`node_in`] at the place of an `N`
/// by [`place_of`], or at the second of that place if it reads otherwise there: an expression with
/// a `let` is made as a condition, and a parameter without a type as one of a closure.
///
/// `node::<ast::Expr, _>(alloc, &Rust, "a + b", edition)` is a `BIN_EXPR`, and so is
/// `"let Some(a) = b && c"`; `node::<ast::Type, _>(.., "a + b", ..)` is refused with `Syntax`,
/// `node::<ast::CallExpr, _>(.., "a + b", ..)` and `node::<ast::Expr, _>(.., "a ", ..)` with
/// `NotOne`. Takes the time of two parses where the text is misread at the first place.
///
/// # Errors
///
/// `NoPlace` if an `N` is not made from a text; otherwise those of [`node_in`]. If the text is
/// misread at both places, the error is that of the first.
pub fn node<N: AstNode + Drop, F: FrontEnd>(
    alloc: Global,
    front: &F,
    text: &str,
    edition: Edition,
) -> Result<N, MakeError>
    ensures made { IfOk result (λ n.
        IsMadeAt (F.answers front.now) edition (place_of N.casts) N.casts text.now (N.node n)) }
    ensures refused { IfErr result
        (IsRefusedAt (F.answers front.now) edition (place_of N.casts) N.casts text.now) }
{
    match place_of::<N>() {
        None => Err(MakeError::NoPlace),
        Some(place) => node_from(alloc, front, place, text, edition),
    }
}
