//! Nodes from texts and from nodes between them.
ghost use Rattle.std.specs.Prelude.{◌≡◌, ◌++◌, ◌∷◌, [], IfOk, IfErr, OnOk, IsErr, map, true};
ghost use Rattle.tree_model.specs.Cursor.{focus};
ghost use Rattle.tree_model.specs.Equality.{is_same_tree};
ghost use Rattle.syntax_make.specs.Forms.{bit_of, bits_of, has_left, has_right, opening, closing, Drafted, drafted, with_text, with_part, with_operand, with_element, with_children, with_bit, draft_of, is_part, needs_pair, is_part_here, are_parts, nodes_of, IsFormWith, IsRefusedWith, IsFormOf, IsNoFormOf};

use crate::error::{MakeError, is_misread};
use crate::from_text::node;
use lossless_tree::{NodeOrToken, SyntaxElement, SyntaxNode};
use ras_front_end::{Edition, FrontEnd};
use ras_node::AstNode;
use ras_node::support::share;
use ras_prec::rules::needs_parens_in;
use std::alloc::{AllocError, Global};

/// A piece of a form: a text, or a node of any tree.
#[derive(Clone, Copy, Drop)]
pub enum Piece<'a> {
    /// A fixed text.
    Text(&'a str),
    /// A node, by its text.
    Part(&'a SyntaxNode),
    /// The children of a node, by their texts, each child node as a part: for a node that becomes
    /// another one in its new place, as an arm with a comma behind it.
    Children(&'a SyntaxNode),
    /// An operand, by its text, in a pair of parentheses where it needs one: the first, or the only
    /// one.
    Left(&'a SyntaxNode),
    /// The second such operand.
    Right(&'a SyntaxNode),
}

/// Which operands of a form are in pairs of parentheses.
#[derive(Clone, Copy, Debug, PartialEq, Eq, Drop)]
pub enum Pairs {
    /// None.
    Neither,
    /// The first.
    Left,
    /// The second.
    Right,
    /// Both.
    Both,
}

impl Pairs {
    fn has_left(self) -> bool
        ensures { result ≡ has_left self }
    {
        matches!(self, Pairs::Left | Pairs::Both)
    }

    fn has_right(self) -> bool
        ensures { result ≡ has_right self }
    {
        matches!(self, Pairs::Right | Pairs::Both)
    }
}

// A node that was put into a text, where it starts there, and whether it is an operand.
#[derive(Drop)]
struct Part {
    start: usize,
    node: SyntaxNode,
    is_operand: bool,
}

// A text, and the nodes that were put into it.
#[derive(Drop)]
struct Draft {
    text: String,
    parts: Vec<Part>,
}

fn opening(pair: bool) -> &'static str
    ensures { result.now ≡ opening pair }
{
    if pair { "(" } else { "" }
}

fn closing(pair: bool) -> &'static str
    ensures { result.now ≡ closing pair }
{
    if pair { ")" } else { "" }
}

impl Draft {
    fn push_text(&mut self, text: &str) -> Result<(), AllocError>
        ensures { OnOk result (drafted self.new ≡ with_text (drafted self.old) text.now) }
    {
        self.text.push_str(text)
    }

    fn push_part(&mut self, is_operand: bool, node: &SyntaxNode) -> Result<(), AllocError>
        ensures { OnOk result
            (drafted self.new ≡ with_part is_operand (drafted self.old) node.now) }
    {
        let part = Part {
            start: self.text.len(),
            node: share(node),
            is_operand,
        };
        self.parts.push(part)?;
        self.text.push_str(node.as_str())
    }

    fn push_operand(&mut self, pair: bool, node: &SyntaxNode) -> Result<(), AllocError>
        ensures { OnOk result (drafted self.new ≡ with_operand pair (drafted self.old) node.now) }
    {
        self.push_text(opening(pair))?;
        self.push_part(true, node)?;
        self.push_text(closing(pair))
    }

    fn push_element(&mut self, element: &SyntaxElement) -> Result<(), AllocError>
        ensures { OnOk result (drafted self.new ≡ with_element (drafted self.old) element.now) }
    {
        match element {
            NodeOrToken::Node(node) => self.push_part(false, node),
            NodeOrToken::Token(token) => self.push_text(token.text()),
        }
    }

    fn push_children(&mut self, node: &SyntaxNode) -> Result<(), AllocError>
        ensures { OnOk result
            (drafted self.new ≡ with_children (drafted self.old) node.now) }
    {
        for element in node.children_with_tokens() {
            self.push_element(&element)?;
        }
        Ok(())
    }

    fn push(&mut self, pairs: Pairs, piece: Piece) -> Result<(), AllocError>
        ensures { OnOk result
            (drafted self.new ≡ with_bit pairs (drafted self.old) (bit_of piece.entry)) }
    {
        match piece {
            Piece::Text(text) => self.push_text(text),
            Piece::Part(node) => self.push_part(false, node),
            Piece::Children(node) => self.push_children(node),
            Piece::Left(node) => self.push_operand(pairs.has_left(), node),
            Piece::Right(node) => self.push_operand(pairs.has_right(), node),
        }
    }
}

// The text of the pieces, and the nodes in it.
fn draft_of(alloc: Global, pairs: Pairs, pieces: &[Piece]) -> Result<Draft, AllocError>
    ensures { IfOk result (λ d. drafted d ≡ draft_of pairs (bits_of pieces.now)) }
{
    let mut draft = Draft {
        text: String::new(alloc),
        parts: Vec::new(alloc),
    };
    for piece in pieces {
        draft.push(pairs, *piece)?;
    }
    Ok(draft)
}

// Whether two nodes have the same subtree.
#[tactic(auto, using(crate::proofs::FormLemmas::same_roots))]
fn is_same_tree(alloc: Global, a: &SyntaxNode, b: &SyntaxNode) -> Result<bool, AllocError>
    ensures { IfOk result (λ same. same ≡ is_same_tree (focus a.now) (focus b.now)) }
{
    let a = a.clone_subtree(alloc)?;
    let b = b.clone_subtree(alloc)?;
    Ok(a == b)
}

// Whether a node is a part. Only a node of the part's kind and text, at its place, is compared as a
// tree.
fn is_part(alloc: Global, part: &Part, node: &SyntaxNode) -> Result<bool, AllocError>
    ensures { IfOk result (λ is. is ≡ is_part part.now node.now) }
{
    if node.text_range().start().raw() as usize != part.start
        || node.kind().to_raw() != part.node.kind().to_raw()
        || node.as_str() != part.node.as_str()
    {
        return Ok(false);
    }
    is_same_tree(alloc, node, &part.node)
}

// Whether a node needs a pair of parentheses below its parent.
fn needs_pair(node: &SyntaxNode) -> bool
    ensures { result ≡ needs_pair node.now }
{
    match node.parent() {
        None => false,
        Some(parent) => needs_parens_in(node, &parent),
    }
}

// Whether a node is a part, and one that needs no pair where it stands if it is an operand.
fn is_part_here(alloc: Global, part: &Part, node: &SyntaxNode) -> Result<bool, AllocError>
    ensures { IfOk result (λ is. is ≡ is_part_here part.now node.now) }
{
    if !is_part(alloc, part, node)? {
        return Ok(false);
    }
    Ok(!(part.is_operand && needs_pair(node)))
}

// Whether each part is a node of the tree, in this order.
#[tactic(auto, using(crate::proofs::FormLemmas::none_left))]
fn are_parts(alloc: Global, parts: &[Part], made: &SyntaxNode) -> Result<bool, AllocError>
    ensures { IfOk result (λ are. are ≡ are_parts parts.now (nodes_of made.now)) }
{
    let mut left = parts;
    for node in made.descendants() {
        match left {
            [] => return Ok(true),
            [part, rest @ ..] => {
                if is_part_here(alloc, part, &node)? {
                    left = rest;
                }
            }
        }
    }
    Ok(left.is_empty())
}

/// The node of the pieces' texts with these pairs, if it has each part where it was put. The node
/// is that of [`node`].
///
/// # Errors
///
/// Those of [`node`] for the text; `NotOne` too if a part is no node there, or another tree, or is
/// an operand that needs parentheses there by [`needs_parens_in`].
pub fn form_with<N: AstNode + Drop, F: FrontEnd>(
    alloc: Global,
    front: &F,
    pairs: Pairs,
    pieces: &[Piece],
    edition: Edition,
) -> Result<N, MakeError>
    ensures made { IfOk result (λ n.
        IsFormWith (F.answers front.now) edition N.casts pairs (bits_of pieces.now)
        (N.node n)) }
    ensures refused { IfErr result
        (IsRefusedWith (F.answers front.now) edition N.casts pairs (bits_of pieces.now)) }
{
    let draft = draft_of(alloc, pairs, pieces)?;
    let made: N = node(alloc, front, draft.text.as_str(), edition)?;
    if are_parts(alloc, &draft.parts, made.syntax())? {
        Ok(made)
    } else {
        Err(MakeError::NotOne)
    }
}

/// The node of the pieces' texts, with a pair of parentheses round an operand only where it needs
/// one, or where the text without it reads otherwise: the first of `Neither`, `Left`, `Right` and
/// `Both` with which [`form_with`] makes the node.
///
/// `[Left(a), Text(" * "), Right(b)]` with `x + y` and `z` is `(x + y) * z`. Takes at most the time
/// of four calls of [`node`], and mostly that of one.
///
/// # Errors
///
/// `Syntax` or `NotOne`, that of the text without pairs, if the text reads otherwise with any
/// pairs; otherwise the first other error.
#[tactic(auto, using(crate::proofs::FormLemmas::stopped, crate::proofs::FormLemmas::misread))]
pub fn form<N: AstNode + Drop, F: FrontEnd>(
    alloc: Global,
    front: &F,
    pieces: &[Piece],
    edition: Edition,
) -> Result<N, MakeError>
    ensures made { IfOk result
        (λ n. IsFormOf (F.answers front.now) edition N.casts (bits_of pieces.now) (N.node n)) }
    ensures refused { IfErr result
        (IsNoFormOf (F.answers front.now) edition N.casts (bits_of pieces.now)) }
{
    let first = match form_with(alloc, front, Pairs::Neither, pieces, edition) {
        Ok(made) => return Ok(made),
        Err(error) => error,
    };
    if !is_misread(&first) {
        return Err(first);
    }
    match form_with(alloc, front, Pairs::Left, pieces, edition) {
        Ok(made) => return Ok(made),
        Err(error) => if !is_misread(&error) {
            return Err(error);
        },
    }
    match form_with(alloc, front, Pairs::Right, pieces, edition) {
        Ok(made) => return Ok(made),
        Err(error) => if !is_misread(&error) {
            return Err(error);
        },
    }
    match form_with(alloc, front, Pairs::Both, pieces, edition) {
        Ok(made) => Ok(made),
        Err(error) => if is_misread(&error) {
            Err(first)
        } else {
            Err(error)
        },
    }
}
