//! What makes nodes.
ghost use Rattle.std.specs.Prelude.{◌≡◌, [], IfOk, IfErr};
ghost use Rattle.syntax_make.specs.Forms.{bits_of};
ghost use Rattle.syntax_make.specs.Places.{place_of};
ghost use Rattle.syntax_make.specs.Made.{IsMadeAt, IsRefusedAt};
ghost use Rattle.syntax_make.specs.Replaced.{IsReplaced, IsNotReplaced};
ghost use Rattle.ra_ap_syntax.specs.ExprCases.{expr_node};
ghost use Rattle.rust_make.specs.Makes.{IsMadeOf};

use crate::pieces::Pieces;
use ra_ap_syntax::ast::{self, AstNode};
use ras_front_end::{Edition, FrontEnd};
use std::alloc::Global;
use syntax_make::{MakeError, Piece, ReplaceExprError, Replaced, form, node, replace_expr};

/// Makes nodes: a front end in an edition, and the memory for the nodes.
///
/// Each call writes the text of a node, with the texts of the nodes that it is given, and parses
/// it. The node is returned only if the text has no errors, is exactly that node, and has each
/// given node as a part where it was put: the same tree, in its place. So a call never panics, and
/// what it returns reads as it was meant. The given nodes may be of any trees. What is returned is
/// the root of a tree of its own, which an editor puts into another.
///
/// An operand gets a pair of parentheses where it needs one: `expr_bin_op` of `a + b`, `*` and `c`
/// is `(a + b) * c`. A call takes the time of a parse of the text; with operands that need pairs,
/// or an expression with a `let`, of up to eight.
///
/// # Errors
///
/// Each call returns `Syntax` or `NotOne` if the text reads otherwise than it was meant, `TooLong`
/// if it is longer than 4,294,967,295 bytes, and `Memory` if memory runs out.
///
/// ```text
/// let make = Make::new(alloc, &Rust, Edition::CURRENT);
/// let sum = make.node::<ast::Expr>("a + b")?;
/// let c = make.node::<ast::Expr>("c")?;
/// let product = make.expr_bin_op(&sum, BinaryOp::ArithOp(ArithOp::Mul), &c)?;   // (a + b) * c
/// ```
#[derive(Drop)]
pub struct Make<'a, F: FrontEnd> {
    pub(crate) alloc: Global,
    pub(crate) front: &'a F,
    pub(crate) edition: Edition,
}

impl<'a, F: FrontEnd> Make<'a, F> {
    /// Makes nodes with a front end in an edition.
    pub fn new(alloc: Global, front: &'a F, edition: Edition) -> Make<'a, F>
        ensures front { result.front.now ≡ front.now }
        ensures edition { result.edition ≡ edition }
    {
        Make {
            alloc,
            front,
            edition,
        }
    }

    /// The node of a text: that of [`syntax_make::node`].
    pub fn node<N: AstNode + Drop>(&self, text: &str) -> Result<N, MakeError>
        ensures made { IfOk result (λ n. IsMadeAt (F.answers self.now.front.now) self.now.edition
            (place_of N.casts) N.casts text.now (N.node n)) }
        ensures refused { IfErr result (IsRefusedAt (F.answers self.now.front.now) self.now.edition
            (place_of N.casts) N.casts text.now) }
    {
        node(self.alloc, self.front, text, self.edition)
    }

    /// The tree of `old` with the expression `new` in its place: that of
    /// [`syntax_make::replace_expr`].
    pub fn replace_expr(
        &self,
        old: &ast::Expr,
        new: &ast::Expr,
    ) -> Result<Replaced, ReplaceExprError>
        ensures replaced { IfOk result
            (λ r. IsReplaced (F.answers self.now.front.now) self.now.edition
            (expr_node old.now) (expr_node new.now) r.in_pair r.root) }
        ensures refused { IfErr result
            (IsNotReplaced (F.answers self.now.front.now) self.now.edition
            (expr_node old.now) (expr_node new.now)) }
    {
        replace_expr(
            self.alloc,
            self.front,
            old.syntax(),
            new.syntax(),
            self.edition,
        )
    }

    // The node of some pieces.
    pub(crate) fn form<N: AstNode + Drop>(&self, pieces: &[Piece]) -> Result<N, MakeError>
        ensures { IsMadeOf ⟦<N as AstNode>⟧ (F.answers self.now.front.now) self.now.edition
            (bits_of pieces.now) result }
    {
        form(self.alloc, self.front, pieces, self.edition)
    }

    // No pieces.
    pub(crate) fn pieces<'p>(&self) -> Pieces<'p>
        ensures { bits_of result.items.items ≡ [] }
    {
        Pieces::new(self.alloc)
    }

    // The node of some pieces that were collected.
    pub(crate) fn made<N: AstNode + Drop>(&self, pieces: &Pieces) -> Result<N, MakeError>
        ensures { IsMadeOf ⟦<N as AstNode>⟧ (F.answers self.now.front.now) self.now.edition
            (bits_of pieces.now.items.items) result }
    {
        self.form(&pieces.items)
    }
}
