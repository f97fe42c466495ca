//! Pieces that are collected.
ghost use Rattle.std.specs.Prelude.{◌≡◌, ◌++◌, ◌∷◌, [], OnOk, map, option_map};
ghost use Rattle.ra_ap_syntax.specs.StmtCases.{stmt_node};
ghost use Rattle.syntax_make.specs.Forms.{bit_of, bits_of, fixed, part, left};
ghost use Rattle.rust_make.specs.Makes.{optional, behind, separated, each_between, arm_bits, stmt_bits, part_unless, leading_bits};

use crate::signs::{is_bare, lacks_comma, part_unless, text_if};
use ra_ap_syntax::{AstNode, ast};
use std::alloc::{AllocError, Global};
use syntax_make::Piece;

// The pieces of a form, in order.
#[derive(Drop)]
pub(crate) struct Pieces<'p> {
    pub items: Vec<Piece<'p>>,
}

impl<'p> Pieces<'p> {
    /// No pieces. It takes no memory.
    pub fn new(alloc: Global) -> Pieces<'p>
        ensures { bits_of result.items.items ≡ [] }
    {
        Pieces {
            items: Vec::new(alloc),
        }
    }

    /// Appends a fixed text, which may be empty. It fails only if memory runs out.
    pub fn text(&mut self, text: &'p str) -> Result<(), AllocError>
        ensures { OnOk result
            (bits_of self.new.items.items ≡ bits_of self.old.items.items ++ fixed text.now ∷ []) }
    {
        self.items.push(Piece::Text(text))?;
        Ok(())
    }

    /// Appends a node of any tree, which stands in the form by its text and gets no parentheses.
    /// The node is borrowed, not copied. It fails only if memory runs out.
    pub fn part<N: AstNode>(&mut self, node: &'p N) -> Result<(), AllocError>
        ensures { OnOk result (bits_of self.new.items.items
            ≡ bits_of self.old.items.items ++ part (N.node node.now) ∷ []) }
    {
        self.items.push(Piece::Part(node.syntax()))?;
        Ok(())
    }

    /// Appends an operand, which gets a pair of parentheses where the form needs one: the first
    /// operand of a form, or its only one. It fails only if memory runs out.
    pub fn left<N: AstNode>(&mut self, node: &'p N) -> Result<(), AllocError>
        ensures { OnOk result (bits_of self.new.items.items
            ≡ bits_of self.old.items.items ++ left (N.node node.now) ∷ []) }
    {
        self.items.push(Piece::Left(node.syntax()))?;
        Ok(())
    }

    /// Appends a text and a node behind it, or nothing for `None`.
    ///
    /// If memory runs out, the text may be appended without the node, so the pieces are of no
    /// further use.
    pub fn optional<N: AstNode>(
        &mut self,
        before: &'p str,
        node: Option<&'p N>,
    ) -> Result<(), AllocError>
        ensures { OnOk result (bits_of self.new.items.items
            ≡ bits_of self.old.items.items
            ++ optional before.now (option_map (λ it. N.node it.now) node.entry)) }
    {
        match node {
            None => Ok(()),
            Some(node) => {
                self.text(before)?;
                self.part(node)
            }
        }
    }

    /// Appends nodes in order, each between two texts; nothing if there are none.
    ///
    /// If memory runs out, some of them may be appended, so the pieces are of no further use.
    pub fn each<N: AstNode>(
        &mut self,
        before: &'p str,
        nodes: &'p [N],
        after: &'p str,
    ) -> Result<(), AllocError>
        ensures { OnOk result (bits_of self.new.items.items
            ≡ bits_of self.old.items.items
            ++ each_between before.now after.now (map N.node nodes.now)) }
    {
        for node in nodes {
            self.text(before)?;
            self.part(node)?;
            self.text(after)?;
        }
        Ok(())
    }

    /// Appends nodes in order, with a text between any two: no text for a single node, and nothing
    /// if there are none.
    ///
    /// If memory runs out, some of them may be appended, so the pieces are of no further use.
    pub fn separated<N: AstNode>(
        &mut self,
        nodes: &'p [N],
        between: &'p str,
    ) -> Result<(), AllocError>
        ensures { OnOk result (bits_of self.new.items.items
            ≡ bits_of self.old.items.items ++ separated between.now (map N.node nodes.now)) }
    {
        match nodes {
            [] => Ok(()),
            [first, rest @ ..] => {
                self.part(first)?;
                self.each_behind(between, rest)
            }
        }
    }

    /// Appends nodes in order, each behind a text; nothing if there are none.
    ///
    /// If memory runs out, some of them may be appended, so the pieces are of no further use.
    pub fn each_behind<N: AstNode>(
        &mut self,
        before: &'p str,
        nodes: &'p [N],
    ) -> Result<(), AllocError>
        ensures { OnOk result (bits_of self.new.items.items
            ≡ bits_of self.old.items.items ++ behind before.now (map N.node nodes.now)) }
    {
        for node in nodes {
            self.text(before)?;
            self.part(node)?;
        }
        Ok(())
    }

    /// Appends a piece. It fails only if memory runs out.
    pub fn piece(&mut self, piece: Piece<'p>) -> Result<(), AllocError>
        ensures { OnOk result (bits_of self.new.items.items
            ≡ bits_of self.old.items.items ++ bit_of piece.entry ∷ []) }
    {
        self.items.push(piece)?;
        Ok(())
    }

    // One arm of `arms`.
    fn arm(&mut self, arm: &'p ast::MatchArm) -> Result<(), AllocError>
        ensures { OnOk result (bits_of self.new.items.items
            ≡ bits_of self.old.items.items
            ++ arm_bits (⟦<ast::MatchArm as AstNode>⟧.node arm.now ∷ [])) }
    {
        let lacks = lacks_comma(arm);
        self.text("    ")?;
        self.piece(part_unless(lacks, arm.syntax()))?;
        self.text(text_if(lacks, ","))?;
        self.text("\n")
    }

    /// Appends arms in order, a line for each, with a comma behind each that needs one and has
    /// none. Such an arm is appended by its children, since with the comma it is another arm.
    ///
    /// If memory runs out, some of them may be appended, so the pieces are of no further use.
    pub fn arms(&mut self, arms: &'p [ast::MatchArm]) -> Result<(), AllocError>
        ensures { OnOk result (bits_of self.new.items.items
            ≡ bits_of self.old.items.items
            ++ arm_bits (map ⟦<ast::MatchArm as AstNode>⟧.node arms.now)) }
    {
        for arm in arms {
            self.arm(arm)?;
        }
        Ok(())
    }

    /// Appends statements in order, each behind a newline and four blanks. The last one of a block
    /// without a value is appended by its children if it is an expression without a `;`, since it
    /// reads as the value there.
    ///
    /// If memory runs out, some of them may be appended, so the pieces are of no further use.
    pub fn stmts(&mut self, has_value: bool, stmts: &'p [ast::Stmt]) -> Result<(), AllocError>
        ensures { OnOk result (bits_of self.new.items.items
            ≡ bits_of self.old.items.items ++ stmt_bits has_value (map stmt_node stmts.now)) }
    {
        let mut left = stmts;
        while let [stmt, rest @ ..] = left {
            self.text("\n    ")?;
            let is_value = rest.is_empty() && !has_value && is_bare(stmt);
            self.piece(part_unless(is_value, stmt.syntax()))?;
            left = rest;
        }
        Ok(())
    }

    /// Appends nodes in order, with a text between any two, the first one by its children if the
    /// text before it becomes part of it.
    ///
    /// If memory runs out, some of them may be appended, so the pieces are of no further use.
    pub fn leading<N: AstNode>(
        &mut self,
        changes: bool,
        nodes: &'p [N],
        between: &'p str,
    ) -> Result<(), AllocError>
        ensures { OnOk result (bits_of self.new.items.items
            ≡ bits_of self.old.items.items
            ++ leading_bits changes between.now (map N.node nodes.now)) }
    {
        match nodes {
            [] => Ok(()),
            [first, others @ ..] => {
                self.piece(part_unless(changes, first.syntax()))?;
                self.each_behind(between, others)
            }
        }
    }
}
