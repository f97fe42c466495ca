//! The shared traits that need more than lookups. Each call takes time linear in the number of
//! children that it passes, and no memory.
ghost use Rattle.std.specs.Prelude.{◌≡◌};
ghost use Rattle.ras_node.specs.Lookups.{loop_body};
ghost use Rattle.ras_node.specs.Nodes.{typed_children};
ghost use Rattle.ras_node_ext.specs.Attrs.{attrs_source, inner_holder};
ghost use Rattle.ra_ap_syntax.specs.Accessors.{all_attrs};
ghost use Rattle.ra_ap_syntax.specs.AnyAttrCases.{any_attr_kinds};
ghost use Rattle.ra_ap_syntax.specs.AttrViews.{attr_kinds, doc_comment_kinds};
ghost use Rattle.ra_ap_syntax.specs.ControlViews.{IsBlockExpr, block_expr_kinds};
ghost use Rattle.ra_ap_syntax.specs.StmtViews.{IsFirstLabel};

use crate::ast::{self, AstChildren, AstNode, AttrsIter, AttrsWithDoc, support};
use lossless_tree::SyntaxNode;

/// A loop.
pub trait HasLoopBody: AstNode {
    /// The body. For a `loop` it is the first block among the children. The first block of a `for`
    /// or a `while` may be its iterator or condition, so there the body is the second block, or the
    /// first if there is only one.
    final fn loop_body(&self) -> Option<ast::BlockExpr>
        ensures { IsBlockExpr (loop_body block_expr_kinds (Self.node self.now)) result }
    {
        ras_expr_ext::loop_body(self.syntax())
    }

    /// The first child that is a label, if there is one.
    /// Example: `'a:` of `'a: loop {}`.
    final fn label(&self) -> Option<ast::Label>
        ensures { IsFirstLabel (Self.node self.now) result }
    {
        support::child(self.syntax())
    }
}

/// Nodes that can have attributes and documentation.
pub trait HasAttrs: AstNode {
    /// The children that are attributes, in order.
    /// Example: `#[a]` and `#[b]` of `#[a] #[b]\n/// c\nfn f() {}`.
    final fn attrs(&self) -> AstChildren<ast::Attr>
        ensures { result ≡ typed_children attr_kinds (Self.node self.now) }
    {
        support::children(self.syntax())
    }

    /// The children that are doc comments, in order.
    /// Example: `/// c` of `#[a] #[b]\n/// c\nfn f() {}`.
    final fn doc_comments(&self) -> AstChildren<ast::DocComment>
        ensures { result ≡ typed_children doc_comment_kinds (Self.node self.now) }
    {
        support::children(self.syntax())
    }

    /// The children that are attributes or doc comments, in order.
    /// Example: `#[a]`, `#[b]` and `/// c` of `#[a] #[b]\n/// c\nfn f() {}`.
    final fn attrs_with_doc(&self) -> AstChildren<ast::AnyAttr>
        ensures { result ≡ typed_children any_attr_kinds (Self.node self.now) }
    {
        support::children(self.syntax())
    }

    /// The node that holds its inner attributes. A file holds its own, and so does a block that can
    /// have some. For a function it is the statement list of its body; for an extern block, a
    /// `match`, an implementation, a trait and a module it is the list in it. `None` for other
    /// nodes, and if that part is missing.
    final fn inner_attributes_node(&self) -> Option<SyntaxNode>
        ensures { result ≡ inner_holder (Self.node self.now) }
    {
        ras_node_ext::inner_attributes_node(self.syntax())
    }
}

/// The outer attributes and documentation comments of an owner, and then the inner ones, in order.
pub fn attrs_with_doc_including_inner<H: HasAttrs>(owner: &H) -> AttrsWithDoc
    ensures { result ≡ all_attrs (H.node owner.now) }
{
    AttrsWithDoc::new(owner.syntax(), owner.inner_attributes_node())
}

/// The outer attributes of an owner, and then the inner ones, in order, without documentation
/// comments.
pub fn attrs_including_inner<H: HasAttrs>(owner: &H) -> AttrsIter<AttrsWithDoc>
    ensures { attrs_source result ≡ all_attrs (H.node owner.now) }
{
    AttrsIter::new(attrs_with_doc_including_inner(owner))
}
