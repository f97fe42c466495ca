//! Lookups in patterns. Made by `tools/views` from `views.txt`.
ghost use Rattle.std.specs.Prelude.{◌≡◌};
ghost use Rattle.ras_node.specs.Nodes.{token_child, typed_children};
ghost use Rattle.ra_ap_syntax.specs.PatViews.{IsFirstRestPat, record_pat_field_kinds};
ghost use Rattle.rust_views.specs.PatViews.{IsFirstRecordPatFieldList};
ghost use Rattle.rust_kinds.specs.declared.kinds.TheConstants.{BOX_KW};

use crate::RecordPatFieldList;
use ra_ap_syntax::ast::{self, AstChildren, AstNode};
use ra_ap_syntax::{SyntaxKind, SyntaxToken, T};
use ras_node::support;
use rust_kinds::kinds::BOX_KW;

/// The lookups of a `BoxPat` that lead to a view or token of this table.
pub trait BoxPatExt: AstNode {
    /// The first token `box` among the children, if there is one.
    /// Example: `box` of `box p`.
    final fn box_token(&self) -> Option<SyntaxToken>
        ensures { result ≡ token_child BOX_KW (Self.node self.now) }
    {
        support::token(self.syntax(), BOX_KW)
    }
}

impl BoxPatExt for ast::BoxPat {}

/// The lookups of a `RecordPat` that lead to a view or token of this table.
pub trait RecordPatExt: AstNode {
    /// The first child that is a list of record pattern fields, if there is one.
    /// Example: `{ f: p, .. }` of `S { f: p, .. }`.
    final fn record_pat_field_list(&self) -> Option<RecordPatFieldList>
        ensures { IsFirstRecordPatFieldList (Self.node self.now) result }
    {
        support::child(self.syntax())
    }
}

impl RecordPatExt for ast::RecordPat {}

/// The lookups of a `RecordPatFieldList`.
pub trait RecordPatFieldListExt: AstNode {
    /// The children that are record pattern fields, in order.
    /// Example: `f: p` of `{ f: p, .. }`.
    final fn fields(&self) -> AstChildren<ast::RecordPatField>
        ensures { result ≡ typed_children record_pat_field_kinds (Self.node self.now) }
    {
        support::children(self.syntax())
    }

    /// The first child that is a rest pattern, if there is one.
    /// Example: `..` of `{ f: p, .. }`.
    final fn rest_pat(&self) -> Option<ast::RestPat>
        ensures { IsFirstRestPat (Self.node self.now) result }
    {
        support::child(self.syntax())
    }

    /// The first token `{` among the children, if there is one.
    /// Example: `{` of `{ f: p, .. }`.
    final fn l_curly_token(&self) -> Option<SyntaxToken>
        ensures { result ≡ token_child SyntaxKind.L_CURLY (Self.node self.now) }
    {
        support::token(self.syntax(), T!['{'])
    }

    /// The first token `}` among the children, if there is one.
    /// Example: `}` of `{ f: p, .. }`.
    final fn r_curly_token(&self) -> Option<SyntaxToken>
        ensures { result ≡ token_child SyntaxKind.R_CURLY (Self.node self.now) }
    {
        support::token(self.syntax(), T!['}'])
    }
}

impl RecordPatFieldListExt for RecordPatFieldList {}
