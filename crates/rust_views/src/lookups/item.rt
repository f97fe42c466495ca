//! Lookups in items and their parts. Made by `tools/views` from `views.txt`.
ghost use Rattle.std.specs.Prelude.{◌≡◌};
ghost use Rattle.ras_node.specs.Nodes.{token_child, typed_children};
ghost use Rattle.ra_ap_syntax.specs.ItemCases.{item_kinds};
ghost use Rattle.ra_ap_syntax.specs.PartViews.{variant_kinds};
ghost use Rattle.ra_ap_syntax.specs.PathViews.{IsFirstName};
ghost use Rattle.rust_views.specs.FieldListCases.{IsFirstFieldList};
ghost use Rattle.rust_views.specs.ItemViews.{IsFirstRename, IsFirstVariantList};
ghost use Rattle.rust_kinds.specs.declared.kinds.TheConstants.{FRONTMATTER, SAFE_KW, SHEBANG};

use crate::{FieldList, MacroItems, Rename, VariantList};
use ra_ap_syntax::ast::{self, AstChildren, AstNode};
use ra_ap_syntax::{SyntaxKind, SyntaxToken, T};
use ras_node::support;
use rust_kinds::kinds::{FRONTMATTER, SAFE_KW, SHEBANG};

/// The lookups of an `Enum` that lead to a view or token of this table.
pub trait EnumExt: AstNode {
    /// The first child that is a list of variants, if there is one.
    /// Example: `{ A, B }` of `enum E { A, B }`.
    final fn variant_list(&self) -> Option<VariantList>
        ensures { IsFirstVariantList (Self.node self.now) result }
    {
        support::child(self.syntax())
    }
}

impl EnumExt for ast::Enum {}

/// The lookups of an `ExternCrate` that lead to a view or token of this table.
pub trait ExternCrateExt: AstNode {
    /// The first child that is a rename, if there is one.
    /// Example: `as b` of `extern crate a as b;`.
    final fn rename(&self) -> Option<Rename>
        ensures { IsFirstRename (Self.node self.now) result }
    {
        support::child(self.syntax())
    }
}

impl ExternCrateExt for ast::ExternCrate {}

/// The lookups of a `Fn` that lead to a view or token of this table.
pub trait FnExt: AstNode {
    /// The first token `safe` among the children, if there is one.
    /// Example: `safe` of `safe fn f();`.
    final fn safe_token(&self) -> Option<SyntaxToken>
        ensures { result ≡ token_child SAFE_KW (Self.node self.now) }
    {
        support::token(self.syntax(), SAFE_KW)
    }
}

impl FnExt for ast::Fn {}

/// The lookups of a `MacroItems`.
pub trait MacroItemsExt: AstNode {
    /// The children that are items, in order.
    final fn items(&self) -> AstChildren<ast::Item>
        ensures { result ≡ typed_children item_kinds (Self.node self.now) }
    {
        support::children(self.syntax())
    }
}

impl MacroItemsExt for MacroItems {}

/// The lookups of a `Rename`.
pub trait RenameExt: AstNode {
    /// The first child that is a name, if there is one.
    /// Example: `b` of `as b`.
    final fn name(&self) -> Option<ast::Name>
        ensures { IsFirstName (Self.node self.now) result }
    {
        support::child(self.syntax())
    }

    /// The first token `as` among the children, if there is one.
    /// Example: `as` of `as b`.
    final fn as_token(&self) -> Option<SyntaxToken>
        ensures { result ≡ token_child SyntaxKind.AS_KW (Self.node self.now) }
    {
        support::token(self.syntax(), T![as])
    }

    /// The first token `_` among the children, if there is one.
    /// Example: `_` of `as _`.
    final fn underscore_token(&self) -> Option<SyntaxToken>
        ensures { result ≡ token_child SyntaxKind.UNDERSCORE (Self.node self.now) }
    {
        support::token(self.syntax(), T![_])
    }
}

impl RenameExt for Rename {}

/// The lookups of a `SourceFile` that lead to a view or token of this table.
pub trait SourceFileExt: AstNode {
    /// The first shebang token among the children, if there is one.
    /// Example: `#!/bin/sh\n` of `#!/bin/sh\nfn f() {}`.
    final fn shebang_token(&self) -> Option<SyntaxToken>
        ensures { result ≡ token_child SHEBANG (Self.node self.now) }
    {
        support::token(self.syntax(), SHEBANG)
    }

    /// The first frontmatter token among the children, if there is one.
    /// Example: `---\na\n---\n` of `---\na\n---\nfn f() {}`.
    final fn frontmatter_token(&self) -> Option<SyntaxToken>
        ensures { result ≡ token_child FRONTMATTER (Self.node self.now) }
    {
        support::token(self.syntax(), FRONTMATTER)
    }
}

impl SourceFileExt for ast::SourceFile {}

/// The lookups of a `Static` that lead to a view or token of this table.
pub trait StaticExt: AstNode {
    /// The first token `safe` among the children, if there is one.
    /// Example: `safe` of `safe static A: T;`.
    final fn safe_token(&self) -> Option<SyntaxToken>
        ensures { result ≡ token_child SAFE_KW (Self.node self.now) }
    {
        support::token(self.syntax(), SAFE_KW)
    }
}

impl StaticExt for ast::Static {}

/// The lookups of a `Struct` that lead to a view or token of this table.
pub trait StructExt: AstNode {
    /// The first child that is a list of fields, if there is one.
    /// Example: `(T)` of `struct S(T);`.
    final fn field_list(&self) -> Option<FieldList>
        ensures { IsFirstFieldList (Self.node self.now) result }
    {
        support::child(self.syntax())
    }
}

impl StructExt for ast::Struct {}

/// The lookups of an `UseTree` that lead to a view or token of this table.
pub trait UseTreeExt: AstNode {
    /// The first child that is a rename, if there is one.
    /// Example: `as b` of `a as b`.
    final fn rename(&self) -> Option<Rename>
        ensures { IsFirstRename (Self.node self.now) result }
    {
        support::child(self.syntax())
    }
}

impl UseTreeExt for ast::UseTree {}

/// The lookups of a `Variant` that lead to a view or token of this table.
pub trait VariantExt: AstNode {
    /// The first child that is a list of fields, if there is one.
    /// Example: `(T)` of `A(T)`.
    final fn field_list(&self) -> Option<FieldList>
        ensures { IsFirstFieldList (Self.node self.now) result }
    {
        support::child(self.syntax())
    }
}

impl VariantExt for ast::Variant {}

/// The lookups of a `VariantList`.
pub trait VariantListExt: AstNode {
    /// The children that are variants, in order.
    /// Example: `A` and `B` of `{ A, B }`.
    final fn variants(&self) -> AstChildren<ast::Variant>
        ensures { result ≡ typed_children variant_kinds (Self.node self.now) }
    {
        support::children(self.syntax())
    }

    /// The first token `{` among the children, if there is one.
    /// Example: `{` of `{ A, B }`.
    final fn l_curly_token(&self) -> Option<SyntaxToken>
        ensures { result ≡ token_child SyntaxKind.L_CURLY (Self.node self.now) }
    {
        support::token(self.syntax(), T!['{'])
    }

    /// The first token `}` among the children, if there is one.
    /// Example: `}` of `{ A, B }`.
    final fn r_curly_token(&self) -> Option<SyntaxToken>
        ensures { result ≡ token_child SyntaxKind.R_CURLY (Self.node self.now) }
    {
        support::token(self.syntax(), T!['}'])
    }
}

impl VariantListExt for VariantList {}
