//! Patterns.
ghost use Rattle.std.specs.Prelude.{◌≡◌, IfOk, map, option_map, not, is_some, drop};
ghost use Rattle.std.specs.List.{find};
ghost use Rattle.tree_model.specs.Cursor.{parent_of, ancestors_of};
ghost use Rattle.ras_node.specs.Lookups.{view_in, grandparent_of};
ghost use Rattle.ras_node.specs.Nodes.{typed_child, typed_children, kind_at, has_kind_in};
ghost use Rattle.ras_node_ext.specs.Slices.{is_rest, before_rest, behind_rest};
ghost use Rattle.ra_ap_syntax.specs.PatCases.{pat_node, pat_kinds};
ghost use Rattle.ras_node_ext.specs.NodeParts.{leading_pipe, bound_name, bound_in_box, is_simple_ident, if_kind, pat_field_name, if_its_part_is};
ghost use Rattle.ra_ap_syntax.specs.Accessors.{field_name_in_pat, if_named, nearest_above};
ghost use Rattle.ra_ap_syntax.specs.NameOrNameRefCases.{IsNameOrNameRef};
ghost use Rattle.ra_ap_syntax.specs.PatViews.{IsRecordPat, IsRecordPatField, record_pat_field_kinds, record_pat_kinds};
ghost use Rattle.ra_ap_syntax.specs.PathViews.{IsFirstName, IsName, name_kinds};
ghost use Rattle.std.specs.Option.{option_and_then};

use crate::ast::{self, AstNode, HasName, NameOrNameRef, support};
use lossless_tree::{SyntaxKind, SyntaxNode, SyntaxToken};
use std::alloc::{AllocError, Global};

impl ast::OrPat {
    /// The first child that is not white space or a comment, if it is a `|`.
    pub fn leading_pipe(&self) -> Option<SyntaxToken>
        ensures { result ≡ leading_pipe self.now.syntax }
    {
        let token = self.syntax.first_child_no_trivia()?.into_token()?;
        if support::is_token_of_kind(&token, SyntaxKind::PIPE) {
            Some(token)
        } else {
            None
        }
    }
}

/// The patterns in a slice pattern: those before the first rest pattern, that one, and those after
/// it.
pub type SlicePatComponents = ras_node_ext::SliceComponents<ast::Pat>;

impl ast::SlicePat {
    /// The patterns before the first rest pattern, that one, and those after it. A rest pattern is
    /// `..`, also bound by a name or after `&`.
    ///
    /// It takes memory for the two lists.
    pub fn components(&self, alloc: Global) -> Result<SlicePatComponents, AllocError>
        ensures prefix { IfOk result (λ parts. map pat_node parts.prefix.items
            ≡ before_rest pat_kinds (typed_children pat_kinds self.now.syntax)) }
        ensures slice { IfOk result (λ parts. option_map pat_node parts.slice
            ≡ find (is_rest pat_kinds) (typed_children pat_kinds self.now.syntax)) }
        ensures suffix { IfOk result (λ parts. map pat_node parts.suffix.items
            ≡ behind_rest pat_kinds (typed_children pat_kinds self.now.syntax)) }
    {
        ras_node_ext::slice_components(alloc, &self.syntax)
    }
}

impl ast::IdentPat {
    /// Whether it is only a name: it has no `@`, `mut` or `ref`, and no pattern after an `@`.
    pub fn is_simple_ident(&self) -> bool
        ensures { result ≡ is_simple_ident pat_kinds self.now.syntax }
    {
        if self.at_token().is_some() || self.mut_token().is_some() {
            return false;
        }
        if self.ref_token().is_some() {
            return false;
        }
        has_no_pattern::<ast::Pat>(&self.syntax)
    }
}

// Whether no child can be viewed as an `N`.
fn has_no_pattern<N: AstNode + Drop>(parent: &SyntaxNode) -> bool
    ensures { result ≡ not (is_some (typed_child N.casts parent.now)) }
{
    match support::child::<N>(parent) {
        Some(_child) => false,
        None => true,
    }
}

// The first child that is a name: by the word of clauses, in which the prover finds it again.
fn first_name(parent: &SyntaxNode) -> Option<ast::Name>
    ensures { IsFirstName parent.now result }
{
    support::child(parent)
}

// The name in a `box` pattern whose pattern is a name.
fn bound_in_box<N: AstNode + Drop>(boxed: &SyntaxNode) -> Option<ast::Name>
    ensures { IsName (bound_in_box name_kinds N.casts boxed.now) result }
{
    let inner = support::child::<N>(boxed)?;
    if support::is_of_kind(inner.syntax(), SyntaxKind::IDENT_PAT) {
        first_name(inner.syntax())
    } else {
        None
    }
}

// The name that a pattern binds, also after `box`.
fn bound_name(pat: &SyntaxNode) -> Option<ast::Name>
    ensures { IsName (bound_name name_kinds pat_kinds pat.now) result }
{
    match pat.kind() {
        SyntaxKind::IDENT_PAT => support::child(pat),
        SyntaxKind::BOX_PAT => bound_in_box::<ast::Pat>(pat),
        _ => None,
    }
}

// The name that a viewed pattern binds.
fn name_bound_by<N: AstNode + Drop>(pat: N) -> Option<ast::Name>
    ensures { IsName (bound_name name_kinds pat_kinds (N.node pat)) result }
{
    bound_name(pat.syntax())
}

impl ast::RecordPatField {
    /// The field's name: its own, or the name that its pattern binds, also after `box`.
    pub fn field_name(&self) -> Option<NameOrNameRef>
        ensures { IsNameOrNameRef (field_name_in_pat self.now.syntax) result }
    {
        if let Some(name) = self.name_ref() {
            return Some(NameOrNameRef::NameRef(name));
        }
        Some(NameOrNameRef::Name(name_bound_by(self.pat()?)?))
    }

    /// The field that is a name's parent, if the name is the field's.
    pub fn for_field_name_ref(field_name: &ast::NameRef) -> Option<ast::RecordPatField>
        ensures { IsRecordPatField
            (if_named field_name.now.syntax
            (view_in record_pat_field_kinds (parent_of field_name.now.syntax))) result }
    {
        if_named(support::parent_as(&field_name.syntax), &field_name.syntax)
    }

    /// The field that is the parent of a name's pattern, if the name is the field's.
    pub fn for_field_name(field_name: &ast::Name) -> Option<ast::RecordPatField>
        ensures { IsRecordPatField
            (if_named field_name.now.syntax
            (view_in record_pat_field_kinds (grandparent_of field_name.now.syntax))) result }
    {
        if_named(
            support::grandparent_as(&field_name.syntax),
            &field_name.syntax,
        )
    }

    /// The record that it is a field of: the nearest record pattern above it.
    pub fn parent_record_pat(&self) -> Option<ast::RecordPat>
        ensures { IsRecordPat (nearest_above record_pat_kinds self.now.syntax) result }
    {
        support::ancestor_as(&self.syntax)
    }
}

// The field, if this node is its name.
fn if_named(field: Option<ast::RecordPatField>, name: &SyntaxNode) -> Option<ast::RecordPatField>
    ensures { IsRecordPatField (if_named name.now (option_map (λ it. it.syntax) field)) result }
{
    let field = field?;
    let own = field.field_name()?;
    if own.syntax() == name {
        Some(field)
    } else {
        None
    }
}
