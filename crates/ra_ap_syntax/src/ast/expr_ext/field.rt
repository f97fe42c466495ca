//! Fields in field accesses and in record expressions.
ghost use Rattle.std.specs.Prelude.{◌≡◌, option_map, drop};
ghost use Rattle.ras_expr_ext.specs.ExprParts.{index_token, shorthand_name, record_field_name, record_field_around, if_part_is};
ghost use Rattle.ra_ap_syntax.specs.ExprShapes.{field_shape, field_access};
ghost use Rattle.ra_ap_syntax.specs.Accessors.{expr_field_around, expr_field_name, expr_field_named, lone_name, nearest_above};
ghost use Rattle.ra_ap_syntax.specs.ExprViews.{IsRecordExpr, record_expr_kinds};
ghost use Rattle.ra_ap_syntax.specs.PathViews.{IsNameRef, name_ref_kinds};
ghost use Rattle.ra_ap_syntax.specs.StmtViews.{IsRecordExprField};
ghost use Rattle.std.specs.List.{find};
ghost use Rattle.std.specs.Option.{option_and_then};
ghost use Rattle.tree_model.specs.Cursor.{ancestors_of};
ghost use Rattle.ras_node.specs.Nodes.{has_kind_in};

use crate::ast::{self, AstNode, support};
use lossless_tree::SyntaxToken;
use ras_node::sets::BeforeIndex;

/// The name or number of a field.
#[derive(Clone, PartialEq, Eq, Drop)]
pub enum FieldKind {
    /// `a.f`
    Name(ast::NameRef),
    /// `a.0`
    Index(SyntaxToken),
}

impl ast::FieldExpr {
    /// The first child of a number's kind, if it is a token: the field's number.
    pub fn index_token(&self) -> Option<SyntaxToken>
        ensures { result ≡ index_token self.now.syntax }
    {
        ras_node::first_other::<BeforeIndex>(self.syntax.children_with_tokens())?.into_token()
    }

    /// The field's name, otherwise its number, or `None` if it has neither.
    pub fn field_access(&self) -> Option<FieldKind>
        ensures { option_map field_shape result ≡ field_access name_ref_kinds self.now.syntax }
    {
        if let Some(name) = self.name_ref() {
            return Some(FieldKind::Name(name));
        }
        Some(FieldKind::Index(self.index_token()?))
    }
}

// The name of a path that is only one name.
fn shorthand_name(path: &ast::Path) -> Option<ast::NameRef>
    ensures { IsNameRef (lone_name path.now.syntax) result }
{
    if path.qualifier().is_some() {
        return None;
    }
    path.segment()?.name_ref()
}

impl ast::RecordExprField {
    /// The field's name. In the short form `S { x }` it is the name in the path `x`.
    pub fn field_name(&self) -> Option<ast::NameRef>
        ensures { IsNameRef (expr_field_name self.now.syntax) result }
    {
        if let Some(name) = self.name_ref() {
            return Some(name);
        }
        let value = support::recast::<ast::Expr, ast::PathExpr>(self.expr())?;
        shorthand_name(&value.path()?)
    }

    /// The field around a name: the name's parent, otherwise the fourth node above it, if that is
    /// one.
    pub fn for_name_ref(name_ref: &ast::NameRef) -> Option<ast::RecordExprField>
        ensures { IsRecordExprField (expr_field_around name_ref.now.syntax) result }
    {
        if let Some(field) = support::parent_as(&name_ref.syntax) {
            return Some(field);
        }
        let above = name_ref.syntax.parent()?.parent()?;
        support::grandparent_as(&above)
    }

    /// The field around a name, if the name is the field's.
    pub fn for_field_name(field_name: &ast::NameRef) -> Option<ast::RecordExprField>
        ensures { IsRecordExprField (expr_field_named field_name.now.syntax) result }
    {
        let field = ast::RecordExprField::for_name_ref(field_name)?;
        let name = field.field_name()?;
        if name.syntax == field_name.syntax {
            Some(field)
        } else {
            None
        }
    }

    /// The record that it is a field of: the nearest record expression above it.
    pub fn parent_record_lit(&self) -> Option<ast::RecordExpr>
        ensures { IsRecordExpr (nearest_above record_expr_kinds self.now.syntax) result }
    {
        support::ancestor_as(&self.syntax)
    }
}
