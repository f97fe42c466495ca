//! The fields of a struct or variant. Made by `tools/views` from `views.txt`.
ghost use Rattle.std.specs.Prelude.{◌≡◌, Some};
ghost use Rattle.tree_model.specs.Tree.{text};
ghost use Rattle.tree_model.specs.Cursor.{focus};
ghost use Rattle.lossless_tree.specs.Dump.{span_text};
ghost use Rattle.rust_views.specs.declared.enums.field_list.FieldList.TheVariants as field_list;
ghost use Rattle.rust_views.specs.FieldListCases.{field_list_node, field_list_castable, is_field_list};

use ra_ap_syntax::ast::{self, AstNode};
use ra_ap_syntax::{SyntaxKind, SyntaxNode};
use std::fmt;
use std::hash::Hash;

/// The fields of a struct or variant.
#[derive(Clone, PartialEq, Eq, Hash, Drop)]
pub enum FieldList {
    RecordFieldList(ast::RecordFieldList),
    TupleFieldList(ast::TupleFieldList),
}

impl AstNode for FieldList {
    ghost casts = { is_field_list };

    ghost node = { field_list_node };

    ghost castable = { field_list_castable };

    fn can_cast(kind: SyntaxKind) -> bool {
        ast::RecordFieldList::can_cast(kind) || ast::TupleFieldList::can_cast(kind)
    }

    fn cast(syntax: SyntaxNode) -> Option<FieldList> {
        if ast::RecordFieldList::can_cast(syntax.kind()) {
            match ast::RecordFieldList::cast(syntax) {
                Some(it) => Some(FieldList::RecordFieldList(it)),
                None => None,
            }
        } else if ast::TupleFieldList::can_cast(syntax.kind()) {
            match ast::TupleFieldList::cast(syntax) {
                Some(it) => Some(FieldList::TupleFieldList(it)),
                None => None,
            }
        } else {
            None
        }
    }

    fn syntax(&self) -> &SyntaxNode {
        match self {
            FieldList::RecordFieldList(it) => it.syntax(),
            FieldList::TupleFieldList(it) => it.syntax(),
        }
    }
}

impl fmt::Display for FieldList {
    ghost output = { λ it. Some (text (focus (field_list_node it))) };

    fn fmt<W: fmt::Write>(&self, f: &mut fmt::Formatter<W>) -> fmt::Result {
        let text = self.syntax().as_str();
        write!(f, "{text}")
    }
}

/// The kind and the range, as the node prints.
impl fmt::Debug for FieldList {
    ghost debug_output = { λ it. Some (span_text (field_list_node it)) };

    fn fmt<W: fmt::Write>(&self, f: &mut fmt::Formatter<W>) -> fmt::Result {
        fmt::Debug::fmt(self.syntax(), f)
    }
}

impl From<ast::RecordFieldList> for FieldList {
    ghost from_gives = { λ it made. made ≡ field_list.RecordFieldList it };

    fn from(it: ast::RecordFieldList) -> FieldList {
        FieldList::RecordFieldList(it)
    }
}

impl From<ast::TupleFieldList> for FieldList {
    ghost from_gives = { λ it made. made ≡ field_list.TupleFieldList it };

    fn from(it: ast::TupleFieldList) -> FieldList {
        FieldList::TupleFieldList(it)
    }
}
