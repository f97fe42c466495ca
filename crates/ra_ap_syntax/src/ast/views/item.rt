//! An item: of a file, a module or a block. Made by `tools/views` from `views.txt`.
ghost use Rattle.std.specs.Prelude.{◌≡◌, Some, ⊤};
ghost use Rattle.std.specs.Cmp.{partial_equiv_from_equiv, on_equiv};
ghost use Rattle.tree_model.specs.Tree.{text};
ghost use Rattle.tree_model.specs.Cursor.{focus};
ghost use Rattle.lossless_tree.specs.Dump.{span_text};
ghost use Rattle.tree_model.specs.Equality.{is_same_cursor, cursor_hash};
ghost use Rattle.tree_model.specs.EqualityLaws.{cursor_equivalence, cursors_alike};
ghost use Rattle.ra_ap_syntax.specs.declared.ast.views.item.Item.TheVariants as item;
ghost use Rattle.ras_node.specs.Sets.{is_item};
ghost use Rattle.ra_ap_syntax.specs.ItemCases.{item_node, item_castable};
ghost use Rattle.ra_ap_syntax.specs.AssocItemCases.{assoc_item_node};
ghost use Rattle.ra_ap_syntax.specs.ExternItemCases.{extern_item_node};
ghost use Rattle.ra_ap_syntax.specs.AdtCases.{adt_node};

use crate::ast::{self, AstNode, Typed, support};
use lossless_tree::{SyntaxKind, SyntaxNode};
use ras_node::sets::{Items, KindSet};
use std::alloc::AllocError;
use std::fmt;
use std::hash::{Hash, Hasher};

/// An item: of a file, a module or a block.
#[derive(Drop)]
pub enum Item {
    AsmExpr(ast::AsmExpr),
    Const(ast::Const),
    Enum(ast::Enum),
    ExternBlock(ast::ExternBlock),
    ExternCrate(ast::ExternCrate),
    Fn(ast::Fn),
    Impl(ast::Impl),
    MacroCall(ast::MacroCall),
    MacroDef(ast::MacroDef),
    MacroRules(ast::MacroRules),
    Module(ast::Module),
    Static(ast::Static),
    Struct(ast::Struct),
    Trait(ast::Trait),
    TypeAlias(ast::TypeAlias),
    Union(ast::Union),
    Use(ast::Use),
}

impl AstNode for Item {
    ghost casts = { is_item };

    ghost node = { item_node };

    ghost castable = { item_castable };

    fn can_cast(kind: SyntaxKind) -> bool {
        Items::has(kind)
    }

    fn cast(syntax: SyntaxNode) -> Option<Item> {
        match syntax.kind() {
            SyntaxKind::ASM_EXPR => Some(Item::AsmExpr(Typed { syntax })),
            SyntaxKind::CONST => Some(Item::Const(Typed { syntax })),
            SyntaxKind::ENUM => Some(Item::Enum(Typed { syntax })),
            SyntaxKind::EXTERN_BLOCK => Some(Item::ExternBlock(Typed { syntax })),
            SyntaxKind::EXTERN_CRATE => Some(Item::ExternCrate(Typed { syntax })),
            SyntaxKind::FN => Some(Item::Fn(Typed { syntax })),
            SyntaxKind::IMPL => Some(Item::Impl(Typed { syntax })),
            SyntaxKind::MACRO_CALL => Some(Item::MacroCall(Typed { syntax })),
            SyntaxKind::MACRO_DEF => Some(Item::MacroDef(Typed { syntax })),
            SyntaxKind::MACRO_RULES => Some(Item::MacroRules(Typed { syntax })),
            SyntaxKind::MODULE => Some(Item::Module(Typed { syntax })),
            SyntaxKind::STATIC => Some(Item::Static(Typed { syntax })),
            SyntaxKind::STRUCT => Some(Item::Struct(Typed { syntax })),
            SyntaxKind::TRAIT => Some(Item::Trait(Typed { syntax })),
            SyntaxKind::TYPE_ALIAS => Some(Item::TypeAlias(Typed { syntax })),
            SyntaxKind::UNION => Some(Item::Union(Typed { syntax })),
            SyntaxKind::USE => Some(Item::Use(Typed { syntax })),
            _ => None,
        }
    }

    fn syntax(&self) -> &SyntaxNode {
        match self {
            Item::AsmExpr(it) => it.syntax(),
            Item::Const(it) => it.syntax(),
            Item::Enum(it) => it.syntax(),
            Item::ExternBlock(it) => it.syntax(),
            Item::ExternCrate(it) => it.syntax(),
            Item::Fn(it) => it.syntax(),
            Item::Impl(it) => it.syntax(),
            Item::MacroCall(it) => it.syntax(),
            Item::MacroDef(it) => it.syntax(),
            Item::MacroRules(it) => it.syntax(),
            Item::Module(it) => it.syntax(),
            Item::Static(it) => it.syntax(),
            Item::Struct(it) => it.syntax(),
            Item::Trait(it) => it.syntax(),
            Item::TypeAlias(it) => it.syntax(),
            Item::Union(it) => it.syntax(),
            Item::Use(it) => it.syntax(),
        }
    }
}

impl Clone for Item {
    ghost is_clone = { λ s copy. item_node copy ≡ item_node s };

    ghost is_infallible = { λ _. ⊤ };

    fn clone(&self) -> Result<Item, AllocError> {
        Ok(support::copy(self))
    }
}

impl PartialEq for Item {
    ghost eq = { λ a b. is_same_cursor (item_node a) (item_node b) };

    ghost laws = { partial_equiv_from_equiv (on_equiv item_node cursor_equivalence) };

    fn eq(&self, other: &Item) -> bool {
        self.syntax() == other.syntax()
    }
}

impl Eq for Item {
    ghost laws = { on_equiv item_node cursor_equivalence };
}

impl Hash for Item {
    ghost hash_input = { λ it. cursor_hash (item_node it) };

    ghost respects_eq = { λ a b same. cursors_alike (item_node a) (item_node b) same };

    fn hash<H: Hasher>(&self, state: &mut H) {
        self.syntax().hash(state);
    }
}

impl fmt::Display for Item {
    ghost output = { λ it. Some (text (focus (item_node it))) };

    fn fmt<W: fmt::Write>(&self, f: &mut fmt::Formatter<W>) -> fmt::Result {
        let text = self.syntax().as_str();
        write!(f, "{text}")
    }
}

/// The kind and the range, as the node prints.
impl fmt::Debug for Item {
    ghost debug_output = { λ it. Some (span_text (item_node it)) };

    fn fmt<W: fmt::Write>(&self, f: &mut fmt::Formatter<W>) -> fmt::Result {
        fmt::Debug::fmt(self.syntax(), f)
    }
}

impl From<ast::AsmExpr> for Item {
    ghost from_gives = { λ it made. made ≡ item.AsmExpr it };

    fn from(it: ast::AsmExpr) -> Item {
        Item::AsmExpr(it)
    }
}

impl From<ast::Const> for Item {
    ghost from_gives = { λ it made. made ≡ item.Const it };

    fn from(it: ast::Const) -> Item {
        Item::Const(it)
    }
}

impl From<ast::Enum> for Item {
    ghost from_gives = { λ it made. made ≡ item.Enum it };

    fn from(it: ast::Enum) -> Item {
        Item::Enum(it)
    }
}

impl From<ast::ExternBlock> for Item {
    ghost from_gives = { λ it made. made ≡ item.ExternBlock it };

    fn from(it: ast::ExternBlock) -> Item {
        Item::ExternBlock(it)
    }
}

impl From<ast::ExternCrate> for Item {
    ghost from_gives = { λ it made. made ≡ item.ExternCrate it };

    fn from(it: ast::ExternCrate) -> Item {
        Item::ExternCrate(it)
    }
}

impl From<ast::Fn> for Item {
    ghost from_gives = { λ it made. made ≡ item.Fn it };

    fn from(it: ast::Fn) -> Item {
        Item::Fn(it)
    }
}

impl From<ast::Impl> for Item {
    ghost from_gives = { λ it made. made ≡ item.Impl it };

    fn from(it: ast::Impl) -> Item {
        Item::Impl(it)
    }
}

impl From<ast::MacroCall> for Item {
    ghost from_gives = { λ it made. made ≡ item.MacroCall it };

    fn from(it: ast::MacroCall) -> Item {
        Item::MacroCall(it)
    }
}

impl From<ast::MacroDef> for Item {
    ghost from_gives = { λ it made. made ≡ item.MacroDef it };

    fn from(it: ast::MacroDef) -> Item {
        Item::MacroDef(it)
    }
}

impl From<ast::MacroRules> for Item {
    ghost from_gives = { λ it made. made ≡ item.MacroRules it };

    fn from(it: ast::MacroRules) -> Item {
        Item::MacroRules(it)
    }
}

impl From<ast::Module> for Item {
    ghost from_gives = { λ it made. made ≡ item.Module it };

    fn from(it: ast::Module) -> Item {
        Item::Module(it)
    }
}

impl From<ast::Static> for Item {
    ghost from_gives = { λ it made. made ≡ item.Static it };

    fn from(it: ast::Static) -> Item {
        Item::Static(it)
    }
}

impl From<ast::Struct> for Item {
    ghost from_gives = { λ it made. made ≡ item.Struct it };

    fn from(it: ast::Struct) -> Item {
        Item::Struct(it)
    }
}

impl From<ast::Trait> for Item {
    ghost from_gives = { λ it made. made ≡ item.Trait it };

    fn from(it: ast::Trait) -> Item {
        Item::Trait(it)
    }
}

impl From<ast::TypeAlias> for Item {
    ghost from_gives = { λ it made. made ≡ item.TypeAlias it };

    fn from(it: ast::TypeAlias) -> Item {
        Item::TypeAlias(it)
    }
}

impl From<ast::Union> for Item {
    ghost from_gives = { λ it made. made ≡ item.Union it };

    fn from(it: ast::Union) -> Item {
        Item::Union(it)
    }
}

impl From<ast::Use> for Item {
    ghost from_gives = { λ it made. made ≡ item.Use it };

    fn from(it: ast::Use) -> Item {
        Item::Use(it)
    }
}

impl From<ast::AssocItem> for Item {
    ghost from_gives = { λ it made. item_node made ≡ assoc_item_node it };

    fn from(it: ast::AssocItem) -> Item {
        match it {
            ast::AssocItem::Const(it) => Item::Const(it),
            ast::AssocItem::Fn(it) => Item::Fn(it),
            ast::AssocItem::MacroCall(it) => Item::MacroCall(it),
            ast::AssocItem::TypeAlias(it) => Item::TypeAlias(it),
        }
    }
}

impl From<ast::ExternItem> for Item {
    ghost from_gives = { λ it made. item_node made ≡ extern_item_node it };

    fn from(it: ast::ExternItem) -> Item {
        match it {
            ast::ExternItem::Static(it) => Item::Static(it),
            ast::ExternItem::Fn(it) => Item::Fn(it),
            ast::ExternItem::MacroCall(it) => Item::MacroCall(it),
            ast::ExternItem::TypeAlias(it) => Item::TypeAlias(it),
        }
    }
}

impl From<ast::Adt> for Item {
    ghost from_gives = { λ it made. item_node made ≡ adt_node it };

    fn from(it: ast::Adt) -> Item {
        match it {
            ast::Adt::Enum(it) => Item::Enum(it),
            ast::Adt::Struct(it) => Item::Struct(it),
            ast::Adt::Union(it) => Item::Union(it),
        }
    }
}
