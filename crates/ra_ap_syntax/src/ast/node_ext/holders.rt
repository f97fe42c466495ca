//! Nodes that can have attributes, made of other views.
ghost use Rattle.std.specs.Prelude.{◌≡◌};
ghost use Rattle.ra_ap_syntax.specs.ItemCases.{item_node};
ghost use Rattle.ra_ap_syntax.specs.AssocItemCases.{assoc_item_node};

use crate::ast::support::share;
use crate::ast::{self, AnyHasAttrs, AstNode};

impl From<ast::Item> for AnyHasAttrs {
    ghost from_gives = { λ it made. made.syntax ≡ item_node it };

    #[tactic(auto, using(crate::specs::AnyHasAttrsCases::item_has_attrs))]
    fn from(it: ast::Item) -> AnyHasAttrs {
        AnyHasAttrs {
            syntax: share(it.syntax()),
        }
    }
}

impl From<ast::AssocItem> for AnyHasAttrs {
    ghost from_gives = { λ it made. made.syntax ≡ assoc_item_node it };

    fn from(it: ast::AssocItem) -> AnyHasAttrs {
        AnyHasAttrs::from(ast::Item::from(it))
    }
}
