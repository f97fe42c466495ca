//! Laws of the definitions that contracts cite. The functions do nothing: the contract is the law.
ghost use Rattle.std.specs.Prelude.{List, Option};
ghost use Rattle.std.specs.List.{filter};
ghost use Rattle.std.specs.Iterator.{YieldsFirstBy};
ghost use Rattle.tree_model.specs.Cursor.{Cursor};
ghost use Rattle.ras_node.specs.Nodes.{has_kind_in};
ghost use Rattle.ras_node_ext.specs.declared.attrs.AttrsIter.{AttrsIter};
ghost use Rattle.ras_node_ext.specs.Attrs.{attrs_source, GivesAttr};

use ras_node::AstNode;

/// Where a list says which nodes are left in the source of an [`AttrsIter`](crate::AttrsIter),
/// those that the `AttrsIter` gives are, in order, those of the list that can be viewed.
pub fn attributes_are_those_of_the_source<I, A: AstNode, T: AstNode>()
    ensures { (rest : I → List Cursor) (s t : AttrsIter I T) (r : Option T)
        → GivesAttr A.node T.casts T.node (YieldsFirstBy A.node rest) s r t
        → YieldsFirstBy T.node (λ it. filter (has_kind_in T.casts) (rest (attrs_source it))) s r t }
{}
