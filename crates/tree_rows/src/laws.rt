//! Laws of the definitions that contracts on trees cite, which are proved by rows. The functions do
//! nothing: the contract is the law.
ghost use Rattle.tree_model.specs.Covering.{CoveringHolds};
ghost use Rattle.tree_model.specs.Neighbours.{TokensStandTogether, ParentsStandAround, SiblingsStandBehind};
ghost use Rattle.tree_model.specs.Pointer.{PointersResolve};
ghost use Rattle.tree_model.specs.TokenSearch.{AtMostTwo};
ghost use Rattle.tree_rows.specs.RowSteps.{ParentsAreNearest};

/// At most two non-empty tokens of a node touch the same offset.
pub fn at_most_two_tokens()
    ensures { AtMostTwo }
{}

/// A pointer resolves to the node that it was made from, if that is not empty and no ancestor has
/// its kind and range.
pub fn pointers_resolve()
    ensures { PointersResolve }
{}

/// The element that covers a range is a place of the tree. If the range of the node that the search
/// starts from contains the range, so does the range of that element, and of every node above it.
pub fn covering_holds()
    ensures { CoveringHolds }
{}

/// Each row but the root's has a nearest earlier row whose subtree reaches past it; that is its
/// parent, and no other row is.
pub fn parents_are_nearest()
    ensures { ParentsAreNearest }
{}

/// The tokens of a node are those among its descendants, and they follow one another among all
/// tokens.
pub fn tokens_stand_together()
    ensures { TokensStandTogether }
{}

/// In preorder the parent of a place is the nearest earlier one whose subtree reaches past it, and
/// no other is.
pub fn parents_stand_around()
    ensures { ParentsStandAround }
{}

/// In preorder the next sibling is the first place after the subtree, if that is still below the
/// parent.
pub fn siblings_stand_behind()
    ensures { SiblingsStandBehind }
{}
