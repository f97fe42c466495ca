//! Laws of the definitions that contracts on trees cite. The functions do nothing: the contract is
//! the law.
ghost use Rattle.tree_model.specs.CursorLaws.{ChildrenFillNodes, EqualityIsSameness, EqualCursorsHashAlike};
ghost use Rattle.tree_model.specs.Edit.{PlacesAreReached, PlacesEndWithin, RootIsPlace, TextAround, ReplacedText, EditedInside};
ghost use Rattle.tree_model.specs.Every.{EveryIsDescendants};
ghost use Rattle.tree_model.specs.Events.{RefusalsHold, TextsAreBuilt, NodesAreAccepted};

/// The error that a scan of the events from left to right finds is the first that applies: the text
/// is too long, then some prefix of the events has more exits than enters, then there are more
/// enters than exits in all, then the errors of the trees that balanced events build. If it finds
/// none, the events build one node whose text is not too long.
pub fn refusals_hold()
    ensures { RefusalsHold }
{}

/// The text of the trees that events build is the texts of the tokens, joined.
pub fn texts_are_built()
    ensures { TextsAreBuilt }
{}

/// Events that build one node whose text has fewer than 2^32 bytes have no error.
pub fn nodes_are_accepted()
    ensures { NodesAreAccepted }
{}

/// A place of a tree's list of places is one that can be reached from the root, one child after
/// another.
pub fn places_are_reached()
    ensures { PlacesAreReached }
{}

/// A place of a tree ends within the tree's text.
pub fn places_end_within()
    ensures { PlacesEndWithin }
{}

/// The root's place is one of the tree's places.
pub fn root_is_place()
    ensures { RootIsPlace }
{}

/// A tree's text is the text before a place, that of the place, and the text after it.
pub fn text_around_a_place()
    ensures { TextAround }
{}

/// The text of a tree with a piece replaced is the spliced text, and the new piece is where the old
/// one was.
pub fn replaced_text()
    ensures { ReplacedText }
{}

/// Where the new piece's text is the old one's with some bytes replaced, the new tree's text is the
/// old one's with the same bytes replaced.
pub fn edited_inside_a_piece()
    ensures { EditedInside }
{}

/// The ranges of a node's children follow each other without a gap and fill the node's range.
pub fn children_fill_nodes()
    ensures { ChildrenFillNodes }
{}

/// Two cursors are equal exactly where both are at the same place in equal trees; so equality is an
/// equivalence.
pub fn equality_is_sameness()
    ensures { EqualityIsSameness }
{}

/// Equal cursors hash alike.
pub fn equal_cursors_hash_alike()
    ensures { EqualCursorsHashAlike }
{}

/// A test of every node and token of a subtree is a test of each item of its
/// `descendants_with_tokens`.
pub fn every_is_descendants()
    ensures { EveryIsDescendants }
{}
