//! Laws of trees in which one piece is replaced. The functions do nothing: the contract is the law.
//! Those that call a law of the machine or of the lexer stand on it.
ghost use Rattle.document_laws.specs.Blocks.{BlocksAreAtPlaces, PlacesAreKnown};
ghost use Rattle.document_laws.specs.Steps.{BlocksOfStepsAreAtPlaces};
ghost use Rattle.document_laws.specs.Leaves.{LeavesOfStepsAreAtPlaces, BytesHaveOneToken, PlacesPartSteps};
ghost use Rattle.document_laws.specs.Replacing.{ReplacedPiecesAreTrees};
ghost use Rattle.document_laws.specs.Calls.{SealedNodesAreCalls};
ghost use Rattle.document_laws.specs.Nodes.{NodesAreOfEvents, NodesStartBehindTokens};
ghost use Rattle.document_laws.specs.Pieces.{PiecesOfTreesAreCalls, PiecesStartAtTheirTokens};
ghost use Rattle.document_laws.specs.Plain.{RunsMakePlainTokens, RustHasPlainKinds};
ghost use Rattle.document_laws.specs.Sights.{SightsAreOfTokens, LexersTokensAreKnown};
ghost use Rattle.document_laws.specs.Stored.{StoredErrorsAreReplaced};
ghost use Rattle.document_laws.specs.Own.{NodesHaveTheirOwn, PiecesHaveTheirOwn};
ghost use Rattle.document_laws.specs.Alone.{ExactPiecesAreReadAlone, HeadsAreTested};
ghost use Rattle.document_laws.specs.Leaving.{RunsLeaveTheirTokens};
ghost use Rattle.document_laws.specs.Begun.{CallsBeginWithTheirToken};
ghost use Rattle.document_laws.specs.Opening.{PiecesOpenAtTheirBraces};
ghost use Rattle.document_laws.specs.Around.{TokensAreReplaced};
ghost use Rattle.document_laws.specs.Ending.{RunsTakeNoMore, PiecesEndAtTheirTokens};
ghost use Rattle.document_laws.specs.Edited.{EditedTreesAreParsed};
ghost use Rattle.document_laws.specs.FileKinds.{NodesHaveTheirKinds, FilesHaveTheirKinds, CursorsOfFiles};
ghost use Rattle.document_laws.specs.Paths.{CursorsOfEdits};
ghost use Rattle.document_laws.specs.Inside.{PiecesErrInside};
ghost use Rattle.document_laws.specs.Faults.{ParserErrorsAreReplaced, PiecesShiftTheRest, ErrorsAreReplaced};
ghost use Rattle.document_laws.specs.Windows.{WindowsAreAroundTokens};
ghost use Rattle.document_laws.specs.Retold.{RetoldTokensAreRead};
ghost use Rattle.document_laws.specs.Exactly.{RustReadsExactly, TextsHaveOneParse};
ghost use Rattle.document_laws.specs.Setting.{PiecesAreInParts, PiecesAreLaidAround};
ghost use Rattle.document_laws.specs.Few.{EventsAreFew, RustMakesFewEvents, ShortTextsMakeFewEvents, EventsSoFarAreFew, PiecesComeEarly, PiecesFit};
ghost use Rattle.document_laws.specs.Tables.{RustSealsByCalls, RustLooksAreShort, ExactRulesAreSealed};

use event_layout::laws::{leaves_begin_in_tokens, retold_tokens_are_laid};
use grammar_machine::laws::{calls_make_their_own, sealed_calls_leave_nothing};
use lexer_laws::laws::{plain_texts_have_no_head, windows_are_replaced};
use rust_front::laws::retold_windows_are_alike;

/// Where some of the events that build a tree build one node by themselves, this node is in the
/// tree, and starts where the events before have taken their texts. With the events of any other
/// node in their place, the events build the tree with that node there.
pub fn blocks_are_at_places()
    ensures { BlocksAreAtPlaces }
{}

/// The same of a front end's steps, whose tokens are cut from a text: if the text is in three
/// parts, and the steps before take the first, the others the second, then the node starts where
/// the first part ends. With another text in the second part's place, and its steps, the steps
/// build the tree with the other node in the place of the first.
pub fn blocks_of_steps_are_at_places()
    ensures { BlocksOfStepsAreAtPlaces }
{}

/// Two nodes of a tree that start at the same byte, and each of which begins with a token that
/// has a text, are one node.
pub fn places_are_known()
    ensures { PlacesAreKnown }
{}

/// Where a text with a replaced piece is laid as the law of replaced pieces of `event_layout` says,
/// the old piece's tree is in the old text's tree, behind the text before the piece, and with the
/// new piece's tree there that is the new text's tree.
pub fn replaced_pieces_are_trees()
    ensures { ReplacedPiecesAreTrees }
{}

/// If no other operation of the tables makes nodes of the kinds that they list for sealed calls,
/// then each node of such a kind that a run made is that of a sealed call, to which the run came.
pub fn sealed_nodes_are_calls()
    ensures { SealedNodesAreCalls }
{}

/// In Rust's tables only sealed calls make nodes of the kinds that are listed for them, and no look
/// ahead is over more than 255 tokens. The rule of each reparser for exact pieces is one sealed
/// call, and all sealed calls that make nodes of its kind call the same rule. Comments before such
/// a node do not go into it.
pub fn rust_seals_by_calls()
    ensures seals { RustSealsByCalls }
    ensures looks { RustLooksAreShort }
    ensures rules { ExactRulesAreSealed }
{}

/// Each node of a tree that is laid of events, but for the root, is that of an event, and before it
/// are, white space and comments aside, the tokens of the events before its first one. So the
/// events say where in the text it starts.
pub fn nodes_are_of_events()
    ensures { NodesAreOfEvents }
{}

/// A node of such a tree whose first child is a token that is neither white space nor a comment
/// starts behind the tokens that the events before its first one make, and behind the white space
/// and the comments that follow these, if no event makes a token of the kinds of those.
pub fn nodes_start_behind_tokens()
    ensures { NodesStartBehindTokens }
{}

/// A run makes no token of the kinds of white space and comments if the tables have none of these
/// kinds, as those of Rust.
pub fn runs_make_plain_tokens()
    ensures runs { RunsMakePlainTokens }
    ensures rust { RustHasPlainKinds }
{}

/// Each node of the tree of a file of Rust, but for the root, that is of a kind with a reparser for
/// exact pieces is that of a sealed call of the reparser's rule, to which the run over the whole
/// file came.
pub fn pieces_of_trees_are_calls()
    ensures { PiecesOfTreesAreCalls }
{}

/// Such a node whose first child is a token that is neither white space nor a comment starts where
/// the lexer's tokens begin that the events before its first one leave.
pub fn pieces_start_at_their_tokens()
    ensures { PiecesStartAtTheirTokens }
{}

/// What the machine sees of Rust's tokens is what the laws of `event_layout` ask for: one sight for
/// each token that is neither white space nor a comment, joined only with tokens that follow
/// directly, if the machine knows the kinds of these tokens, as it does for those of the lexer.
pub fn sights_are_of_tokens()
    ensures sights { SightsAreOfTokens }
    ensures known { LexersTokensAreKnown }
{}

/// The lexer's errors that a parse of Rust stores, where a piece from `{` to `}` was replaced: on
/// the conditions that `Document::edit` tests, those that it puts in order are those of the new
/// text, with their messages.
pub fn stored_errors_are_replaced()
    ensures { StoredErrorsAreReplaced }
{}

/// The events up to the node of a sealed call, to which a run came, are those before the call and
/// then those that the call made by itself, numbered from its own first one on. So the events of a
/// file of Rust have those of each of its pieces among them.
pub fn nodes_have_their_own()
    ensures calls { NodesHaveTheirOwn }
    ensures pieces { PiecesHaveTheirOwn }
{
    calls_make_their_own();
}

/// A text that the front end reads as an exact piece of Rust is from `{` to `}`, its rule reads it
/// alone, and makes of it events that end with the piece's node; and the reading is what is laid of
/// these. What the front end finds at the head of a text is what the laws of the lexer ask for.
pub fn exact_pieces_are_read_alone()
    ensures pieces { ExactPiecesAreReadAlone }
    ensures heads { HeadsAreTested }
{
    sealed_calls_leave_nothing();
}

/// Where a run has come to a token that has no parts, the lexer's tokens are cut there: what its
/// events leave of them, white space and comments aside, begins with that token, and is whole.
pub fn runs_leave_their_tokens()
    ensures { RunsLeaveTheirTokens }
{}

/// The first event that a sealed call makes is of the token where it began, and stays so.
pub fn calls_begin_with_their_token()
    ensures { CallsBeginWithTheirToken }
{}

/// A node of a file's tree that is of a kind with a reparser for exact pieces, and whose first
/// child is `{`, starts where the lexer's tokens are cut before a `{`, and the run had taken the
/// tokens before it when it came to the node's call.
pub fn pieces_open_at_their_braces()
    ensures { PiecesOpenAtTheirBraces }
{
    calls_make_their_own();
}

/// Where the lexer's tokens of a text without a head are in three parts, and the second one begins
/// with `{`, any text that is from `{` to `}` by itself may come in the place of that part, as the
/// laws of `lexer_laws` on replaced pieces say.
pub fn tokens_are_replaced()
    ensures { TokensAreReplaced }
{}

/// A run takes no more tokens than there are. So the lexer's tokens of a piece of a file are cut
/// behind those that its call took, the last of which is neither white space nor a comment.
pub fn pieces_end_at_their_tokens()
    ensures runs { RunsTakeNoMore }
    ensures pieces { PiecesEndAtTheirTokens }
{}

/// The node that `Document::edit` finds for an exact piece around an edit is a node of the tree,
/// not its root, that begins with a token `{` and ends with a token `}`, if the root is a source
/// file, and no node is of the kind of a brace. The edit is behind the node's first byte and before
/// its last one, and the new text is the old one with the node's new text in the place of the old.
pub fn cursors_of_edits()
    ensures { CursorsOfEdits }
{}

/// Where a text of Rust with an exact piece is laid as before around another exact piece, the node
/// of the tree that starts where the piece starts, if its first child is a token with a text, is
/// the piece's, and with the tree of the other piece there the tree is that of the new text.
pub fn edited_trees_are_parsed()
    ensures { EditedTreesAreParsed }
{}

/// A run makes no node of a kind of which no operation of the tables makes one. So no node of the
/// tree of a file of Rust is of the kind of a brace; its root is a source file, and it has the
/// text. The law of the cursors of edits holds of each file.
pub fn files_have_their_kinds()
    ensures runs { NodesHaveTheirKinds }
    ensures files { FilesHaveTheirKinds }
    ensures cursors { CursorsOfFiles }
{}

/// A run makes no more than 2,403 events for each of its tokens, and 1,202 more, wherever it is. So
/// those of a text of Rust of up to 1,787,335 bytes, and one more, have numbers of 32 bits. Before
/// those of an exact piece are no more than 2,403 for each byte before it, and 1,200; these and the
/// events of any exact piece in its place have numbers of 32 bits, if that ends within 1,786,000
/// bytes.
pub fn rust_makes_few_events()
    ensures runs { EventsAreFew }
    ensures rust { RustMakesFewEvents }
    ensures short { ShortTextsMakeFewEvents }
    ensures so_far { EventsSoFarAreFew }
    ensures early { PiecesComeEarly }
    ensures fit { PiecesFit }
{}

/// The errors that the parser finds in an exact piece of Rust by itself are behind its first byte
/// and before its last one, and a token of the piece comes behind each.
pub fn pieces_err_inside()
    ensures { PiecesErrInside }
{}

/// The parser's errors of a text of Rust in which an exact piece was replaced, and around which the
/// text is laid as before: those that `Document::edit` puts in order are those of the new text, and
/// have their messages. What is behind the piece moves by as much as the piece grows. With the
/// lexer's errors these are all that a parse stores, if none of the lexer's is behind the piece.
pub fn parser_errors_are_replaced()
    ensures parser { ParserErrorsAreReplaced }
    ensures rest { PiecesShiftTheRest }
    ensures all { ErrorsAreReplaced }
{}

/// Where the front end reads the text of a node of a file's tree, which begins with `{`, as an
/// exact piece, the file's text is in parts around it: the tokens of the file are those before it,
/// those that the piece has by itself, and those behind it.
pub fn pieces_are_in_parts()
    ensures { PiecesAreInParts }
{
    calls_make_their_own();
    sealed_calls_leave_nothing();
    plain_texts_have_no_head();
}

/// A text of Rust in which an exact piece is replaced by another one is laid around it as before,
/// and each of the two pieces as by itself; and the new text's tokens are those of its parts.
pub fn pieces_are_laid_around()
    ensures { PiecesAreLaidAround }
{
    calls_make_their_own();
    plain_texts_have_no_head();
}

/// The window around a token that an edit is inside of is from the nearest brace before the token
/// to the nearest one behind it, or to the text's start or end. With the token's new text in it,
/// the window is that of the new text; what is before and behind it stays.
pub fn windows_are_around_tokens()
    ensures { WindowsAreAroundTokens }
{}

/// Where `Document::edit` gives one token of a text of Rust another text, what it makes is the
/// parse of the new text: the tree with the token's new text, and the errors.
pub fn retold_tokens_are_read()
    ensures { RetoldTokensAreRead }
{
    plain_texts_have_no_head();
    leaves_begin_in_tokens();
    retold_tokens_are_laid();
    windows_are_replaced();
    retold_windows_are_alike();
}

/// The front end for Rust reads the pieces of every text as in the text, and says that one token
/// gets another text only where nothing else changes. So where a `Document` was read anew once, its
/// parse after any number of edits is the parse of its text: the same tree, and the same errors in
/// the same order (`exact` of `Document::edit`).
pub fn rust_reads_exactly()
    ensures { RustReadsExactly }
{
    calls_make_their_own();
    sealed_calls_leave_nothing();
    plain_texts_have_no_head();
    leaves_begin_in_tokens();
    retold_tokens_are_laid();
    windows_are_replaced();
    retold_windows_are_alike();
}

/// A text has one parse by a front end in an edition. So the parse of a `Document` that is the
/// parse of its text is equal to that of a new `Document` of the text.
pub fn texts_have_one_parse()
    ensures { TextsHaveOneParse }
{}

/// A step that takes a token makes a token of the tree, which starts where the steps before it have
/// taken their texts. With another text in its place, the steps with that text's length build the
/// tree with that text in the token. Each byte of the text is in one token; and where a node or
/// token begins, the steps are in two parts.
pub fn leaves_of_steps_are_at_places()
    ensures leaves { LeavesOfStepsAreAtPlaces }
    ensures bytes { BytesHaveOneToken }
    ensures parts { PlacesPartSteps }
{}
