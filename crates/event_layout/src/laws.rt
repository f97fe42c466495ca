//! Laws of layouts, for all events. The functions do nothing: the contract is the law.
ghost use Rattle.event_layout.specs.Orders.{LayoutsObeyOrders};
ghost use Rattle.event_layout.specs.Amid.{PartsAreLaidAlike};
ghost use Rattle.event_layout.specs.Filled.{PiecesAreLaidInPlace, FilledEventsAreSetIn};
ghost use Rattle.event_layout.specs.Taking.{EventsLeaveWhatIsSeen};
ghost use Rattle.event_layout.specs.Ending.{EndsAreFound};
ghost use Rattle.event_layout.specs.Placed.{RunsTakeTheirTokens, PiecesTakeTheirTokens};
ghost use Rattle.event_layout.specs.Replaced.{ReplacedPiecesAreLaid};
ghost use Rattle.event_layout.specs.Exchanged.{ExchangedEventsAreSetIn};
ghost use Rattle.event_layout.specs.Finding.{EventsFindWhatIsSeen};
ghost use Rattle.event_layout.specs.Retold.{RetoldTokensAreLaid, LeavesBeginInTokens};

/// What is laid of events is what they order, one order after the other: which nodes begin before
/// an event, which tokens it takes, which node it ends.
pub fn layouts_obey_orders()
    ensures { LayoutsObeyOrders }
{}

/// Orders that look only at the tokens of their own part of a text, and end only nodes that they
/// began, lay that part as if nothing were around it. What is before it is not changed, positions
/// of errors are shifted, and what is behind it is left as it is.
pub fn parts_are_laid_alike()
    ensures { PartsAreLaidAlike }
{}

/// A piece whose node ends in the midst of a text is laid there as it is laid by itself, but that
/// its errors are shifted. What is laid before and behind it does not depend on the piece: two
/// texts that differ in one piece have the same steps around it, and the same errors there, those
/// behind it shifted by as much as the piece grew.
pub fn pieces_are_laid_in_place()
    ensures { PiecesAreLaidInPlace }
{}

/// The events of a run with a sealed call, as
/// [`sealed_pieces_are_replaced`](grammar_machine::laws::sealed_pieces_are_replaced) describes
/// them, are those of a text with a piece in it.
pub fn filled_events_are_set_in()
    ensures { FilledEventsAreSetIn }
{}

/// Events that find their tokens, and join none that white space or comments part, leave those that
/// a parser sees but for as many as they take.
pub fn events_leave_what_is_seen()
    ensures { EventsLeaveWhatIsSeen }
{}

/// Events of which each is seen at its place, as those of a run are, find their tokens, and join
/// none that white space or comments part, if the sights are those of the tokens.
pub fn events_find_what_is_seen()
    ensures { EventsFindWhatIsSeen }
{}

/// If two runs are the same but for one sealed call each, as
/// [`sealed_pieces_are_replaced`](grammar_machine::laws::sealed_pieces_are_replaced) says, their
/// events are those of one setting, with the events of their own calls as its piece.
pub fn exchanged_events_are_set_in()
    ensures { ExchangedEventsAreSetIn }
{}

/// Where [`ends_in_token`](crate::ends_in_token) holds, the events are a token, errors after it,
/// and the node that ends last.
pub fn ends_are_found()
    ensures { EndsAreFound }
{}

/// Where a run has taken the sights of a part of a text, its events take that part's tokens, but
/// for white space and comments at its end.
pub fn runs_take_their_tokens()
    ensures { RunsTakeTheirTokens }
{}

/// The events of a piece that a sealed rule reads alone take all tokens of the piece.
pub fn pieces_take_their_tokens()
    ensures { PiecesTakeTheirTokens }
{}

/// If one piece of a text is replaced by another, and a sealed rule reads each of the two alone,
/// what is laid of the new text is what is laid of the old one, with the new piece, laid as it is
/// by itself, in the place of the old one.
pub fn replaced_pieces_are_laid()
    ensures { ReplacedPiecesAreLaid }
{}

/// Of two texts that differ in the text of one token the same events lay the same, but for the
/// length of the leaf that has the token in it. Errors behind the token are shifted by as much as
/// it grew; those before it come first, and none is inside of it. White space has to keep whether
/// it has a blank line, and a number has no dot, before and after.
pub fn retold_tokens_are_laid()
    ensures { RetoldTokensAreLaid }
{}

/// A leaf begins where one of the lexer's tokens begins, or beside a dot, where numbers are cut.
pub fn leaves_begin_in_tokens()
    ensures { LeavesBeginInTokens }
{}
