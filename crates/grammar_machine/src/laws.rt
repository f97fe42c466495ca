//! Laws of runs, for every grammar's tables. The functions do nothing: the contract is the law.
ghost use Rattle.grammar_machine.specs.Counting.{RunsCountTokens};
ghost use Rattle.grammar_machine.specs.Ended.{RunsEnd};
ghost use Rattle.grammar_machine.specs.Seen.{RunsTakeWhatIsSeen};
ghost use Rattle.grammar_machine.specs.Lasting.{SealedNodesStay};
ghost use Rattle.grammar_machine.specs.Locality.{RunsAreLocal};
ghost use Rattle.grammar_machine.specs.Framing.{RunsAreFramed};
ghost use Rattle.grammar_machine.specs.Filling.{RunsGoOn};
ghost use Rattle.grammar_machine.specs.Sealing.{SealedCallsLeaveNothing};
ghost use Rattle.grammar_machine.specs.Standing.{SealedCallsAreMoved};
ghost use Rattle.grammar_machine.specs.Reading.{PiecesAreSealedCalls};
ghost use Rattle.grammar_machine.specs.Exchanging.{PiecesAreExchanged, CallsMakeTheirOwn};
ghost use Rattle.grammar_machine.specs.Replacing.{SealedPiecesAreReplaced};

/// A run of more operations than its fuel is the run: it has ended by then.
pub fn runs_end()
    ensures { RunsEnd }
{}

/// A run's events take as many tokens as the run has taken.
pub fn runs_count_tokens()
    ensures { RunsCountTokens }
{}

/// Each token that a run's event takes was there, behind those that the events before it take, and
/// was seen together with those that it is joined with. A token of which a part is taken has a
/// finer kind.
pub fn runs_take_what_is_seen()
    ensures { RunsTakeWhatIsSeen }
{}

/// A run up to a brace does not depend on what is behind the brace.
pub fn runs_are_local()
    ensures { RunsAreLocal }
{}

/// A run that meets nothing of what lies around makes the same there: where the tokens begin, the
/// calls that are open, and the events and marks before it do not matter.
pub fn runs_are_framed()
    ensures { RunsAreFramed }
{}

/// What a run makes behind a piece does not depend on what the piece is made of: two runs behind
/// pieces that end in the same way differ only in the pieces' own events, in the numbers of later
/// events, and in how many tokens were taken.
pub fn runs_go_on()
    ensures { RunsGoOn }
{}

/// What a sealed call leaves behind is where it returned, and the events that it made: everything
/// else is as before the call, or as if there had been none.
pub fn sealed_calls_leave_nothing()
    ensures { SealedCallsLeaveNothing }
{}

/// The node of a sealed call stays as it is, and so does all that was made before it: no later
/// operation extends it.
pub fn sealed_nodes_stay()
    ensures { SealedNodesStay }
{}

/// A sealed call over the tokens of a piece alone, which looks at no others, is one wherever the
/// piece is in a text: it makes the same events there, and returns behind the same token.
pub fn sealed_calls_are_moved()
    ensures { SealedCallsAreMoved }
{}

/// If [`run_alone`](crate::run_alone) reads a piece by a rule that is one sealed call, that call
/// looks at the piece alone, and returns at its end.
pub fn pieces_are_sealed_calls()
    ensures { PiecesAreSealedCalls }
{}

/// The run over tokens of which the piece of one sealed call was replaced is the old run, with the
/// events of the new piece in the place of the old ones.
pub fn sealed_pieces_are_replaced()
    ensures { SealedPiecesAreReplaced }
{}

/// Two pieces that [`run_alone`](crate::run_alone) reads by a sealed rule, and which begin with the
/// same brace and end with the same token, are exchanged wherever a run comes to that rule's sealed
/// call over the first: the run over the other text makes a sealed call there too, and each call
/// makes what its piece makes alone.
pub fn pieces_are_exchanged()
    ensures { PiecesAreExchanged }
{}

/// A sealed call makes, numbered from its own first event on, the events that it would make if the
/// text began with its first token.
pub fn calls_make_their_own()
    ensures { CallsMakeTheirOwn }
{}
