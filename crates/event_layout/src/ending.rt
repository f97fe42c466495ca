//! How the events of a piece end.
ghost use Rattle.std.specs.Prelude.{◌≡◌, reverse};
ghost use Rattle.event_layout.specs.Ending.{says_last, closes_last};

use grammar_machine::Event;

// Whether the last event is a token.
fn says_last(events: &[Event]) -> bool
    ensures { result ≡ says_last (reverse events.now) }
{
    matches!(events.split_last(), Some((Event::Token { .. }, _)))
}

/// Whether the last event is a node, and the one before it a token.
///
/// A node of a piece that ends so is laid out in any text as it is by itself: no node begins behind
/// its last token, where white space and comments of the text around it would come in between, and
/// no error is at its end, where errors of the text behind it may be too.
pub fn ends_in_token(events: &[Event]) -> bool
    ensures { result ≡ closes_last (reverse events.now) }
{
    match events.split_last() {
        Some((Event::Node { .. }, made)) => says_last(made),
        _ => false,
    }
}
