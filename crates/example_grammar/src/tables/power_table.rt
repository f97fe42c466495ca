//! How operators bind. Written by tools/grammar from arithmetic.grammar.

use grammar_machine::Power;

/// The powers of operators, by the numbers of kinds.
#[rattlefmt::skip]
pub(crate) static POWERS: [Option<Power>; 15] = [
    None, None, None, None, None, None, None, None, None, None, None, Some(Power { level: 1, right: 2 }),
    Some(Power { level: 1, right: 2 }), Some(Power { level: 2, right: 3 }), Some(Power { level: 2, right: 3 }),
];
