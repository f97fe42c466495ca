//! How operators bind. Written by tools/grammar from tiny.grammar.

use grammar_machine::Power;

/// The powers of operators, by the numbers of kinds.
#[rattlefmt::skip]
pub(crate) static POWERS: [Option<Power>; 69] = [
    None, None, None, None, None, None, None, None, None, None, None, Some(Power { level: 12, right: 13 }), None, None,
    None, None, None, None, None, None, None, None, None, None, None, None, None, None,
    Some(Power { level: 2, right: 3 }), Some(Power { level: 2, right: 3 }), Some(Power { level: 1, right: 1 }),
    Some(Power { level: 1, right: 1 }), Some(Power { level: 1, right: 1 }), Some(Power { level: 1, right: 1 }),
    Some(Power { level: 1, right: 1 }), Some(Power { level: 1, right: 1 }), Some(Power { level: 1, right: 1 }),
    Some(Power { level: 1, right: 1 }), Some(Power { level: 1, right: 1 }), Some(Power { level: 1, right: 1 }),
    Some(Power { level: 1, right: 1 }), Some(Power { level: 3, right: 4 }), Some(Power { level: 4, right: 5 }),
    Some(Power { level: 5, right: 6 }), Some(Power { level: 5, right: 6 }), Some(Power { level: 5, right: 6 }),
    Some(Power { level: 5, right: 6 }), Some(Power { level: 5, right: 6 }), Some(Power { level: 5, right: 6 }),
    Some(Power { level: 6, right: 7 }), Some(Power { level: 7, right: 8 }), Some(Power { level: 8, right: 9 }),
    Some(Power { level: 9, right: 10 }), Some(Power { level: 9, right: 10 }), Some(Power { level: 10, right: 11 }),
    Some(Power { level: 10, right: 11 }), Some(Power { level: 11, right: 12 }), Some(Power { level: 11, right: 12 }),
    Some(Power { level: 11, right: 12 }), None, None, None, None, None, None, None, None, None, None,
];
