//! The expressions that are measured.

use std::alloc::{AllocError, Global};

#[derive(Clone, Copy)]
pub enum Shape {
    Flat,
    Pairs,
    Prefixes,
    Postfixes,
    Arguments,
    Mixed,
}

impl Shape {
    /// Its name in the table.
    pub fn name(self) -> &'static str {
        match self {
            Shape::Flat => "flat (`a + a + ..`)",
            Shape::Pairs => "nested pairs (`((..(a)..))`)",
            Shape::Prefixes => "prefixes (`--..a`)",
            Shape::Postfixes => "postfixes (`a.b.b..`)",
            Shape::Arguments => "arguments in arguments (`f(f(..a..))`)",
            Shape::Mixed => "mixed (`a + (a * -b.c) + ..`)",
        }
    }

    // The text that is repeated before the name `a`, that after it, and the number of operators in
    // each repetition.
    fn around(self) -> (&'static str, &'static str, u32) {
        match self {
            Shape::Flat => ("", " + a", 1),
            Shape::Pairs => ("(", ")", 1),
            Shape::Prefixes => ("-", "", 1),
            Shape::Postfixes => ("", ".b", 1),
            Shape::Arguments => ("f(", ")", 1),
            Shape::Mixed => ("", " + (a * -b.c)", 5),
        }
    }

    /// The text of an expression with this many operators.
    pub fn text(self, alloc: Global, operators: u32) -> Result<String, AllocError> {
        let (before, behind, each) = self.around();
        let times = operators.checked_div(each).unwrap_or(0);
        let mut text = String::new(alloc);
        for _time in 0..times {
            text.push_str(before)?;
        }
        text.push('a')?;
        for _time in 0..times {
            text.push_str(behind)?;
        }
        Ok(text)
    }
}
