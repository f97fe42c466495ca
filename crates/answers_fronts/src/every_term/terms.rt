//! All terms with a given number of forms.

use std::alloc::{AllocError, Global};

// The name `a`, as words. Words are parted by a space: `KIND(` enters a node, `)` leaves it,
// `KIND:text` is a token; `1` and `2` stand for the parts.
const NAME: &str = "PATH_EXPR( PATH( PATH_SEGMENT( NAME_REF( IDENT:a ) ) ) )";

const FULL_RANGE: &str = "RANGE_EXPR( DOT2:.. )";

// The forms with one part.
const ONE_PART: [&str; 13] = [
    "PAREN_EXPR( L_PAREN:( 1 R_PAREN:) )",
    "FIELD_EXPR( 1 DOT:. NAME_REF( IDENT:f ) )",
    "AWAIT_EXPR( 1 DOT:. AWAIT_KW:await )",
    "TRY_EXPR( 1 QUESTION:? )",
    "CAST_EXPR( 1 AS_KW:as PATH_TYPE( PATH( PATH_SEGMENT( NAME_REF( IDENT:T ) ) ) ) )",
    "METHOD_CALL_EXPR( 1 DOT:. NAME_REF( IDENT:m ) ARG_LIST( L_PAREN:( R_PAREN:) ) )",
    "CALL_EXPR( 1 ARG_LIST( L_PAREN:( R_PAREN:) ) )",
    "PREFIX_EXPR( MINUS:- 1 )",
    "REF_EXPR( AMP:& 1 )",
    "REF_EXPR( AMP:& MUT_KW:mut 1 )",
    "RANGE_EXPR( 1 DOT2:.. )",
    "RANGE_EXPR( DOT2:.. 1 )",
    "RANGE_EXPR( DOT2EQ:..= 1 )",
];

// The forms with two parts; of the binary operators one of each level.
const TWO_PARTS: [&str; 15] = [
    "METHOD_CALL_EXPR( 1 DOT:. NAME_REF( IDENT:m ) ARG_LIST( L_PAREN:( 2 R_PAREN:) ) )",
    "CALL_EXPR( 1 ARG_LIST( L_PAREN:( 2 R_PAREN:) ) )",
    "INDEX_EXPR( 1 L_BRACK:[ 2 R_BRACK:] )",
    "RANGE_EXPR( 1 DOT2:.. 2 )",
    "RANGE_EXPR( 1 DOT2EQ:..= 2 )",
    "BIN_EXPR( 1 EQ:= 2 )",
    "BIN_EXPR( 1 PIPE2:|| 2 )",
    "BIN_EXPR( 1 AMP2:&& 2 )",
    "BIN_EXPR( 1 L_ANGLE:< 2 )",
    "BIN_EXPR( 1 PIPE:| 2 )",
    "BIN_EXPR( 1 CARET:^ 2 )",
    "BIN_EXPR( 1 AMP:& 2 )",
    "BIN_EXPR( 1 SHL:<< 2 )",
    "BIN_EXPR( 1 PLUS:+ 2 )",
    "BIN_EXPR( 1 STAR:* 2 )",
];

/// A term: the words of its form, and the numbers of the terms that are its parts.
#[derive(Clone, Copy)]
pub struct Term {
    pub form: &'static str,
    pub first: usize,
    pub second: usize,
}

/// Terms, those of fewer forms first.
#[derive(Drop)]
pub struct Terms {
    all: Vec<Term>,
    // Where the terms of each number of forms begin, and last where all end.
    starts: Vec<usize>,
}

impl Terms {
    /// All terms of at most this many forms.
    pub fn up_to(alloc: Global, forms: usize) -> Result<Terms, AllocError> {
        let mut terms = Terms {
            all: Vec::new(alloc),
            starts: Vec::new(alloc),
        };
        terms.starts.push(0)?;
        terms.add(NAME, 0, 0)?;
        terms.starts.push(1)?;
        for inside in 0..forms {
            if inside == 0 {
                terms.add(FULL_RANGE, 0, 0)?;
            }
            terms.add_with_one_part(inside)?;
            terms.add_with_two_parts(inside)?;
            let end = terms.all.len();
            terms.starts.push(end)?;
        }
        Ok(terms)
    }

    /// The terms of this many forms.
    pub fn of(&self, forms: usize) -> &[Term] {
        let (start, end) = self.range(forms);
        self.all.as_slice().get(start..end).unwrap_or(&[])
    }

    /// The term with a number.
    pub fn get(&self, number: usize) -> Option<Term> {
        self.all.as_slice().get(number).copied()
    }

    // The first number of a term of this many forms, and the one after the last.
    fn range(&self, forms: usize) -> (usize, usize) {
        let starts = self.starts.as_slice();
        let start = starts.get(forms).copied().unwrap_or(0);
        let end = starts.get(forms.saturating_add(1)).copied().unwrap_or(0);
        (start, end)
    }

    fn add(&mut self, form: &'static str, first: usize, second: usize) -> Result<(), AllocError> {
        self.all.push(Term {
            form,
            first,
            second,
        })?;
        Ok(())
    }

    fn add_with_one_part(&mut self, inside: usize) -> Result<(), AllocError> {
        let (start, end) = self.range(inside);
        for form in ONE_PART {
            for part in start..end {
                self.add(form, part, 0)?;
            }
        }
        Ok(())
    }

    // The parts have this many forms in all.
    fn add_with_two_parts(&mut self, inside: usize) -> Result<(), AllocError> {
        for form in TWO_PARTS {
            for left in 0..=inside {
                let (start, end) = self.range(left);
                let (second_start, second_end) = self.range(inside.saturating_sub(left));
                for first in start..end {
                    for second in second_start..second_end {
                        self.add(form, first, second)?;
                    }
                }
            }
        }
        Ok(())
    }
}
