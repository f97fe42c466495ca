//! Tests of names.
ghost use Rattle.std.specs.Prelude.{◌≡◌, IsTrue, Bool};
ghost use Rattle.std.specs.Str.{chars};
ghost use Rattle.std.specs.List.{list_all};
ghost use Rattle.unicode_ident.specs.Ident.{is_xid_continue};
ghost use Rattle.ras_parsing.specs.Names.{starts_name, begins_name, is_word, is_path_word, is_identifier_of, is_raw_identifier_of, is_strict_word};

use ras_front_end::{Edition, FrontEnd};
use unicode_ident::{is_xid_continue, is_xid_start};

fn starts_name(c: char) -> bool
    ensures { result ≡ starts_name c }
{
    c == '_' || is_xid_start(c)
}

fn begins_name(text: &str) -> bool
    ensures { result ≡ begins_name (chars text.now) }
{
    match text.chars().next() {
        None => false,
        Some(first) => starts_name(first),
    }
}

// Whether every character can continue a name. A character that can begin a name can continue one
// too.
fn goes_on(text: &str) -> bool
    ensures { result ≡ list_all is_xid_continue (chars text.now) }
{
    text.chars().all(|c| is_xid_continue(c))
}

// Whether the text has the form of an identifier.
fn is_word(text: &str) -> bool
    ensures { result ≡ is_word text.now }
{
    begins_name(text) && goes_on(text)
}

fn is_strict_word<F: FrontEnd>(text: &str, front: &F, edition: Edition) -> bool
    ensures { result ≡ is_strict_word (F.answers front.now) edition text.now }
{
    match front.keyword(text, edition) {
        None => false,
        Some(kind) => front.is_strict_keyword(kind, edition),
    }
}

/// Whether a name is an identifier: its first character is XID_Start or `_`, the others are
/// XID_Continue, and it is not a strict keyword. The empty name is not an identifier; `_` is.
pub fn is_identifier<F: FrontEnd>(name: &str, front: &F, edition: Edition) -> bool
    ensures { result ≡ is_identifier_of (F.answers front.now) edition name.now }
{
    is_word(name) && !is_strict_word(name, front, edition)
}

fn is_path_word(text: &str) -> bool
    ensures { result ≡ is_path_word text.now }
{
    text == "self" || text == "crate" || text == "super" || text == "Self"
}

/// Whether a name can be an identifier only after `r#`: it is a keyword other than `self`, `crate`,
/// `super` and `Self`.
pub fn is_raw_identifier<F: FrontEnd>(name: &str, front: &F, edition: Edition) -> bool
    ensures { result ≡ is_raw_identifier_of (F.answers front.now) edition name.now }
{
    front.keyword(name, edition).is_some() && !is_path_word(name)
}
