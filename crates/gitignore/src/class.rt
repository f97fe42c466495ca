//! Sets of bytes between brackets: `[a-z]`, `[!x]`.
ghost use Rattle.std.specs.Prelude.{◌≡◌, ◌<◌, ◌≤◌, ◌+◌, length, IfOk, IfSome, option_map};
ghost use Rattle.std.specs.List.{list_any};
ghost use Rattle.gitignore.specs.Classes.{item_has, class_has, byte_at, single, item_at, last_of, is_end, is_dash, is_negation, ItemsUpTo, ClassAt};

use std::alloc::{AllocError, Global};

/// What stands in a pair of brackets: bytes and ranges of bytes.
#[derive(Clone, Copy, Debug, PartialEq, Eq)]
pub enum Item {
    /// This byte.
    Byte(u8),
    /// The bytes from the first to the second, both included.
    Range(u8, u8),
}

/// A pair of brackets, such as `[a-z]`, or `[!a-z]` for the other bytes.
#[derive(Debug, Drop)]
pub struct Class {
    /// Whether it takes the bytes that its items have not.
    pub is_negated: bool,
    /// Its items.
    pub items: Vec<Item>,
}

/// Whether an item has a byte.
pub(crate) fn item_has(item: &Item, byte: u8) -> bool
    ensures { result ≡ item_has item.now byte }
{
    match *item {
        Item::Byte(own) => own == byte,
        Item::Range(from, to) => from <= byte && byte <= to,
    }
}

// Whether one of some items has a byte.
fn is_listed(items: &[Item], byte: u8) -> bool
    ensures { result ≡ list_any (λ i. item_has i byte) items.now }
{
    items.iter().any(|item| item_has(item, byte))
}

/// Whether a class takes a byte; it never takes a slash.
pub(crate) fn class_has(class: &Class, byte: u8) -> bool
    ensures { result ≡ class_has class.now byte }
{
    if byte == b'/' {
        return false;
    }
    if class.is_negated {
        !is_listed(class.items.as_slice(), byte)
    } else {
        is_listed(class.items.as_slice(), byte)
    }
}

// The byte that a `-` behind an item begins a range from; none behind a range.
fn last_of(item: Item) -> Option<u8>
    ensures { result ≡ last_of item }
{
    match item {
        Item::Byte(byte) => Some(byte),
        Item::Range(..) => None,
    }
}

// Whether a text begins with the bracket that ends a class.
fn is_end(text: &[u8]) -> bool
    ensures { result ≡ is_end text.now }
{
    match text.split_first() {
        Some((first, _)) => *first == b']',
        None => false,
    }
}

// The byte at the front of a text, perhaps behind a backslash, and how many bytes that is.
fn byte_at(text: &[u8]) -> Option<(u8, usize)>
    ensures value { result ≡ byte_at text.now }
    ensures room { IfSome result (λ r. r.1 ≤ length text.now) }
{
    let (first, behind) = text.split_first()?;
    if *first == b'\\' {
        let (second, _) = behind.split_first()?;
        Some((*second, 2))
    } else {
        Some((*first, 1))
    }
}

// Whether a text begins with a `-` that may end a range: something is behind it, and not the end of
// the class.
fn is_dash(text: &[u8]) -> bool
    ensures { result ≡ is_dash text.now }
{
    match text.split_first() {
        Some((first, behind)) => match behind.split_first() {
            Some((second, _)) => *first == b'-' && *second != b']',
            None => false,
        },
        None => false,
    }
}

// The item of one byte at the front of a text.
fn single_at(text: &[u8]) -> Option<(Item, usize)>
    ensures value { result ≡ single (byte_at text.now) }
    ensures room { IfSome result (λ r. (0 < r.1) × (r.1 ≤ length text.now)) }
{
    match byte_at(text) {
        Some((byte, used)) => Some((Item::Byte(byte), used)),
        None => None,
    }
}

// The item at the front of a text, and how many bytes it has. `last`: the byte that a `-` begins a
// range from.
fn item_at(last: Option<u8>, text: &[u8]) -> Option<(Item, usize)>
    ensures value { result ≡ item_at last text.now }
    ensures room { IfSome result (λ r. (0 < r.1) × (r.1 ≤ length text.now)) }
{
    let Some(from) = last else {
        return single_at(text);
    };
    if !is_dash(text) {
        return single_at(text);
    }
    match byte_at(&text[1..]) {
        Some((to, used)) => Some((Item::Range(from, to), used + 1)),
        None => None,
    }
}

// The items up to the end of a class, and the number of bytes with the end; none if there is no
// end.
fn items_up_to(alloc: Global, text: &[u8]) -> Result<Option<(Vec<Item>, usize)>, AllocError>
    ensures value { IfOk result
        (λ r. ItemsUpTo text.now (option_map (λ it. (it.0.items, it.1)) r)) }
    ensures room { IfOk result (λ r. IfSome r (λ it. it.1 ≤ length text.now)) }
{
    let mut items = Vec::new(alloc);
    let mut rest = text;
    let mut last = None;
    while items.is_empty() || !is_end(rest) {
        let Some((item, used)) = item_at(last, rest) else {
            return Ok(None);
        };
        items.push(item)?;
        last = last_of(item);
        rest = rest.split_at(used).1;
    }
    Ok(Some((items, text.len() - rest.len() + 1)))
}

// Whether a text begins with a sign that negates a class.
fn is_negation(text: &[u8]) -> bool
    ensures { result ≡ is_negation text.now }
{
    match text.split_first() {
        Some((first, _)) => *first == b'!' || *first == b'^',
        None => false,
    }
}

/// The class behind a `[`, and how many bytes it has with that; none if it has no end.
pub(crate) fn class_at(alloc: Global, text: &[u8]) -> Result<Option<(Class, usize)>, AllocError>
    ensures value { IfOk result (ClassAt text.now) }
    ensures room { IfOk result (λ r. IfSome r (λ it. (0 < it.1) × (it.1 ≤ length text.now + 1))) }
{
    let is_negated = is_negation(text);
    let width = if is_negated { 1 } else { 0 };
    match items_up_to(alloc, &text[width..])? {
        Some((items, used)) => Ok(Some((Class { is_negated, items }, used + width + 1))),
        None => Ok(None),
    }
}
