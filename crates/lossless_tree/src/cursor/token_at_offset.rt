//! The tokens at an offset.
ghost use Rattle.std.specs.Prelude.{◌≡◌, Some, None};
ghost use Rattle.std.specs.Iterator.{YieldsFirst, item_count};
ghost use Rattle.lossless_tree.specs.TokenAtOffset.{found_tokens, leftmost, rightmost, Each, EachBecomes};

use std::mem;

/// The tokens at an offset: none outside of the node's text, one where the offset is inside a token
/// or at an end of that text, and two where it is between two tokens.
///
/// It gives them in order as an iterator.
#[derive(Clone, Debug, Drop)]
pub enum TokenAtOffset<T> {
    /// No token: all are empty, or the offset is outside the node's text.
    None,
    /// One token.
    Single(T),
    /// The offset is between two tokens.
    Between(T, T),
}

impl<T> TokenAtOffset<T> {
    /// What `f` gives of each token, in their order.
    pub fn map<U, F: Fn(T) -> U + Drop>(self, f: F) -> TokenAtOffset<U>
        requires { Each (F.pre f) self }
        ensures { EachBecomes (F.post f) self result }
    {
        match self {
            TokenAtOffset::None => TokenAtOffset::None,
            TokenAtOffset::Single(token) => TokenAtOffset::Single(f(token)),
            TokenAtOffset::Between(left, right) => TokenAtOffset::Between(f(left), f(right)),
        }
    }

    /// The token, of two the left one.
    pub fn left_biased(self) -> Option<T>
    where
        T: Drop,
        ensures { result ≡ leftmost self }
    {
        match self {
            TokenAtOffset::None => None,
            TokenAtOffset::Single(token) => Some(token),
            TokenAtOffset::Between(left, _) => Some(left),
        }
    }

    /// The token, of two the right one.
    pub fn right_biased(self) -> Option<T>
    where
        T: Drop,
        ensures { result ≡ rightmost self }
    {
        match self {
            TokenAtOffset::None => None,
            TokenAtOffset::Single(token) => Some(token),
            TokenAtOffset::Between(_, right) => Some(right),
        }
    }
}

impl<T: Drop> Iterator for TokenAtOffset<T> {
    type Item = T;

    ghost next_gives = { YieldsFirst found_tokens };

    ghost remaining = { item_count found_tokens };

    fn next(&mut self) -> Option<T> {
        match mem::replace(self, TokenAtOffset::None) {
            TokenAtOffset::None => None,
            TokenAtOffset::Single(token) => Some(token),
            TokenAtOffset::Between(left, right) => {
                *self = TokenAtOffset::Single(right);
                Some(left)
            }
        }
    }

    fn size_hint(&self) -> (usize, Option<usize>) {
        let len = self.len();
        (len, Some(len))
    }
}

impl<T: Drop> ExactSizeIterator for TokenAtOffset<T> {
    fn len(&self) -> usize {
        match self {
            TokenAtOffset::None => 0,
            TokenAtOffset::Single(_) => 1,
            TokenAtOffset::Between(_, _) => 2,
        }
    }
}
