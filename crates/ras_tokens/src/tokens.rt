//! The kinds of tokens that have a type, by their names.
use crate::typed::TypedToken;
use syntax_kind::raw;

/// White space.
pub type Whitespace = TypedToken<{ raw::WHITESPACE }>;

/// A comment that is not documentation.
pub type Comment = TypedToken<{ raw::COMMENT }>;

/// A string literal.
pub type String = TypedToken<{ raw::STRING }>;

/// A byte string literal.
pub type ByteString = TypedToken<{ raw::BYTE_STRING }>;

/// A C string literal.
pub type CString = TypedToken<{ raw::C_STRING }>;

/// An integer literal.
pub type IntNumber = TypedToken<{ raw::INT_NUMBER }>;

/// A floating point literal.
pub type FloatNumber = TypedToken<{ raw::FLOAT_NUMBER }>;

/// A character literal.
pub type Char = TypedToken<{ raw::CHAR }>;

/// A byte literal.
pub type Byte = TypedToken<{ raw::BYTE }>;
