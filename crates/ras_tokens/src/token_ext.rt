//! Views of tokens of several kinds.
ghost use Rattle.std.specs.Prelude.{◌≡◌, Some, true, ⊤};
ghost use Rattle.std.specs.Cmp.{partial_equiv_from_equiv, on_equiv};
ghost use Rattle.tree_model.specs.Tree.{text};
ghost use Rattle.tree_model.specs.Cursor.{focus};
ghost use Rattle.lossless_tree.specs.Dump.{token_line};
ghost use Rattle.tree_model.specs.Equality.{is_same_cursor, cursor_hash};
ghost use Rattle.tree_model.specs.EqualityLaws.{cursor_equivalence, cursors_alike};
ghost use Rattle.ras_node.specs.Nodes.{kind_at};
ghost use Rattle.ras_node.specs.Sets.{is_any_comment, is_any_string};
ghost use Rattle.ras_tokens.specs.AnyStringCases.{any_string_token, any_string_castable};

mod comments;
mod is_string;
mod numbers;
mod strings;

use crate::tokens;
use crate::typed::TypedToken;
pub use is_string::IsString;
use lossless_tree::{SyntaxKind, SyntaxToken};
use ras_node::AstToken;
use ras_node::sets::{AnyComments, AnyStrings, KindSet};
use std::alloc::AllocError;
use std::fmt;
use std::hash::{Hash, Hasher};

/// A comment, which may be a documentation comment.
#[derive(Drop)]
pub struct AnyComment {
    pub(crate) syntax: SyntaxToken,
    ghost is: { is_any_comment (kind_at syntax) ≡ true },
}

impl AstToken for AnyComment {
    ghost casts = { is_any_comment };

    ghost token = { λ it. it.syntax };

    ghost castable = { λ it. it.is };

    fn can_cast(kind: SyntaxKind) -> bool {
        AnyComments::has(kind)
    }

    fn cast(syntax: SyntaxToken) -> Option<AnyComment> {
        if Self::can_cast(syntax.kind()) {
            Some(AnyComment { syntax })
        } else {
            None
        }
    }

    fn syntax(&self) -> &SyntaxToken {
        &self.syntax
    }
}

impl Clone for AnyComment {
    ghost is_clone = { λ s copy. copy ≡ s };

    ghost is_infallible = { λ _. ⊤ };

    fn clone(&self) -> Result<AnyComment, AllocError> {
        let syntax = self.syntax.clone()?;
        Ok(AnyComment { syntax })
    }
}

impl PartialEq for AnyComment {
    ghost eq = { λ a b. is_same_cursor a.syntax b.syntax };

    ghost laws = { partial_equiv_from_equiv (on_equiv (λ it. it.syntax) cursor_equivalence) };

    fn eq(&self, other: &AnyComment) -> bool {
        self.syntax == other.syntax
    }
}

impl Eq for AnyComment {
    ghost laws = { on_equiv (λ it. it.syntax) cursor_equivalence };
}

impl Hash for AnyComment {
    ghost hash_input = { λ it. cursor_hash it.syntax };

    ghost respects_eq = { λ a b same. cursors_alike a.syntax b.syntax same };

    fn hash<H: Hasher>(&self, state: &mut H) {
        self.syntax.hash(state);
    }
}

impl fmt::Display for AnyComment {
    ghost output = { λ it. Some (text (focus it.syntax)) };

    fn fmt<W: fmt::Write>(&self, f: &mut fmt::Formatter<W>) -> fmt::Result {
        let text = self.syntax.text();
        write!(f, "{text}")
    }
}

/// The kind, the range and the text, as the token prints.
impl fmt::Debug for AnyComment {
    ghost debug_output = { λ it. Some (token_line it.syntax) };

    fn fmt<W: fmt::Write>(&self, f: &mut fmt::Formatter<W>) -> fmt::Result {
        fmt::Debug::fmt(&self.syntax, f)
    }
}

/// A string literal, a byte string literal or a C string literal.
#[derive(Clone, PartialEq, Eq, Hash, Drop)]
pub enum AnyString {
    ByteString(tokens::ByteString),
    CString(tokens::CString),
    String(tokens::String),
}

impl AstToken for AnyString {
    ghost casts = { is_any_string };

    ghost token = { any_string_token };

    ghost castable = { any_string_castable };

    fn can_cast(kind: SyntaxKind) -> bool {
        AnyStrings::has(kind)
    }

    fn cast(syntax: SyntaxToken) -> Option<AnyString> {
        match syntax.kind() {
            SyntaxKind::BYTE_STRING => Some(AnyString::ByteString(TypedToken { syntax })),
            SyntaxKind::C_STRING => Some(AnyString::CString(TypedToken { syntax })),
            SyntaxKind::STRING => Some(AnyString::String(TypedToken { syntax })),
            _ => None,
        }
    }

    fn syntax(&self) -> &SyntaxToken {
        match self {
            AnyString::ByteString(it) => it.syntax(),
            AnyString::CString(it) => it.syntax(),
            AnyString::String(it) => it.syntax(),
        }
    }
}

impl fmt::Display for AnyString {
    ghost output = { λ it. Some (text (focus (any_string_token it))) };

    fn fmt<W: fmt::Write>(&self, f: &mut fmt::Formatter<W>) -> fmt::Result {
        let text = self.text();
        write!(f, "{text}")
    }
}

/// The kind, the range and the text, as the token prints.
impl fmt::Debug for AnyString {
    ghost debug_output = { λ it. Some (token_line (any_string_token it)) };

    fn fmt<W: fmt::Write>(&self, f: &mut fmt::Formatter<W>) -> fmt::Result {
        fmt::Debug::fmt(self.syntax(), f)
    }
}
