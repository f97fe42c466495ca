//! Laws of the definitions that contracts cite. The function does nothing: the contract is the law.
ghost use Rattle.std.specs.Prelude.{◌≡◌, true};

use crate::tokens;
use lossless_tree::SyntaxKind;
use ras_node::AstToken;

/// The views of tokens are of the kinds that they are named for.
pub fn names_of_tokens()
    ensures whitespace { ⟦<tokens::Whitespace as AstToken>⟧.casts SyntaxKind.WHITESPACE ≡ true }
    ensures comment { ⟦<tokens::Comment as AstToken>⟧.casts SyntaxKind.COMMENT ≡ true }
    ensures string { ⟦<tokens::String as AstToken>⟧.casts SyntaxKind.STRING ≡ true }
    ensures byte_string { ⟦<tokens::ByteString as AstToken>⟧.casts SyntaxKind.BYTE_STRING ≡ true }
    ensures c_string { ⟦<tokens::CString as AstToken>⟧.casts SyntaxKind.C_STRING ≡ true }
    ensures int_number { ⟦<tokens::IntNumber as AstToken>⟧.casts SyntaxKind.INT_NUMBER ≡ true }
    ensures float_number { ⟦<tokens::FloatNumber as AstToken>⟧.casts SyntaxKind.FLOAT_NUMBER
        ≡ true }
    ensures char { ⟦<tokens::Char as AstToken>⟧.casts SyntaxKind.CHAR ≡ true }
    ensures byte { ⟦<tokens::Byte as AstToken>⟧.casts SyntaxKind.BYTE ≡ true }
{}
