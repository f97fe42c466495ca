//! Sets of kinds that no enum has: operators, and kinds that may precede a part that is searched
//! for.
ghost use Rattle.ras_node.specs.PartSets.{is_range_operator, is_binary_operator, is_before_literal, is_before_index, is_path, is_path_segment, is_bang, is_inner_doc, is_comma};

use crate::sets::KindSet;
use lossless_tree::SyntaxKind;

/// The kinds of `..` and `..=`.
pub enum RangeOperators {}

impl KindSet for RangeOperators {
    ghost kinds = { is_range_operator };

    fn has(kind: SyntaxKind) -> bool {
        matches!(kind, SyntaxKind::DOT2 | SyntaxKind::DOT2EQ)
    }
}

/// The kinds of binary operators, assignments too.
pub enum BinaryOperators {}

impl KindSet for BinaryOperators {
    ghost kinds = { is_binary_operator };

    fn has(kind: SyntaxKind) -> bool {
        matches!(
            kind,
            SyntaxKind::PIPE2
                | SyntaxKind::AMP2
                | SyntaxKind::EQ2
                | SyntaxKind::NEQ
                | SyntaxKind::LTEQ
                | SyntaxKind::GTEQ
                | SyntaxKind::L_ANGLE
                | SyntaxKind::R_ANGLE
                | SyntaxKind::PLUS
                | SyntaxKind::STAR
                | SyntaxKind::MINUS
                | SyntaxKind::SLASH
                | SyntaxKind::PERCENT
                | SyntaxKind::SHL
                | SyntaxKind::SHR
                | SyntaxKind::CARET
                | SyntaxKind::PIPE
                | SyntaxKind::AMP
                | SyntaxKind::EQ
                | SyntaxKind::PLUSEQ
                | SyntaxKind::STAREQ
                | SyntaxKind::MINUSEQ
                | SyntaxKind::SLASHEQ
                | SyntaxKind::PERCENTEQ
                | SyntaxKind::SHLEQ
                | SyntaxKind::SHREQ
                | SyntaxKind::CARETEQ
                | SyntaxKind::PIPEEQ
                | SyntaxKind::AMPEQ
        )
    }
}

/// The kinds that may precede the token of a literal: attributes, documentation comments, white
/// space and comments.
pub enum BeforeLiteral {}

impl KindSet for BeforeLiteral {
    ghost kinds = { is_before_literal };

    fn has(kind: SyntaxKind) -> bool {
        matches!(
            kind,
            SyntaxKind::ATTR
                | SyntaxKind::DOC_COMMENT
                | SyntaxKind::WHITESPACE
                | SyntaxKind::COMMENT
        )
    }
}

/// The kinds that may precede the number of a tuple's field: all except numbers.
pub enum BeforeIndex {}

impl KindSet for BeforeIndex {
    ghost kinds = { is_before_index };

    fn has(kind: SyntaxKind) -> bool {
        !matches!(kind, SyntaxKind::INT_NUMBER | SyntaxKind::FLOAT_NUMBER)
    }
}

/// The kind of paths.
pub enum Paths {}

impl KindSet for Paths {
    ghost kinds = { is_path };

    fn has(kind: SyntaxKind) -> bool {
        matches!(kind, SyntaxKind::PATH)
    }
}

/// The kind of the segments of paths.
pub enum PathSegments {}

impl KindSet for PathSegments {
    ghost kinds = { is_path_segment };

    fn has(kind: SyntaxKind) -> bool {
        matches!(kind, SyntaxKind::PATH_SEGMENT)
    }
}

/// The kind of `!`.
pub enum Bangs {}

impl KindSet for Bangs {
    ghost kinds = { is_bang };

    fn has(kind: SyntaxKind) -> bool {
        matches!(kind, SyntaxKind::BANG)
    }
}

/// The kind of inner documentation comments.
pub enum InnerDocs {}

impl KindSet for InnerDocs {
    ghost kinds = { is_inner_doc };

    fn has(kind: SyntaxKind) -> bool {
        matches!(kind, SyntaxKind::INNER_DOC_COMMENT)
    }
}

/// The kind of `,`.
pub enum CommaTokens {}

impl KindSet for CommaTokens {
    ghost kinds = { is_comma };

    fn has(kind: SyntaxKind) -> bool {
        matches!(kind, SyntaxKind::COMMA)
    }
}
