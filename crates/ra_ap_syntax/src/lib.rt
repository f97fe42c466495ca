//! Typed syntax trees of Rust: views of the nodes and tokens of `lossless_tree`, by their kinds.
#![tactic(auto)]

pub mod ast;
pub mod laws;
mod macros;
mod parsing;

pub use ast::{AstNode, AstToken, SourceFile};
pub use exact_front::ExactFront;
pub use literal_escape as unescape;
pub use lossless_tree::{
    Ancestors, Descendants, DescendantsWithTokens, Direction, FinishError, Language, NodeOrToken,
    Preorder, PreorderWithTokens, ReplaceError, RustLanguage, SyntaxElement, SyntaxElementChildren,
    SyntaxElementSiblings, SyntaxKind, SyntaxNode, SyntaxNodeChildren, SyntaxNodeSiblings,
    SyntaxText, SyntaxToken, TextRange, TextSize, TokenAtOffset, TreeBuilder, WalkEvent,
};
pub use ras_algo::ptr::{AstPtr, SyntaxNodePtr};
pub use ras_algo::{algo, ptr};
pub use ras_front_end::{
    Edition, Entry, FrontEnd, Output, ParseError, Reparser, Step, SyntaxError,
};
pub use ras_parsing::{FileView, OkError, Parse, SyntaxTreeBuilder, utils};

/// A source file that is edited again and again, and its parse.
pub type Document<F> = ras_parsing::Document<SourceFile, F>;

/// Matches a node against typed views. The first arm is taken whose view casts and whose guard, if
/// any, is true.
///
/// `match_ast! { match node { ast::CallExpr(it) => a, ast::Item(it) if guard => b, _ => c } }`
/// borrows the node, and evaluates the expression `node` once.
#[macro_export]
macro_rules! match_ast {
    (match $node:ident { $($arms:tt)* }) => { $crate::match_ast!(match ($node) { $($arms)* }) };
    (match ($node:expr) {
        $( $( $path:ident )::+ ($it:pat) $(if $guard:expr)? => $res:expr, )*
        _ => $rest:expr $(,)?
    }) => {
        match &$node {
            matched => {
                $( if let Some($it) = $crate::ast::cast_ref::<$($path)::+>(matched)
                    $(&& $guard)? { $res } else )*
                { $rest }
            }
        }
    };
}
