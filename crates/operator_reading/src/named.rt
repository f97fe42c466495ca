//! The kinds with a fixed text, each by its `T!` name, with its text.
ghost use Rattle.std.specs.Prelude.{◌≡◌};
ghost use Rattle.operator_reading.specs.Named.{named_text};

use lossless_tree::{SyntaxKind, T};

/// The fixed text of a kind that operator trees have, by its `T!` name; empty for all other kinds.
/// Each such kind is listed here with its text.
#[tactic(auto, unfolding(operator_terms::specs::Token::fixed_text))]
pub fn kinds_have_their_texts(kind: SyntaxKind) -> &'static str
    ensures { result.now ≡ named_text kind }
{
    match kind {
        T![true] => "true",
        T![false] => "false",
        T!['('] => "(",
        T![')'] => ")",
        T!['['] => "[",
        T![']'] => "]",
        T![,] => ",",
        T![.] => ".",
        T![?] => "?",
        T![await] => "await",
        T![mut] => "mut",
        T![as] => "as",
        T![!] => "!",
        T![&] => "&",
        T![|] => "|",
        T![+] => "+",
        T![*] => "*",
        T![/] => "/",
        T![^] => "^",
        T![%] => "%",
        T![-] => "-",
        T![&&] => "&&",
        T![||] => "||",
        T![<<] => "<<",
        T![>>] => ">>",
        T![==] => "==",
        T![!=] => "!=",
        T![<] => "<",
        T![>] => ">",
        T![<=] => "<=",
        T![>=] => ">=",
        T![=] => "=",
        T![+=] => "+=",
        T![-=] => "-=",
        T![|=] => "|=",
        T![&=] => "&=",
        T![^=] => "^=",
        T![/=] => "/=",
        T![*=] => "*=",
        T![%=] => "%=",
        T![<<=] => "<<=",
        T![>>=] => ">>=",
        T![..] => "..",
        T![..=] => "..=",
        _ => "",
    }
}
