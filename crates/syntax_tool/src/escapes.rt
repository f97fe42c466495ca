//! The escapes in the text of a token.
ghost use Rattle.std.specs.Prelude.{◌≡◌, ◌++◌, Some, None, Err, string_bytes, OnOk, IfErr, ◌⊎◌};
ghost use Rattle.syntax_tool.specs.Escapes.{escape_of, unescaped};

use crate::refusal::Refusal;

// What the letter after a backslash stands for.
fn escape_of(letter: u8) -> Option<char>
    ensures { result ≡ escape_of letter }
{
    match letter {
        b'n' => Some('\n'),
        b'r' => Some('\r'),
        b't' => Some('\t'),
        b'\\' => Some('\\'),
        _ => None,
    }
}

// Puts the text that is meant into `out`, in place of what it held.
pub(crate) fn unescape(out: &mut String, raw: &str) -> Result<(), Refusal>
    ensures ok { OnOk result (unescaped raw.now ≡ Some (string_bytes out.new)) }
    ensures err { IfErr result
        (λ e. (e ≡ Refusal.Memory) ⊎ ((e ≡ Refusal.BadLine) × (unescaped raw.now ≡ None))) }
{
    out.clear();
    let mut rest = raw;
    while let Some((plain, after)) = rest.split_once('\\') {
        out.push_str(plain)?;
        let Some(letter) = after.as_bytes().first() else {
            return Err(Refusal::BadLine);
        };
        let Some(c) = escape_of(*letter) else {
            return Err(Refusal::BadLine);
        };
        out.push(c)?;
        rest = &after[1..];
    }
    out.push_str(rest)?;
    Ok(())
}
