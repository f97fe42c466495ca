//! Searches for a byte in a text.
ghost use Rattle.std.specs.Prelude.{◌≡◌, ◌<◌, length, None, IfSome};
ghost use Rattle.ras_token_ext.specs.Texts.{first_place, last_place};

/// The offset of the first such byte, or `None` if there is none.
pub fn first_place(text: &str, byte: u8) -> Option<usize>
    ensures { result ≡ first_place byte 0 text.now }
{
    let bytes = text.as_bytes();
    for i in 0..bytes.len() {
        if bytes[i] == byte {
            return Some(i);
        }
    }
    None
}

/// The offset of the last such byte, or `None` if there is none.
pub fn last_place(text: &str, byte: u8) -> Option<usize>
    ensures value { result ≡ last_place byte 0 None text.now }
    ensures within { IfSome result (λ place. place < length text.now) }
{
    let mut found = None;
    let bytes = text.as_bytes();
    for i in 0..bytes.len() {
        if bytes[i] == byte {
            found = Some(i);
        }
    }
    found
}
