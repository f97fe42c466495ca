//! Reading the whole input.
ghost use Rattle.std.specs.Prelude.{◌≡◌, ◌⊎◌, IfOk, IfErr, IfSome};

use crate::refusal::Refusal;
use std::alloc::Global;
use std::io::Read;

// How many bytes one read requests.
const CHUNK: usize = 65536;

// Reads up to the reader's end. Every error of the reader counts, and so does a reader that is not
// at its end after `u64::MAX` reads.
pub(crate) fn read_all<R: Read>(alloc: Global, reader: &mut R) -> Result<Vec<u8>, Refusal>
    ensures ok { IfOk result (λ bytes. IfSome (R.remaining reader.old) (λ xs. bytes.items ≡ xs)) }
    ensures err { IfErr result (λ e. (e ≡ Refusal.Read) ⊎ (e ≡ Refusal.Memory)) }
{
    let mut bytes = Vec::new(alloc);
    let mut chunk = [0u8; CHUNK];
    for _turn in 0..u64::MAX {
        match reader.read(&mut chunk) {
            Ok(0) => return Ok(bytes),
            Ok(count) => bytes.extend_from_slice(&chunk[..count])?,
            Err(_) => return Err(Refusal::Read),
        }
    }
    Err(Refusal::Read)
}
