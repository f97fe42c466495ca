//! Checks with the message of a failed test.
use std::alloc::Global;
use std::test::Fail;

/// The call has the expected result.
pub fn ensure(holds: bool, call: &'static str) -> Result<(), Fail> {
    if holds { Ok(()) } else { Err(Fail::from(call)) }
}

/// The text is the expected one; if not, the message has both.
pub fn ensure_text(alloc: Global, found: &str, want: &str) -> Result<(), Fail> {
    if found == want {
        return Ok(());
    }
    Err(Fail::from(format!(in alloc; "{found} in place of {want}")?))
}
