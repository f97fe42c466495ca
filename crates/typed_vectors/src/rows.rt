//! Rows of a test, each with a name.
use std::test::Fail;

/// Fails by the name of a row that does not hold.
pub fn all_hold(rows: &[(&'static str, bool)]) -> Result<(), Fail> {
    for (name, holds) in rows {
        if !*holds {
            return Err(Fail::from(*name));
        }
    }
    Ok(())
}
