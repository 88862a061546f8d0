//! What comes of a table of rows that are tried, and of what is found.

use std::fmt::Debug;
use std::test::Fail;

/// Fails where a row was wrong, and tells which.
pub fn all_right<T: Debug + Drop>(wrong: Option<T>) -> Result<(), Fail> {
    match wrong {
        Some(row) => Err(row.into()),
        None => Ok(()),
    }
}

/// Fails where what was found isn't what is wanted, and tells both. In place of `assert_eq!`, which
/// stands whole in each test and costs its proof a second or two.
pub fn equal<T: Debug + PartialEq + Drop>(found: T, wanted: T) -> Result<(), Fail> {
    if found == wanted {
        return Ok(());
    }
    Err((found, wanted).into())
}
