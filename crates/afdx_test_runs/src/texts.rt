//! What was written, as a text to compare.

use afdx_test_samples::ShortText;
use std::str;
use std::test::Fail;

/// The text of these bytes, or `no text` where they are none.
pub fn shown(bytes: &[u8]) -> &str {
    str::from_utf8(bytes).unwrap_or("no text")
}

/// The text of these bytes, of its own. Fails where they are more than 2,048.
pub fn short_text(bytes: &[u8]) -> Result<ShortText, Fail> {
    Ok(ShortText::from(shown(bytes))?)
}
