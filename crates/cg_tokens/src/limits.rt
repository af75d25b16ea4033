//! The limits of tokens and of their texts.

/// The greatest token: 2 to the 127.
pub const TOKEN_LIMIT: u128 = 170141183460469231731687303715884105728;

/// The number of hexadecimal digits of a token.
pub const TOKEN_DIGITS: usize = 32;

/// The most tokens in the text of an endpoint; the least is 1.
pub const TOKEN_COUNT_LIMIT: usize = 16;

// The comma between tokens, and after the first word of a status.
pub(crate) const COMMA: u8 = b',';
