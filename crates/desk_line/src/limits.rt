//! How large a number of a request may be.

/// The most digits of a number.
pub(crate) const MOST_DIGITS: usize = 16;

/// The greatest number: 2^53.
pub(crate) const MOST_NUMBER: u64 = 1 << 53;
