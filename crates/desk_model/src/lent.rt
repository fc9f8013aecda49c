//! Texts and bytes that are lent.
ghost use Rattle.std.specs.Prelude.{◌≡◌, chars};

use std::marker::Model;

/// A text that is lent, which contracts see as the list of the codes of its characters.
#[derive(Debug, Drop)]
pub struct LentText<'a> {
    string: &'a str,
}

impl<'a> Model for LentText<'a> {
    ghost use Rattle.std.specs.Prelude.{List, ℕ, chars};

    ghost Value = { List ℕ };

    ghost view = { λ t. chars t.string.now };
}

impl<'a> LentText<'a> {
    /// The text of a string.
    pub fn new(string: &'a str) -> Self
        ensures { result ≡ chars string.now }
    {
        LentText { string }
    }

    /// The text as a string.
    pub fn as_str(&self) -> &'a str
        ensures { chars result.now ≡ self.now }
    {
        self.string
    }
}

/// Bytes that are lent, which contracts see as the list of their values.
#[derive(Debug, Drop)]
pub struct LentBytes<'a> {
    items: &'a [u8],
}

impl<'a> Model for LentBytes<'a> {
    ghost use Rattle.std.specs.Prelude.{List, ℕ};

    ghost Value = { List ℕ };

    ghost view = { λ b. b.items.now };
}

impl<'a> LentBytes<'a> {
    /// The bytes of a slice.
    pub fn new(items: &'a [u8]) -> Self
        ensures { result ≡ items.now }
    {
        LentBytes { items }
    }

    /// The bytes in order.
    pub fn as_slice(&self) -> &'a [u8]
        ensures { result.now ≡ self.now }
    {
        self.items
    }
}
