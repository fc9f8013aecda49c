//! Texts as their characters, and bytes.
ghost use Rattle.std.specs.Prelude.{◌≡◌, List, ℕ, string_bytes, chars};
ghost use Rattle.desk_model.specs.BookTexts.{AreCharacters};

use cell_core::Sequence;
use std::marker::Model;

/// A text, which contracts see as the list of the codes of its characters.
#[derive(Debug, Drop)]
pub struct Text {
    string: String,
}

impl Model for Text {
    ghost Value = { List ℕ };

    ghost view = { λ t. chars (string_bytes t.string) };
}

impl Text {
    /// The text of a string.
    pub fn from_string(string: String) -> Self
        ensures text { result ≡ chars (string_bytes string) }
        ensures characters { AreCharacters result }
    {
        Text { string }
    }

    /// The text as a string.
    pub fn as_str(&self) -> &str
        ensures { chars result.now ≡ self.now }
    {
        self.string.as_str()
    }

    /// The string of the text.
    pub fn into_string(self) -> String
        ensures { chars (string_bytes result) ≡ self }
    {
        self.string
    }
}

/// Bytes, which contracts see as the list of their values.
pub type Bytes = Sequence<u8>;
