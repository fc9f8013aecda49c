//! The fields of a line, with blanks and tabs around them.
ghost use Rattle.louis_table.specs.Fields.{is_gap};
ghost use Rattle.louis_table.specs.Steps.Fields.{field_at, field_len};
ghost use Rattle.std.specs.List.{prefix_len};
ghost use Rattle.std.specs.Prelude.{◌≡◌, ◌≤◌, length};

fn is_gap_character(character: char) -> bool
    ensures { result ≡ is_gap character }
{
    character == ' ' || character == '\t'
}

fn gap_len(text: &[char]) -> usize
    ensures within { result ≤ length text.now }
    ensures value { result ≡ prefix_len is_gap text.now }
{
    for (i, character) in text.iter().enumerate() {
        if !is_gap_character(*character) {
            return i;
        }
    }
    text.len()
}

fn front_field_len(text: &[char]) -> usize
    ensures within { result ≤ length text.now }
    ensures value { result ≡ field_len text.now }
{
    for (i, character) in text.iter().enumerate() {
        if is_gap_character(*character) {
            return i;
        }
    }
    text.len()
}

/// The next field, which is empty if there is none, and what follows it.
pub(crate) fn next_field(text: &[char]) -> (&[char], &[char])
    ensures field { result.0.now ≡ (field_at text.now).0 }
    ensures rest { result.1.now ≡ (field_at text.now).1 }
{
    let text = &text[gap_len(text)..];
    text.split_at(front_field_len(text))
}
