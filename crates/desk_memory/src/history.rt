//! The histories of paragraphs.
ghost use Rattle.desk_memory.specs.Histories.{IsNewestInForce, entries_held, replaced_by};
ghost use Rattle.desk_model.specs.Sound.{AreSoundEntries};
ghost use Rattle.desk_model.specs.Print.{newest as newest_lem};
ghost use Rattle.std.specs.Prelude.{◌≡◌, ◌+◌, ◌≤◌, IfNone, IfOk, IfSome, None, length};

use super::texts::count_of;
use desk_model::Text;
use louis_table::Characters;
use std::alloc::{AllocError, Global};

/// A correction of a paragraph.
#[derive(Drop)]
pub struct Correction {
    /// The place at which it begins, from 0.
    pub start: usize,
    /// The text that it put in, as it is stored.
    pub text: Text,
    /// The name of its proofreader, which may be empty.
    pub who: Text,
    /// The characters that gave way to the text.
    pub taken: Characters,
}

/// The print with a text in place of so many characters from a place on.
pub fn replace_span(
    alloc: Global,
    print: &[char],
    start: usize,
    count: usize,
    text: &[char],
) -> Result<Vec<char>, AllocError>
    requires { start + count ≤ length print.now }
    ensures { IfOk result (λ new. new.items ≡ replaced_by start count text.now print.now) }
{
    let mut new = Vec::new(alloc);
    new.extend_from_slice(&print[..start])?;
    new.extend_from_slice(text)?;
    new.extend_from_slice(&print[start + count..])?;
    Ok(new)
}

impl Correction {
    /// How many characters its text has.
    pub fn count(&self) -> usize
        ensures { result ≡ length self.now.text }
    {
        count_of(self.text.as_str())
    }

    /// The print with what gave way to the text in its place again. The text stands at its place in
    /// the print that is given.
    pub fn undone(&self, alloc: Global, print: &[char]) -> Result<Vec<char>, AllocError>
        requires { self.now.start + length self.now.text ≤ length print.now }
        ensures { IfOk result (λ new.
            new.items ≡ replaced_by self.now.start (length self.now.text) self.now.taken print.now) }
    {
        let taken = self.taken.as_slice();
        replace_span(alloc, print, self.start, self.count(), taken)
    }
}

/// An entry of a history, as it is held in memory.
#[derive(Drop)]
pub enum HeldEntry {
    /// A correction.
    Corrects(Correction),
    /// The undo of the correction with this number.
    Undoes(u64),
}

/// The newest correction in force of a history, with its number.
///
/// An undo brings back the state before the correction that it takes back, so the search leaps over
/// all entries between the two.
pub fn newest(history: &[HeldEntry]) -> Option<(u64, &Correction)>
    requires { (original : _) × AreSoundEntries original (entries_held history.now) }
    ensures found { IfSome result (λ found. IsNewestInForce history.now found.0 found.1.now) }
    ensures none { IfNone result (newest_lem (entries_held history.now) ≡ None) }
{
    let mut count = history.len();
    while count > 0 {
        match &history[count - 1] {
            HeldEntry::Corrects(correction) => return Some((count as u64, correction)),
            HeldEntry::Undoes(number) => count = (*number - 1) as usize,
        }
    }
    None
}
