//! What a book shows. No query takes memory.
ghost use Rattle.desk_model.specs.Book.{paragraph_of};
ghost use Rattle.desk_model.specs.ParagraphMarks.{marks_on};
ghost use Rattle.desk_model.specs.Print.{print_of};
ghost use Rattle.desk_model.specs.Translation.{IsBraille, IsOutputPlace, IsPrintPlace, LacksCell, LacksPlace};
ghost use Rattle.std.specs.List.{enumerate_from};
ghost use Rattle.std.specs.Prelude.{◌≡◌, ◌⊎◌, IfErr, IfOk, None, Some};

use super::book::Book;
use cell_core::Cell;
use desk_memory::{History, List, ParagraphMarks};
use desk_model::Refusal;
use louis_translate::{output_place, print_place};

impl Book {
    /// The print of a paragraph.
    ///
    /// # Errors
    ///
    /// `NoParagraph` exactly if the book has none with this id.
    pub fn print(&self, id: u64) -> Result<&[char], Refusal>
        ensures found { IfOk result (λ print. (paragraph : _) × (paragraph_of self.now id ≡ Some paragraph)
            × (print.now ≡ print_of paragraph)) }
        ensures missing { IfErr result (λ why. (why ≡ Refusal.NoParagraph) × (paragraph_of self.now id ≡ None)) }
    {
        let paragraph = self.held_paragraph(id)?;
        Ok(paragraph.print.as_slice())
    }

    /// The braille of a paragraph.
    ///
    /// # Errors
    ///
    /// As [`Book::print`].
    pub fn cells(&self, id: u64) -> Result<&[Cell], Refusal>
        ensures found { IfOk result (λ cells. (paragraph : _) × (paragraph_of self.now id ≡ Some paragraph)
            × IsBraille self.now paragraph cells.now) }
        ensures missing { IfErr result (λ why. (why ≡ Refusal.NoParagraph) × (paragraph_of self.now id ≡ None)) }
    {
        let paragraph = self.held_paragraph(id)?;
        Ok(paragraph.cells.as_slice())
    }

    /// The output place of a place of a paragraph's print, from 0: the first cell made for the
    /// choice that covers it.
    ///
    /// # Errors
    ///
    /// `NoParagraph` exactly if the book has no such paragraph, else `BadSpan` exactly if its print
    /// has no such place.
    pub fn where_is(&self, id: u64, place: usize) -> Result<usize, Refusal>
        ensures found { IfOk result (λ cell. (paragraph : _) × (paragraph_of self.now id ≡ Some paragraph)
            × IsOutputPlace self.now paragraph place cell) }
        ensures refused { IfErr result (λ refusal.
            ((refusal ≡ Refusal.NoParagraph) × (paragraph_of self.now id ≡ None))
            ⊎ ((refusal ≡ Refusal.BadSpan) × LacksPlace self.now id place)) }
    {
        let (paragraph, rules) = self.paragraph_and_rules(id)?;
        if place >= paragraph.print.as_slice().len() {
            return Err(Refusal::BadSpan);
        }
        // the cells are held, so there are few enough to be counted
        let _ = paragraph.cells.as_slice();
        Ok(output_place(rules, paragraph.print.as_slice(), place))
    }

    /// The print place of a cell of a paragraph's braille, from 0: the first place of the choice
    /// that made it.
    ///
    /// # Errors
    ///
    /// `NoParagraph` exactly if the book has no such paragraph, else `BadSpan` exactly if its
    /// braille has no such cell.
    pub fn whence(&self, id: u64, cell: usize) -> Result<usize, Refusal>
        ensures found { IfOk result (λ place. (paragraph : _) × (paragraph_of self.now id ≡ Some paragraph)
            × IsPrintPlace self.now paragraph cell place) }
        ensures refused { IfErr result (λ refusal.
            ((refusal ≡ Refusal.NoParagraph) × (paragraph_of self.now id ≡ None))
            ⊎ ((refusal ≡ Refusal.BadSpan) × LacksCell self.now id cell)) }
    {
        let (paragraph, rules) = self.paragraph_and_rules(id)?;
        print_place(rules, paragraph.print.as_slice(), cell).ok_or(Refusal::BadSpan)
    }

    /// The entries of a paragraph's history, each with its number.
    ///
    /// # Errors
    ///
    /// As [`Book::print`].
    pub fn history(&self, id: u64) -> Result<History<'_>, Refusal>
        ensures found { IfOk result (λ history. (paragraph : _) × (paragraph_of self.now id ≡ Some paragraph)
            × (history ≡ enumerate_from 1 paragraph.history)) }
        ensures missing { IfErr result (λ why. (why ≡ Refusal.NoParagraph) × (paragraph_of self.now id ≡ None)) }
    {
        let paragraph = self.held_paragraph(id)?;
        Ok(History::new(paragraph.history.as_slice()))
    }

    /// The marks of a paragraph in the order of their ids.
    ///
    /// # Errors
    ///
    /// As [`Book::print`].
    pub fn marks(&self, id: u64) -> Result<ParagraphMarks<'_>, Refusal>
        ensures found { IfOk result (λ marks. (paragraph : _) × (paragraph_of self.now id ≡ Some paragraph)
            × (marks ≡ marks_on id self.now.marks)) }
        ensures missing { IfErr result (λ why. (why ≡ Refusal.NoParagraph) × (paragraph_of self.now id ≡ None)) }
    {
        let Some(paragraph) = self.paragraphs.get(id) else {
            return Err(Refusal::NoParagraph);
        };
        let indexes = paragraph.marks.as_slice();
        Ok(ParagraphMarks::new(self.marks.as_slice(), indexes))
    }

    /// The paragraphs in the order of the book.
    pub fn list(&self) -> List<'_>
        ensures { result ≡ self.now.paragraphs }
    {
        List::new(&self.paragraphs)
    }
}
