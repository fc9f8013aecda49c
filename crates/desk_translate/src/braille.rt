//! The braille of a print, sent in blocks.
ghost use Rattle.desk_ends.specs.Cells.{text_of};
ghost use Rattle.desk_ends.specs.Sending.{Puts, Sends};
ghost use Rattle.desk_translate.specs.Braille.{PutsFirst};
ghost use Rattle.louis_translate.specs.Braille.{braille};
ghost use Rattle.louis_translate.specs.Position.{AreDefined};
ghost use Rattle.louis_translate.specs.Tiling.{Tiles};
ghost use Rattle.louis_translate.specs.declared.choices.Choice.{Choice as ChoiceTerm};
ghost use Rattle.std.specs.Prelude.{List, [], is_ok, ◌++◌, ◌∷◌};

use desk_ends::{Block, Sent, Sink, put_cell, put_cells, send_block};
use louis_translate::{Pieces, RuleBook};

/// Sends the braille of a print and a line feed.
pub fn send_braille<K: Sink, B: RuleBook>(
    sink: &mut K,
    block: &mut Block,
    book: &B,
    print: &[char],
) -> Sent
    requires { AreDefined (B.meaning book.now) print.now }
    ensures { (choices : List ChoiceTerm) → Tiles (B.meaning book.now) print.now choices
        → Sends K.Sink sink.old sink.new
        (text_of (braille (B.meaning book.now) print.now choices) ++ 10 ∷ []) (is_ok result) }
{
    block.clear();
    put_print(sink, block, book, print)?;
    send_block(sink, block)
}

/// Puts the braille of a print after the block: the run of lone cells that it begins with, and then
/// each piece that isn't a lone cell, with the run after it. It stays a function of its own, so
/// that the processor's registers hold what the loop along a run needs, and nothing of what comes
/// before it.
#[inline(never)]
fn put_print<K: Sink, B: RuleBook>(
    sink: &mut K,
    block: &mut Block,
    book: &B,
    print: &[char],
) -> Sent
    requires { AreDefined (B.meaning book.now) print.now }
    ensures { (choices : List ChoiceTerm) → Tiles (B.meaning book.now) print.now choices
        → Puts K.Sink sink.old sink.new
        (block.old ++ text_of (braille (B.meaning book.now) print.now choices))
        block.new (is_ok result) }
{
    let mut pieces = Pieces::new(book, print);
    put_run(sink, block, &mut pieces)?;
    while let Some(piece) = pieces.next_chosen() {
        put_cells(sink, block, piece.sign)?;
        put_cells(sink, block, piece.own)?;
        put_run(sink, block, &mut pieces)?;
    }
    Ok(())
}

/// Puts the run of lone cells that the pieces begin with, and takes it from them.
#[inline(always)]
fn put_run<K: Sink, B: RuleBook>(
    sink: &mut K,
    block: &mut Block,
    pieces: &mut Pieces<'_, B>,
) -> Sent
    ensures { PutsFirst K.Sink sink.old sink.new block.old block.new pieces.old pieces.new (is_ok result) }
{
    while let Some(cell) = pieces.next_lone() {
        put_cell(sink, block, cell)?;
    }
    Ok(())
}
