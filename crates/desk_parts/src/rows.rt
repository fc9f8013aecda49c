//! The rows of a book's file, one type for each of its tables.
//!
//! A row holds what stands in its table, whether it makes sense or not: a file may hold any
//! integers, negative ones too.

ghost use Rattle.std.specs.Prelude.{string_bytes};
ghost use Rattle.desk_parts.specs.Rows.{Tab, StoredTab as StoredTabRow, Para, Corr, NamedCorr, Mark, ParaCells};

use std::marker::Model;

/// The row of the table `book`.
#[derive(Clone, Copy, Debug, PartialEq, Eq)]
pub struct BookRow {
    /// 1: the table has one row.
    pub id: i64,
    /// The format of the file, counted from 1.
    pub format: i64,
    /// How many commands the book has accepted.
    pub version: i64,
}

/// A row of `tab`: a braille table of the book.
#[derive(Drop)]
pub struct TabRow {
    /// The name, which is the key.
    pub name: String,
    /// The text, as it was given.
    pub body: Vec<u8>,
}

impl Model for TabRow {
    ghost Value = { Tab };

    ghost view = { λ r. record { name = string_bytes r.name; body = r.body.items } };
}

/// A row of `tab` as it was read, with the rowid under which the file keeps it.
#[derive(Drop)]
pub struct StoredTab {
    pub rowid: i64,
    pub row: TabRow,
}

impl Model for StoredTab {
    ghost Value = { StoredTabRow };

    ghost view = { λ s. record { rowid = s.rowid; row = s.row } };
}

/// A row of `para`: a paragraph.
#[derive(Drop)]
pub struct ParaRow {
    /// The number by order of typing, counted from 1, which is the key.
    pub id: i64,
    /// The place in the book, counted from 1.
    pub place: i64,
    /// The name of the table that it is translated by.
    pub tab: String,
    /// The print as it was typed.
    pub original: String,
    /// The print with its corrections.
    pub print: String,
    /// 0 for body, 1 for a heading.
    pub style: i64,
    /// 1 if a volume begins with it.
    pub volume: i64,
    /// 1 if the paragraph is struck.
    pub struck: i64,
}

impl Model for ParaRow {
    ghost Value = { Para };

    ghost view = { λ r. record {
      id = r.id;
      place = r.place;
      tab = string_bytes r.tab;
      original = string_bytes r.original;
      print = string_bytes r.print;
      style = r.style;
      volume = r.volume;
      struck = r.struck;
    } };
}

/// A row of `corr`: an entry of a paragraph's history.
#[derive(Drop)]
pub struct CorrRow {
    /// The paragraph's id. With `seq` it is the key.
    pub para: i64,
    /// The number of the entry in the paragraph's history, counted from 1.
    pub seq: i64,
    /// 0 for a correction, 1 for an undo.
    pub kind: i64,
    /// The place at which the correction begins, counted from 0, or the number of the entry that is
    /// undone.
    pub start: i64,
    /// How many characters the correction replaces.
    pub len: i64,
    /// The text that the correction puts in.
    pub body: String,
}

impl Model for CorrRow {
    ghost Value = { Corr };

    ghost view = { λ r. record {
      para = r.para;
      seq = r.seq;
      kind = r.kind;
      start = r.start;
      len = r.len;
      body = string_bytes r.body;
    } };
}

/// A row of `corr2`: an entry of a paragraph's history, and the name of the proofreader who
/// corrected.
#[derive(Drop)]
pub struct NamedCorrRow {
    /// The entry. Its paragraph and its number are the key.
    pub entry: CorrRow,
    /// The proofreader's name, which may be empty.
    pub who: String,
}

impl Model for NamedCorrRow {
    ghost Value = { NamedCorr };

    ghost view = { λ r. record { entry = r.entry; who = string_bytes r.who } };
}

/// A row of `mark`: a proofreader's mark.
#[derive(Drop)]
pub struct MarkRow {
    /// The number by order of marking, counted from 1 over the whole book, which is the key.
    pub id: i64,
    /// The paragraph's id.
    pub para: i64,
    /// The place of the first character that is marked, counted from 0.
    pub start: i64,
    /// The place after the last character that is marked.
    pub stop: i64,
    /// The proofreader's note.
    pub note: String,
    /// 1 if a correction has touched the span.
    pub touched: i64,
    /// 1 if the mark is resolved.
    pub resolved: i64,
}

impl Model for MarkRow {
    ghost Value = { Mark };

    ghost view = { λ r. record {
      id = r.id;
      para = r.para;
      start = r.start;
      stop = r.stop;
      note = string_bytes r.note;
      touched = r.touched;
      resolved = r.resolved;
    } };
}

/// A row of `cache`: the braille of a paragraph.
#[derive(Drop)]
pub struct CacheRow {
    /// The paragraph's id, which is the key.
    pub para: i64,
    /// Its cells, one mask a cell.
    pub cells: Vec<u8>,
}

impl Model for CacheRow {
    ghost Value = { ParaCells };

    ghost view = { λ r. record { para = r.para; cells = r.cells.items } };
}
