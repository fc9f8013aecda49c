//! Reads requests: a head line, and the lines that it announces.
ghost use Rattle.desk_line.specs.Fields.{fields_of};
ghost use Rattle.desk_line.specs.HeadLine.{Says};
ghost use Rattle.desk_line.specs.ReadingSteps.{are_lines, command_in, expecting, head_in, head_of, with_text};
ghost use Rattle.desk_line.specs.Request.{HasHead, IsNoRequest, Reads, Takes, block_lines};
ghost use Rattle.desk_line.specs.declared.read.Head.{Head};
ghost use Rattle.louis_table.specs.Lines.{lines_of};
ghost use Rattle.std.specs.Prelude.{List, MatchOption, ℕ, ◌≡◌};

use super::directive::{Directive, make_command, read_directive};
use super::fields::{Fields, read_number};
use super::query::read_query;
use super::request::{Query, Request};
use desk_ends::{MOST_LINE_BYTES, split_line};
use std::marker::Model;

/// A head line that was read: a request, but for the lines that follow. Contracts see what it says.
#[derive(Drop)]
pub struct RequestHead<'a> {
    head: Head<'a>,
}

impl<'a> Model for RequestHead<'a> {
    ghost use Rattle.desk_line.specs.declared.read.Head.{Head};

    ghost Value = { Head };

    ghost view = { λ r. r.head };
}

impl<'a> RequestHead<'a> {
    /// How many lines follow it in its request.
    pub fn lines_after(&self) -> u64
        ensures { result ≡ block_lines self.now }
    {
        block_lines(&self.head)
    }

    /// The request that it is with the lines that follow it, given as they came. `None` exactly if
    /// they aren't as many lines as follow it, or one of them is too long.
    pub fn finish(self, text: &'a [u8]) -> Option<Request<'a>>
        ensures reads { (bytes : List ℕ) → HasHead bytes self.entry text.now
            → MatchOption result (IsNoRequest bytes) (Reads bytes) }
        ensures gives { result ≡ with_text text.now self.entry }
    {
        complete(self.head, text)
    }
}

/// Reads the head line of a request, given as to [`lines_after`], if it says something.
pub fn begin_request(line: &[u8]) -> Option<RequestHead<'_>>
    ensures { MatchOption result ((head : Head) → ¬ Says line.now head) (Says line.now) }
{
    let head = read_head(line)?;
    Some(RequestHead { head })
}

/// How many lines follow a head line in its request. The head line is given without its ending, a
/// line feed and one carriage return before it, and no line feed stands in it. It is 0 if the line
/// takes none: a query, another command than `table`, a `table` line with the number 0, and a line
/// that says nothing, such as one that is too long, isn't UTF-8 or still has its ending.
pub fn lines_after(head: &[u8]) -> u64
    ensures { Takes head.now result }
{
    match begin_request(head) {
        Some(head) => head.lines_after(),
        None => 0,
    }
}

/// Reads a whole request: its head line and the lines that follow it, as they came. `None` exactly
/// if the bytes aren't a request.
pub fn read_request(bytes: &[u8]) -> Option<Request<'_>>
    ensures { MatchOption result (IsNoRequest bytes.now) (Reads bytes.now) }
{
    let (line, text) = split_line(bytes);
    begin_request(line)?.finish(text)
}

/// The request that a head line makes with the bytes of the lines after it, if these are as many as
/// it takes.
fn complete<'a>(head: Head<'a>, text: &'a [u8]) -> Option<Request<'a>>
    ensures { result ≡ with_text text.now head.entry }
{
    if !are_lines(text, block_lines(&head)) {
        return None;
    }
    match head {
        Head::Ask(query) => Some(Request::Ask(query)),
        Head::Do { directive, expect } => {
            let command = make_command(directive, text);
            Some(Request::Do { command, expect })
        }
    }
}

/// Whether the bytes are this many lines, none of them too long.
fn are_lines(bytes: &[u8], count: u64) -> bool
    ensures { result ≡ are_lines (lines_of bytes.now) count }
{
    let mut rest = bytes;
    let mut left = count;
    while !rest.is_empty() {
        if left == 0 {
            return false;
        }
        let (line, later) = split_line(rest);
        if line.len() > MOST_LINE_BYTES {
            return false;
        }
        left -= 1;
        rest = later;
    }
    left == 0
}

/// What a head line says.
#[derive(Drop)]
pub(crate) enum Head<'a> {
    /// A command.
    Do {
        /// The command.
        directive: Directive<'a>,
        /// The version that the book is expected to have, if one is.
        expect: Option<u64>,
    },
    /// A query.
    Ask(Query),
}

/// How many lines follow what a head line says.
pub(crate) fn block_lines(head: &Head<'_>) -> u64
    ensures { result ≡ block_lines head.now }
{
    match head {
        Head::Do {
            directive: Directive::Table { count, .. },
            ..
        } => *count,
        _ => 0,
    }
}

/// What a head line, without its ending, says, if it says anything.
pub(crate) fn read_head(line: &[u8]) -> Option<Head<'_>>
    ensures { result ≡ head_of line.now }
{
    if line.len() > MOST_LINE_BYTES {
        return None;
    }
    match str::from_utf8(line) {
        Ok(text) => read_text(text),
        Err(_) => None,
    }
}

/// What the text of a head line says.
#[tactic(auto, unfolding(crate::specs::ReadingSteps::head_in))]
fn read_text(text: &str) -> Option<Head<'_>>
    ensures { result ≡ head_in (fields_of text.now) }
{
    if let Some(query) = read_query(Fields::new(text)) {
        return Some(Head::Ask(query));
    }
    read_command(Fields::new(text))
}

/// The command that the fields of a line give.
fn read_command(fields: Fields<'_>) -> Option<Head<'_>>
    ensures { result ≡ command_in fields.entry }
{
    let (word, others) = fields.split()?;
    match word.strip_prefix('@') {
        Some(version) => read_expecting(version.as_bytes(), others),
        None => {
            let directive = read_directive(word, others)?;
            Some(Head::Do {
                directive,
                expect: None,
            })
        }
    }
}

/// The command after an expected version.
#[tactic(auto, unfolding(crate::specs::ReadingSteps::directive_in))]
fn read_expecting<'a>(version: &[u8], fields: Fields<'a>) -> Option<Head<'a>>
    ensures { result ≡ expecting version.now fields.entry }
{
    let version = read_number(version)?;
    let (word, others) = fields.split()?;
    let directive = read_directive(word, others)?;
    Some(Head::Do {
        directive,
        expect: Some(version),
    })
}
