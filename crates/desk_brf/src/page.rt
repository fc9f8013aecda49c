//! Lines as they are sent, and the ends of their pages.
ghost use Rattle.desk_brf.specs.PageLayout.{most_lines, most_width, text_lines};
ghost use Rattle.desk_brf.specs.Laying.{FillsPage, page_end};
ghost use Rattle.desk_brf.specs.Pages.{digit_letter, number_line, with_ending};
ghost use Rattle.desk_ends.specs.Sending.{Transmits};
ghost use Rattle.std.specs.Prelude.{◌≡◌, ◌+◌, ◌<◌, ◌≤◌, ◌^◌, [], ◌∷◌, ◌++◌, OnOk, is_ok, length};

use super::layout::Layout;
use super::page_line::PageLine;
use desk_ends::{Sent, Sink, send};
use itoa::Buffer;

/// What ends a page.
const FORM_FEED: u8 = 0x0C;

/// The letter that stands for a digit in braille: A to I for 1 to 9, and J for 0.
fn letter(digit: u8) -> u8
    requires { digit < 128 }
    ensures { result ≡ digit_letter digit }
{
    if digit == b'0' { b'J' } else { digit + 16 }
}

/// Lays the line of a page's number.
fn lay_number(line: &mut PageLine, width: usize, number: u64)
    requires empty { line.old ≡ [] }
    requires width { width ≤ most_width }
    ensures { line.new ≡ number_line width number }
{
    let mut buffer = Buffer::new();
    let digits = buffer.format(number).as_bytes();
    line.push_blanks(width.saturating_sub(digits.len() + 1));
    line.push(b'#');
    for digit in digits {
        line.push(letter(*digit));
    }
}

/// Sends a line with its ending, and takes its bytes out.
fn end_line<K: Sink>(sink: &mut K, line: &mut PageLine) -> Sent
    requires { length line.old ≤ most_width }
    ensures sent { Transmits K.can_fail (K.contents sink.old) (K.contents sink.new)
        (with_ending line.old) [] (is_ok result) }
    ensures empty { OnOk result (line.new ≡ []) }
{
    line.push(b'\r');
    line.push(b'\n');
    send(sink, line.as_slice())?;
    line.clear();
    Ok(())
}

/// Sends the last line of a page and its end.
fn end_page<K: Sink>(sink: &mut K, line: &mut PageLine, width: usize, number: u64) -> Sent
    requires empty { line.old ≡ [] }
    requires width { width ≤ most_width }
    ensures sent { Transmits K.can_fail (K.contents sink.old) (K.contents sink.new)
        (with_ending (number_line width number) ++ 12 ∷ []) [] (is_ok result) }
    ensures empty { OnOk result (line.new ≡ []) }
{
    lay_number(line, width, number);
    end_line(sink, line)?;
    send(sink, &[FORM_FEED])
}

/// Sends a line of text, and the end of its page if it is the last one there. `lines` counts those
/// of the volume.
pub(crate) fn put_line<K: Sink>(
    sink: &mut K,
    layout: &Layout,
    lines: &mut u64,
    line: &mut PageLine,
) -> Sent
    requires room { length line.old ≤ most_width }
    requires count { lines.old + 1 < 2 ^ 64 }
    ensures sent { Transmits K.can_fail (K.contents sink.old) (K.contents sink.new)
        (with_ending line.old ++ page_end layout.now (lines.old + 1)) [] (is_ok result) }
    ensures count { OnOk result (lines.new ≡ lines.old + 1) }
    ensures empty { OnOk result (line.new ≡ []) }
{
    end_line(sink, line)?;
    *lines += 1;
    let text_lines = layout.text_lines();
    if *lines % text_lines == 0 {
        end_page(sink, line, layout.width(), *lines / text_lines)?;
    }
    Ok(())
}

/// Sends empty lines until the page is full.
pub(crate) fn fill_page<K: Sink>(
    sink: &mut K,
    layout: &Layout,
    lines: &mut u64,
    line: &mut PageLine,
) -> Sent
    requires empty { line.old ≡ [] }
    requires count { lines.old + most_lines < 2 ^ 64 }
    ensures { FillsPage K.can_fail (K.contents sink.old) (K.contents sink.new) layout.now lines.old lines.new
        (is_ok result) }
{
    let text_lines = layout.text_lines();
    let blank = (text_lines - *lines % text_lines) % text_lines;
    for _ in 0..blank {
        put_line(sink, layout, lines, line)?;
    }
    Ok(())
}
