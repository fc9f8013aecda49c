//! The program `braildesk`: its words, its standard ends and its exit status.
//!
//! What it does with them is `desk_program`'s.
#![tactic(auto)]

use desk_ends::BufferedWriter;
use desk_program::{ProgramFault, program, refuse, refuse_words};
use std::alloc::AllocError;
use std::env::FillError;
use std::io::Write;
use std::process::ExitCode;
use std::rt::Env;

/// The size of the buffer in front of standard output, in bytes.
const OUTPUT_BYTES: usize = 1 << 16;

/// The most bytes of a word of the command line. The system gives no longer ones.
const MOST_WORD_BYTES: usize = 1 << 17;

/// What is said of words that aren't text.
const NOT_TEXT: &str = "error: a word is not UTF-8\n";

/// The program's name, which stands before the words.
const NAME: &str = "braildesk";

/// The words after the program's name.
fn read_words(rt: &HostRuntime) -> Result<Vec<Vec<u8>>, ProgramFault> {
    let mut buffer = [0u8; MOST_WORD_BYTES];
    let mut words = Vec::new(rt.alloc());
    for i in 1..usize::MAX {
        match rt.arg(i, &mut buffer) {
            Ok(len) => add_copy(rt, &mut words, &buffer[..len])?,
            Err(FillError::NotPresent) => break,
            Err(FillError::TooLong) => return Err(ProgramFault::NoMemory),
        }
    }
    Ok(words)
}

/// Adds a word, in memory of its own.
fn add_copy(rt: &HostRuntime, words: &mut Vec<Vec<u8>>, word: &[u8]) -> Result<(), AllocError> {
    let mut copy = Vec::new(rt.alloc());
    copy.extend_from_slice(word)?;
    words.push(copy)?;
    Ok(())
}

/// Runs the program over the words of the command line and the standard ends.
fn start<E: Write>(rt: &HostRuntime, errors: &mut E) -> Result<u8, ProgramFault> {
    let words = read_words(rt)?;
    let Some(texts) = texts_of(rt, words.as_slice())? else {
        return Ok(refuse_words(errors, NOT_TEXT));
    };
    let mut output = BufferedWriter::new(rt.alloc(), OUTPUT_BYTES, rt.stdout())?;
    let status = program(rt, texts.as_slice(), &mut rt.stdin(), &mut output, errors);
    Ok(status)
}

/// The program's name, and the words as text, if they are.
fn texts_of<'a>(
    rt: &HostRuntime,
    words: &'a [Vec<u8>],
) -> Result<Option<Vec<&'a str>>, AllocError> {
    let mut texts = vec![in rt.alloc(); NAME]?;
    for word in words {
        let Ok(text) = str::from_utf8(word.as_slice()) else {
            return Ok(None);
        };
        texts.push(text)?;
    }
    Ok(Some(texts))
}

fn main(rt: HostRuntime) -> ExitCode {
    let mut errors = rt.stderr();
    let status = match start(&rt, &mut errors) {
        Ok(status) => status,
        Err(fault) => refuse(&mut errors, &fault),
    };
    ExitCode::from(status)
}
