ghost use Rattle.std.specs.Prelude.{◌≡◌, ℕ, ◌≤◌, min, List, length};
ghost use Rattle.listing.specs.Making.{FindsHeading, GivesBack, HeadedText, Makes, WritesLine, WritesLines};

use crate::error::{BadLine, LineError};
use crate::lines::Lines;
use crate::read::{read_entry, read_heading};
use tape::header::Header;
use tape::read::MOST_BYTES;
use tape::write::{write_header, write_record};

// The heading, which is the first line with words. The loops over lines stand alone in the machine code: inlined into all
// that calls them they would keep their values in memory.
#[inline(never)]
fn find_heading(lines: &mut Lines) -> Result<Header, BadLine>
    requires { lines.old.passed ≡ 0 }
    ensures { FindsHeading lines.old.rest.now result lines.new }
{
    // After a `for` over `by_ref()` no proof knows how far the lines were read.
    while let Some((line, text)) = lines.next() {
        let heading = read_heading(text).map_err(|error| BadLine { line, error })?;
        if let Some(header) = heading {
            return Ok(header);
        }
    }
    Err(BadLine {
        line: lines.passed + 1,
        error: LineError::NoHeading,
    })
}

// Writes what one line says into `tape` from `at` on, as the writers of a tape do, and answers where it ends.
fn write_line(header: &Header, line: &[u8], tape: &mut [u8], at: usize) -> Result<usize, LineError>
    requires { at ≤ length tape.old }
    ensures { WritesLine header.now.products line.now tape.old at result tape.new }
{
    let Some(entry) = read_entry(header, line)? else {
        return Ok(at);
    };
    write_record(header, &entry, tape, at).ok_or(LineError::TapeFull)
}

// Writes what the lines say. Not inlined, as `find_heading`.
#[inline(never)]
fn write_lines(
    header: &Header,
    lines: Lines,
    tape: &mut [u8],
    start: usize,
) -> Result<usize, BadLine>
    requires { start ≤ length tape.old }
    ensures { WritesLines header.now.products lines.entry.passed lines.entry.rest.now tape.old start result tape.new }
{
    let mut at = start;
    for (line, text) in lines {
        at = write_line(header, text, tape, at).map_err(|error| BadLine { line, error })?;
    }
    Ok(at)
}

// Writes the heading's header, and what the lines behind it say.
fn write_tape(header: &Header, lines: Lines, tape: &mut [u8]) -> Result<usize, BadLine>
    ensures { (text : List ℕ) → HeadedText text header.now lines.entry.passed lines.entry.rest.now → Makes (length tape.old) text tape.old result tape.new }
{
    let start = write_header(header, tape, 0).ok_or(BadLine {
        line: lines.passed,
        error: LineError::TapeFull,
    })?;
    write_lines(header, lines, tape, start)
}

// Makes the tape in all of `tape`.
fn fill_tape(text: &[u8], tape: &mut [u8]) -> Result<usize, BadLine>
    ensures { Makes (length tape.old) text.now tape.old result tape.new }
{
    let mut lines = Lines::new(text);
    let header = find_heading(&mut lines)?;
    write_tape(&header, lines, tape)
}

/// Makes the tape that `text` describes from the start of `tape`, and answers its length.
/// A bad line is named: then `tape` holds what the lines before it give.
/// A line with which the tape would pass 32,768 bytes, or the end of `tape`, is bad.
pub fn make_tape(text: &[u8], tape: &mut [u8]) -> Result<usize, BadLine>
    ensures makes { Makes (min (length tape.old) 32768) text.now tape.old result tape.new }
    ensures gives_back { GivesBack text.now tape.old result tape.new }
{
    let room = tape.len().min(MOST_BYTES);
    fill_tape(text, &mut tape[..room])
}
