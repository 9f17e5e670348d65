ghost use Rattle.std.specs.Prelude.{◌≡◌, ◌+◌, ◌<◌, ◌≤◌, length, take, decimal};
ghost use Rattle.listing.specs.Text.{entry_text, error_text, heading_text, kind_name, line as ended-line, row_text};
ghost use Rattle.listing.specs.Writing.{Lined, Put};
ghost use Rattle.tape.specs.Format.{entry_of};

use tape::error::TapeError;
use tape::header::{Header, Kind};
use tape::number::write_number;
use tape::record::Record;
use tape::write::write_bytes;

/// The room that a line is written into; no line is longer.
pub const LINE_ROOM: usize = 256;

// Writes `text` into `line` from `at` on, and answers where it ends.
// The lent memory and a place in it go together here as in `tape::write`, which says why.
fn put_bytes(text: &[u8], line: &mut [u8], at: usize) -> usize
    requires { at + length text.now ≤ length line.old }
    ensures { Put line.old at text.now result line.new }
{
    write_bytes(text, line, at).unwrap()
}

// Writes `n` in decimal, as [`put_bytes`] does.
#[tactic(auto, using(crate::proofs::Puts::digits_of_word))]
fn put_number(n: u32, line: &mut [u8], at: usize) -> usize
    requires { at + 10 ≤ length line.old }
    ensures text { Put line.old at (decimal n) result line.new }
    ensures bound { result ≤ at + 10 }
{
    write_number(u64::from(n), line, at).unwrap()
}

// Writes a blank and a number for each of the first `n` cells, as a record has them. Not for any `Field`: in general no clause
// says that one is below its limit, so there might be no room.
fn put_row(cells: &[u32; 16], n: usize, line: &mut [u8], at: usize) -> usize
    requires { at + 176 ≤ length line.old }
    ensures text { Put line.old at (row_text (take n cells.now)) result line.new }
    ensures bound { result ≤ at + 176 }
{
    let mut end = at;
    for cell in &cells[..n.min(16)] {
        let blank = put_bytes(b" ", line, end);
        end = put_number(*cell, line, blank);
    }
    end
}

// The same numbers with 32 bits.
fn widened(quantities: &[u8; 16]) -> [u32; 16]
    ensures { result ≡ quantities.now }
{
    quantities.map(u32::from)
}

// Writes a record's letter and its row.
fn put_record(entry: &Record, n: usize, line: &mut [u8]) -> usize
    requires { 256 ≤ length line.old }
    ensures text { Put line.old 0 (entry_text (entry_of n entry.now)) result line.new }
    ensures bound { result < 256 }
{
    match entry {
        Record::Open(prices) => {
            let at = put_bytes(b"O", line, 0);
            put_row(prices, n, line, at)
        }
        Record::Offer(quantities) => {
            let at = put_bytes(b"T", line, 0);
            put_row(&widened(quantities), n, line, at)
        }
        Record::Confirm => put_bytes(b"C", line, 0),
        Record::Withdraw => put_bytes(b"W", line, 0),
        Record::Close => put_bytes(b"S", line, 0),
        Record::Sheet => put_bytes(b"V", line, 0),
    }
}

// Writes where a tape breaks.
fn put_error(error: TapeError, line: &mut [u8]) -> usize
    requires { 256 ≤ length line.old }
    ensures text { Put line.old 0 (error_text error) result line.new }
    ensures bound { result < 256 }
{
    let at = put_bytes(b"NO ", line, 0);
    put_number(u32::from(u8::from(error)), line, at)
}

fn kind_name(kind: Kind) -> &'static [u8]
    ensures { result.now ≡ kind_name kind }
{
    match kind {
        Kind::Plain => b"plain",
        Kind::Strict => b"strict",
    }
}

/// Writes the heading's line into `line`, which wants [`LINE_ROOM`] bytes, and answers its length;
/// none, and nothing written, where there are fewer.
pub fn write_heading(header: &Header, line: &mut [u8]) -> Option<usize>
    ensures { Lined line.old (ended-line (heading_text header.now.book header.now.products header.now.kind)) result line.new }
{
    if line.len() < LINE_ROOM {
        return None;
    }
    let at = put_bytes(b"book ", line, 0);
    let at = put_number(u32::from(header.book), line, at);
    let at = put_bytes(b" products ", line, at);
    let at = put_number(u32::from(header.products), line, at);
    let at = put_bytes(b" kind ", line, at);
    let at = put_bytes(kind_name(header.kind), line, at);
    Some(put_bytes(b"\n", line, at))
}

/// Writes a record's line into `line`, as [`write_heading`] does.
pub fn write_entry(header: &Header, entry: &Record, line: &mut [u8]) -> Option<usize>
    ensures { Lined line.old (ended-line (entry_text (entry_of header.now.products entry.now))) result line.new }
{
    if line.len() < LINE_ROOM {
        return None;
    }
    let at = put_record(entry, usize::from(header.products), line);
    Some(put_bytes(b"\n", line, at))
}

/// Writes the line that says where a tape breaks into `line`, as [`write_heading`] does.
pub fn write_error(error: TapeError, line: &mut [u8]) -> Option<usize>
    ensures { Lined line.old (ended-line (error_text error)) result line.new }
{
    if line.len() < LINE_ROOM {
        return None;
    }
    let at = put_error(error, line);
    Some(put_bytes(b"\n", line, at))
}
