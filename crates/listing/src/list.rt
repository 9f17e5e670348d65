ghost use Rattle.listing.specs.Tapes.{Appended, Listed, RecordsListed};
ghost use Rattle.listing.specs.Text.{error_text, line as ended-line};
ghost use Rattle.std.specs.Prelude.{◌≡◌, ℕ, ◌≤◌, List, ◌++◌, length, is_ok, if◌then◌else◌};
ghost use Rattle.tape.specs.Reading.{Fit, Headed};

use crate::write::{LINE_ROOM, write_entry, write_error, write_heading};
use std::alloc::AllocError;
use tape::error::TapeError;
use tape::header::Header;
use tape::read::{read_header, read_record};

// Puts the line that says where a tape breaks behind `text`; `text` stays as it is where there is no memory.
fn push_error(error: TapeError, text: &mut Vec<u8>) -> Result<(), AllocError>
    ensures { text.new.items ≡ (if is_ok result then text.old.items ++ ended-line (error_text error) else text.old.items) }
{
    let mut line = [0u8; LINE_ROOM];
    let end = write_error(error, &mut line).unwrap();
    text.extend_from_slice(&line[..end])
}

// Puts a line for each of `records`, and where they break their refusal, behind `text`.
fn push_records(header: &Header, records: &[u8], text: &mut Vec<u8>) -> Result<(), AllocError>
    requires { Fit header.now.products }
    ensures { Appended (RecordsListed header.now.products records.now) text.old.items result text.new.items }
{
    let mut line = [0u8; LINE_ROOM];
    let mut rest = records;
    loop {
        match read_record(header, rest) {
            Ok(Some((entry, more))) => {
                let end = write_entry(header, &entry, &mut line).unwrap();
                text.extend_from_slice(&line[..end])?;
                rest = more;
            }
            Ok(None) => return Ok(()),
            Err(error) => return push_error(error, text),
        }
    }
}

// Puts the heading's line and the records' lines behind `text`.
fn push_listing(header: &Header, records: &[u8], text: &mut Vec<u8>) -> Result<(), AllocError>
    requires { Fit header.now.products }
    ensures { (t : List ℕ) → length t ≤ 32768 → Headed t header.now.book header.now.products header.now.kind records.now → Appended (Listed t) text.old.items result text.new.items }
{
    let mut line = [0u8; LINE_ROOM];
    let end = write_heading(header, &mut line).unwrap();
    text.extend_from_slice(&line[..end])?;
    push_records(header, records, text)
}

/// Puts the listing of `tape` behind `text`: its heading, a line for each record, and where it breaks its refusal.
/// A tape that is too long or has no header gives its refusal alone.
/// Where there is no memory, `text` begins with what it held.
pub fn list_tape(tape: &[u8], text: &mut Vec<u8>) -> Result<(), AllocError>
    ensures { Appended (Listed tape.now) text.old.items result text.new.items }
{
    match read_header(tape) {
        Ok((header, records)) => push_listing(&header, records, text),
        Err(error) => push_error(error, text),
    }
}
