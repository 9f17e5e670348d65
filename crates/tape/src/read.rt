ghost use Rattle.std.specs.Prelude.{◌≡◌, ℕ, ◌+◌, ◌*◌, ◌<◌, ◌≤◌, List, ◌++◌, length, IfOk, OnErr};
ghost use Rattle.tape.specs.Format.{Entry, entry_bytes, Fits};
ghost use Rattle.tape.specs.Reading.{EntryBack, Fit, Headed, HeaderBack, Heads, Reads, ReadsBehind, RowRead, SameBytes};
ghost use Rattle.tape.specs.declared.header.Kind.{Kind};

use crate::error::TapeError;
use crate::field::Field;
use crate::header::{Header, Kind};
use crate::record::Record;

/// The most bytes that a tape has.
pub const MOST_BYTES: usize = 32_768;

/// The version of the format.
pub const VERSION: u16 = 1;

/// Reads a tape's header; the records are what follows it.
pub fn read_header(tape: &[u8]) -> Result<(Header, &[u8]), TapeError>
    ensures reads { Heads tape.now result }
    ensures gives_back { (book products : ℕ) (kind : Kind) (rest : List ℕ) → length tape.now ≤ 32768 → Headed tape.now book products kind rest → HeaderBack book products kind rest result }
{
    if tape.len() > MOST_BYTES {
        return Err(TapeError::TooLong);
    }
    // The project's form for a header: one slice pattern that names its bytes, with the records as the rest.
    let [
        b'R',
        b'P',
        b'B',
        version_high,
        version_low,
        book_high,
        book_low,
        products,
        kind,
        records @ ..,
    ] = tape
    else {
        return Err(TapeError::BadHeader);
    };
    if u16::from_be_bytes([*version_high, *version_low]) != VERSION {
        return Err(TapeError::BadHeader);
    }
    let kind = Kind::try_from(*kind).map_err(|_| TapeError::BadHeader)?;
    if *products < 1 || *products > 16 {
        return Err(TapeError::BadHeader);
    }
    let header = Header {
        book: u16::from_be_bytes([*book_high, *book_low]),
        products: *products,
        kind,
    };
    Ok((header, records))
}

// The row of `n` numbers at the front of `tape`, and the rest. (`listing` reads a row of words likewise.)
fn read_row<F: Field>(tape: &[u8], n: usize) -> Result<([F; 16], &[u8]), TapeError>
    requires { n ≤ 16 }
    ensures row { IfOk result (λ p. RowRead F.ZERO F.limit F.value_of F.bytes_of 16 n tape.now p.0 p.1.now) }
    ensures cut_off { OnErr result ((result ≡ Err TapeError.CutOff) × (length tape.now < F.WIDTH * n)) }
{
    let mut row = [F::ZERO; 16];
    let mut rest = tape;
    for cell in row[..n].iter_mut() {
        let (number, more) = F::read(rest).ok_or(TapeError::CutOff)?;
        *cell = number;
        rest = more;
    }
    Ok((row, rest))
}

// The record of that letter, whose row stands at the front of `tape`, and the rest.
fn read_behind(letter: u8, tape: &[u8], n: usize) -> Result<(Record, &[u8]), TapeError>
    requires { n ≤ 16 }
    ensures { ReadsBehind n letter tape.now result }
{
    match letter {
        b'O' => {
            let (prices, rest) = read_row(tape, n)?;
            Ok((Record::Open(prices), rest))
        }
        b'T' => {
            let (quantities, rest) = read_row(tape, n)?;
            Ok((Record::Offer(quantities), rest))
        }
        b'C' => Ok((Record::Confirm, tape)),
        b'W' => Ok((Record::Withdraw, tape)),
        b'S' => Ok((Record::Close, tape)),
        b'V' => Ok((Record::Sheet, tape)),
        _ => Err(TapeError::UnknownLetter),
    }
}

/// Reads the record at the front of `tape`, which is what is left of the records of a tape with that header:
/// the record and the rest, or none where the tape is at its end.
/// A header whose number of products is not 1 to 16 is refused.
pub fn read_record<'t>(
    header: &Header,
    tape: &'t [u8],
) -> Result<Option<(Record, &'t [u8])>, TapeError>
    ensures reads { Reads header.now.products tape.now result }
    ensures same_bytes { SameBytes header.now.products tape.now result }
    ensures gives_back { (e : Entry) (rest : List ℕ) → Fit header.now.products → Fits header.now.products e → tape.now ≡ entry_bytes e ++ rest → EntryBack e rest result }
{
    let n = header.products as usize;
    if n < 1 || n > 16 {
        return Err(TapeError::BadHeader);
    }
    let [letter, rest @ ..] = tape else {
        return Ok(None);
    };
    let front = read_behind(*letter, rest, n)?;
    Ok(Some(front))
}
