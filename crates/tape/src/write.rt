//! Writers into lent memory: each takes the memory and a place, and answers the place behind what it wrote. A struct around
//! the `&mut` would hide what the rest of the memory holds for as long as it lives.

ghost use Rattle.std.specs.Prelude.{◌≡◌, ◌+◌, ◌≤◌, ◌∷◌, length, nat_le};
ghost use Rattle.std.specs.List.{flat_map};
ghost use Rattle.tape.specs.Format.{entry_bytes, entry_of, header_bytes};
ghost use Rattle.tape.specs.Writing.{laid, Wrote};

use crate::field::Field;
use crate::header::Header;
use crate::read::VERSION;
use crate::record::Record;

// Whether a buffer of `room` bytes has place for `need` of them from `at` on.
pub(crate) fn fits(room: usize, at: usize, need: usize) -> bool
    ensures { result ≡ nat_le (at + need) room }
{
    at <= room && need <= room - at
}

/// Writes `bytes` into `out` from `at` on, and answers where they end;
/// none, and nothing written, where `out` is too short.
pub fn write_bytes(bytes: &[u8], out: &mut [u8], at: usize) -> Option<usize>
    ensures { Wrote out.old at bytes.now result out.new }
{
    if !fits(out.len(), at, bytes.len()) {
        return None;
    }
    let end = at + bytes.len();
    out[at..end].copy_from_slice(bytes);
    Some(end)
}

/// Writes a header into `out` from `at` on, as [`write_bytes`] does.
pub fn write_header(header: &Header, out: &mut [u8], at: usize) -> Option<usize>
    ensures { Wrote out.old at (header_bytes header.now.book header.now.products header.now.kind) result out.new }
{
    let [version_high, version_low] = VERSION.to_be_bytes();
    let [book_high, book_low] = header.book.to_be_bytes();
    let bytes = [
        b'R',
        b'P',
        b'B',
        version_high,
        version_low,
        book_high,
        book_low,
        header.products,
        u8::from(header.kind),
    ];
    write_bytes(&bytes, out, at)
}

// Writes a record's letter and the numbers of its row, as [`write_bytes`] does.
fn write_row<F: Field>(letter: u8, row: &[F], out: &mut [u8], at: usize) -> Option<usize>
    requires { length row.now ≤ 16 }
    ensures { Wrote out.old at (letter ∷ flat_map F.bytes_of row.now) result out.new }
{
    if !fits(out.len(), at, 1 + F::WIDTH * row.len()) {
        return None;
    }
    out[at] = letter;
    let mut next = at + 1;
    // Each place is cut out first, so that the room is tested once, above.
    for number in row {
        let end = next + F::WIDTH;
        number.write(&mut out[next..end], 0)?;
        next = end;
    }
    Some(next)
}

/// Writes a record of a tape with that header into `out` from `at` on, as [`write_bytes`] does.
pub fn write_record(header: &Header, record: &Record, out: &mut [u8], at: usize) -> Option<usize>
    ensures { Wrote out.old at (entry_bytes (entry_of header.now.products «record».now)) result out.new }
{
    let n = (header.products as usize).min(16);
    match record {
        Record::Open(prices) => write_row(b'O', &prices[0..n], out, at),
        Record::Offer(quantities) => write_row(b'T', &quantities[0..n], out, at),
        Record::Confirm => write_bytes(b"C", out, at),
        Record::Withdraw => write_bytes(b"W", out, at),
        Record::Close => write_bytes(b"S", out, at),
        Record::Sheet => write_bytes(b"V", out, at),
    }
}
