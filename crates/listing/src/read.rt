ghost use Rattle.std.specs.Prelude.{◌≡◌, ℕ, ◌^◌, ◌<◌, ◌≤◌, [], ◌∷◌, Some, Ok, MatchResult, ◌≢◌};
ghost use Rattle.listing.specs.Lines.{said, words};
ghost use Rattle.listing.specs.Scanning.{HeadingBack, ReadsEntry, ReadsHeader, ReadsHeading, ReadsRecord, ReadsRow, TakesEnd, TakesKind, TakesNumber, TakesWord};
ghost use Rattle.listing.specs.Text.{entry_text, heading_text};
ghost use Rattle.tape.specs.Format.{Entry, Fits, record_of};
ghost use Rattle.tape.specs.Reading.{Fit};
ghost use Rattle.tape.specs.declared.header.Kind.{Kind as SaleKind};

use crate::error::LineError;
use crate::words::{before_comment, next_word, read_number};
use tape::field::Field;
use tape::header::{Header, Kind};
use tape::record::Record;

// Which `LineError` is told is for the user's eye: the contracts say when a line is refused, and not by which.

// The number that the first word writes, and what follows.
fn take_number<F: Field>(text: &[u8]) -> Result<(F, &[u8]), LineError>
    ensures { TakesNumber F.limit F.value_of text.now result }
{
    let (word, rest) = next_word(text).ok_or(LineError::WrongCount)?;
    let number = read_number(word)?;
    Ok((number, rest))
}

// What follows the first word, which has to be `name`.
fn take_word<'t>(text: &'t [u8], name: &[u8]) -> Result<&'t [u8], LineError>
    ensures { TakesWord name.now text.now result }
{
    match next_word(text) {
        Some((word, rest)) if word == name => Ok(rest),
        _ => Err(LineError::NotAHeading),
    }
}

// The kind that the first word names, and what follows.
fn take_kind(text: &[u8]) -> Result<(Kind, &[u8]), LineError>
    ensures { TakesKind text.now result }
{
    match next_word(text) {
        Some((word, rest)) if word == b"plain".as_slice() => Ok((Kind::Plain, rest)),
        Some((word, rest)) if word == b"strict".as_slice() => Ok((Kind::Strict, rest)),
        _ => Err(LineError::NotAHeading),
    }
}

// No word is left.
fn take_end(text: &[u8]) -> Result<(), LineError>
    ensures { TakesEnd text.now result }
{
    match next_word(text) {
        Some(_) => Err(LineError::WrongCount),
        None => Ok(()),
    }
}

// The header that the words of `text` say.
fn read_header(text: &[u8]) -> Result<Header, LineError>
    ensures { ReadsHeader (words text.now) result }
{
    let rest = take_word(text, b"book")?;
    let (book, rest) = take_number(rest)?;
    let rest = take_word(rest, b"products")?;
    // In 32 bits, so that 300 is told as no number of products, and not as too large.
    let (products, rest) = take_number::<u32>(rest)?;
    let rest = take_word(rest, b"kind")?;
    let (kind, rest) = take_kind(rest)?;
    take_end(rest)?;
    if !(1..=16).contains(&products) {
        return Err(LineError::BadProducts);
    }
    Ok(Header {
        book,
        products: products as u8,
        kind,
    })
}

/// Reads a heading's line; none where the line has no words.
pub fn read_heading(line: &[u8]) -> Result<Option<Header>, LineError>
    ensures reads { ReadsHeading (said line.now) result }
    ensures gives_back { (book products : ℕ) (kind : SaleKind) → book < 2 ^ 16 → Fit products → line.now ≡ heading_text book products kind → HeadingBack book products kind result }
{
    let text = before_comment(line);
    match next_word(text) {
        Some(_) => read_header(text).map(Some),
        None => Ok(None),
    }
}

// The row whose `n` numbers are the words of `text`; as `tape` reads its bytes: a reader handed in would bring the same
// contract with it, and be no plainer.
fn read_row<F: Field>(text: &[u8], n: usize) -> Result<[F; 16], LineError>
    requires { n ≤ 16 }
    ensures { ReadsRow F.ZERO F.limit F.value_of n (words text.now) result }
{
    let mut row = [F::ZERO; 16];
    let mut rest = text;
    for cell in row[..n].iter_mut() {
        let (number, more) = take_number(rest)?;
        *cell = number;
        rest = more;
    }
    take_end(rest)?;
    Ok(row)
}

// The record that its letter says alone: nothing follows in `text`.
fn read_bare(text: &[u8], found: Record) -> Result<Record, LineError>
    ensures { MatchResult result (λ x. (words text.now ≡ []) × (x ≡ found)) (λ _. words text.now ≢ []) }
{
    take_end(text)?;
    Ok(found)
}

// The record that `word` and the words of `text` say. Not inlined, so that a line with no words makes no room for a record.
#[inline(never)]
fn read_record(word: &[u8], text: &[u8], n: usize) -> Result<Record, LineError>
    requires { Fit n }
    ensures { ReadsRecord n (word.now ∷ words text.now) result }
{
    match word {
        b"O" => Ok(Record::Open(read_row(text, n)?)),
        b"T" => Ok(Record::Offer(read_row(text, n)?)),
        b"C" => read_bare(text, Record::Confirm),
        b"W" => read_bare(text, Record::Withdraw),
        b"S" => read_bare(text, Record::Close),
        b"V" => read_bare(text, Record::Sheet),
        _ => Err(LineError::UnknownRecord),
    }
}

/// Reads a record's line of a text with that heading; none where the line has no words.
/// Under a heading whose number of products is not 1 to 16 a line with words is refused.
pub fn read_entry(header: &Header, line: &[u8]) -> Result<Option<Record>, LineError>
    ensures reads { ReadsEntry header.now.products (said line.now) result }
    ensures gives_back { (e : Entry) → Fit header.now.products → Fits header.now.products e → line.now ≡ entry_text e → result ≡ Ok (Some (record_of e)) }
{
    let Some((word, text)) = next_word(before_comment(line)) else {
        return Ok(None);
    };
    let n = usize::from(header.products);
    if !(1..=16).contains(&n) {
        return Err(LineError::BadProducts);
    }
    Ok(Some(read_record(word, text, n)?))
}
