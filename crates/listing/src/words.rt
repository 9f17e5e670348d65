ghost use Rattle.std.specs.Prelude.{◌≡◌};
ghost use Rattle.listing.specs.Lines.{before_comment, blank};
ghost use Rattle.listing.specs.Scanning.{FirstWord, ReadsNumber};

use crate::error::LineError;
use tape::field::Field;

fn is_blank(b: u8) -> bool
    ensures { result ≡ blank b }
{
    b == b' ' || b == b'\t' || b == b'\r'
}

// The line up to its comment.
pub(crate) fn before_comment(line: &[u8]) -> &[u8]
    ensures { result.now ≡ before_comment line.now }
{
    let end = line.iter().position(|b| *b == b'#').unwrap_or(line.len());
    &line[..end]
}

// The first word of `text` and what follows it; none where it has no word.
pub(crate) fn next_word(text: &[u8]) -> Option<(&[u8], &[u8])>
    ensures { FirstWord text.now result }
{
    let start = text.iter().position(|b| !is_blank(*b))?;
    let rest = &text[start..];
    let end = rest.iter().position(|b| is_blank(*b)).unwrap_or(rest.len());
    Some(rest.split_at(end))
}

// The number that `word` writes, where it is in range.
pub(crate) fn read_number<F: Field>(word: &[u8]) -> Result<F, LineError>
    ensures { ReadsNumber F.limit F.value_of word.now result }
{
    if word.is_empty() {
        return Err(LineError::NotANumber);
    }
    let mut number = F::ZERO;
    for digit in word {
        if !digit.is_ascii_digit() {
            return Err(LineError::NotANumber);
        }
        let value = number.value() * 10 + u64::from(digit - b'0');
        number = F::from_value(value).ok_or(LineError::TooLarge)?;
    }
    Ok(number)
}
