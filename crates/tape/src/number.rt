ghost use Rattle.std.specs.Prelude.{◌≡◌, ◌+◌, ◌<◌, ◌≤◌, ◌∷◌, length, decimal, slice_set};
ghost use Rattle.std.specs.Fmt.{signed_decimal};
ghost use Rattle.tape.specs.Numbers.{Decimal, Signed};
ghost use Rattle.tape.specs.Writing.{laid, Wrote};

// The lent memory and a place in it go together here as in `write`, which says why.
use crate::write::fits;

// How many digits `n` has.
fn digit_count(n: u64) -> usize
    ensures value { result ≡ length (decimal n) }
    ensures bound { result ≤ 20 }
{
    n.max(1).ilog10() as usize + 1
}

// Writes one digit into `line` at `at`, and answers the place behind it.
fn put_digit(digit: u8, line: &mut [u8], at: usize) -> usize
    requires { (digit < 10) × (at < length line.old) }
    ensures next { result ≡ at + 1 }
    ensures bytes { line.new ≡ slice_set line.old at (48 + digit) }
{
    line[at] = b'0' + digit;
    at + 1
}

// Writes the digits of `n` into `line` from `at` on, and answers where they end: its tenth part, then its last digit.
// The project's form for digits: a recursion on the falling number, into lent memory.
fn put_digits(n: u64, line: &mut [u8], at: usize) -> usize
    requires { at + length (decimal n) ≤ length line.old }
    ensures next { result ≡ at + length (decimal n) }
    ensures bytes { line.new ≡ laid line.old at (decimal n) }
{
    if n < 10 {
        return put_digit(n as u8, line, at);
    }
    let end = put_digits(n / 10, line, at);
    put_digit((n % 10) as u8, line, end)
}

/// Writes `n` in decimal into `line` from `at` on, and answers where it ends;
/// none, and nothing written, where `line` is too short.
pub fn write_number(n: u64, line: &mut [u8], at: usize) -> Option<usize>
    ensures wrote { Wrote line.old at (decimal n) result line.new }
    ensures notation { Decimal n (decimal n) }
{
    if !fits(line.len(), at, digit_count(n)) {
        return None;
    }
    Some(put_digits(n, line, at))
}

// Writes a minus sign and `size`, as [`write_number`] does.
fn write_negative(size: u64, line: &mut [u8], at: usize) -> Option<usize>
    ensures { Wrote line.old at (45 ∷ decimal size) result line.new }
{
    if !fits(line.len(), at, 1 + digit_count(size)) {
        return None;
    }
    line[at] = b'-';
    Some(put_digits(size, line, at + 1))
}

/// Writes `n` as [`write_number`] does, with a minus sign before a number below zero.
pub fn write_signed(n: i64, line: &mut [u8], at: usize) -> Option<usize>
    ensures wrote { Wrote line.old at (signed_decimal n) result line.new }
    ensures notation { Signed n (signed_decimal n) }
{
    let size = n.unsigned_abs();
    if n < 0 {
        write_negative(size, line, at)
    } else {
        write_number(size, line, at)
    }
}
