ghost use Rattle.std.specs.Prelude.{◌≡◌, ℕ, ◌^◌, ◌<◌, ◌≤◌, List, ◌++◌, length, MatchOption, MatchResult};
ghost use Rattle.tape.specs.Fields.{FieldLaws, itself, narrowed, be8_laws, be16_laws, be32_laws};
ghost use Rattle.tape.specs.Format.{be8, be16, be32};
ghost use Rattle.tape.specs.Writing.{Wrote};

use crate::write::write_bytes;
use std::num::TryFromIntError;

/// A number as a tape holds it: a quantity has one byte, a book two and a price four, the highest first.
pub trait Field: Copy + Into<u64> + TryFrom<u64, Error = TryFromIntError> {
    ghost WIDTH: { ℕ };

    ghost ZERO: { Self };

    // One above the largest number.
    ghost limit: { ℕ };

    ghost value_of: { Self → ℕ };

    ghost bytes_of: { Self → List ℕ };

    /// How many bytes it has.
    const WIDTH: usize;

    /// The number zero.
    const ZERO: Self;

    /// The number alone.
    final fn value(self) -> u64
        ensures { result ≡ value_of self }
    {
        self.into()
    }

    /// The number of that value; none where it is too large.
    final fn from_value(value: u64) -> Option<Self>
        ensures { MatchOption result (limit ≤ value) (λ x. (value_of x ≡ value) × (value < limit)) }
    {
        Self::try_from(value).ok()
    }

    /// Reads the number at the front of `tape`, and answers it and the rest; none where `tape` is too short.
    fn read(tape: &[u8]) -> Option<(Self, &[u8])>
        ensures { MatchOption result (length tape.now < WIDTH) (λ p. (value_of p.0 < limit) × (tape.now ≡ bytes_of p.0 ++ p.1.now)) };

    /// Writes the number into `out` from `at` on, as [`write_bytes`] does.
    fn write(self, out: &mut [u8], at: usize) -> Option<usize>
        ensures { Wrote out.old at (bytes_of self) result out.new };

    ghost laws: { FieldLaws WIDTH ZERO limit value_of bytes_of };

    // The conversions keep the value.
    ghost into_law: { (x : Self) (value : ℕ) → Self.Into.converts x value → value ≡ value_of x };

    ghost try_from_law: { (value : ℕ) (r : _) → Self.TryFrom.try_from_gives value r
        → MatchResult r (λ x. (value_of x ≡ value) × (value < limit)) (λ _. limit ≤ value) };
}

impl Field for u8 {
    ghost WIDTH = { 1 };

    ghost ZERO = { 0 };

    ghost limit = { 2 ^ 8 };

    ghost value_of = { itself };

    ghost bytes_of = { be8 };

    ghost laws = { be8_laws };

    ghost into_law = { λ x value e. e };

    ghost try_from_law = { narrowed (2 ^ 8) };

    const WIDTH: usize = 1;

    const ZERO: u8 = 0;

    fn read(tape: &[u8]) -> Option<(u8, &[u8])> {
        let (number, rest) = tape.split_first()?;
        Some((*number, rest))
    }

    fn write(self, out: &mut [u8], at: usize) -> Option<usize> {
        write_bytes(&[self], out, at)
    }
}

impl Field for u16 {
    ghost WIDTH = { 2 };

    ghost ZERO = { 0 };

    ghost limit = { 2 ^ 16 };

    ghost value_of = { itself };

    ghost bytes_of = { be16 };

    ghost laws = { be16_laws };

    ghost into_law = { λ x value e. e };

    ghost try_from_law = { narrowed (2 ^ 16) };

    const WIDTH: usize = 2;

    const ZERO: u16 = 0;

    fn read(tape: &[u8]) -> Option<(u16, &[u8])> {
        let [high, low, rest @ ..] = tape else {
            return None;
        };
        Some((u16::from_be_bytes([*high, *low]), rest))
    }

    fn write(self, out: &mut [u8], at: usize) -> Option<usize> {
        write_bytes(&u16::to_be_bytes(self), out, at)
    }
}

impl Field for u32 {
    ghost WIDTH = { 4 };

    ghost ZERO = { 0 };

    ghost limit = { 2 ^ 32 };

    ghost value_of = { itself };

    ghost bytes_of = { be32 };

    ghost laws = { be32_laws };

    ghost into_law = { λ x value e. e };

    ghost try_from_law = { narrowed (2 ^ 32) };

    const WIDTH: usize = 4;

    const ZERO: u32 = 0;

    fn read(tape: &[u8]) -> Option<(u32, &[u8])> {
        let [a, b, c, d, rest @ ..] = tape else {
            return None;
        };
        Some((u32::from_be_bytes([*a, *b, *c, *d]), rest))
    }

    fn write(self, out: &mut [u8], at: usize) -> Option<usize> {
        write_bytes(&u32::to_be_bytes(self), out, at)
    }
}
