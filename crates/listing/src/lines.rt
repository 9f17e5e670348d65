ghost use Rattle.std.specs.Prelude.{◌≡◌, ◌+◌, ◌^◌, ◌<◌, length};
ghost use Rattle.std.specs.Iterator.{at_most};
ghost use Rattle.listing.specs.Scanning.{FirstLine};

/// The lines of a text that are still to be read, each with its number.
#[derive(Drop)]
pub(crate) struct Lines<'t> {
    pub(crate) rest: &'t [u8],
    /// How many lines stand before the rest.
    pub(crate) passed: usize,
    ghost counted: { passed + length rest.now < 2 ^ 63 },
}

impl<'t> Lines<'t> {
    pub(crate) fn new(text: &'t [u8]) -> Lines<'t>
        ensures rest { result.rest.now ≡ text.now }
        ensures passed { result.passed ≡ 0 }
    {
        Lines {
            rest: text,
            passed: 0,
        }
    }
}

impl<'t> Iterator for Lines<'t> {
    ghost use Rattle.listing.specs.Making.{TakesLine};

    type Item = (usize, &'t [u8]);

    ghost next_gives = { TakesLine };

    ghost remaining = { λ s. at_most (length s.rest.now) };

    fn next(&mut self) -> Option<(usize, &'t [u8])> {
        let (line, rest) = next_line(self.rest)?;
        self.rest = rest;
        self.passed += 1;
        Some((self.passed, line))
    }
}

// The first line of `text` and what follows it; none where `text` is empty.
fn next_line(text: &[u8]) -> Option<(&[u8], &[u8])>
    ensures { FirstLine text.now result }
{
    if text.is_empty() {
        return None;
    }
    let end = text.iter().position(|b| *b == b'\n').unwrap_or(text.len());
    let next = text.len().min(end + 1);
    Some((&text[..end], &text[next..]))
}
