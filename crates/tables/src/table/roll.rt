ghost use Rattle.std.specs.Prelude.{◌≡◌, ◌+◌, ◌*◌, true, false, ◌++◌, length, drop, is_some, nat_le};
ghost use Rattle.std.specs.Bool.{then_some};
ghost use Rattle.chains.specs.Rounds.{roll};
ghost use Rattle.tables.specs.Readings.{roll_bytes};
ghost use Rattle.tables.specs.View.{rounds};

use super::Table;

impl Table {
    /// Writes the packages on the roll one after the other, a byte a quantity, and answers how many. None, and nothing
    /// is changed, where they do not fit.
    pub fn write_roll(&self, bytes: &mut [u8]) -> Option<usize>
        ensures value { result ≡ then_some (nat_le (length (roll (rounds self.now)) * self.now.products) (length bytes.old)) (length (roll (rounds self.now))) }
        ensures after { is_some result ≡ true → bytes.new ≡ roll_bytes (rounds self.now) ++ drop (length (roll_bytes (rounds self.now))) bytes.old }
        ensures refused { is_some result ≡ false → bytes.new ≡ bytes.old }
    {
        if bytes.len() < self.packages * self.products {
            return None;
        }
        // By place: with no products a row has no cells, and no chunk has size 0.
        for (k, cells) in self.rows[..self.packages].iter().enumerate() {
            let at = k * self.products;
            bytes[at..at + self.products].copy_from_slice(&cells[..self.products]);
        }
        Some(self.packages)
    }
}
