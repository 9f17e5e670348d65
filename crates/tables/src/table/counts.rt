ghost use Rattle.std.specs.Prelude.{◌≡◌, ◌≤◌};

use super::Table;

impl Table {
    /// How many products the sale has.
    pub fn products(&self) -> usize
        ensures { (result ≡ self.now.products) × (result ≤ 16) }
    {
        self.products
    }

    /// How many rounds there are.
    pub fn rounds(&self) -> usize
        ensures { (result ≡ self.now.rounds) × (result ≤ 128) }
    {
        self.rounds
    }

    /// How many packages are on the roll.
    pub fn packages(&self) -> usize
        ensures { (result ≡ self.now.packages) × (result ≤ 128) }
    {
        self.packages
    }
}
