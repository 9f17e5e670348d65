ghost use Rattle.std.specs.Prelude.{◌≡◌, ◌^◌, ◌≤◌, take, pos, ◌-ℤ◌, unsigned_abs};
ghost use Rattle.chains.specs.Rows.{cost};
ghost use Rattle.chains.specs.Steps.{step_at};

use worth::{OrderedWorth, Worth, difference};

/// What a package costs at a row of prices, in a sale of so many products: a row is the first cells, one a product.
// Rows are arrays: over slices the bound would need a limit on their length, which arrays have in their type.
pub fn cost_of(quantities: &[u8; 16], prices: &[u32; 16], products: usize) -> u64
    ensures value { result ≡ cost (take products quantities.now) (take products prices.now) }
    ensures bound { result ≤ 2 ^ 44 }
{
    let mut sum = 0;
    // With its index: every product counts once, in row order, as the house adds up a cost.
    for (i, quantity) in quantities[..products.min(16)].iter().enumerate() {
        sum += *quantity as u64 * prices[i] as u64;
    }
    sum
}

// What one package costs more than another at a row of prices.
fn cost_more(from: &[u8; 16], to: &[u8; 16], prices: &[u32; 16], products: usize) -> i64
    ensures value { result ≡ pos (cost (take products to.now) (take products prices.now)) -ℤ pos (cost (take products from.now) (take products prices.now)) }
    ensures bound { unsigned_abs result ≤ 2 ^ 44 }
{
    cost_of(to, prices, products) as i64 - cost_of(from, prices, products) as i64
}

/// The step from one package to another at a row of prices: what the other costs more, as an amount, less the notch.
pub fn step<W: OrderedWorth>(
    from: &[u8; 16],
    to: &[u8; 16],
    prices: &[u32; 16],
    products: usize,
) -> W
    ensures value { W.Worth.meaning result ≡ step_at W.Worth.group (take products from.now) (take products to.now) (take products prices.now) }
    ensures bound { W.Worth.group.size (W.Worth.meaning result) ≤ 2 ^ 45 }
{
    let more = cost_more(from, to, prices, products);
    difference(&W::amount(more), &W::notch())
}
