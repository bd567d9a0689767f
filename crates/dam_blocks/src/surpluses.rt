//! The surplus of a block at the prices of a day, alone and together with its accepted descendants.

ghost use Rattle.std.specs.Prelude.{◌≡◌, ◌≤◌, ◌-ℤ◌, ◌*ℤ◌, ◌≤ℤ◌, pos, neg_ℤ, ◌*◌, length};
ghost use Rattle.dam_book.specs.Limits.{greatest_volume, last_period, most_blocks};
ghost use Rattle.dam_hour.specs.Limits.{price_span};
ghost use Rattle.dam_hour.specs.Best.{signed};
ghost use Rattle.dam_blocks.specs.Selection.{over_accepted};
ghost use Rattle.dam_blocks.specs.Family.{accepted_descendants};
ghost use Rattle.dam_blocks.specs.Eligible.{surplus_in, surplus_of, surplus_at, family_surplus};
ghost use Rattle.dam_blocks.specs.Magnitude.{IsWithin, greatest_gain, greatest_surplus};

use crate::block_effects::{cents_times_volume, signed, volume_in};
use crate::family::descends;
use crate::problem::Block;
use crate::selection::Selection;
use dam_book::{BlockOrder, LAST_PERIOD, MOST_BLOCKS, Period, Price};

/// The limit less the price, in cents per MWh.
fn difference(limit: Price, price: Price) -> i32
    ensures value { result ≡ limit -ℤ price }
    ensures low { neg_ℤ (pos price_span) ≤ℤ result }
    ensures high { result ≤ℤ pos price_span }
{
    limit.get() - price.get()
}

/// The surplus of a block at a price in a period in which it has this volume, in tenths of a MW; in cents
/// per MWh times tenths of a MW, and below 0 if it pays more or gets less than its limit.
fn surplus_at_price(order: &BlockOrder, price: Price, volume: u32) -> i64
    requires { volume ≤ greatest_volume }
    ensures value { result
        ≡ signed order.now.side ((order.now.price -ℤ price) *ℤ pos volume) }
    ensures size { IsWithin greatest_gain result }
{
    signed(
        order.side(),
        cents_times_volume(difference(order.price(), price), volume),
    )
}

fn surplus_in(order: &BlockOrder, period: Period, price: Price) -> i64
    ensures value { result ≡ surplus_in period price order.now }
    ensures low { neg_ℤ (pos greatest_gain) ≤ℤ result }
    ensures high { result ≤ℤ pos greatest_gain }
{
    surplus_at_price(order, price, volume_in(order.volumes(), period))
}

/// The surplus of a block at the prices, in cents per MWh times tenths of a MW; below 0 if it loses.
///
/// There is one price for each period of the day, in order; a block's periods past the list count
/// nothing. In each period it is the volume times (price less limit) for a sell, and the volume
/// times (limit less price) for a buy.
pub fn surplus(order: &BlockOrder, prices: &[Price]) -> i64
    requires { length prices.now ≤ last_period }
    ensures value { result ≡ surplus_of prices.now order.now }
    ensures size { IsWithin greatest_surplus result }
{
    let mut total = 0;
    for (place, price) in prices.iter().enumerate() {
        total += surplus_in(order, Period::at(place), *price);
    }
    total
}

/// The surplus of the block at a place; 0 if there is none.
fn surplus_at(blocks: &[Block], prices: &[Price], place: usize) -> i64
    requires { length prices.now ≤ last_period }
    ensures value { result ≡ surplus_at blocks.now prices.now place }
    ensures size { IsWithin greatest_surplus result }
{
    match blocks.get(place) {
        Some(block) => surplus(&block.order, prices),
        None => 0,
    }
}

/// The surpluses of the accepted blocks that descend from the one at a place.
fn surplus_of_descendants(
    blocks: &[Block],
    selection: Selection,
    prices: &[Price],
    place: usize,
) -> i64
    requires periods { length prices.now ≤ last_period }
    requires blocks { length blocks.now ≤ most_blocks }
    ensures value { result ≡ over_accepted (surplus_of prices.now) blocks.now
        (accepted_descendants blocks.now selection place) }
    ensures size { IsWithin (most_blocks * greatest_surplus) result }
{
    let mut total = 0;
    for (other, block) in blocks.iter().enumerate() {
        if selection.has(other) && descends(blocks, place, other) {
            total += surplus(&block.order, prices);
        }
    }
    total
}

/// The surplus of the accepted block at a place together with its accepted descendants, in cents per MWh
/// times tenths of a MW. In an eligible selection it is at least 0 for each accepted block (EUPHEMIA Public
/// Description, "Linked Block Orders").
///
/// The prices are the prices of the day's periods, from the first one on.
pub fn family_surplus(blocks: &[Block], selection: Selection, prices: &[Price], place: usize) -> i64
    requires periods { length prices.now ≤ last_period }
    requires blocks { length blocks.now ≤ most_blocks }
    ensures { result ≡ family_surplus blocks.now selection prices.now place }
{
    prove!(prices.len() <= usize::from(LAST_PERIOD) && blocks.len() <= MOST_BLOCKS);
    surplus_at(blocks, prices, place) + surplus_of_descendants(blocks, selection, prices, place)
}
