//! The effect of blocks on a period: one block alone, and the accepted ones of a list together.

ghost use Rattle.std.specs.Prelude.{◌≡◌, ◌≤◌, ◌≤ℤ◌, ◌*ℤ◌, pos, neg_ℤ, length};
ghost use Rattle.dam_book.specs.Limits.{greatest_volume, most_blocks};
ghost use Rattle.dam_hour.specs.Limits.{greatest_net, price_span, greatest_value};
ghost use Rattle.dam_hour.specs.Best.{signed};
ghost use Rattle.dam_hour.specs.Execution.{IsNetVolume};
ghost use Rattle.dam_blocks.specs.Selection.{volume_in, net_volume_of_block, bought_volume_of_block, value_in, net_volume, bought_volume, accepted_value};
ghost use Rattle.dam_blocks.specs.Magnitude.{IsWithin, greatest_block_value_in_period, greatest_gain};

use crate::problem::Block;
use crate::selection::Selection;
use dam_book::{BlockOrder, Period, Side, Volumes};

/// The volume in a period, in tenths of a MW; 0 if there is none.
pub fn volume_in(volumes: &Volumes, period: Period) -> u32
    ensures value { result ≡ volume_in volumes.now period }
    ensures small { result ≤ greatest_volume }
{
    let pairs = volumes.pairs();
    for (own, qty) in pairs {
        if *own == period {
            return qty.get();
        }
    }
    0
}

/// The amount for a buy, and the amount with the other sign for a sell.
pub(crate) fn signed(side: Side, amount: i64) -> i64
    requires at_least { neg_ℤ (pos greatest_gain) ≤ℤ amount }
    requires at_most { amount ≤ℤ pos greatest_gain }
    ensures { result ≡ signed side amount }
{
    match side {
        Side::Buy => amount,
        Side::Sell => -amount,
    }
}

/// The product of cents per MWh and tenths of a MW.
pub(crate) fn cents_times_volume(cents: i32, volume: u32) -> i64
    requires at_least { neg_ℤ (pos price_span) ≤ℤ cents }
    requires at_most { cents ≤ℤ pos price_span }
    requires volume { volume ≤ greatest_volume }
    ensures value { result ≡ cents *ℤ pos volume }
    ensures low { neg_ℤ (pos greatest_gain) ≤ℤ result }
    ensures high { result ≤ℤ pos greatest_gain }
{
    i64::from(cents) * i64::from(volume)
}

/// The change of the net volume of a period by an accepted block, in tenths of a MW: its volume there
/// if it sells, and minus its volume if it buys.
pub fn net_volume_of_block(order: &BlockOrder, period: Period) -> i64
    ensures value { result ≡ net_volume_of_block period order.now }
    ensures low { neg_ℤ (pos greatest_volume) ≤ℤ result }
    ensures high { result ≤ℤ pos greatest_volume }
{
    let volume = i64::from(volume_in(order.volumes(), period));
    -signed(order.side(), volume)
}

/// A block's volume in a period if it buys, in tenths of a MW; 0 if it sells.
pub fn bought_volume_of_block(order: &BlockOrder, period: Period) -> u32
    ensures value { pos result ≡ bought_volume_of_block period order.now }
    ensures small { result ≤ greatest_volume }
{
    let volume = volume_in(order.volumes(), period);
    match order.side() {
        Side::Buy => volume,
        Side::Sell => 0,
    }
}

/// A block's limit times its volume in a period, in cents per MWh times tenths of a MW, with the other
/// sign if it sells.
pub fn value_in(order: &BlockOrder, period: Period) -> i64
    ensures value { result ≡ value_in period order.now }
    ensures size { IsWithin greatest_value result }
{
    let volume = volume_in(order.volumes(), period);
    signed(
        order.side(),
        cents_times_volume(order.price().get(), volume),
    )
}

/// The accepted sell blocks' volume in a period less the accepted buy blocks', in tenths of a MW.
///
/// The selection's places are the places of the list.
pub fn net_volume(blocks: &[Block], selection: Selection, period: Period) -> i64
    requires { length blocks.now ≤ most_blocks }
    ensures value { result ≡ net_volume blocks.now selection period }
    ensures valid { IsNetVolume result }
{
    let mut total = 0;
    for (place, block) in blocks.iter().enumerate() {
        if selection.has(place) {
            total += net_volume_of_block(&block.order, period);
        }
    }
    total
}

/// The accepted buy blocks' volume in a period, in tenths of a MW.
pub fn bought_volume(blocks: &[Block], selection: Selection, period: Period) -> u64
    requires { length blocks.now ≤ most_blocks }
    ensures value { pos result ≡ bought_volume blocks.now selection period }
    ensures small { result ≤ greatest_net }
{
    let mut total = 0;
    for (place, block) in blocks.iter().enumerate() {
        if selection.has(place) {
            total += u64::from(bought_volume_of_block(&block.order, period));
        }
    }
    total
}

/// The accepted buy blocks' limit times volume in a period less the accepted sell blocks', in cents
/// per MWh times tenths of a MW.
pub fn accepted_value(blocks: &[Block], selection: Selection, period: Period) -> i64
    requires { length blocks.now ≤ most_blocks }
    ensures value { result ≡ accepted_value blocks.now selection period }
    ensures size { IsWithin greatest_block_value_in_period result }
{
    let mut total = 0;
    for (place, block) in blocks.iter().enumerate() {
        if selection.has(place) {
            total += value_in(&block.order, period);
        }
    }
    total
}
