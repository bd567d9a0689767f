//! The classes of a day's periods: two periods are in one class if every block has the same volume in both.

ghost use Rattle.std.specs.Prelude.{◌≡◌, ℕ, ◌<◌, ◌≤◌, length, slice_index_or};
ghost use Rattle.dam_book.specs.Limits.{last_period};
ghost use Rattle.dam_bound.specs.Classes.{are_alike, first_of_class};

use dam_blocks::{Block, MOST_PERIODS, volume_in};
use dam_book::Period;

/// Whether every block has the same volume in the periods at both places.
fn are_alike(blocks: &[Block], one: usize, other: usize) -> bool
    requires one { one < last_period }
    requires other { other < last_period }
    ensures { result ≡ are_alike blocks.now one other }
{
    let (one, other) = (Period::at(one), Period::at(other));
    for block in blocks {
        let volumes = block.order.volumes();
        if volume_in(volumes, one) != volume_in(volumes, other) {
            return false;
        }
    }
    true
}

/// The place of the first period of the class of the one at a place.
fn first_of_class(blocks: &[Block], at: usize) -> usize
    requires { at < last_period }
    ensures value { result ≡ first_of_class blocks.now at }
    ensures small { result ≤ at }
{
    for other in 0..at {
        if are_alike(blocks, other, at) {
            return other;
        }
    }
    at
}

/// For each of the first `count` periods the place of the first one of its class.
pub(crate) fn firsts_of_classes(blocks: &[Block], count: usize) -> [u32; MOST_PERIODS]
    requires { count ≤ last_period }
    ensures long { length result ≡ last_period }
    ensures each { (i d : ℕ) → i < count
        → slice_index_or result i d ≡ first_of_class blocks.now i }
{
    let mut firsts = [0; MOST_PERIODS];
    for at in 0..count {
        firsts[at] = first_of_class(blocks, at) as u32;
    }
    firsts
}
