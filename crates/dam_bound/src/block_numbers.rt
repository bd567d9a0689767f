//! Numbers of the blocks at their places, and sums of them. All loops are over whole arrays and without branches, since a
//! search spends its time in them.

ghost use Rattle.std.specs.Prelude.{◌≡◌, ◌*◌, ◌<◌, ◌≤◌, ℕ, All};
ghost use Rattle.dam_book.specs.Limits.{most_blocks, last_period, greatest_volume};
ghost use Rattle.dam_hour.specs.Limits.{greatest_net, greatest_price, greatest_value};
ghost use Rattle.dam_blocks.specs.Magnitude.{IsWithin};
ghost use Rattle.dam_bound.specs.inside.BlockNumbers.{AreNumbersWithin, AreWeights, AreCounts, weighted_sum, AreRaised};

use dam_blocks::Selection;
use dam_book::MOST_BLOCKS;

/// 1 for each accepted place, and 0 for the others.
pub(crate) fn acceptance_weights(selection: Selection) -> [i32; MOST_BLOCKS]
    ensures counts { AreCounts selection result }
    ensures weights { AreWeights result }
{
    let mut counts = [0; MOST_BLOCKS];
    for place in 0..MOST_BLOCKS {
        counts[place] = i32::from(selection.has(place));
    }
    counts
}

/// 2 for each place that is accepted, 1 for each that is left open, and 0 for the others.
pub(crate) fn doubled_weights(accepted: Selection, undecided: &[u8]) -> [i32; MOST_BLOCKS]
    requires { All (λ place. place < most_blocks) undecided.now }
    ensures { AreWeights result }
{
    let mut weights = [0; MOST_BLOCKS];
    for place in 0..MOST_BLOCKS {
        weights[place] = 2 * i32::from(accepted.has(place));
    }
    for place in undecided {
        weights[usize::from(*place)] = 1;
    }
    weights
}

/// The net volumes of the blocks, each times its weight, added up.
#[inline(always)]
pub(crate) fn weighted_sum(weights: &[i32; MOST_BLOCKS], nets: &[i32; MOST_BLOCKS]) -> i32
    requires weights { AreWeights weights.now }
    requires nets { AreNumbersWithin greatest_volume nets.now }
    ensures value { result ≡ weighted_sum weights.now nets.now }
    ensures size { IsWithin (2 * greatest_net) result }
{
    let mut total = 0;
    for place in 0..MOST_BLOCKS {
        total += weights[place] * nets[place];
    }
    total
}

/// Adds the price times its net volume to each block's gain.
#[inline(always)]
pub(crate) fn add_priced_nets(gains: &mut [i64; MOST_BLOCKS], nets: &[i32; MOST_BLOCKS], price: i32)
    requires gains { (n : ℕ) × (n ≤ last_period)
        × AreNumbersWithin (n * (last_period * greatest_value)) gains.old }
    requires nets { AreNumbersWithin greatest_volume nets.now }
    requires price { IsWithin (last_period * greatest_price) price }
    ensures { AreRaised price nets.now gains.old gains.new }
{
    for place in 0..MOST_BLOCKS {
        gains[place] += i64::from(nets[place]) * i64::from(price);
    }
}
