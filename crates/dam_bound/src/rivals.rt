//! Pairs of blocks of which one loses if both are accepted.

ghost use Rattle.std.specs.Prelude.{◌≡◌, ◌<◌, ◌≤◌, ◌*◌, ℕ, ℤ, ◌*ℤ◌, ◌≤ℤ◌, true, false, List, Bool, length, IfSome};
ghost use Rattle.dam_book.specs.Limits.{last_period, greatest_volume};
ghost use Rattle.dam_hour.specs.Limits.{greatest_value};
ghost use Rattle.dam_curve.specs.PriceRange.{IsSmallRange};
ghost use Rattle.dam_blocks.specs.Selection.{accepts};
ghost use Rattle.dam_blocks.specs.Eligible.{IsEligible};
ghost use Rattle.dam_blocks.specs.Magnitude.{IsWithin};
ghost use Rattle.dam_bound.specs.inside.Rivals.{AreVolumes, weigh, IsMost};

use crate::class_curves::ClassCurves;
use dam_blocks::laws;
use dam_curve::PriceRange;
use std::alloc::Allocator;

/// The weights of two blocks in a sum.
#[derive(Clone, Copy)]
pub(crate) struct Weights {
    pub(crate) sell: i64,
    pub(crate) buy: i64,
}

impl Weights {
    /// Two numbers, each times its weight, added up.
    fn weigh(self, sell: i64, buy: i64) -> i64
        requires weights { AreVolumes self }
        requires sell { IsWithin (last_period * greatest_value) sell }
        requires buy { IsWithin (last_period * greatest_value) buy }
        ensures value { result ≡ weigh self sell buy }
        ensures size { (n : ℕ) → IsWithin n sell → IsWithin n buy
            → IsWithin (2 * (greatest_volume * n)) result }
    {
        self.sell * sell + self.buy * buy
    }
}

/// The greatest product of a volume and a price of the range.
#[inline(always)]
pub(crate) fn greatest_product(volume: i64, range: PriceRange) -> i64
    requires volume { IsWithin (2 * (greatest_volume * greatest_volume)) volume }
    requires range { IsSmallRange last_period range }
    ensures { (price : ℤ) → range.lowest ≤ℤ price → price ≤ℤ range.highest
        → (price *ℤ volume) ≤ℤ result }
{
    (volume * i64::from(range.lowest)).max(volume * i64::from(range.highest))
}

impl<A: Allocator, B: Allocator> ClassCurves<'_, A, B> {
    /// Whether at least one of two blocks loses at the prices of any selection that accepts both, so that no eligible one
    /// does. It is `true` only if the first sells and the second buys in a same class. It may be `false` even if they
    /// are rivals; it is if another block descends from one of them. Takes no memory.
    ///
    /// The prices of a class fall as its net volume rises, so they lie between those at its greatest and at its least net
    /// volume. If the two surpluses, weighed so that the volumes cancel in some class, are below 0 together at the best
    /// such price of each class, one of them is below 0 at all prices.
    pub fn are_rivals(&self, sell: usize, buy: usize) -> bool
        requires sell { sell < length self.now.blocks }
        requires buy { buy < length self.now.blocks }
        ensures { result ≡ true → (selection : List Bool) (w : ℤ)
            → IsEligible self.now selection w
            → accepts selection sell ≡ true → accepts selection buy ≡ false }
    {
        laws::accepted_descendants_descend();
        if self.families[sell].is_some() || self.families[buy].is_some() {
            return false;
        }
        let Some(weights) = self.cancelling_weights(sell, buy) else {
            return false;
        };
        match self.most_weighed_surplus(sell, buy, weights) {
            Some(most) => most < 0,
            None => false,
        }
    }

    /// The weights at which the volumes of the two blocks cancel in the first class in which one sells and the other buys;
    /// nothing if there is none.
    fn cancelling_weights(&self, sell: usize, buy: usize) -> Option<Weights>
        requires sell { sell < length self.now.blocks }
        requires buy { buy < length self.now.blocks }
        ensures { IfSome result (λ weights. AreVolumes weights) }
    {
        for class in &self.classes {
            let sold = i64::from(class.nets[sell]);
            let bought = -i64::from(class.nets[buy]);
            if sold > 0 && bought > 0 {
                return Some(Weights {
                    sell: bought,
                    buy: sold,
                });
            }
        }
        None
    }

    /// An upper bound on the two blocks' surpluses at the prices of a selection that accepts both, each times its weight,
    /// added up; nothing if it is too large for an `i64`.
    fn most_weighed_surplus(&self, sell: usize, buy: usize, weights: Weights) -> Option<i64>
        requires sell { sell < length self.now.blocks }
        requires buy { buy < length self.now.blocks }
        requires weights { AreVolumes weights }
        ensures { IfSome result (λ most. IsMost self.now sell buy weights most) }
    {
        let values = &self.values;
        let mut most = weights.weigh(values[sell], values[buy]);
        for class in &self.classes {
            let volume = weights.weigh(i64::from(class.nets[sell]), i64::from(class.nets[buy]));
            let range = self.curves.price_range(class.curve);
            let Some(sum) = most.checked_add(greatest_product(volume, range)) else {
                return None;
            };
            most = sum;
        }
        Some(most)
    }
}
