//! The promises of one period to those who trade in it, each the contract of a function that does nothing. In them
//! `net` is the period's net volume: the sold less the bought volume of the accepted blocks.

ghost use Rattle.std.specs.Prelude.{◌≡◌, ℕ, ◌≤◌, ◌<◌, ℤ, pos, ◌≤ℤ◌, List, IsPermutation};
ghost use Rattle.dam_book.specs.declared.order.Side.{Side};
ghost use Rattle.dam_hour.specs.declared.step.Step.{Step};
ghost use Rattle.dam_hour.specs.Execution.{executed_volume};
ghost use Rattle.dam_hour.specs.Price.{IsBetter, IsWorse, AreEnds};
ghost use Rattle.dam_hour.specs.Best.{IsBest, greatest_welfare};
ghost use Rattle.dam_hour.specs.Market.{order_surplus, IsExecutedAt};

/// Fair in a period: an hourly order that is better than the price is executed whole, and a worse one not
/// at all. So none loses, and no other volume, from 0 to its own, would give it more surplus. Of two
/// orders of one side and limit, the later in book order gets nothing before the earlier has its whole
/// volume.
pub fn a_period_is_fair()
    ensures better { (steps : List Step) (net price : ℤ)
        (place : ℕ) (step : Step) (volume : ℕ)
        → IsExecutedAt steps net price place step volume
        → IsBetter step.side step.price price → volume ≡ step.qty }
    ensures worse { (steps : List Step) (net price : ℤ) (place : ℕ) (step : Step) (volume : ℕ)
        → IsExecutedAt steps net price place step volume
        → IsWorse step.side step.price price → volume ≡ 0 }
    ensures no_loss { (steps : List Step) (net price : ℤ)
        (place : ℕ) (step : Step) (volume : ℕ)
        → IsExecutedAt steps net price place step volume
        → pos 0 ≤ℤ order_surplus price step volume }
    ensures no_better_volume { (steps : List Step) (net price : ℤ) (place : ℕ) (step : Step)
        (volume other : ℕ) → IsExecutedAt steps net price place step volume
        → other ≤ step.qty
        → order_surplus price step other ≤ℤ order_surplus price step volume }
    ensures in_book_order { (steps : List Step) (net price : ℤ) (i j : ℕ) (earlier later : Step)
        (x y : ℕ) → IsExecutedAt steps net price i earlier x
        → IsExecutedAt steps net price j later y → i < j → earlier.side ≡ later.side
        → earlier.price ≡ later.price → 0 < y → x ≡ earlier.qty }
{}

/// Book order decides only ties: if the hourly orders of a period stand in another order, its greatest
/// welfare at a net volume, the ends of its supporting prices, and the volume of each side in its best
/// execution are the same.
///
/// So the price is the same too. An order that is better or worse than it has its whole volume or none,
/// in any book order (`a_period_is_fair`). Only orders whose limit is the price, of one side, may get
/// more or less.
pub fn book_order_decides_only_ties()
    ensures welfare { (steps others : List Step) (net : ℤ) → IsPermutation steps others
        → greatest_welfare steps net ≡ greatest_welfare others net }
    ensures ends { (steps others : List Step) (net low high : ℤ) → IsPermutation steps others
        → AreEnds steps net low high → AreEnds others net low high }
    ensures volume { (steps others : List Step) (net : ℤ) (side : Side) (xs ys : List ℕ)
        → IsPermutation steps others → IsBest steps net xs → IsBest others net ys
        → executed_volume side steps xs ≡ executed_volume side others ys }
{}
