//! A selection is eligible, with its welfare, or has a first fault: links, then balance, then a loss.

ghost use Rattle.std.specs.Prelude.{◌≡◌, ◌≤◌, length, take, Some, MatchResult, MatchOption};
ghost use Rattle.dam_book.specs.Limits.{last_period};
ghost use Rattle.dam_blocks.specs.Eligible.{ArePrices, HasNoLoss, selection_welfare};
ghost use Rattle.dam_blocks.specs.Score.{IsFirstUnbalanced, IsFirstLosing, IsVerdict};

use crate::block_effects::{accepted_value, net_volume};
use crate::laws;
use crate::links::admissible;
use crate::problem::{MOST_PERIODS, Problem};
use crate::selection::Selection;
use crate::surpluses::family_surplus;
use dam_book::{MOST_BLOCKS, Period, Price};
use std::alloc::Allocator;

/// The welfare of a selection, or the first reason why it isn't eligible.
#[derive(Clone, Copy, PartialEq, Eq, Debug)]
pub enum Verdict {
    /// A child without its parent, too many blocks of one group, or a place that is no block of the problem.
    NotAdmissible,
    /// No execution balances with the selection in this period, the first such.
    Unbalanced(Period),
    /// At the prices of the selection the accepted block at this place, the first such, loses: its
    /// surplus and the surpluses of its accepted descendants add up to less than 0. Places count
    /// the blocks alone, from 0 in book order.
    Losing(usize),
    /// The selection is eligible; its welfare in cents per MWh times tenths of a MW.
    Eligible(u64),
}

/// The prices of the periods under a selection, and its welfare: all that a verdict needs of a day.
#[derive(Clone, Copy)]
struct PricedDay {
    prices: [Price; MOST_PERIODS],
    welfare: i64,
}

/// Finds the price of every period with the selection, and the welfare of the day; the `Err` is the first period that
/// doesn't balance. It doesn't compute other published values, such as the executed volumes.
fn priced_day<A: Allocator>(problem: &Problem<A>, selection: Selection) -> Result<PricedDay, Period>
    ensures { MatchResult result
        (λ c. ArePrices problem.now.blocks selection 1 problem.now.hours
        (take (length problem.now.hours) c.prices)
        × (selection_welfare problem.now selection ≡ Some c.welfare))
        (λ t. IsFirstUnbalanced problem.now selection t) }
{
    dam_book::laws::days_are_short();
    let hours = problem.hours();
    let blocks = problem.blocks();
    let mut prices = [Price::new(0).unwrap(); MOST_PERIODS];
    let mut welfare = 0;
    for (place, hour) in hours.iter().enumerate() {
        let period = Period::at(place);
        let Some(cleared) = hour.clear(net_volume(blocks, selection, period)) else {
            return Err(period);
        };
        prices[place] = cleared.price;
        welfare += cleared.welfare + accepted_value(blocks, selection, period);
    }
    Ok(PricedDay { prices, welfare })
}

/// The first accepted block that loses at the prices, with those that descend from it.
fn first_losing<A: Allocator>(
    problem: &Problem<A>,
    selection: Selection,
    prices: &[Price],
) -> Option<usize>
    requires { length prices.now ≤ last_period }
    ensures { MatchOption result
        (HasNoLoss problem.now.blocks selection prices.now)
        (λ place. IsFirstLosing problem.now.blocks selection prices.now place) }
{
    selection.use_invariant();
    let blocks = problem.blocks();
    for place in 0..MOST_BLOCKS {
        if selection.has(place) && family_surplus(blocks, selection, prices, place) < 0 {
            return Some(place);
        }
    }
    None
}

/// Whether the selection is eligible, and its welfare; or else the first fault: it isn't admissible, a
/// period doesn't balance (the least such), or an accepted block loses at the prices (the least such).
///
/// An accepted block loses if its surplus and the surpluses of its accepted descendants add up to less
/// than 0 (EUPHEMIA Public Description, "Price Determination Sub-problem" and "Linked Block Orders");
/// a rejected one may have any surplus, also one over 0 ("PRB reinsertion"). Takes no memory.
pub fn score<A: Allocator>(problem: &Problem<A>, selection: Selection) -> Verdict
    ensures { IsVerdict problem.now selection result }
{
    selection.use_invariant();
    laws::eligible_welfare_is_not_negative();
    if !admissible(problem, selection) {
        return Verdict::NotAdmissible;
    }
    let day = match priced_day(problem, selection) {
        Ok(day) => day,
        Err(period) => return Verdict::Unbalanced(period),
    };
    let prices = &day.prices[..problem.hours().len()];
    match first_losing(problem, selection, prices) {
        Some(place) => Verdict::Losing(place),
        None => Verdict::Eligible(day.welfare as u64),
    }
}
