//! The steps at the price execute the volume that the better ones leave, in book order.

ghost use Rattle.std.specs.Prelude.{◌≡◌, ◌-◌, IfOk};
ghost use Rattle.dam_book.specs.declared.order.Side.TheVariants.{Buy, Sell};
ghost use Rattle.dam_hour.specs.inside.Volumes.{at_part, total_on, volumes_in_turn};

use crate::step::Step;
use dam_book::{Price, Side};
use std::alloc::{AllocError, Allocator};

/// The volume left at a price for the steps of each side, in tenths of a MW.
#[derive(Clone, Copy)]
pub(crate) struct RemainingVolumes {
    pub(crate) buys: u64,
    pub(crate) sells: u64,
}

impl RemainingVolumes {
    /// The volume left for a step of the side.
    fn on(self, side: Side) -> u64
        ensures { result ≡ total_on side self.buys self.sells }
    {
        match side {
            Side::Buy => self.buys,
            Side::Sell => self.sells,
        }
    }

    /// The volumes left after a step: if its limit is the price, less by its volume.
    fn after(self, step: Step, price: Price) -> RemainingVolumes
        ensures buys { result.buys ≡ self.buys - at_part Buy price step }
        ensures sells { result.sells ≡ self.sells - at_part Sell price step }
    {
        let side = step.side;
        let taken = step.marginal_volume(price);
        match side {
            Side::Buy => RemainingVolumes {
                buys: self.buys.saturating_sub(taken),
                sells: self.sells,
            },
            Side::Sell => RemainingVolumes {
                buys: self.buys,
                sells: self.sells.saturating_sub(taken),
            },
        }
    }
}

/// The executed volumes of the steps at a price, in tenths of a MW: the volume left at the price goes to the steps in
/// book order.
pub(crate) fn volumes_in_turn<B: Allocator>(
    alloc: B,
    steps: &[Step],
    price: Price,
    left: RemainingVolumes,
) -> Result<Vec<u32, B>, AllocError>
    ensures { IfOk result (λ volumes.
        volumes.items ≡ volumes_in_turn price steps.now
        (λ side. total_on side left.buys left.sells)) }
{
    let mut volumes = Vec::with_capacity(alloc, steps.len())?;
    let mut left = left;
    for step in steps {
        let share = step.executed_at(price, left.on(step.side));
        volumes.push(share as u32)?;
        left = left.after(*step, price);
    }
    Ok(volumes)
}
