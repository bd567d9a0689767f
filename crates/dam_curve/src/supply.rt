//! The sells and buys of a period in one order by limit: a buy that isn't served counts as supply.

ghost use Rattle.std.specs.Prelude.{◌≡◌, ◌≤◌, ◌<◌, List, length, IfOk};
ghost use Rattle.dam_hour.specs.Execution.{IsHour};
ghost use Rattle.dam_hour.specs.Limits.{most_steps};
ghost use Rattle.dam_hour.specs.declared.step.Step.{Step};
ghost use Rattle.dam_curve.specs.Supply.{IsSupplyOf};
ghost use Rattle.dam_curve.specs.inside.Supply.{IsDemand, IsDemandOfStep};

use crate::height::cents_above_lowest;
use dam_book::Side;
use dam_hour::Step;
use std::alloc::{AllocError, Allocator, Global};
use std::marker::Model;

/// The steps of a period by rising limit, as a stack of supply: the sells, and the buys, whose volume is supply as far
/// as it isn't served.
///
/// A contract sees the steps as they stand.
#[derive(Drop)]
pub struct Supply<A: Allocator = Global> {
    rising: Vec<Step, A>,
}

impl<A: Allocator> Model for Supply<A> {
    ghost use Rattle.std.specs.Prelude.{List};
    ghost use Rattle.dam_hour.specs.declared.step.Step.{Step};

    ghost Value = { List Step };

    ghost view = { λ s. s.rising.items };
}

impl<A: Allocator> Supply<A> {
    /// The supply of these steps, by one sort. The error is out of memory.
    pub fn of(alloc: A, steps: &[Step]) -> Result<Supply<A>, AllocError>
        requires { IsHour steps.now }
        ensures { IfOk result (λ supply. IsSupplyOf steps.now supply) }
    {
        let mut rising = Vec::with_capacity(alloc, steps.len())?;
        rising.extend_from_slice(steps)?;
        rising.sort_unstable_by_key(|step| cents_above_lowest(step.price));
        Ok(Supply { rising })
    }

    /// The steps by rising limit.
    pub(crate) fn steps(&self) -> &[Step]
        ensures { result.now ≡ self.now }
    {
        self.rising.as_slice()
    }
}

/// The volume that the buys of a period ask for.
#[derive(Clone, Copy)]
pub(crate) struct Demand {
    /// Their volume, in tenths of a MW.
    pub(crate) volume: u64,
    /// The sum over them of volume times cents above the least price.
    pub(crate) worth: u64,
}

impl Demand {
    pub(crate) fn of(steps: &[Step]) -> Demand
        requires { length steps.now ≤ most_steps }
        ensures { IsDemand steps.now result.volume result.worth }
    {
        let mut demand = Demand {
            volume: 0,
            worth: 0,
        };
        for step in steps {
            let own = Demand::of_step(*step);
            demand.volume += own.volume;
            demand.worth += own.worth;
        }
        demand
    }

    fn of_step(step: Step) -> Demand
        ensures { IsDemandOfStep step result.volume result.worth }
    {
        if step.side == Side::Sell {
            return Demand {
                volume: 0,
                worth: 0,
            };
        }
        let volume = u64::from(step.qty.get());
        Demand {
            volume,
            worth: u64::from(cents_above_lowest(step.price)) * volume,
        }
    }
}
