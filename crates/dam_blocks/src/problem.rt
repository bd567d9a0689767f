//! A closed book as it is cleared: the hourly orders of each period, and the blocks at places from 0.

ghost use Rattle.std.specs.Prelude.{◌≡◌, ◌<◌, ◌≤◌, ◌-◌, ◌↔◌, true, false, length, slice_get, option_map, IfOk, IfSome, IfNone, IsErrOf};
ghost use Rattle.std.specs.Option.{option_copied};
ghost use Rattle.dam_book.specs.Terms.{IsBlockOrder};
ghost use Rattle.dam_book.specs.Volumes.{have_beyond};
ghost use Rattle.dam_hour.specs.Execution.{IsHour};
ghost use Rattle.dam_blocks.specs.declared.problem.ProblemFault.TheVariants.{Memory};
ghost use Rattle.dam_blocks.specs.Problem.{IsProblem, problem_of};
ghost use Rattle.dam_blocks.specs.inside.Hindrances.{AreHindrances};

use crate::hindrances::{Hindrances, all_hindrances};
use crate::problem_making::{hours_of, split_orders};
use dam_book::{BlockOrder, Book, DayLength, LAST_PERIOD, Name, Participant, Period};
use dam_hour::{Hour, Step};
use std::alloc::{AllocError, Allocator, Global};
use std::marker::Model;
use thiserror::Error;

/// The greatest number of periods of a delivery day.
pub const MOST_PERIODS: usize = LAST_PERIOD as usize;

/// A block order with the participant and the name that it stands under.
#[derive(PartialEq, Eq, Debug, Drop)]
pub struct Block {
    /// The participant that it is of.
    pub who: Participant,
    /// Its name among the orders of the participant.
    pub name: Name,
    /// Its side, limit, volumes, parent and group.
    pub order: BlockOrder,
}

impl Block {
    /// The block order under this participant and name, all of them copied.
    pub(crate) fn of(who: &Participant, name: &Name, order: &BlockOrder) -> Block
        ensures who { result.who ≡ who.now }
        ensures name { result.name ≡ name.now }
        ensures order { result.order ≡ order.now }
    {
        Block {
            who: who.copy(),
            name: name.copy(),
            order: BlockOrder::new(
                order.side(),
                order.price(),
                order.volumes().copy(),
                order.parent().map(|parent| parent.copy()),
                order.group().map(|group| group.copy()),
            ),
        }
    }

    /// An equal block; it can't fail.
    pub fn copy(&self) -> Block
        ensures { result ≡ self.now }
    {
        Block::of(&self.who, &self.name, &self.order)
    }
}

/// The place of an order of the book in the problem; places count from 0 in book order.
#[derive(Clone, Copy, PartialEq, Eq, Debug)]
pub enum Place {
    /// The period, and the place among its hourly orders.
    Hour(Period, usize),
    /// The place among the blocks.
    Block(usize),
}

/// An order of the book and where it stands in the problem.
#[derive(PartialEq, Eq, Debug, Drop)]
pub struct ProblemRow {
    /// The participant that the order is of.
    pub who: Participant,
    /// The order's name.
    pub name: Name,
    /// Its place in the problem.
    pub at: Place,
}

/// Why a book can't be made into a problem.
#[derive(Clone, Copy, PartialEq, Eq, Debug, Error)]
pub enum ProblemFault {
    /// The book isn't closed.
    #[error("the book is still open")]
    StillOpen,
    /// A growth was refused.
    #[error("out of memory")]
    Memory,
}

impl From<AllocError> for ProblemFault {
    ghost from_gives = { λ _ fault. fault ≡ Memory };

    fn from(_error: AllocError) -> ProblemFault {
        ProblemFault::Memory
    }
}

/// The problem of clearing a closed book: the hourly orders of each period, and the blocks.
///
/// A contract sees the steps of each period, the blocks and the rows.
#[derive(Drop)]
pub struct Problem<A: Allocator = Global> {
    periods: DayLength,
    hours: Vec<Hour<A>, A>,
    blocks: Vec<Block, A>,
    rows: Vec<ProblemRow, A>,
    /// Those of each block, so that no search looks for them by names.
    hindrances: Vec<Hindrances, A>,
}

impl<A: Allocator> Model for Problem<A> {
    ghost use Rattle.std.specs.Prelude.{◌≡◌, length};
    ghost use Rattle.dam_blocks.specs.Problem.{ProblemState, IsProblem};
    ghost use Rattle.dam_blocks.specs.inside.Hindrances.{AreAllHindrances};

    ghost Value = { ProblemState };

    ghost view = { λ p. record {
      hours = p.hours.items;
      blocks = p.blocks.items;
      rows = p.rows.items;
    } };

    ghost invariant = { λ p. IsProblem (record {
      hours = p.hours.items;
      blocks = p.blocks.items;
      rows = p.rows.items;
    }) × AreAllHindrances p.blocks.items p.hindrances.items
        × (p.periods ≡ length p.hours.items) };
}

impl<A: Allocator + Copy> Problem<A> {
    /// The problem of a closed book; of an open one `StillOpen`, before any memory is asked for.
    pub fn of_book<B: Allocator + Copy>(
        alloc: A,
        book: &Book<B>,
    ) -> Result<Problem<A>, ProblemFault>
        ensures ok { IfOk result
            (λ problem. (book.now.closed ≡ true) × (problem ≡ problem_of book.now)) }
        ensures still_open { IsErrOf result ProblemFault.StillOpen ↔ (book.now.closed ≡ false) }
    {
        if !book.is_closed() {
            return Err(ProblemFault::StillOpen);
        }
        let lists = split_orders(alloc, book)?;
        Ok(Problem {
            periods: book.periods(),
            hours: hours_of(alloc, &lists.hourly)?,
            hindrances: all_hindrances(alloc, &lists.blocks)?,
            blocks: lists.blocks,
            rows: lists.rows,
        })
    }
}

impl<A: Allocator> Problem<A> {
    /// The number of periods of the delivery day.
    pub fn periods(&self) -> DayLength
        ensures value { result ≡ length self.now.hours }
        ensures valid { IsProblem self.now }
    {
        self.periods
    }

    /// The number of blocks.
    pub fn block_count(&self) -> usize
        ensures value { result ≡ length self.now.blocks }
        ensures valid { IsProblem self.now }
    {
        self.blocks.len()
    }

    /// The hourly orders of a period, ready to be cleared; `None` past the last period.
    pub fn hour(&self, period: Period) -> Option<&Hour<A>>
        ensures value { option_copied result ≡ slice_get self.now.hours (period - 1) }
        ensures valid { IsProblem self.now }
        ensures steps { IfSome result (λ hour. IsHour hour.now) }
    {
        let hour = self.hours().get(usize::from(period.get()) - 1)?;
        Some(hour)
    }

    /// The hourly orders of a period in book order; `None` past the last period.
    pub fn steps(&self, period: Period) -> Option<&[Step]>
        ensures value { option_copied result ≡ slice_get self.now.hours (period - 1) }
        ensures valid { IsProblem self.now }
        ensures steps { IfSome result (λ steps. IsHour steps.now) }
    {
        self.hour(period).map(|hour| hour.steps())
    }

    /// The block at a place among the blocks, from 0 in book order; `None` past the last.
    pub fn block(&self, place: usize) -> Option<&BlockOrder>
        ensures value { option_copied result
            ≡ option_map (λ b. b.order) (slice_get self.now.blocks place) }
        ensures valid { IsProblem self.now }
        ensures limits { IfSome result (λ order. IsBlockOrder order.now
            × (have_beyond (length self.now.hours) order.now.volumes ≡ false)) }
    {
        let block = self.blocks().get(place)?;
        Some(&block.order)
    }

    /// The hourly orders of every period, from the first on.
    pub(crate) fn hours(&self) -> &[Hour<A>]
        ensures value { result.now ≡ self.now.hours }
        ensures valid { IsProblem self.now }
    {
        self.hours.as_slice()
    }

    /// The blocks in book order, each with its participant and name.
    pub fn blocks(&self) -> &[Block]
        ensures value { result.now ≡ self.now.blocks }
        ensures valid { IsProblem self.now }
    {
        self.blocks.as_slice()
    }

    /// The hindrances to accepting the block at a place; `None` past the last.
    pub(crate) fn hindrances_at(&self, place: usize) -> Option<&Hindrances>
        ensures valid { IsProblem self.now }
        ensures none { IfNone result (length self.now.blocks ≤ place) }
        ensures some { IfSome result (λ hindrances. (place < length self.now.blocks)
            × AreHindrances self.now.blocks place hindrances.now) }
    {
        self.hindrances.get(place)
    }

    /// Every order of the book in book order, and where it stands in the problem.
    pub fn rows(&self) -> &[ProblemRow]
        ensures value { result.now ≡ self.now.rows }
        ensures valid { IsProblem self.now }
    {
        self.rows.as_slice()
    }
}
