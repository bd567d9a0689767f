//! The making of a problem: one pass over the rows of a book, in book order.

ghost use Rattle.std.specs.Prelude.{◌≡◌, ◌-◌, ◌<◌, ◌≤◌, [], Some, length, map, slice_get, slice_index_or, IfOk, OnOk};
ghost use Rattle.dam_book.specs.Limits.{most_hourly};
ghost use Rattle.dam_blocks.specs.Problem.{hours_from, hourly_orders, blocks_in, rows_after};
ghost use Rattle.dam_blocks.specs.inside.Making.{with_step};

use crate::problem::{Block, Place, ProblemRow};
use dam_book::{Book, HourOrder, Name, Order, Participant};
use dam_hour::{Hour, Step};
use std::alloc::{AllocError, Allocator};

/// The row at a place of the book.
fn row_at<B: Allocator + Copy>(book: &Book<B>, place: usize) -> (Participant, Name, &Order)
    requires { place < length book.now.rows }
    ensures { slice_get book.now.rows place ≡ Some ((result.0, result.1), result.2.now) }
{
    book.row(place).unwrap()
}

/// The orders of a book by their kind, the hourly ones by their period too, and all its rows with the
/// places of their orders.
#[derive(Drop)]
pub(crate) struct OrderLists<A: Allocator> {
    /// Those of each period of the day, from the first one on.
    pub(crate) hourly: Vec<Vec<Step, A>, A>,
    pub(crate) blocks: Vec<Block, A>,
    pub(crate) rows: Vec<ProblemRow, A>,
}

/// An empty list for each of the periods.
fn empty_step_lists<A: Allocator + Copy>(
    alloc: A,
    periods: u8,
) -> Result<Vec<Vec<Step, A>, A>, AllocError>
    ensures { IfOk result (λ hourly.
        map (λ steps. steps.items) hourly.items ≡ hours_from 1 periods []) }
{
    let mut hourly = Vec::with_capacity(alloc, usize::from(periods))?;
    for _ in 0..periods {
        hourly.push(Vec::new(alloc))?;
    }
    Ok(hourly)
}

/// Adds an order to its period's orders, and returns its place among them.
fn add_step<A: Allocator>(
    hourly: &mut Vec<Vec<Step, A>, A>,
    order: &HourOrder,
) -> Result<usize, AllocError>
    requires { order.now.period ≤ length hourly.old.items }
    ensures place { IfOk result (λ place. place ≡ length
        (slice_index_or (map (λ steps. steps.items) hourly.old.items) (order.now.period - 1) [])) }
    ensures added { OnOk result (map (λ steps. steps.items) hourly.new.items
        ≡ with_step (map (λ steps. steps.items) hourly.old.items) order.now) }
{
    let steps = &mut hourly[usize::from(order.period().get()) - 1];
    let place = steps.len();
    steps.push(Step {
        side: order.side(),
        price: order.price(),
        qty: order.qty(),
    })?;
    Ok(place)
}

/// Splits the orders of a book by kind and period, in one pass over its rows.
pub(crate) fn split_orders<A: Allocator + Copy, B: Allocator + Copy>(
    alloc: A,
    book: &Book<B>,
) -> Result<OrderLists<A>, AllocError>
    ensures hourly { IfOk result (λ lists. map (λ steps. steps.items) lists.hourly.items
        ≡ hours_from 1 book.now.periods book.now.rows) }
    ensures blocks { IfOk result (λ lists. lists.blocks.items ≡ blocks_in book.now.rows) }
    ensures rows { IfOk result (λ lists. lists.rows.items ≡ rows_after [] book.now.rows) }
{
    let mut rows = Vec::with_capacity(alloc, book.len())?;
    let mut hourly = empty_step_lists(alloc, book.periods().get())?;
    let mut blocks = Vec::new(alloc);
    for place in 0..book.len() {
        let (who, name, order) = row_at(book, place);
        let at = match order {
            Order::Hour(order) => Place::Hour(order.period(), add_step(&mut hourly, order)?),
            Order::Block(order) => {
                let at = Place::Block(blocks.len());
                blocks.push(Block::of(&who, &name, order))?;
                at
            }
        };
        rows.push(ProblemRow { who, name, at })?;
    }
    Ok(OrderLists {
        hourly,
        blocks,
        rows,
    })
}

/// The hours of the periods, each of its hourly orders.
pub(crate) fn hours_of<A: Allocator + Copy>(
    alloc: A,
    hourly: &[Vec<Step, A>],
) -> Result<Vec<Hour<A>, A>, AllocError>
    requires { hourly_orders (map (λ steps. steps.items) hourly.now) ≤ most_hourly }
    ensures { IfOk result (λ hours. hours.items ≡ map (λ steps. steps.items) hourly.now) }
{
    let mut hours = Vec::with_capacity(alloc, hourly.len())?;
    for steps in hourly {
        hours.push(Hour::build(alloc, steps)?)?;
    }
    Ok(hours)
}
