//! The promises of the published results to those who trade in the market, each the contract of a function that does
//! nothing but cite the laws that it rests on.
ghost use Rattle.std.specs.Prelude.{◌≡◌, true, false, ℕ, ◌+◌, ◌≤◌, ℤ, pos, List, Some, length, take, slice_get, slice_set, remove};
ghost use Rattle.dam_book.specs.Terms.{HourTerms, BlockTerms};
ghost use Rattle.dam_book.specs.Book.{Key, BookState, IsBook};
ghost use Rattle.dam_book.specs.declared.order.Order.TheVariants.{Hour as HourOrder, Block as BlockOrder};
ghost use Rattle.dam_book.specs.declared.order.Side.{Side};
ghost use Rattle.dam_book.specs.declared.order.Side.TheVariants.{Buy, Sell};
ghost use Rattle.dam_hour.specs.declared.step.Step.{Step};
ghost use Rattle.dam_hour.specs.Price.{IsBetter, IsWorse};
ghost use Rattle.dam_hour.specs.Best.{IsBest};
ghost use Rattle.dam_hour.specs.Market.{IsExecutedAt};
ghost use Rattle.dam_blocks.specs.Problem.{steps_in, problem_of};
ghost use Rattle.dam_blocks.specs.Selection.{net_volume};
ghost use Rattle.dam_blocks.specs.Market.{traded};
ghost use Rattle.dam_results.specs.declared.published.PeriodResult.{PeriodResult};
ghost use Rattle.dam_results.specs.declared.published.RowResult.{RowResult};
ghost use Rattle.dam_results.specs.declared.published.RowResult.TheVariants.{Hour as HourResult, Block as BlockResult};
ghost use Rattle.dam_results.specs.Clearing.{IsClearing};
ghost use Rattle.dam_results.specs.Market.{price_in, published_gains, published_trades, IsWithoutRow, IsWithOtherLimit};

/// The published results add up: the welfare is the gain of all orders by their published results, and the volume of a
/// period is both the bought and the sold volume of the orders there. By their published results the orders trade as
/// the orders of the problem do, to which `dam_blocks::market::money_balances` applies (`traded`).
pub fn published_results_add_up()
    ensures welfare { (book : BookState) (welfare : ℕ) (periods : List PeriodResult)
        (rows : List RowResult) → IsBook book → IsClearing book welfare periods rows
        → pos welfare ≡ published_gains periods book.rows rows }
    ensures volume { (book : BookState) (welfare : ℕ) (periods : List PeriodResult)
        (rows : List RowResult) (k : ℕ) (period : PeriodResult) → IsBook book
        → IsClearing book welfare periods rows → slice_get periods k ≡ Some period
        → (published_trades Buy (k + 1) book.rows rows ≡ period.volume)
        × (published_trades Sell (k + 1) book.rows rows ≡ period.volume) }
    ensures traded { (book : BookState) (welfare : ℕ) (periods : List PeriodResult)
        (rows : List RowResult) (clearing : IsClearing book welfare periods rows) (k : ℕ)
        (steps : List Step) (side : Side) → slice_get (problem_of book).hours k ≡ Some steps
        → (volumes : List ℕ)
        × IsBest steps (net_volume (problem_of book).blocks clearing.selection (k + 1)) volumes
        × (pos (published_trades side (k + 1) book.rows rows)
        ≡ traded side (problem_of book).blocks clearing.selection (k + 1) steps volumes) }
{
    dam_blocks::market::a_closed_book_is_a_problem();
    dam_blocks::market::welfare_is_shared_out();
    dam_blocks::market::money_balances();
    dam_hour::laws::best_execution_is_unique();
}

/// An hourly order is published with its execution: at the published price of its period, the best
/// execution gives it the published volume, at its place among the hourly orders of the period. So
/// `dam_hour::market_laws::a_period_is_fair` is of each.
pub fn hourly_orders_are_executed()
    ensures executed { (book : BookState) (welfare : ℕ) (periods : List PeriodResult)
        (rows : List RowResult) (clearing : IsClearing book welfare periods rows) (place : ℕ)
        (key : Key) (order : HourTerms) (who name : List ℕ) (volume : ℕ)
        → slice_get book.rows place ≡ Some (key, HourOrder order)
        → slice_get rows place ≡ Some (HourResult who name volume)
        → IsExecutedAt (steps_in order.period book.rows)
        (net_volume (problem_of book).blocks clearing.selection order.period)
        (price_in periods order.period)
        (length (steps_in order.period (take place book.rows)))
        (record { side = order.side; price = order.price; qty = order.qty }) volume }
{}

/// A rejected block may as well not be there: the published results of the book without it are the same, except that
/// the line of the block is missing.
///
/// A book that keeps `IsBook` has no block whose parent is missing, so this is of a block without children:
/// without it, the book keeps `IsBook` (`dam_book::laws::a_book_without_a_childless_order_is_a_book`).
pub fn a_rejected_block_withdrawn_changes_nothing()
    ensures published { (book other : BookState) (place : ℕ) (welfare : ℕ)
        (periods : List PeriodResult) (rows : List RowResult) (who name : List ℕ) (surplus : ℤ)
        → IsBook book → IsBook other → IsWithoutRow book other place
        → IsClearing book welfare periods rows
        → slice_get rows place ≡ Some (BlockResult who name false surplus)
        → IsClearing other welfare periods (remove rows place) }
{
    crate::publishing_laws::best_selection_is_result();
    dam_blocks::market::a_closed_book_is_a_problem();
    dam_blocks::market::a_changed_book_is_a_changed_problem();
    dam_blocks::market::a_rejected_block_withdrawn_changes_nothing();
}

/// More blocks, no less welfare: the published welfare of a book is at least the published welfare of the
/// same book without one of its blocks.
pub fn a_block_more_never_lowers_welfare()
    ensures welfare { (book other : BookState) (place : ℕ) (key : Key) (order : BlockTerms)
        (welfare other_welfare : ℕ) (periods other_periods : List PeriodResult)
        (rows other_rows : List RowResult) → IsBook book → IsBook other
        → IsWithoutRow book other place
        → slice_get book.rows place ≡ Some (key, BlockOrder order)
        → IsClearing book welfare periods rows
        → IsClearing other other_welfare other_periods other_rows
        → other_welfare ≤ welfare }
{
    crate::publishing_laws::best_selection_is_result();
    dam_blocks::market::a_closed_book_is_a_problem();
    dam_blocks::market::a_changed_book_is_a_changed_problem();
    dam_blocks::market::a_block_more_never_lowers_welfare();
}

/// A better limit keeps a block: if a block is published as accepted, then of the same book with a better
/// limit for it, it is published as accepted too.
pub fn a_better_limit_keeps_a_block()
    ensures accepted { (book other : BookState) (place : ℕ) (order : BlockTerms) (limit : ℤ)
        (welfare other_welfare : ℕ) (periods other_periods : List PeriodResult)
        (rows other_rows : List RowResult) (who name : List ℕ) (surplus : ℤ)
        → IsWithOtherLimit book other place order limit
        → IsBetter order.side limit order.price → IsClearing book welfare periods rows
        → slice_get rows place ≡ Some (BlockResult who name true surplus)
        → IsClearing other other_welfare other_periods other_rows
        → (gain : ℤ) × (slice_get other_rows place ≡ Some (BlockResult who name true gain)) }
{
    crate::publishing_laws::best_selection_is_result();
    dam_blocks::market::a_changed_book_is_a_changed_problem();
    dam_blocks::market::a_better_limit_keeps_a_block();
}

/// A rejected block that asks for worse changes nothing: the published results are the same, but for the block's own
/// surplus.
pub fn a_worse_limit_keeps_a_rejection()
    ensures published { (book other : BookState) (place : ℕ) (order : BlockTerms) (limit : ℤ)
        (welfare : ℕ) (periods : List PeriodResult) (rows : List RowResult) (who name : List ℕ)
        (surplus : ℤ) → IsWithOtherLimit book other place order limit
        → IsWorse order.side limit order.price → IsClearing book welfare periods rows
        → slice_get rows place ≡ Some (BlockResult who name false surplus)
        → (gain : ℤ) × IsClearing other welfare periods
        (slice_set rows place (BlockResult who name false gain)) }
{
    crate::publishing_laws::best_selection_is_result();
    dam_blocks::market::a_changed_book_is_a_changed_problem();
    dam_blocks::market::a_worse_limit_keeps_a_rejection();
}
