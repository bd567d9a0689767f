//! The promises of the auction to those who trade in it, each the contract of a function that does nothing but cite the
//! laws that it rests on.

ghost use Rattle.std.specs.Prelude.{◌≡◌, ℕ, ◌+◌, ℤ, pos, ◌+ℤ◌, ◌*ℤ◌, ◌≤ℤ◌, ◌⊎◌, Bool, true, false, Some, List, [], ◌∷◌, ◌++◌, length, slice_get, IsPermutation};
ghost use Rattle.dam_book.specs.Limits.{most_blocks};
ghost use Rattle.dam_book.specs.Terms.{BlockTerms};
ghost use Rattle.dam_book.specs.Book.{Key, Row, BookState, are_linked, IsBook};
ghost use Rattle.dam_book.specs.declared.order.Order.TheVariants.{Block as BlockOrder};
ghost use Rattle.dam_book.specs.declared.order.Side.TheVariants.{Buy, Sell};
ghost use Rattle.dam_hour.specs.declared.step.Step.{Step};
ghost use Rattle.dam_hour.specs.Price.{IsBetter, IsWorse};
ghost use Rattle.dam_hour.specs.Best.{IsBest};
ghost use Rattle.dam_hour.specs.Market.{IsExecutedAt};
ghost use Rattle.dam_blocks.specs.declared.problem.Block.{Block};
ghost use Rattle.dam_blocks.specs.declared.problem.Place.TheVariants.{Hour as AtHour};
ghost use Rattle.dam_blocks.specs.Problem.{ProblemState, blocks_in, problem_of, IsProblem};
ghost use Rattle.dam_blocks.specs.Selection.{accepts, over_accepted, net_volume, IsAdmissible};
ghost use Rattle.dam_blocks.specs.Family.{descends};
ghost use Rattle.dam_blocks.specs.Eligible.{ArePrices, selection_welfare, family_surplus, IsEligible};
ghost use Rattle.dam_blocks.specs.Result.{IsResult};
ghost use Rattle.dam_blocks.specs.Market.{AreBestExecutions, IsOutcome, traded, money_from, hourly_surplus, accepted_surplus, gain_of, over_orders_of, over_participants, AreParticipants, over_orders, StandsAlone, IsRootOf};
ghost use Rattle.dam_blocks.specs.Changes.{without_place, IsWithoutBlock, IsWithLimit, IsNeverAccepted, IsWorstLimit, IsReordered, HasBlocksReordered, AcceptTheSame};

/// The problem of a closed book satisfies the invariant of a problem, so that the laws below hold for it.
pub fn a_closed_book_is_a_problem()
    ensures problem { (book : BookState) → IsBook book → book.closed ≡ true
        → IsProblem (problem_of book) }
{}

/// A change of a book's rows is the same change of its problem: another limit of a block at its place, a
/// block less, or the hourly orders of each period, or the blocks, in another order.
pub fn a_changed_book_is_a_changed_problem()
    ensures limit { (book other : BookState) (front back : List Row) (key : Key)
        (order : BlockTerms) (limit : ℤ)
        → book.rows ≡ front ++ (key, BlockOrder order) ∷ back
        → other.rows ≡ front ++ (key, BlockOrder (record order { price = limit })) ∷ back
        → other.periods ≡ book.periods
        → IsWithLimit (problem_of book) (problem_of other) (length (blocks_in front))
        (record { who = key.0; name = key.1; order = order }) limit }
    ensures block { (book other : BookState) (front back : List Row) (key : Key)
        (order : BlockTerms) → book.rows ≡ front ++ (key, BlockOrder order) ∷ back
        → other.rows ≡ front ++ back → other.periods ≡ book.periods
        → IsWithoutBlock (problem_of book) (problem_of other) (length (blocks_in front))
        (record { who = key.0; name = key.1; order = order }) }
    ensures hourly_orders { (book other : BookState) → IsPermutation book.rows other.rows
        → other.periods ≡ book.periods
        → (problem_of other).blocks ≡ (problem_of book).blocks
        → IsReordered (problem_of book) (problem_of other) }
    ensures blocks { (book other : BookState) → IsPermutation book.rows other.rows
        → (problem_of other).hours ≡ (problem_of book).hours
        → HasBlocksReordered (problem_of book) (problem_of other) }
{}

/// A book whose rows are reordered, each parent still before its children, still satisfies the book invariant.
pub fn a_reordered_book_is_a_book()
    ensures book { (book other : BookState) → IsBook book → IsPermutation book.rows other.rows
        → other.periods ≡ book.periods → are_linked [] other.rows ≡ true → IsBook other }
{}

/// An eligible selection, such as the result, has prices and best executions, and only these.
pub fn an_eligible_selection_has_an_outcome()
    ensures some { (problem : ProblemState) (selection : List Bool) (welfare : ℤ)
        → IsProblem problem → IsEligible problem selection welfare
        → (prices : List ℤ) × (executions : List (List ℕ))
        × IsOutcome problem selection prices executions }
    ensures one { (problem : ProblemState) (selection : List Bool) (prices other_prices : List ℤ)
        (executions other_executions : List (List ℕ))
        → IsOutcome problem selection prices executions
        → IsOutcome problem selection other_prices other_executions
        → (prices ≡ other_prices) × (executions ≡ other_executions) }
{
    dam_hour::laws::balances_within_offers();
    dam_hour::laws::best_execution_exists();
    dam_hour::laws::best_has_greatest_welfare();
    dam_hour::laws::best_execution_is_unique();
}

/// An outcome executes each hourly order, at place `i` of the period that `k` others precede, at the period's
/// price. So `dam_hour::market_laws::a_period_is_fair` is of each.
pub fn hourly_orders_are_executed()
    ensures executed { (problem : ProblemState) (selection : List Bool) (prices : List ℤ)
        (executions : List (List ℕ)) (k i : ℕ) (steps : List Step) (step : Step)
        → IsOutcome problem selection prices executions
        → slice_get problem.hours k ≡ Some steps → slice_get steps i ≡ Some step
        → (price : ℤ) × (volumes : List ℕ) × (volume : ℕ)
        × (slice_get prices k ≡ Some price) × (slice_get executions k ≡ Some volumes)
        × (slice_get volumes i ≡ Some volume)
        × IsExecutedAt steps (net_volume problem.blocks selection (k + 1)) price i step volume }
{}

/// Welfare is shared out: the welfare of a selection is the sum of the surpluses of all hourly orders and
/// the accepted blocks at its prices. Summed order by order over the book, it is the same (`orders`), and
/// so it is participant by participant (`participants`). Other prices would share out the same sum in
/// another way (`any_prices`).
pub fn welfare_is_shared_out()
    ensures shared { (problem : ProblemState) (selection : List Bool) (prices : List ℤ)
        (executions : List (List ℕ)) → IsOutcome problem selection prices executions
        → selection_welfare problem selection
        ≡ Some (hourly_surplus prices problem.hours executions
        +ℤ accepted_surplus prices problem.blocks selection) }
    ensures any_prices { (problem : ProblemState) (selection : List Bool) (prices : List ℤ)
        (executions : List (List ℕ)) → length prices ≡ length problem.hours
        → AreBestExecutions problem.blocks selection 1 problem.hours executions
        → selection_welfare problem selection
        ≡ Some (hourly_surplus prices problem.hours executions
        +ℤ accepted_surplus prices problem.blocks selection) }
    ensures orders { (problem : ProblemState) (selection : List Bool) (prices : List ℤ)
        (executions : List (List ℕ)) → IsProblem problem
        → IsOutcome problem selection prices executions
        → selection_welfare problem selection
        ≡ Some (over_orders (gain_of problem selection prices executions) problem.rows) }
    ensures participants { (problem : ProblemState) (selection : List Bool) (prices : List ℤ)
        (executions : List (List ℕ)) (participants : List (List ℕ)) → IsProblem problem
        → IsOutcome problem selection prices executions
        → AreParticipants participants problem.rows
        → selection_welfare problem selection
        ≡ Some (over_participants participants (gain_of problem selection prices executions)
        problem.rows) }
{
    dam_hour::laws::best_has_greatest_welfare();
    dam_hour::laws::supported_surplus_is_greatest();
}

/// Money balances: in each period, the hourly orders and the accepted blocks together buy as much as they
/// sell. So, at the period's one price, the buyers' payments equal the sellers' receipts, in each period
/// and over the day.
pub fn money_balances()
    ensures volume { (blocks : List Block) (selection : List Bool) (t : ℕ) (steps : List Step)
        (volumes : List ℕ) → IsBest steps (net_volume blocks selection t) volumes
        → traded Buy blocks selection t steps volumes
        ≡ traded Sell blocks selection t steps volumes }
    ensures money_in_period { (blocks : List Block) (selection : List Bool) (t : ℕ)
        (steps : List Step) (volumes : List ℕ) (price : ℤ)
        → IsBest steps (net_volume blocks selection t) volumes
        → price *ℤ traded Buy blocks selection t steps volumes
        ≡ price *ℤ traded Sell blocks selection t steps volumes }
    ensures money { (problem : ProblemState) (selection : List Bool) (prices : List ℤ)
        (executions : List (List ℕ)) → IsOutcome problem selection prices executions
        → money_from Buy problem.blocks selection 1 prices problem.hours executions
        ≡ money_from Sell problem.blocks selection 1 prices problem.hours executions }
{}

/// Nobody loses: each hourly order has a surplus of at least 0, and so have all orders of a participant
/// together, hourly ones and accepted blocks.
///
/// A single block may lose, but an accepted block and its accepted descendants together gain at least 0
/// (`descendants`). Each accepted block is, or descends from, just one accepted block without a parent
/// (`root`), and a block and its descendants are one participant's (`owner`).
pub fn nobody_loses()
    ensures order { (problem : ProblemState) (selection : List Bool) (prices : List ℤ)
        (executions : List (List ℕ)) (t i : ℕ) → IsOutcome problem selection prices executions
        → pos 0 ≤ℤ gain_of problem selection prices executions (AtHour t i) }
    ensures participant { (problem : ProblemState) (selection : List Bool) (welfare : ℤ)
        (prices : List ℤ) (executions : List (List ℕ)) (who : List ℕ) → IsProblem problem
        → IsEligible problem selection welfare → IsOutcome problem selection prices executions
        → pos 0 ≤ℤ over_orders_of who
        (gain_of problem selection prices executions) problem.rows }
    ensures descendants { (problem : ProblemState) (selection : List Bool) (welfare : ℤ)
        (prices : List ℤ) (executions : List (List ℕ)) (i : ℕ)
        → IsEligible problem selection welfare → IsOutcome problem selection prices executions
        → accepts selection i ≡ true
        → pos 0 ≤ℤ family_surplus problem.blocks selection prices i }
    ensures root { (problem : ProblemState) (selection : List Bool) (j : ℕ) → IsProblem problem
        → IsAdmissible problem.blocks selection → accepts selection j ≡ true
        → (i : ℕ) × IsRootOf problem.blocks selection i j
        × ((k : ℕ) → IsRootOf problem.blocks selection k j → k ≡ i) }
    ensures owner { (problem : ProblemState) (i j : ℕ) (a b : Block) → IsProblem problem
        → slice_get problem.blocks i ≡ Some a → slice_get problem.blocks j ≡ Some b
        → descends problem.blocks i j ≡ true → a.who ≡ b.who }
{
    dam_hour::laws::price_supports_best();
    dam_hour::laws::supported_surplus_is_greatest();
}

/// More blocks, no less welfare: if a book has a block more, wherever it stands, the welfare of the result
/// is at least as great.
pub fn a_block_more_never_lowers_welfare()
    ensures welfare { (problem other : ProblemState) (place : ℕ) (block : Block)
        (selection other_selection : List Bool) (welfare other_welfare : ℤ) → IsProblem problem
        → IsProblem other → IsWithoutBlock problem other place block
        → IsResult problem selection welfare → IsResult other other_selection other_welfare
        → other_welfare ≤ℤ welfare }
{}

/// A rejected block may as well not be there: without it, the result is the same selection without its
/// place, with the same welfare, prices and executions, and every sum over the accepted blocks is the same.
///
/// A block that has children can't leave a book alone, so that then there is no such other problem.
pub fn a_rejected_block_withdrawn_changes_nothing()
    ensures result { (problem other : ProblemState) (place : ℕ) (block : Block)
        (selection : List Bool) (welfare : ℤ) → IsProblem problem → IsProblem other
        → IsWithoutBlock problem other place block → IsResult problem selection welfare
        → accepts selection place ≡ false
        → IsResult other (without_place selection place) welfare }
    ensures outcome { (problem other : ProblemState) (place : ℕ) (block : Block)
        (selection : List Bool) (welfare : ℤ) (prices : List ℤ) (executions : List (List ℕ))
        → IsProblem problem → IsWithoutBlock problem other place block
        → IsEligible problem selection welfare → IsOutcome problem selection prices executions
        → accepts selection place ≡ false
        → IsOutcome other (without_place selection place) prices executions }
    ensures sums { (problem other : ProblemState) (place : ℕ) (block : Block)
        (selection : List Bool) (f : BlockTerms → ℤ) → IsProblem problem
        → IsWithoutBlock problem other place block → length selection ≡ most_blocks
        → accepts selection place ≡ false
        → over_accepted f other.blocks (without_place selection place)
        ≡ over_accepted f problem.blocks selection }
{}

/// A better limit keeps a block: if the result accepts a block, then with a better limit and everything
/// else the same, the result accepts it too.
///
/// Better is higher for a block that buys and lower for one that sells. The prices of a given selection don't depend
/// on a block's limit (`outcome`). So among the limits of the range there is a worst one at which a block is
/// accepted, or none at all.
pub fn a_better_limit_keeps_a_block()
    ensures accepted { (problem other : ProblemState) (place : ℕ) (block : Block) (limit : ℤ)
        (selection other_selection : List Bool) (welfare other_welfare : ℤ)
        → IsWithLimit problem other place block limit
        → IsBetter block.order.side limit block.order.price
        → IsResult problem selection welfare → accepts selection place ≡ true
        → IsResult other other_selection other_welfare
        → accepts other_selection place ≡ true }
    ensures outcome { (problem other : ProblemState) (place : ℕ) (block : Block) (limit : ℤ)
        (selection : List Bool) (prices : List ℤ) (executions : List (List ℕ))
        → IsWithLimit problem other place block limit
        → IsOutcome problem selection prices executions
        → IsOutcome other selection prices executions }
    ensures worst { (problem : ProblemState) (place : ℕ) (block : Block) → IsProblem problem
        → slice_get problem.blocks place ≡ Some block → IsNeverAccepted problem place block
        ⊎ ((limit : ℤ) × IsWorstLimit problem place block limit) }
{
    dam_hour::laws::balances_within_offers();
    dam_hour::laws::best_execution_exists();
    dam_hour::laws::best_has_greatest_welfare();
}

/// The better of two blocks goes first: of two blocks with the same side and volumes that have no links and
/// no groups, the result doesn't accept the one with the worse limit without the other.
pub fn the_better_of_two_blocks_goes_first()
    ensures accepted { (problem : ProblemState) (i j : ℕ) (better worse : Block)
        (selection : List Bool) (welfare : ℤ) → IsProblem problem
        → slice_get problem.blocks i ≡ Some better → slice_get problem.blocks j ≡ Some worse
        → StandsAlone problem.blocks better → StandsAlone problem.blocks worse
        → better.order.side ≡ worse.order.side → better.order.volumes ≡ worse.order.volumes
        → IsBetter worse.order.side better.order.price worse.order.price
        → IsResult problem selection welfare → accepts selection j ≡ true
        → accepts selection i ≡ true }
{}

/// A rejected block that asks for worse changes nothing: if the result rejects a block, then with a worse
/// limit the result is the same selection with the same welfare, and so are its prices and executions
/// (`outcome` of `a_better_limit_keeps_a_block`, which is of any limit).
pub fn a_worse_limit_keeps_a_rejection()
    ensures result { (problem other : ProblemState) (place : ℕ) (block : Block) (limit : ℤ)
        (selection : List Bool) (welfare : ℤ) → IsWithLimit problem other place block limit
        → IsWorse block.order.side limit block.order.price
        → IsResult problem selection welfare → accepts selection place ≡ false
        → IsResult other selection welfare }
{}

/// Book order decides only ties, for hourly orders: if the orders of a period stand in another order, the
/// prices of each selection are the same, and so are the result and its welfare.
pub fn book_order_of_hourly_orders_decides_only_ties()
    ensures prices { (problem other : ProblemState) (selection : List Bool) (prices : List ℤ)
        → IsReordered problem other
        → ArePrices problem.blocks selection 1 problem.hours prices
        → ArePrices other.blocks selection 1 other.hours prices }
    ensures result { (problem other : ProblemState) (selection : List Bool) (welfare : ℤ)
        → IsReordered problem other
        → IsResult problem selection welfare → IsResult other selection welfare }
{
    dam_hour::market_laws::book_order_decides_only_ties();
}

/// Book order decides only ties, for blocks: if they stand in another order, parents before their
/// children, each eligible selection has its counterpart, which accepts the same blocks at the same
/// prices with the same welfare. So the welfare of the result is the same.
pub fn book_order_of_blocks_decides_only_ties()
    ensures selections { (problem other : ProblemState) (selection : List Bool) (welfare : ℤ)
        → IsProblem problem → IsProblem other → HasBlocksReordered problem other
        → IsEligible problem selection welfare
        → (counterpart : List Bool)
        × AcceptTheSame problem.blocks other.blocks selection counterpart
        × ((prices : List ℤ) → ArePrices problem.blocks selection 1 problem.hours prices
        → ArePrices other.blocks counterpart 1 other.hours prices)
        × IsEligible other counterpart welfare }
    ensures welfare { (problem other : ProblemState) (selection result : List Bool) (v w : ℤ)
        → IsProblem problem → IsProblem other → HasBlocksReordered problem other
        → IsResult problem selection v → IsResult other result w → v ≡ w }
{}
