//! The rules of parents and groups: a selection is admissible if each place that it accepts is allowed.

ghost use Rattle.std.specs.Prelude.{◌≡◌, ◌↔◌, true, IsTrue};
ghost use Rattle.dam_blocks.specs.Selection.{accepts, are_of_one_group, IsAllowed, IsAdmissible};

use crate::hindrances::count_accepted;
use crate::problem::{Block, Problem};
use crate::selection::Selection;
use dam_book::{MOST_BLOCKS, MOST_OF_GROUP};
use std::alloc::Allocator;

/// Whether both are in one exclusive group of one participant.
pub fn are_of_one_group(first: &Block, second: &Block) -> bool
    ensures { result ≡ are_of_one_group first.now second.now }
{
    match (first.order.group(), second.order.group()) {
        (Some(group), Some(other)) => first.who == second.who && *group == *other,
        _ => false,
    }
}

/// Whether a place that the selection accepts is allowed: a block stands there, its parent is accepted if it
/// has one, and of its group no more than `MOST_OF_GROUP` are accepted. A selection is admissible if each place
/// that it accepts is allowed.
///
/// It looks only at the parent and the blocks of the group, by their places, since `admissible` asks it of each accepted
/// block, and a search asks that often.
pub fn is_allowed<A: Allocator>(problem: &Problem<A>, selection: Selection, place: usize) -> bool
    requires { accepts selection place ≡ true }
    ensures { IsTrue result ↔ IsAllowed problem.now.blocks selection place }
{
    let Some(hindrances) = problem.hindrances_at(place) else {
        return false;
    };
    let parents = hindrances.parent_places.as_slice();
    let group = hindrances.group_places.as_slice();
    count_accepted(selection, parents) == parents.len()
        && count_accepted(selection, group) <= MOST_OF_GROUP
}

/// Whether the links and the exclusive groups admit the selection: it accepts blocks of the problem
/// alone, each with its parent, and at most `MOST_OF_GROUP` of each group of a participant.
///
/// (EUPHEMIA Public Description, "Linked Block Orders" and "Block Orders in an Exclusive group".)
pub fn admissible<A: Allocator>(problem: &Problem<A>, selection: Selection) -> bool
    ensures { IsTrue result ↔ IsAdmissible problem.now.blocks selection }
{
    selection.use_invariant();
    for place in 0..MOST_BLOCKS {
        if selection.has(place) && !is_allowed(problem, selection, place) {
            return false;
        }
    }
    true
}
