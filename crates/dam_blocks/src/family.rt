//! Parents are found by their names, and a block descends from those to which the chain of its parents leads.

ghost use Rattle.std.specs.Prelude.{◌≡◌, ◌↔◌, true, false, IsTrue};
ghost use Rattle.dam_blocks.specs.Problem.{IsParent};
ghost use Rattle.dam_blocks.specs.Family.{names, parent_place, descends};

use crate::problem::Block;

/// Whether `parent` is the block that `child` names as its parent, a name of the same participant.
pub(crate) fn is_parent(parent: &Block, child: &Block) -> bool
    ensures test { result ≡ names parent.now child.now }
    ensures relation { IsTrue result ↔ IsParent parent.now child.now }
{
    match child.order.parent() {
        Some(name) => parent.who == child.who && parent.name == *name,
        None => false,
    }
}

/// Whether the block doesn't name a parent, so that it isn't a child of any block.
fn has_no_parent(child: &Block) -> bool
    ensures { result ≡ true → (parent : Block) → names parent child.now ≡ false }
{
    child.order.parent().is_none()
}

/// The place of the parent of the block at a place, if it has one.
fn parent_place(blocks: &[Block], place: usize) -> Option<usize>
    ensures { result ≡ parent_place blocks.now place }
{
    let Some(child) = blocks.get(place) else {
        return None;
    };
    if has_no_parent(child) {
        return None;
    }
    for (at, parent) in blocks.iter().enumerate() {
        if is_parent(parent, child) {
            return Some(at);
        }
    }
    None
}

/// Whether the block at a place descends from the one at another: the chain of its parents leads
/// there. Places count the list from 0.
///
/// It is meant for the blocks of a problem, in which each parent stands before its child and a
/// participant's names differ, so that no block descends from itself.
pub fn descends(blocks: &[Block], ancestor: usize, place: usize) -> bool
    ensures { result ≡ descends blocks.now ancestor place }
{
    let mut parent = parent_place(blocks, place);
    for _ in 0..blocks.len() {
        match parent {
            Some(at) if at == ancestor => return true,
            Some(at) => parent = parent_place(blocks, at),
            None => return false,
        }
    }
    false
}
