//! The places of a block's parent and group, found once for a problem, so that no search compares names.

ghost use Rattle.std.specs.Prelude.{◌≡◌, ◌≤◌, length, IfOk};
ghost use Rattle.dam_book.specs.Limits.{most_blocks};
ghost use Rattle.dam_blocks.specs.inside.Hindrances.{parent_places, group_places, count_accepted, AreAllHindrances};

use crate::family::is_parent;
use crate::links::are_of_one_group;
use crate::problem::Block;
use crate::selection::Selection;
use arrayvec::ArrayVec;
use dam_book::MOST_BLOCKS;
use std::alloc::{AllocError, Allocator};

/// The blocks that may keep a block from being accepted, as places from 0 in book order.
#[derive(Drop)]
pub(crate) struct Hindrances {
    /// Its parent, if it has one, which hinders it while rejected.
    pub(crate) parent_places: ArrayVec<u8, MOST_BLOCKS>,
    /// The blocks of its group, itself among them, if it has one. They hinder it while too many of them are
    /// accepted.
    pub(crate) group_places: ArrayVec<u8, MOST_BLOCKS>,
}

/// The place of the block's parent, if it has one.
fn parent_places(blocks: &[Block], block: &Block) -> ArrayVec<u8, MOST_BLOCKS>
    requires { length blocks.now ≤ most_blocks }
    ensures { result.items ≡ parent_places block.now blocks.now }
{
    let mut places = ArrayVec::new();
    for (at, other) in blocks.iter().enumerate() {
        if is_parent(other, block) {
            places.push(at as u8);
        }
    }
    places
}

/// The places of the blocks of the block's group, its own among them.
fn group_places(blocks: &[Block], block: &Block) -> ArrayVec<u8, MOST_BLOCKS>
    requires { length blocks.now ≤ most_blocks }
    ensures { result.items ≡ group_places block.now blocks.now }
{
    let mut places = ArrayVec::new();
    for (at, other) in blocks.iter().enumerate() {
        if are_of_one_group(block, other) {
            places.push(at as u8);
        }
    }
    places
}

/// The hindrances of each block, in book order.
pub(crate) fn all_hindrances<A: Allocator>(
    alloc: A,
    blocks: &[Block],
) -> Result<Vec<Hindrances, A>, AllocError>
    requires { length blocks.now ≤ most_blocks }
    ensures { IfOk result (λ all. AreAllHindrances blocks.now all.items) }
{
    let mut all = Vec::with_capacity(alloc, blocks.len())?;
    for place in 0..blocks.len() {
        let block = &blocks[place];
        let parents = parent_places(blocks, block);
        let group = group_places(blocks, block);
        all.push(Hindrances {
            parent_places: parents,
            group_places: group,
        })?;
    }
    Ok(all)
}

/// The number of these places that the selection accepts.
pub(crate) fn count_accepted(selection: Selection, places: &[u8]) -> usize
    ensures { result ≡ count_accepted selection places.now }
{
    let mut accepted = 0;
    for place in places {
        if selection.has(usize::from(*place)) {
            accepted += 1;
        }
    }
    accepted
}
