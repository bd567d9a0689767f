//! The descendants and the ancestors of each block as sets of places, so that later steps compare no names.

ghost use Rattle.std.specs.Prelude.{◌≡◌, ◌≤◌, ◌&&◌, ℕ, nat_lt, length, IfOk};
ghost use Rattle.dam_book.specs.Limits.{most_blocks};
ghost use Rattle.dam_blocks.specs.Selection.{accepts};
ghost use Rattle.dam_blocks.specs.Family.{descends};
ghost use Rattle.dam_bound.specs.inside.Families.{IsFamily, AreFamilies};

use dam_blocks::{Block, Selection, descends};
use std::alloc::{AllocError, Allocator};

/// The places of the blocks that descend from the one at a place.
pub fn descendants_of(blocks: &[Block], place: usize) -> Selection
    requires { length blocks.now ≤ most_blocks }
    ensures { (at : ℕ) → accepts result at
        ≡ (nat_lt at (length blocks.now) && descends blocks.now place at) }
{
    let mut descendants = Selection::none();
    for at in 0..blocks.len() {
        if descends(blocks, place, at) {
            descendants = descendants.with(at);
        }
    }
    descendants
}

/// The places of the blocks from which the one at a place descends.
pub fn ancestors_of(blocks: &[Block], place: usize) -> Selection
    requires { length blocks.now ≤ most_blocks }
    ensures { (at : ℕ) → accepts result at
        ≡ (nat_lt at (length blocks.now) && descends blocks.now at place) }
{
    let mut ancestors = Selection::none();
    for at in 0..blocks.len() {
        if descends(blocks, at, place) {
            ancestors = ancestors.with(at);
        }
    }
    ancestors
}

/// The blocks that descend from the one at a place; nothing if none does.
fn family_of(blocks: &[Block], place: usize) -> Option<Selection>
    requires { length blocks.now ≤ most_blocks }
    ensures { IsFamily blocks.now place result }
{
    let family = descendants_of(blocks, place);
    if family.meets(family) {
        Some(family)
    } else {
        None
    }
}

/// For each block those that descend from it. They are asked for once, so that gains compare no names.
pub(crate) fn descendants_of_each<A: Allocator>(
    alloc: A,
    blocks: &[Block],
) -> Result<Vec<Option<Selection>, A>, AllocError>
    requires { length blocks.now ≤ most_blocks }
    ensures { IfOk result (λ families. AreFamilies blocks.now families.items) }
{
    let mut families = Vec::with_capacity(alloc, blocks.len())?;
    for place in 0..blocks.len() {
        families.push(family_of(blocks, place))?;
    }
    Ok(families)
}
