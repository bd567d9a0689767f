//! The rows of a book in the order of their submits, which a map finds by participant and name.

ghost use Rattle.std.specs.Prelude.{◌≡◌, ◌+◌, ◌==◌, if◌then◌else◌, ◌∷◌, ◌++◌, [], None, Some, length, is_some, option_map, slice_get, IfOk, IfSome, IfNone, OnOk, OnErr};
ghost use Rattle.std.specs.List.{list_any, IsDistinct};
ghost use Rattle.std.specs.Option.{option_copied};
ghost use Rattle.std.specs.Map.{lookup, remove_entry, keys_of};
ghost use Rattle.std.specs.Cmp.Rules.{comparing, hashing};
ghost use Rattle.std.specs.Hash as fed;
ghost use Rattle.std.proofs.Common.{rules};
ghost use Rattle.dam_book.specs.Book.{same_key, key_bytes, changed, names_parent};
ghost use Rattle.dam_book.specs.Order.{amended};
ghost use Rattle.dam_book.specs.inside.Gaps.{rows_of, gap_count, same_label, AreNumbered, IsLabelledAt, child_at, is_child_place};

use crate::boxed_order::BoxedOrder;
use crate::name::{LONGEST_NAME, Name};
use crate::order::Order;
use crate::participant::{LONGEST_PARTICIPANT, Participant};
use crate::price::Price;
use crate::seed::Seed;
use crate::volumes::Volumes;
use indexmap::IndexMap;
use std::alloc::{AllocError, Allocator};
use std::hash::{Hash, Hasher};
use std::marker::Model;

// The label by which the map finds a place: the key of its row, or a filler's. The number is 0 for a row; for a filler
// it is the number of its place, counted from 1. So two fillers are never equal.
#[derive(Debug, Drop)]
struct Label {
    who: Participant,
    name: Name,
    filler: usize,
}

impl Model for Label {
    ghost use Rattle.dam_book.specs.inside.Gaps as gaps;

    ghost Value = { gaps.Label };

    ghost view = { λ l. ((l.who, l.name), l.filler) };

    ghost inverse = { λ l. record { who = l.0.0; name = l.0.1; filler = l.1 } };
}

impl Clone for Label {
    ghost is_clone = { λ x y. y ≡ x };

    fn clone(&self) -> Result<Label, AllocError> {
        Ok(Label {
            who: self.who.copy(),
            name: self.name.copy(),
            filler: self.filler,
        })
    }
}

impl PartialEq for Label {
    ghost eq = { same_label };

    ghost laws = { Prim.search (comparing, rules) };

    fn eq(&self, other: &Label) -> bool {
        self.who == other.who && self.name == other.name && self.filler == other.filler
    }
}

impl Eq for Label {
    ghost laws = { Prim.search (comparing, rules) };
}

impl Hash for Label {
    ghost hash_input = { λ l. key_bytes l.0 ∷ (if l.1 == 0 then [] else fed.usize l.1) };

    ghost respects_eq = { Prim.search (hashing, rules) };

    // A row's label hashes as its key alone: to hash more would make every command slower.
    fn hash<H: Hasher>(&self, state: &mut H) {
        state.write(&key_bytes(&self.who, &self.name));
        if self.filler != 0 {
            self.filler.hash(state);
        }
    }
}

// The bytes of a key's two texts, one after the other: one call hashes them in whole words.
fn key_bytes(who: &Participant, name: &Name) -> [u8; KEY_BYTES]
    ensures { result ≡ key_bytes (who.now, name.now) }
{
    let mut bytes = [0; KEY_BYTES];
    bytes[..LONGEST_PARTICIPANT].copy_from_slice(who.as_padded_bytes());
    bytes[LONGEST_PARTICIPANT..LONGEST_PARTICIPANT + LONGEST_NAME].copy_from_slice(
        name.as_padded_bytes(),
    );
    bytes
}

// Three words of eight bytes, in which both texts find room.
const KEY_BYTES: usize = 24;

// The content of a place is an order, or `None` at a gap.
type RowMap<A> = IndexMap<Label, Option<BoxedOrder<A>>, Seed, A>;

// Rows in an order that stays, each under a key of its own. A row that is taken out leaves a gap in its place, so that
// no other moves; once there are more gaps than rows they are squeezed out.
//
// A contract sees the rows.
#[derive(Debug, Drop)]
pub(crate) struct Rows<A: Allocator> {
    map: RowMap<A>,
    gaps: usize,
}

impl<A: Allocator> Model for Rows<A> {
    ghost use Rattle.std.specs.Prelude.{◌≡◌, List};
    ghost use Rattle.std.specs.List.{IsDistinct};
    ghost use Rattle.std.specs.Map.{keys_of};
    ghost use Rattle.dam_book.specs.Book.{Row};
    ghost use Rattle.dam_book.specs.inside.Gaps.{rows_of, gap_count, same_label, AreNumbered};

    ghost Value = { List Row };

    ghost view = { λ r. rows_of r.map.entries };

    ghost invariant = { λ r. (r.gaps ≡ gap_count r.map.entries)
        × AreNumbered 1 r.map.entries
        × IsDistinct same_label (keys_of r.map.entries) };
}

// The label of the key's row.
fn row_label(who: &Participant, name: &Name) -> Label
    ensures { result ≡ ((who.now, name.now), 0) }
{
    Label {
        who: who.copy(),
        name: name.copy(),
        filler: 0,
    }
}

// Replaces the removed row's label, in the gap at this place, by a filler: the last place in the map takes the place
// of the one that is removed, and so no other moves. An `Err` leaves the map.
fn relabel_gap<A: Allocator>(
    map: &mut RowMap<A>,
    place: usize,
    label: &Label,
) -> Result<(), AllocError>
    requires unfilled { label.now.1 ≡ 0 }
    requires gap { slice_get map.old.entries place ≡ Some (label.now, None) }
    requires numbered { AreNumbered 1 map.old.entries }
    ensures rows { rows_of map.new.entries ≡ rows_of map.old.entries }
    ensures count { gap_count map.new.entries ≡ gap_count map.old.entries }
    ensures numbered { AreNumbered 1 map.new.entries }
    ensures absent { OnOk result (lookup (same_label label.now) map.new.entries ≡ None) }
    ensures apart { IsDistinct same_label (keys_of map.new.entries) }
{
    let _len = map.len(); // for the proof: there is a number after the place's
    let filler = Label {
        who: label.who.copy(),
        name: label.name.copy(),
        filler: place + 1,
    };
    map.insert(filler, None)?;
    let _found = map.swap_remove_index(place).is_some();
    Ok(())
}

// Makes the label of a row free for it to go last, by relabelling the gap that still has it.
fn release_label<A: Allocator>(
    map: &mut RowMap<A>,
    gaps: usize,
    label: &Label,
) -> Result<(), AllocError>
    requires unfilled { label.now.1 ≡ 0 }
    requires counted { gaps ≡ gap_count map.old.entries }
    requires numbered { AreNumbered 1 map.old.entries }
    requires apart { IsDistinct same_label (keys_of map.old.entries) }
    requires free { lookup (same_key label.now.0) (rows_of map.old.entries) ≡ None }
    ensures rows { rows_of map.new.entries ≡ rows_of map.old.entries }
    ensures count { gap_count map.new.entries ≡ gap_count map.old.entries }
    ensures numbered { AreNumbered 1 map.new.entries }
    ensures absent { OnOk result (lookup (same_label label.now) map.new.entries ≡ None) }
    ensures apart { IsDistinct same_label (keys_of map.new.entries) }
{
    if gaps == 0 {
        return Ok(());
    }
    let Some((place, _, _)) = map.get_full(label) else {
        return Ok(());
    };
    relabel_gap(map, place, label)
}

// The label's place: `likely_place` if the label stands there, or else found by a look-up.
fn place_of<A: Allocator>(map: &RowMap<A>, likely_place: usize, label: &Label) -> Option<usize>
    ensures found { IfSome result (λ place. IsLabelledAt label.now map.now.entries place) }
    ensures absent { IfNone result (lookup (same_label label.now) map.now.entries ≡ None) }
{
    if let Some((there, _)) = map.get_index(likely_place) {
        if *there == *label {
            return Some(likely_place);
        }
    }
    let Some((place, _, _)) = map.get_full(label) else {
        return None;
    };
    Some(place)
}

// Removes the order under the key, which leaves a gap.
fn take_order<A: Allocator>(
    map: &mut RowMap<A>,
    likely_place: usize,
    label: &Label,
) -> Option<BoxedOrder<A>>
    requires unfilled { label.now.1 ≡ 0 }
    requires numbered { AreNumbered 1 map.old.entries }
    requires apart { IsDistinct same_label (keys_of map.old.entries) }
    ensures value { result ≡ lookup (same_key label.now.0) (rows_of map.old.entries) }
    ensures rows { rows_of map.new.entries
        ≡ remove_entry (same_key label.now.0) (rows_of map.old.entries) }
    ensures count { gap_count map.new.entries
        ≡ gap_count map.old.entries + (if is_some result then 1 else 0) }
    ensures numbered { AreNumbered 1 map.new.entries }
    ensures apart { IsDistinct same_label (keys_of map.new.entries) }
{
    let Some(place) = place_of(map, likely_place, label) else {
        return None;
    };
    let Some(content) = map.get_index_mut(place) else {
        return None;
    };
    content.take()
}

// Changes the order under the key at its place.
fn amend_order<A: Allocator>(
    map: &mut RowMap<A>,
    likely_place: usize,
    label: &Label,
    price: Price,
    volumes: &Volumes,
)
    requires unfilled { label.now.1 ≡ 0 }
    requires numbered { AreNumbered 1 map.old.entries }
    requires apart { IsDistinct same_label (keys_of map.old.entries) }
    ensures rows { rows_of map.new.entries
        ≡ changed label.now.0 (amended price volumes.now) (rows_of map.old.entries) }
    ensures count { gap_count map.new.entries ≡ gap_count map.old.entries }
    ensures numbered { AreNumbered 1 map.new.entries }
    ensures apart { IsDistinct same_label (keys_of map.new.entries) }
{
    let Some(place) = place_of(map, likely_place, label) else {
        return;
    };
    let Some(content) = map.get_index_mut(place) else {
        return;
    };
    let Some(boxed) = content else {
        return;
    };
    boxed.amend(price, volumes);
}

// Whether the content of this owner's place is a block with this parent.
fn is_child<A: Allocator>(
    who: &Participant,
    name: &Name,
    owner: &Participant,
    content: &Option<BoxedOrder<A>>,
) -> bool
    ensures { result ≡ child_at (who.now, name.now) owner.now content.now }
{
    match content {
        Some(order) => order.get().is_child_of(name) && *who == *owner,
        None => false,
    }
}

// Whether a row names this order as its parent.
fn has_child<A: Allocator>(map: &RowMap<A>, who: &Participant, name: &Name) -> bool
    ensures { result ≡ list_any (is_child_place (who.now, name.now)) map.now.entries }
{
    map.iter().any(|(label, content)| is_child(who, name, &label.who, content))
}

// The row at a place, counted from 0 without the gaps.
fn row_in_map<A: Allocator>(map: &RowMap<A>, place: usize) -> Option<(Participant, Name, &Order)>
    ensures { option_map (λ r. ((r.0, r.1), r.2.now)) result
        ≡ slice_get (rows_of map.now.entries) place }
{
    let mut left = place;
    for (label, content) in map.iter() {
        if let Some(order) = content {
            if left == 0 {
                return Some((label.who.copy(), label.name.copy(), order.get()));
            }
            left -= 1;
        }
    }
    None
}

impl<A: Allocator + Copy> Rows<A> {
    pub(crate) fn new(alloc: A, seed: Seed) -> Rows<A>
        ensures { result ≡ [] }
    {
        Rows {
            map: IndexMap::with_hasher(alloc, seed),
            gaps: 0,
        }
    }

    // The number of rows.
    pub(crate) fn len(&self) -> usize
        ensures { result ≡ length self.now }
    {
        self.map.len() - self.gaps
    }

    // The order under the key.
    pub(crate) fn find(&self, who: &Participant, name: &Name) -> Option<&Order>
        ensures { option_copied result ≡ lookup (same_key (who.now, name.now)) self.now }
    {
        let Some((_, order)) = self.find_with_place(who, name) else {
            return None;
        };
        Some(order)
    }

    // The order under the key, with its place among the rows and the gaps.
    pub(crate) fn find_with_place(&self, who: &Participant, name: &Name) -> Option<(usize, &Order)>
        ensures { option_map (λ r. r.1.now) result
            ≡ lookup (same_key (who.now, name.now)) self.now }
    {
        let Some((place, _, found)) = self.map.get_full(&row_label(who, name)) else {
            return None;
        };
        let Some(order) = found else {
            return None;
        };
        Some((place, order.get()))
    }

    // Whether a row names this order as its parent.
    pub(crate) fn is_parent(&self, who: &Participant, name: &Name) -> bool
        ensures { result ≡ list_any (names_parent (who.now, name.now)) self.now }
    {
        has_child(&self.map, who, name)
    }

    // The row at a place, counted from 0 without the gaps: one step if there is no gap.
    pub(crate) fn row(&self, place: usize) -> Option<(Participant, Name, &Order)>
        ensures { option_map (λ r. ((r.0, r.1), r.2.now)) result ≡ slice_get self.now place }
    {
        if self.gaps == 0 {
            let Some((label, content)) = self.map.get_index(place) else {
                return None;
            };
            let Some(order) = content else {
                return None;
            };
            return Some((label.who.copy(), label.name.copy(), order.get()));
        }
        row_in_map(&self.map, place)
    }

    // Puts a row last. On an `Err` the rows are unchanged.
    pub(crate) fn push(
        &mut self,
        who: &Participant,
        name: &Name,
        order: &Order,
    ) -> Result<(), AllocError>
        requires { lookup (same_key (who.now, name.now)) self.old ≡ None }
        ensures entries { OnOk result
            (self.new ≡ self.old ++ ((who.now, name.now), order.now) ∷ []) }
        ensures err { OnErr result (self.new ≡ self.old) }
    {
        let boxed = BoxedOrder::of(*self.map.allocator(), order)?;
        let label = row_label(who, name);
        release_label(&mut self.map, self.gaps, &label)?;
        self.map.insert(label, Some(boxed))?;
        Ok(())
    }

    // Changes the order under the key at its place, which is quicker if the place is `likely_place`.
    pub(crate) fn amend(
        &mut self,
        likely_place: usize,
        who: &Participant,
        name: &Name,
        price: Price,
        volumes: &Volumes,
    )
        ensures { self.new
            ≡ changed (who.now, name.now) (amended price volumes.now) self.old }
    {
        let label = row_label(who, name);
        amend_order(&mut self.map, likely_place, &label, price, volumes);
    }

    // Removes the order under the key. The rest keep their order. It is quicker if the order stands at this place.
    pub(crate) fn remove(
        &mut self,
        likely_place: usize,
        who: &Participant,
        name: &Name,
    ) -> Option<BoxedOrder<A>>
        ensures value { result ≡ lookup (same_key (who.now, name.now)) self.old }
        ensures entries { self.new ≡ remove_entry (same_key (who.now, name.now)) self.old }
    {
        let Some(order) = take_order(&mut self.map, likely_place, &row_label(who, name)) else {
            return None;
        };
        let place_count = self.map.len();
        self.gaps += 1;
        if self.gaps > place_count - self.gaps {
            self.remove_gaps();
        }
        Some(order)
    }

    // Removes the gaps, which takes no memory.
    pub(crate) fn remove_gaps(&mut self)
        ensures { self.new ≡ self.old }
    {
        if self.gaps > 0 {
            self.map.retain(|_, content| content.is_some());
            self.gaps = 0;
        }
    }

    // Equal rows, on the same allocator.
    pub(crate) fn try_copy(&self) -> Result<Rows<A>, AllocError>
        ensures { IfOk result (λ rows. rows ≡ self.now) }
    {
        Ok(Rows {
            map: self.map.clone()?,
            gaps: self.gaps,
        })
    }
}
