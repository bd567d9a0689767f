//! The classes of a problem's periods with their curves, by which selections are bounded and valued.

ghost use Rattle.std.specs.Prelude.{◌≡◌, ◌↔◌, ◌<◌, ℤ, ◌≤ℤ◌, ◌<ℤ◌, false, ◌&&◌, List, Bool, Some, None, All, length, IfOk, IfSome};
ghost use Rattle.dam_book.specs.Limits.{most_blocks};
ghost use Rattle.dam_blocks.specs.Eligible.{ArePrices, HasNoLoss, selection_welfare, surplus_at, family_surplus};
ghost use Rattle.dam_blocks.specs.Magnitude.{IsWithin};
ghost use Rattle.dam_bound.specs.ClassPrices.{AreClassPrices};
ghost use Rattle.dam_bound.specs.Prices.{IsPricing, greatest_priced_gain};
ghost use Rattle.dam_bound.specs.Relaxed.{without_rows};
ghost use Rattle.dam_bound.specs.inside.Counted.{counted_if};

use crate::block_numbers::{acceptance_weights, add_priced_nets, doubled_weights, weighted_sum};
use crate::class_making::{add_class_curves, values_of};
use crate::class_prices::ClassPrices;
use crate::families::descendants_of_each;
use crate::pricing::Pricing;
use dam_blocks::{Problem, Selection};
use dam_book::MOST_BLOCKS;
use dam_curve::{Curve, Curves};
use std::alloc::{AllocError, Allocator};
use std::marker::Model;

/// A class of periods: those in which every block has the same volume.
#[derive(Clone, Copy)]
pub(crate) struct Class {
    /// The place of its first period.
    pub(crate) first_place: u32,
    /// The joint welfare of its hourly orders over the net volume.
    pub(crate) curve: Curve,
    /// The net volume of each block in each of its periods, in tenths of a MW; 0 at the places past the last block.
    pub(crate) nets: [i32; MOST_BLOCKS],
}

/// The classes of a problem's periods with the curves of their hourly orders. They give bounds by prices, the welfare of a
/// selection, and whether one of its blocks loses.
///
/// A contract sees the problem, without its rows.
#[derive(Drop)]
pub struct ClassCurves<'a, A: Allocator, B: Allocator> {
    problem: &'a Problem<A>,
    pub(crate) curves: Curves<B>,
    /// The classes in the order of their first periods.
    pub(crate) classes: Vec<Class, B>,
    /// The value of each block over the day; 0 at the places past the last block.
    pub(crate) values: [i64; MOST_BLOCKS],
    /// For each block those that descend from it.
    pub(crate) families: Vec<Option<Selection>, B>,
}

impl<'a, A: Allocator, B: Allocator> Model for ClassCurves<'a, A, B> {
    ghost use Rattle.dam_blocks.specs.Problem.{ProblemState};
    ghost use Rattle.dam_bound.specs.Relaxed.{without_rows};
    ghost use Rattle.dam_bound.specs.ClassCurves.{AreClassCurves};

    ghost Value = { ProblemState };

    ghost view = { λ c. without_rows c.problem.now };

    ghost invariant = { λ c. AreClassCurves (without_rows c.problem.now) c.curves c.classes.items
        c.values c.families.items };
}

impl<'a, A: Allocator, B: Allocator + Copy> ClassCurves<'a, A, B> {
    /// The classes of a problem. The error is out of memory.
    pub fn of(alloc: B, problem: &'a Problem<A>) -> Result<ClassCurves<'a, A, B>, AllocError>
        ensures { IfOk result (λ curves. curves ≡ without_rows problem.now) }
    {
        let mut curves = Curves::new(alloc);
        let classes = add_class_curves(alloc, problem, &mut curves)?;
        let values = values_of(problem.blocks(), usize::from(problem.periods().get()));
        let families = descendants_of_each(alloc, problem.blocks())?;
        Ok(ClassCurves {
            problem,
            curves,
            classes,
            values,
            families,
        })
    }
}

impl<A: Allocator, B: Allocator> ClassCurves<'_, A, B> {
    /// Writes a pricing. Its prices are those at which the accepted blocks, and half of the volume of those that are
    /// left open, would clear, so that the bound of the selections that accept the accepted blocks and some of the open ones is
    /// little above their welfares. But it bounds every selection. No clause says how tight it is. Takes no memory.
    pub fn write_pricing(&self, accepted: Selection, undecided: &[u8], pricing: &mut Pricing)
        requires { All (λ place. place < most_blocks) undecided.now }
        ensures { IsPricing self.now pricing.new }
    {
        let weights = doubled_weights(accepted, undecided);
        pricing.base = 0;
        pricing.gains = self.values;
        for class in &self.classes {
            let middle = weighted_sum(&weights, &class.nets).div_euclid(2);
            let line = self.curves.line_near(class.curve, i64::from(middle));
            pricing.base += line.surplus;
            pricing.lines[class.first_place as usize] = line;
            add_priced_nets(&mut pricing.gains, &class.nets, line.price);
        }
    }

    /// The welfare of a selection, in cents per MWh times tenths of a MW; `None` exactly if it is under `least`, or if some
    /// period doesn't balance. The bound may be any of this problem: it is lowered class by class, and given up once it is
    /// under `least`. The prices at which the selection clears are written too, all of them only if there is a welfare. Takes
    /// no memory.
    pub fn price_selection(
        &self,
        selection: Selection,
        pricing: &Pricing,
        least: i64,
        prices: &mut ClassPrices,
    ) -> Option<i64>
        requires { IsPricing self.now pricing.now }
        ensures some { IfSome result (λ w. (selection_welfare self.now selection ≡ Some w)
            × (least ≤ℤ w)) }
        ensures none { result ≡ None → (w : ℤ)
            → selection_welfare self.now selection ≡ Some w
            → w <ℤ least }
        ensures prices { IfSome result (λ w. AreClassPrices self.now selection prices.new.prices) }
    {
        let counts = acceptance_weights(selection);
        let mut total = pricing.bound(selection, &[]);
        for class in &self.classes {
            let net = i64::from(weighted_sum(&counts, &class.nets));
            let Some(point) = self.curves.point(class.curve, net) else {
                return None;
            };
            total -= pricing.lines[class.first_place as usize].value(net) - point.welfare;
            if total < least {
                return None;
            }
            prices.prices[class.first_place as usize] = point.price;
        }
        if total < least { None } else { Some(total) }
    }

    /// Whether an accepted block, together with the accepted blocks that descend from it and may rescue it, loses at
    /// these prices of the selection, which `price_selection` wrote. Takes no memory.
    pub fn has_loss(&self, selection: Selection, prices: &ClassPrices) -> bool
        requires { AreClassPrices self.now selection prices.now.prices }
        ensures { (day : List ℤ)
            → ArePrices self.now.blocks selection 1 self.now.hours day
            → (result ≡ false) ↔ HasNoLoss self.now.blocks selection day }
    {
        dam_blocks::laws::accepted_descendants_descend();
        for place in 0..self.families.len() {
            if selection.has(place) && self.family_gain(selection, place, prices) < 0 {
                return true;
            }
        }
        false
    }

    /// The gain of the block at the place at these prices, with the accepted blocks that descend from it: if it is below
    /// 0, they don't rescue the block.
    fn family_gain(&self, selection: Selection, place: usize, prices: &ClassPrices) -> i64
        requires place { place < length self.now.blocks }
        requires prices { AreClassPrices self.now selection prices.now.prices }
        ensures { (day : List ℤ)
            → ArePrices self.now.blocks selection 1 self.now.hours day
            → result ≡ family_surplus self.now.blocks selection day place }
    {
        dam_blocks::laws::accepted_descendants_descend();
        let own = self.gain_at(place, prices);
        let Some(family) = self.families[place] else {
            return own;
        };
        let mut total = own;
        for at in 0..self.families.len() {
            total += self.counted_gain(selection.has(at), family.has(at), at, prices);
        }
        total
    }

    /// The gain of the block at the place at these prices, if it is accepted and a member of a family, else 0.
    fn counted_gain(&self, accepted: bool, member: bool, place: usize, prices: &ClassPrices) -> i64
        requires place { place < length self.now.blocks }
        requires prices { (selection : List Bool)
            × AreClassPrices self.now selection prices.now.prices }
        ensures value { (selection : List Bool) (day : List ℤ)
            → AreClassPrices self.now selection prices.now.prices
            → ArePrices self.now.blocks selection 1 self.now.hours day
            → result ≡ counted_if (accepted && member) (surplus_at self.now.blocks day place) }
        ensures size { IsWithin greatest_priced_gain result }
    {
        if accepted && member {
            self.gain_at(place, prices)
        } else {
            0
        }
    }

    /// The gain of the block at the place at these prices.
    #[inline(always)]
    fn gain_at(&self, place: usize, prices: &ClassPrices) -> i64
        requires place { place < length self.now.blocks }
        requires prices { (selection : List Bool)
            × AreClassPrices self.now selection prices.now.prices }
        ensures value { (selection : List Bool) (day : List ℤ)
            → AreClassPrices self.now selection prices.now.prices
            → ArePrices self.now.blocks selection 1 self.now.hours day
            → result ≡ surplus_at self.now.blocks day place }
        ensures size { IsWithin greatest_priced_gain result }
    {
        dam_hour::laws::best_execution_is_unique();
        let values = &self.values;
        let mut gain = values[place];
        for class in &self.classes {
            let price = prices.prices[class.first_place as usize];
            gain += i64::from(class.nets[place]) * i64::from(price);
        }
        gain
    }
}
