//! Two uses of the libraries. The first clears the text of a journal: text in, results out. In the second two participants enter
//! orders at a gate, side by side; once they are done it closes and is settled, and its book is cleared.
//!
//! `docs/LIBRARY.md` walks through it.
#![tactic(auto)]

mod clearing;
mod day;
mod orders;

use anyhow::{Context, Result};
use clearing::{clear, clear_text};
use dam_book::Side;
use dam_results::Results;
use day::hold_day;
use orders::hourly_submit;

/// A wind farm and a gas plant, whose block runs in both periods or not at all, and a city.
const JOURNAL: &[u8] = b"day,24,,,,,,,
submit,NORD,WIND-8,hour,sell,1200,8:450,,
submit,NORD,WIND-9,hour,sell,1500,9:200,,
submit,NORD,GAS,block,sell,6000,8:100;9:100,,
submit,STAD,BASE-8,hour,buy,9500,8:400,,
submit,STAD,MORE-8,hour,buy,7000,8:300,,
submit,STAD,BASE-9,hour,buy,9500,9:300,,
submit,STAD,MORE-9,hour,buy,8000,9:200,,
close,,,,,,,,
";

fn main(rt: HostRuntime) -> Result<()> {
    let alloc = rt.alloc();
    print_results(&rt, &clear_text(&rt, alloc, JOURNAL)?)?;

    let offer = hourly_submit(b"NORD", b"WIND-8", Side::Sell, 1_200, 450).context("an order")?;
    let bid = hourly_submit(b"STAD", b"BASE-8", Side::Buy, 9_500, 400).context("an order")?;
    let day = hold_day(&rt, alloc, &[offer, bid])?;
    let journal = day.settled.journal();
    println!(rt; "{} entries", journal.entries().len())?;
    print_results(&rt, &clear(&rt, alloc, journal.book())?)
}

/// Prints the welfare, and the price and volume of each period in which energy is traded.
fn print_results(rt: &impl Print, results: &Results) -> Result<()> {
    println!(rt; "welfare {}", results.welfare)?;
    for (place, period) in results.periods.iter().enumerate() {
        if period.volume > 0 {
            let cents = period.price.get();
            println!(rt;
                "period {}: price {cents}, volume {}",
                place + 1,
                period.volume
            )?;
        }
    }
    Ok(())
}
