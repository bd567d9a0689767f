//! The results text, written from the results.

ghost use Rattle.std.specs.Prelude.{◌≡◌, ◌++◌, codes, IfOk, OnOk};
ghost use Rattle.std.specs.Fmt.{signed_decimal};
ghost use Rattle.dam_results.specs.Published.{welfare_line, period_line, acceptance_word, row_result_line};
ghost use Rattle.dam_results.specs.Published;

use crate::lines::{append_day, append_number};
use crate::published::{PeriodResult, Results, RowResult};
use dam_book::{Name, Participant, write_price};
use itoa::Buffer;
use std::alloc::{AllocError, Allocator};

fn append_signed<A: Allocator>(text: &mut Vec<u8, A>, number: i64) -> Result<(), AllocError>
    ensures { OnOk result (text.new.items ≡ text.old.items ++ signed_decimal number) }
{
    text.extend_from_slice(Buffer::new().format(number).as_bytes())
}

fn append_welfare<A: Allocator>(text: &mut Vec<u8, A>, welfare: u64) -> Result<(), AllocError>
    ensures { OnOk result (text.new.items ≡ text.old.items ++ welfare_line welfare) }
{
    text.extend_from_slice(b"welfare,")?;
    append_number(text, welfare)?;
    text.extend_from_slice(b"\n")
}

fn append_period<A: Allocator>(
    text: &mut Vec<u8, A>,
    number: u64,
    period: PeriodResult,
) -> Result<(), AllocError>
    ensures { OnOk result (text.new.items ≡ text.old.items ++ period_line number period) }
{
    text.extend_from_slice(b"period,")?;
    append_number(text, number)?;
    text.extend_from_slice(b",")?;
    write_price(text, period.price)?;
    text.extend_from_slice(b",")?;
    append_number(text, period.volume)?;
    text.extend_from_slice(b"\n")
}

fn acceptance_word(accepted: bool) -> &'static str
    ensures { result.now ≡ acceptance_word accepted }
{
    if accepted { "accepted" } else { "rejected" }
}

/// Appends the participant's code and the order's name, each followed by a comma.
fn append_names<A: Allocator>(
    text: &mut Vec<u8, A>,
    who: &Participant,
    name: &Name,
) -> Result<(), AllocError>
    ensures { OnOk result (text.new.items
        ≡ text.old.items ++ (who.now ++ (codes "," ++ (name.now ++ codes ",")))) }
{
    text.extend_from_slice(who.as_bytes())?;
    text.extend_from_slice(b",")?;
    text.extend_from_slice(name.as_bytes())?;
    text.extend_from_slice(b",")
}

fn append_hourly_order<A: Allocator>(
    text: &mut Vec<u8, A>,
    who: &Participant,
    name: &Name,
    executed: u32,
) -> Result<(), AllocError>
    ensures { OnOk result (text.new.items
        ≡ text.old.items ++ row_result_line (RowResult.Hour who.now name.now executed)) }
{
    text.extend_from_slice(b"hour,")?;
    append_names(text, who, name)?;
    append_number(text, u64::from(executed))?;
    text.extend_from_slice(b"\n")
}

fn append_block<A: Allocator>(
    text: &mut Vec<u8, A>,
    who: &Participant,
    name: &Name,
    accepted: bool,
    surplus: i64,
) -> Result<(), AllocError>
    ensures { OnOk result (text.new.items
        ≡ text.old.items ++ row_result_line (RowResult.Block who.now name.now accepted surplus)) }
{
    text.extend_from_slice(b"block,")?;
    append_names(text, who, name)?;
    text.extend_from_slice(acceptance_word(accepted).as_bytes())?;
    text.extend_from_slice(b",")?;
    append_signed(text, surplus)?;
    text.extend_from_slice(b"\n")
}

fn append_row_result<A: Allocator>(text: &mut Vec<u8, A>, row: &RowResult) -> Result<(), AllocError>
    ensures { OnOk result (text.new.items ≡ text.old.items ++ row_result_line row.now) }
{
    match row {
        RowResult::Hour {
            who,
            name,
            executed,
        } => append_hourly_order(text, who, name, *executed),
        RowResult::Block {
            who,
            name,
            accepted,
            surplus,
        } => append_block(text, who, name, *accepted, *surplus),
    }
}

/// The results text: the line `day,<periods>`, the line `welfare,<welfare>`, for each period from 1 on
/// the line `period,<period>,<price>,<volume>`, and for each order in book order the line
/// `hour,<participant>,<name>,<executed>` or `block,<participant>,<name>,accepted,<surplus>` or
/// `block,<participant>,<name>,rejected,<surplus>`.
pub fn results_text<A: Allocator, B: Allocator>(
    alloc: A,
    results: &Results<B>,
) -> Result<Vec<u8, A>, AllocError>
    ensures { IfOk result (λ text. text.items
        ≡ Published.results_text results.now.welfare
        results.now.periods.items results.now.rows.items) }
{
    let mut text = Vec::new(alloc);
    append_day(&mut text, results.periods.len() as u64)?;
    append_welfare(&mut text, results.welfare)?;
    for (place, period) in results.periods.iter().enumerate() {
        append_period(&mut text, place as u64 + 1, *period)?;
    }
    for row in &results.rows {
        append_row_result(&mut text, row)?;
    }
    Ok(text)
}
