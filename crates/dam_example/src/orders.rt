//! Orders as values: each is checked when it is made.

use dam_book::{Command, HourOrder, Name, Order, Participant, Period, Price, Qty, Side};

/// The submit of an hourly order for period 8: a limit price in cents per MWh, and a volume in tenths of a MW. `None` if one of
/// them is outside its limits, or a name is none.
pub fn hourly_submit(
    who: &[u8],
    name: &[u8],
    side: Side,
    cents: i32,
    tenths: u32,
) -> Option<Command> {
    let order = HourOrder::new(side, Price::new(cents)?, Period::new(8)?, Qty::new(tenths)?);
    Some(Command::Submit {
        who: Participant::new(who)?,
        name: Name::new(name)?,
        order: Order::Hour(order),
    })
}
