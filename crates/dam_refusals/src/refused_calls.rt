//! Gates whose calls are refused for other reasons than memory: a full journal, and passes that may not give the command.
ghost use Rattle.std.specs.Prelude.{◌≡◌};

use crate::answer::{Answer, Stop, TRIES, Told};
use crate::day::settle_again;
use crate::passes::Passes;
use dam_book::{
    BlockOrder, Command, HourOrder, Name, Order, Participant, Period, Price, Qty, Seed, Side,
    Volumes,
};
use dam_gate::{
    Account, Gate, GateFault, GateName, Journal, MOST_PASSES, Mismatch, Opening, PassFault, settle,
};
use std::alloc::Global;
use std::marker::Brand;
use std::sync::Wait;

/// The entries that a journal has room for before its close.
const BEFORE_CLOSE: u32 = 9_999;

/// A submit of a sell order, by this participant under this name.
fn sell_submit(who: &[u8], name: &[u8]) -> Option<Command> {
    let order = HourOrder::new(
        Side::Sell,
        Price::new(3_000)?,
        Period::new(1)?,
        Qty::new(10)?,
    );
    Some(Command::Submit {
        who: Participant::new(who)?,
        name: Name::new(name)?,
        order: Order::Hour(order),
    })
}

/// A submit of a block of one period, whose terms the gate packs on the heap.
fn block_submit(who: &[u8], name: &[u8]) -> Option<Command> {
    let pairs = [(Period::new(1)?, Qty::new(10)?)];
    let volumes = Volumes::new(&pairs).ok()?;
    let order = BlockOrder::new(Side::Sell, Price::new(3_000)?, volumes, None, None);
    Some(Command::Submit {
        who: Participant::new(who)?,
        name: Name::new(name)?,
        order: Order::Block(order),
    })
}

/// A cancel of an order of A that isn't there.
fn cancel_of_absent_order() -> Option<Command> {
    Some(Command::Cancel {
        who: Participant::new(b"A")?,
        name: Name::new(b"S1")?,
    })
}

/// Has the gate take the command this number of times.
fn enter_repeatedly<J: GateName, H: Wait + Drop>(
    rt: &impl Wait,
    gate: &Gate<J, H>,
    passes: &mut Passes<J>,
    command: &Command,
    times: u32,
) -> Result<(), Stop> {
    for earlier in 0..times {
        passes.enter(rt, gate, command, earlier)?;
    }
    Ok(())
}

/// Fills the journal of a gate of this opening, but for one entry and the close, or with them too.
fn fill_at_gate<J: GateName, R: Wait>(
    rt: &R,
    alloc: Global,
    opening: Opening,
    seed: Seed,
    is_closed: bool,
) -> Result<Told, Stop>
    requires { opening ≡ J.opening }
{
    let mut passes = Passes::<J>::new(alloc)?;
    let gate = Gate::<J, &R>::begin_seeded(rt, alloc, opening, seed)?;
    let cancel = cancel_of_absent_order().ok_or(Stop::Wrong)?;
    enter_repeatedly(rt, &gate, &mut passes, &cancel, BEFORE_CLOSE - 1)?;
    if is_closed {
        fill_and_close(rt, &gate, &mut passes)?;
    }
    Ok(Told {
        answer: Answer::Entries(gate.finish().entries().len()),
        refused: passes.refused,
    })
}

/// The last calls at a gate whose journal has room for one entry and the close.
fn fill_and_close<J: GateName, H: Wait + Drop>(
    rt: &impl Wait,
    gate: &Gate<J, H>,
    passes: &mut Passes<J>,
) -> Result<(), Stop> {
    let first = sell_submit(b"A", b"S1").ok_or(Stop::Wrong)?;
    let second = block_submit(b"A", b"S2").ok_or(Stop::Wrong)?;
    passes.enter(rt, gate, &first, BEFORE_CLOSE - 1)?;
    // refused for the full journal before anything is packed, so also while memory is refused
    let full = GateFault::JournalFull { held: BEFORE_CLOSE };
    passes.expect_refusal(rt, gate, 0, &second, BEFORE_CLOSE, full)?;
    passes.enter(rt, gate, &Command::Close, BEFORE_CLOSE)?;
    let full = GateFault::JournalFull {
        held: BEFORE_CLOSE + 1,
    };
    passes.expect_refusal(rt, gate, 1, &Command::Close, BEFORE_CLOSE + 1, full)
}

/// Enters as many commands as a journal has room for but one; then, if the day is to be closed, a submit, a block, the
/// close and another close. The block and the second close are refused.
pub fn fill_journal<R: Wait>(
    rt: &R,
    alloc: Global,
    seed: Seed,
    is_closed: bool,
) -> Result<Told, Stop> {
    fill_at_gate::<Brand, R>(rt, alloc, Opening::new(24), seed, is_closed)
}

/// Asks the gate for all its passes: the participant's, the operator's, and then more for the participant.
fn add_all_passes<J: GateName, H: Wait + Drop>(
    rt: &impl Wait,
    gate: &Gate<J, H>,
    passes: &mut Passes<J>,
    who: &Participant,
) -> Result<(), Stop> {
    passes.add_pass(rt, gate, Some(who))?;
    passes.add_pass(rt, gate, None)?;
    for _ in 2..MOST_PASSES {
        passes.add_pass(rt, gate, Some(who))?;
    }
    Ok(())
}

/// Whether the gate gives no pass more, to a participant or to the operator.
fn are_further_passes_refused<J: GateName, H: Wait + Drop>(
    rt: &impl Wait,
    gate: &Gate<J, H>,
    who: &Participant,
) -> bool {
    let used = Some(PassFault::PassesUsed);
    gate.issue_pass(rt, who.copy()).err() == used && gate.issue_operator_pass(rt).err() == used
}

/// Makes the calls that a gate of this opening refuses for who makes them. The answer is the number of entries of the
/// journal, which nobody closed.
fn give_refused_at_gate<J: GateName, R: Wait>(
    rt: &R,
    alloc: Global,
    opening: Opening,
    seed: Seed,
) -> Result<Told, Stop>
    requires { opening ≡ J.opening }
{
    let accounts = Vec::with_capacity(alloc, MOST_PASSES as usize)?;
    let mut passes = Passes::<J>::new(alloc)?;
    let gate = Gate::<J, &R>::begin_seeded(rt, alloc, opening, seed)?;
    let who = Participant::new(b"A").ok_or(Stop::Wrong)?;
    add_all_passes(rt, &gate, &mut passes, &who)?;
    if !are_further_passes_refused(rt, &gate, &who) {
        return Err(Stop::Wrong);
    }
    expect_refusal_of_others(rt, &gate, &mut passes)?;
    let (journal, refused) = (gate.finish(), passes.refused);
    let accounts = passes.into_accounts(accounts)?;
    let (journal, again) = expect_mismatch(alloc, journal, &accounts, Mismatch::StillOpen)?;
    Ok(Told {
        answer: Answer::Entries(journal.entries().len()),
        refused: refused.wrapping_add(again),
    })
}

/// A's pass submits for B and closes, and the operator's submits.
fn expect_refusal_of_others<J: GateName, H: Wait + Drop>(
    rt: &impl Wait,
    gate: &Gate<J, H>,
    passes: &mut Passes<J>,
) -> Result<(), Stop> {
    let own = sell_submit(b"A", b"S1").ok_or(Stop::Wrong)?;
    let other = sell_submit(b"B", b"S1").ok_or(Stop::Wrong)?;
    passes.expect_refusal(rt, gate, 0, &other, 0, GateFault::NotYours)?;
    passes.expect_refusal(rt, gate, 0, &Command::Close, 0, GateFault::NotYours)?;
    passes.expect_refusal(rt, gate, 1, &own, 0, GateFault::NotYours)
}

/// A gate gives its nine passes, and refuses the commands that are not a pass's to give.
pub fn give_refused_commands<R: Wait>(rt: &R, alloc: Global, seed: Seed) -> Result<Told, Stop> {
    give_refused_at_gate::<Brand, R>(rt, alloc, Opening::new(24), seed)
}

/// Settles the journal until memory isn't refused. The answer has to be this mismatch, and how many calls were refused
/// comes with the journal that was handed back.
fn expect_mismatch(
    alloc: Global,
    journal: Journal,
    accounts: &[Account],
    wanted: Mismatch,
) -> Result<(Journal, u32), Stop> {
    let mut journal = journal;
    for refused in 0..TRIES {
        let Err(unsettled) = settle(alloc, journal, accounts) else {
            return Err(Stop::Wrong);
        };
        if unsettled.why == wanted {
            return Ok((unsettled.journal, refused));
        }
        if unsettled.why != Mismatch::Memory {
            return Err(Stop::Wrong);
        }
        journal = unsettled.journal;
    }
    Err(Stop::Wrong)
}

/// A journal, the accounts of its passes, and how many calls were refused memory.
#[derive(Drop)]
struct Held {
    journal: Journal,
    accounts: Vec<Account>,
    refused: u32,
}

/// The first commands at the gate, each by a pass of its giver.
fn enter_each<J: GateName, H: Wait + Drop>(
    rt: &impl Wait,
    gate: &Gate<J, H>,
    passes: &mut Passes<J>,
    commands: &[Command],
) -> Result<(), Stop> {
    for (earlier, command) in (0..).zip(commands) {
        passes.enter(rt, gate, command, earlier)?;
    }
    Ok(())
}

/// The commands at a gate of this opening, each by a pass of its giver.
fn enter_at_gate<J: GateName, R: Wait>(
    rt: &R,
    alloc: Global,
    opening: Opening,
    seed: Seed,
    commands: &[Command],
) -> Result<Held, Stop>
    requires { opening ≡ J.opening }
{
    let accounts = Vec::with_capacity(alloc, MOST_PASSES as usize)?;
    let mut passes = Passes::<J>::new(alloc)?;
    let gate = Gate::<J, &R>::begin_seeded(rt, alloc, opening, seed)?;
    enter_each(rt, &gate, &mut passes, commands)?;
    let (journal, refused) = (gate.finish(), passes.refused);
    Ok(Held {
        journal,
        accounts: passes.into_accounts(accounts)?,
        refused,
    })
}

/// The commands at a gate that is opened here.
fn enter_all<R: Wait>(
    rt: &R,
    alloc: Global,
    seed: Seed,
    commands: &[Command],
) -> Result<Held, Stop> {
    enter_at_gate::<Brand, R>(rt, alloc, Opening::new(24), seed, commands)
}

/// Adds the accounts at the end of the others.
fn append_accounts(accounts: &mut Vec<Account>, more: Vec<Account>) -> Result<(), Stop> {
    for account in more {
        accounts.push(account)?;
    }
    Ok(())
}

/// A journal of A's submit and the close, with the accounts of A and of the operator between two of other gates: each
/// has one receipt, the first of number 3, the last of number 1.
fn hold_among_others<R: Wait>(rt: &R, alloc: Global, seed: Seed) -> Result<Held, Stop> {
    let own = sell_submit(b"A", b"S1").ok_or(Stop::Wrong)?;
    let other = sell_submit(b"B", b"S1").ok_or(Stop::Wrong)?;
    let mut accounts = Vec::with_capacity(alloc, MOST_PASSES as usize)?;
    let mut third = enter_all(rt, alloc, seed, &[own.copy(), own.copy(), other.copy()])?;
    let mut first = enter_all(rt, alloc, seed, &[other])?;
    let held = enter_all(rt, alloc, seed, &[own, Command::Close])?;
    let refused = held
        .refused
        .wrapping_add(third.refused)
        .wrapping_add(first.refused);
    accounts.push(third.accounts.pop().ok_or(Stop::Wrong)?)?;
    append_accounts(&mut accounts, held.accounts)?;
    accounts.push(first.accounts.pop().ok_or(Stop::Wrong)?)?;
    Ok(Held {
        journal: held.journal,
        accounts,
        refused,
    })
}

/// Settles the journal with receipts of other gates, in three ways, each refused for its mismatch.
fn expect_mismatches_with_others(
    alloc: Global,
    journal: Journal,
    accounts: &[Account],
) -> Result<(Journal, u32), Stop> {
    let (mut journal, mut refused) = (journal, 0u32);
    for (range, wanted) in [
        (0..3, Mismatch::Extra(3)),
        (2..4, Mismatch::Differs(1)),
        (1..4, Mismatch::Doubled(1)),
    ] {
        let given = accounts.get(range).ok_or(Stop::Wrong)?;
        let (back, again) = expect_mismatch(alloc, journal, given, wanted)?;
        journal = back;
        refused = refused.wrapping_add(again);
    }
    Ok((journal, refused))
}

/// Settles a journal with receipts of other gates, which is refused, and then with its own.
pub fn settle_others<R: Wait>(rt: &R, alloc: Global, seed: Seed) -> Result<Told, Stop> {
    let Held {
        journal,
        accounts,
        refused,
    } = hold_among_others(rt, alloc, seed)?;
    let (journal, others) = expect_mismatches_with_others(alloc, journal, &accounts)?;
    let own = accounts.get(1..3).ok_or(Stop::Wrong)?;
    let (settled, again) = settle_again(alloc, journal, own)?;
    Ok(Told {
        answer: Answer::Entries(settled.journal().entries().len()),
        refused: refused.wrapping_add(others).wrapping_add(again),
    })
}
