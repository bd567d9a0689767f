//! The laws of a gate: a settled gate accounts for its day, nobody is shown another history, and each limit is its
//! number. Each is the contract of a function that does nothing but cite the laws that it rests on.
ghost use Rattle.std.specs.Prelude.{◌≡◌, ◌⊎◌, All};
ghost use mathlib.Core.List.{IsPrefix};
ghost use Rattle.dam_gate.specs.Limits.{most_participants, most_passes};
ghost use Rattle.dam_gate.specs.Pass.{IsAccount};
ghost use Rattle.dam_gate.specs.Settled.{IsSettled};
ghost use Rattle.dam_gate.specs.Headline.{IsWholeAccount};

use crate::account::Account;
use crate::limits::{MOST_PARTICIPANTS, MOST_PASSES};
use crate::opening::GateName;
use crate::pass::{Note, Pass};
use crate::settlement::Settled;
use dam_book::laws::histories_are_runs;
use std::alloc::Allocator;

/// Once a gate is settled, its journal's commands, run one by one from the empty book, give exactly the recorded
/// replies and the book held, and the participants' receipts are its entries, each once, in each holder's order.
pub fn whole_account<A: Allocator + Copy>(settled: &Settled<A>, accounts: &[Account])
    requires { IsSettled settled.now accounts.now }
    ensures { IsWholeAccount settled.now accounts.now }
{
    let _entries = settled.journal().entries(); // for the proof: these are the entries of a journal
    are_accounts(accounts);
    histories_are_runs();
}

/// One of the histories that two passes of one gate have seen is a prefix of the other: the views of two participants
/// never contradict each other.
pub fn one_history<J: GateName>(one: &Pass<J>, other: &Pass<J>)
    ensures { (IsPrefix one.now.history other.now.history)
        ⊎ (IsPrefix other.now.history one.now.history) }
{
    let _longer = one.history.longer(&other.history); // for the proof: prefixes of one history
}

/// One of the histories of two calls of one gate is a prefix of the other: all participants are answered from one
/// history.
pub fn one_history_of_calls<J: GateName>(one: &Note<J>, other: &Note<J>)
    ensures { (IsPrefix one.now other.now) ⊎ (IsPrefix other.now one.now) }
{
    let _longer = one.history.longer(&other.history); // for the proof: prefixes of one history
}

/// Each exported constant is the number of its limit, and each limit is this number.
pub fn limits()
    ensures most_passes { MOST_PASSES ≡ most_passes }
    ensures most_participants { MOST_PARTICIPANTS ≡ most_participants }
    ensures most_passes_is { most_passes ≡ 9 }
    ensures most_participants_is { most_participants ≡ 8 }
{}

// Each account satisfies its invariant.
fn are_accounts(accounts: &[Account])
    ensures { All IsAccount accounts.now }
{
    for account in accounts {
        let _receipts = account.receipts(); // for the proof: the invariant of an account
    }
}
