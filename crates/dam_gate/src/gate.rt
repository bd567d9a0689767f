//! The gate: one lock, under which commands are entered and passes are given, one after another.

ghost use Rattle.std.specs.Prelude.{◌≡◌, true, Some, None, IfOk, IfErr, OnOk, OnErr};
ghost use Rattle.dam_book.specs.Book.{is_day};
ghost use Rattle.dam_gate.specs.Journal.{IsJournal};
ghost use Rattle.dam_gate.specs.Pass.{is_own, knowing_nothing};
ghost use Rattle.dam_gate.specs.Gate.{IsBeginFault, IsCalled, IsGateFault};
ghost use Rattle.dam_gate.specs.inside.Entering.{IsClosedByOperator};
ghost use Rattle.dam_gate.specs.inside.Locked.{entry_of};

use crate::journal::Journal;
use crate::keeper::{BeginFault, KeeperFault};
use crate::locked::Locked;
use crate::opening::{DayStart, GateName, Opening};
use crate::pass::Pass;
use crate::version::{NextShown, Shown};
use dam_book::{Command, DayLength, Entry, PackedCommand, Participant, Reply, Seed};
use left_right::Absorb;
use std::alloc::{AllocError, Global};
use std::sync::{Mutex, Wait};
use thiserror::Error;

/// Why a call fails, in the order in which the reasons are looked for. The command of a failed call isn't journalled.
#[derive(Clone, Copy, PartialEq, Eq, Debug, Error)]
pub enum GateFault {
    /// The pass may not give the command: another participant's command, a close through a participant's pass, or any
    /// other command through the operator's pass.
    #[error("the command is not this pass's to give")]
    NotYours,
    /// The journal holds as many entries as it may; the last one is only for a close.
    #[error("the journal is full, with {held} entries")]
    JournalFull {
        /// The number of entries that it holds.
        held: u32,
    },
    /// Memory ran out.
    #[error("out of memory")]
    Memory,
    /// The gate has stopped: its history didn't take the entry, or the version after it wasn't shown. No clause rules this
    /// fault out. How later calls end isn't said either, and no test reaches it. Only `Memory` is a reason to call again.
    #[error("the gate has stopped")]
    Stopped,
}

impl From<AllocError> for GateFault {
    ghost use Rattle.std.specs.Prelude.{◌≡◌};
    ghost use Rattle.dam_gate.specs.declared.gate.GateFault.TheVariants.{Memory};

    ghost from_gives = { λ _ fault. fault ≡ Memory };

    fn from(_error: AllocError) -> GateFault {
        GateFault::Memory
    }
}

impl From<KeeperFault> for GateFault {
    ghost use Rattle.std.specs.Prelude.{◌≡◌};
    ghost use Rattle.dam_gate.specs.Gate.{gate_fault_of};

    ghost from_gives = { λ fault e. e ≡ gate_fault_of fault };

    fn from(fault: KeeperFault) -> GateFault {
        match fault {
            KeeperFault::JournalFull { held } => GateFault::JournalFull { held },
            KeeperFault::Memory => GateFault::Memory,
        }
    }
}

/// Why a pass isn't given, in the order in which the reasons are looked for.
#[derive(Clone, Copy, PartialEq, Eq, Debug, Error)]
pub enum PassFault {
    /// The gate has given all its passes.
    #[error("all passes were given")]
    PassesUsed,
    /// There was no place for another reader of the versions.
    #[error("no place for another reader")]
    NoPlace,
    /// Memory ran out.
    #[error("out of memory")]
    Memory,
}

impl From<AllocError> for PassFault {
    ghost use Rattle.std.specs.Prelude.{◌≡◌};
    ghost use Rattle.dam_gate.specs.declared.gate.PassFault.TheVariants.{Memory};

    ghost from_gives = { λ _ fault. fault ≡ Memory };

    fn from(_error: AllocError) -> PassFault {
        PassFault::Memory
    }
}

/// The gate of one delivery day, which threads share by reference. One lock protects the book and its journal, and
/// each call's step under it is one step of the sequential book. Looks take no lock.
///
/// `J` is its name: passes and notes of another gate have another. `R` is the handle with which a call, and the gate's
/// end, wait for looks to end.
#[derive(Drop)]
pub struct Gate<J: GateName, R: Wait + Drop>
where
    Shown<J>: Absorb<NextShown<J>, State = u64>,
{
    locked: Mutex<Locked<J, R>>,
}

impl<J: GateName, R: Wait + Drop> Gate<J, R> {
    /// The gate of the opening's day, of 23, 24, 25, 92, 96 or 100 periods, with an empty journal, on the fixed seed
    /// that everybody knows.
    pub fn begin(rt: R, alloc: Global, opening: Opening) -> Result<Gate<J, R>, BeginFault>
        requires { opening ≡ J.opening }
        ensures ok { OnOk result (is_day opening.periods ≡ true) }
        ensures fault { IfErr result (IsBeginFault opening.periods) }
    {
        Gate::begin_seeded(rt, alloc, opening, Seed::fixed())
    }

    /// The gate of `begin`, whose book hashes names with the seed. With a secret seed nobody can choose names that
    /// collide in the book's map and slow down every call, their own and all others.
    pub fn begin_seeded(
        rt: R,
        alloc: Global,
        opening: Opening,
        seed: Seed,
    ) -> Result<Gate<J, R>, BeginFault>
        requires { opening ≡ J.opening }
        ensures ok { OnOk result (is_day opening.periods ≡ true) }
        ensures fault { IfErr result (IsBeginFault opening.periods) }
    {
        let Some(periods) = DayLength::new(opening.periods()) else {
            return Err(BeginFault::BadDay);
        };
        let start = DayStart {
            opening,
            periods,
            seed,
        };
        Gate::for_day(rt, alloc, start).map_err(|_| BeginFault::Memory)
    }

    /// The gate of `begin_seeded`, for callers who have the opening's day as a length. The error is out of memory.
    pub(crate) fn for_day(rt: R, alloc: Global, start: DayStart) -> Result<Gate<J, R>, AllocError>
        requires { start.opening ≡ J.opening }
    {
        Ok(Gate {
            locked: Mutex::new(Locked::for_day(rt, alloc, start)?),
        })
    }

    /// A pass for a participant, who may have several.
    pub fn issue_pass(&self, rt: &impl Wait, who: Participant) -> Result<Pass<J>, PassFault>
        ensures { IfOk result (λ pass. pass ≡ knowing_nothing (Some who)) }
    {
        self.locked.lock(rt).issue_pass(Some(who))
    }

    /// A pass for the operator, who alone closes.
    pub fn issue_operator_pass(&self, rt: &impl Wait) -> Result<Pass<J>, PassFault>
        ensures { IfOk result (λ pass. pass ≡ knowing_nothing None) }
    {
        self.locked.lock(rt).issue_pass(None)
    }

    /// Gives the command to the book, and journals it with the reply, even if the book refuses it. The pass gets the
    /// entry as a receipt, and has then seen the journal up to it.
    ///
    /// A failed call doesn't give the command back.
    pub fn call(
        &self,
        rt: &impl Wait,
        pass: &mut Pass<J>,
        command: Command,
    ) -> Result<Entry, GateFault>
        ensures command { IfOk result (λ entry. entry.command ≡ command) }
        ensures answered { IfOk result (IsCalled J.opening.periods pass.old pass.new) }
        ensures own { OnOk result (is_own pass.old.account.holder command ≡ true) }
        ensures err { OnErr result (pass.new ≡ pass.old) }
        ensures fault { IfErr result (IsGateFault pass.old.account command) }
    {
        if !pass.acts_for(command.participant()) {
            return Err(GateFault::NotYours);
        }
        let mut locked = self.locked.lock(rt);
        locked.keeper().check_not_full(command.participant())?;
        let packed = PackedCommand::of(locked.alloc, &command)?;
        let (number, reply) = pass.step(&mut locked, packed)?;
        Ok(Entry {
            number,
            command,
            reply,
        })
    }

    /// Makes the call of a packed command, which its caller keeps. It returns the number and the reply of the entry.
    pub(crate) fn call_packed(
        &self,
        rt: &impl Wait,
        pass: &mut Pass<J>,
        command: &PackedCommand,
    ) -> Result<(u32, Reply), GateFault>
        ensures answered { IfOk result (λ answer.
            IsCalled J.opening.periods pass.old pass.new (entry_of command.now answer)) }
        ensures own { OnOk result (is_own pass.old.account.holder command.now ≡ true) }
        ensures err { OnErr result (pass.new ≡ pass.old) }
        ensures fault { IfErr result (IsGateFault pass.old.account command.now) }
    {
        if !pass.acts_for(command.participant()) {
            return Err(GateFault::NotYours);
        }
        let mut locked = self.locked.lock(rt);
        locked.keeper().check_not_full(command.participant())?;
        pass.step(&mut locked, command.clone()?)
    }

    /// Makes room in the journal for this number of further entries.
    pub(crate) fn reserve_entries(&self, rt: &impl Wait, entries: usize) -> Result<(), AllocError> {
        self.locked.lock(rt).keeper.reserve_entries(entries)
    }

    /// The state under the lock after the operator has closed, when nobody else uses the gate any more.
    pub(crate) fn close_into_locked(self, operator: &mut Pass<J>) -> Result<Locked<J, R>, GateFault>
        requires { operator.old.account.holder ≡ None }
        ensures { IfOk result (λ locked.
            IsClosedByOperator operator.old operator.new.account locked.journal) }
    {
        let mut locked = self.locked.into_inner();
        locked.keeper().check_not_full(None)?;
        let close = PackedCommand::of(locked.alloc, &Command::Close)?;
        let _answer = operator.step(&mut locked, close)?;
        let _receipts = operator.receipts(); // for the proof: the invariant of a pass
        Ok(locked)
    }

    /// The journal, when nobody uses the gate any more. From then on, looks don't find a version.
    pub fn finish(self) -> Journal
        ensures journal { IsJournal result }
        ensures day { result.book.periods ≡ J.opening.periods }
    {
        self.locked.into_inner().into_journal()
    }
}
