//! The calls at a gate, each made again if memory was refused to it.

use crate::answer::{Stop, TRIES};
use dam_book::{Command, Entry, Name, Participant};
use dam_gate::{Account, Gate, GateFault, GateName, MOST_PASSES, Pass, PassFault};
use std::alloc::{AllocError, Global};
use std::sync::Wait;

/// The passes of a day, and how many calls were refused memory. All room that it needs is made before the first call.
#[derive(Drop)]
pub struct Passes<J: GateName> {
    passes: Vec<Pass<J>>,
    /// The number of calls that were refused memory.
    pub refused: u32,
}

/// The visible state of a pass: how many entries it has seen, how many receipts it has, and whether it has a note.
#[derive(Clone, Copy, PartialEq, Eq)]
struct VisibleState {
    seen: u32,
    receipts: usize,
    noted: bool,
}

impl VisibleState {
    fn of<J: GateName>(pass: &Pass<J>) -> VisibleState {
        VisibleState {
            seen: pass.seen(),
            receipts: pass.receipts().len(),
            noted: pass.note().is_some(),
        }
    }
}

impl<J: GateName> Passes<J> {
    /// No passes, with room for as many as a gate gives.
    pub fn new(alloc: Global) -> Result<Passes<J>, AllocError> {
        Ok(Passes {
            passes: Vec::with_capacity(alloc, MOST_PASSES as usize)?,
            refused: 0,
        })
    }

    /// Asks the gate for another pass of this holder, adds it, and returns its place.
    pub fn add_pass<H: Wait + Drop>(
        &mut self,
        rt: &impl Wait,
        gate: &Gate<J, H>,
        holder: Option<&Participant>,
    ) -> Result<usize, Stop> {
        for _ in 0..TRIES {
            let given = match holder {
                Some(who) => gate.issue_pass(rt, who.copy()),
                None => gate.issue_operator_pass(rt),
            };
            match given {
                Ok(pass) => {
                    let is_new = pass.holder().as_ref() == holder
                        && VisibleState::of(&pass)
                            == (VisibleState {
                                seen: 0,
                                receipts: 0,
                                noted: false,
                            });
                    self.passes.push(pass)?;
                    return if is_new {
                        Ok(self.passes.len().wrapping_sub(1))
                    } else {
                        Err(Stop::Wrong)
                    };
                }
                Err(PassFault::PassesUsed) => return Err(Stop::Wrong),
                Err(PassFault::NoPlace | PassFault::Memory) => {
                    self.refused = self.refused.wrapping_add(1);
                }
            }
        }
        Err(Stop::Wrong)
    }

    /// The place of the pass of this holder, which is a new one if there is none.
    fn find_or_add_pass<H: Wait + Drop>(
        &mut self,
        rt: &impl Wait,
        gate: &Gate<J, H>,
        holder: Option<&Participant>,
    ) -> Result<usize, Stop> {
        match self
            .passes
            .iter()
            .position(|pass| pass.holder().as_ref() == holder)
        {
            Some(place) => Ok(place),
            None => self.add_pass(rt, gate, holder),
        }
    }

    /// Has the gate take the command after `earlier` others. A refused call has to leave the pass as it was, and a look
    /// after each call has to show just the entries so far.
    pub fn enter<H: Wait + Drop>(
        &mut self,
        rt: &impl Wait,
        gate: &Gate<J, H>,
        command: &Command,
        earlier: u32,
    ) -> Result<(), Stop> {
        let place = self.find_or_add_pass(rt, gate, command.participant())?;
        let pass = self.passes.get_mut(place).ok_or(Stop::Wrong)?;
        let mut before = VisibleState::of(pass);
        for _ in 0..TRIES {
            match gate.call(rt, pass, command.copy()) {
                Ok(entry) => return check_entered(pass, &entry),
                Err(GateFault::Memory) => {
                    if VisibleState::of(pass) != before
                        || count_shown_entries(pass) != Some(earlier)
                    {
                        return Err(Stop::Wrong);
                    }
                    before.seen = earlier;
                    self.refused = self.refused.wrapping_add(1);
                }
                Err(_) => return Err(Stop::Wrong),
            }
        }
        Err(Stop::Wrong)
    }

    /// Has the gate refuse a command, given by the pass at this place after `earlier` entries, for this fault: the pass
    /// is as it was, and a look shows no other entry.
    pub fn expect_refusal<H: Wait + Drop>(
        &mut self,
        rt: &impl Wait,
        gate: &Gate<J, H>,
        place: usize,
        command: &Command,
        earlier: u32,
        fault: GateFault,
    ) -> Result<(), Stop> {
        let pass = self.passes.get_mut(place).ok_or(Stop::Wrong)?;
        let before = VisibleState::of(pass);
        let answer = gate.call(rt, pass, command.copy());
        if answer != Err(fault) || VisibleState::of(pass) != before {
            return Err(Stop::Wrong);
        }
        if count_shown_entries(pass) == Some(earlier) {
            Ok(())
        } else {
            Err(Stop::Wrong)
        }
    }

    /// The accounts of the passes, in room that was made before the first call.
    pub fn into_accounts(self, mut accounts: Vec<Account>) -> Result<Vec<Account>, Stop> {
        let Passes {
            passes,
            refused: _refused,
        } = self;
        for pass in passes {
            accounts.push(pass.into_account())?;
        }
        Ok(accounts)
    }
}

/// Fails unless the pass has the entry as its last receipt, and a look shows the entries up to it.
fn check_entered<J: GateName>(pass: &mut Pass<J>, entry: &Entry) -> Result<(), Stop> {
    let is_last = pass
        .receipts()
        .last()
        .is_some_and(|receipt| receipt.entry() == *entry);
    if is_last && count_shown_entries(pass) == Some(entry.number) {
        Ok(())
    } else {
        Err(Stop::Wrong)
    }
}

/// The number of entries of the version that a look finds. The pass has then seen as many.
fn count_shown_entries<J: GateName>(pass: &mut Pass<J>) -> Option<u32> {
    let look = pass.look(&Participant::new(b"A")?, &Name::new(b"A")?)?;
    Some(look.seen)
}
