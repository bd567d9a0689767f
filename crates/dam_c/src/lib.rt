//! The engines of `dam` for callers in C, and in any language that calls C: each reads a journal's text, and writes the
//! text that `dam` prints for it to a buffer of the caller's.
//!
//! They don't start threads, keep no state between calls, and read and write only memory, so any number of threads may
//! call them at the same time. If memory runs out, a status reports it. `library/dam.h` is the header; it states the
//! preconditions that a caller must satisfy.
//!
//! The crate doesn't know rules: it hands a text to an engine of `dam_engines`, and copies the engine's text.
#![tactic(auto)]

mod answer;
mod secret;

ghost use Rattle.dam_results.specs.Journal.{IsMadeFrom};
ghost use Rattle.dam_results.specs.Replies.{AreReplies};
ghost use Rattle.dam_engines.specs.Engine.{IsRunFault, IsTextFault};
ghost use Rattle.dam_engines.specs.Clear.{AreResultsWithin, IsClearFault, terms_alone};
ghost use Rattle.dam_c.specs.Answer.{IsReturned};

pub use answer::DamAnswer;
use answer::copy_answer;
use dam_book::Seed;
use dam_engines::{clear_journal_alone, replies_of};
use secret::seed_from_secret;
use std::alloc::Global;

/// The output of `dam replay` for the text. The book hashes names with the public fixed seed.
#[unsafe(no_mangle)]
pub extern "C" fn dam_replay(alloc: Global, text: &[u8], buffer: &mut [u8]) -> DamAnswer
    ensures { IsReturned (IsMadeFrom AreReplies text.now) (IsTextFault text.now)
        result buffer.old buffer.new }
{
    copy_answer(replies_of(alloc, Seed::fixed(), text), buffer)
}

/// The same, but the book hashes names with a seed that is drawn from the caller's secret, at least 16 random bytes.
#[unsafe(no_mangle)]
pub extern "C" fn dam_replay_seeded(
    alloc: Global,
    secret: &[u8],
    text: &[u8],
    buffer: &mut [u8],
) -> DamAnswer
    ensures { IsReturned (IsMadeFrom AreReplies text.now) (IsTextFault text.now)
        result buffer.old buffer.new }
{
    copy_answer(replies_of(alloc, seed_from_secret(secret), text), buffer)
}

/// The output of `dam clear` for the text. The search visits at most `nodes` nodes. Before the nodes, a first selection
/// is looked for, which isn't counted. With 0, a search never finishes; with `DAM_MOST_NODES` of dam.h or more, it
/// always does. If the search needs more nodes than the limit, there are no results.
#[unsafe(no_mangle)]
pub extern "C" fn dam_clear(alloc: Global, text: &[u8], nodes: u32, buffer: &mut [u8]) -> DamAnswer
    ensures { IsReturned (IsMadeFrom (AreResultsWithin (terms_alone nodes)) text.now)
        (IsRunFault (IsClearFault (terms_alone nodes)) text.now)
        result buffer.old buffer.new }
{
    copy_answer(
        clear_journal_alone(alloc, Seed::fixed(), text, nodes),
        buffer,
    )
}

/// The same, but the book hashes names with a seed that is drawn from the caller's secret, at least 16 random bytes.
#[unsafe(no_mangle)]
pub extern "C" fn dam_clear_seeded(
    alloc: Global,
    secret: &[u8],
    text: &[u8],
    nodes: u32,
    buffer: &mut [u8],
) -> DamAnswer
    ensures { IsReturned (IsMadeFrom (AreResultsWithin (terms_alone nodes)) text.now)
        (IsRunFault (IsClearFault (terms_alone nodes)) text.now)
        result buffer.old buffer.new }
{
    copy_answer(
        clear_journal_alone(alloc, seed_from_secret(secret), text, nodes),
        buffer,
    )
}
