// Floor 2: the proof table. Any bytes are refused with document 01's number and place, or are a table that stands for a term and a
// proposition of the rules.
// (What is asked of a table's bytes stands in each contract: a struct that kept it would have every clause read `t.entry.file.now` for `file.now`.
// `as usize` stands where proofs count: the answer of `usize::from` is another number, which each of them would have to put back.)
#![tactic(auto)]

ghost use Rattle.table.specs.Tests.{Tested};

pub mod above;
mod chain;
mod closed;
mod forming;
mod link;
mod naming;
pub mod opening;
mod search;
pub mod size;
pub mod verdict;

use numbers::Proposition;
use numbers::refusal::{Reason, Refusal};

// What a table is for: document 01's two entries.
#[derive(Clone, Copy, Debug, PartialEq, Eq)]
pub enum Purpose {
    Check,
    Filling,
}

// The bytes of the work room that the tests use: two for each proposition that a table may have.
pub const ROOM: usize = 2 * (Proposition::LIMIT as usize);

// Tests 2 to 7 of any bytes in any work room; a room that is too short is refusal 1. The bytes that the tests use are zeros
// afterwards, as far as the room goes, and the others are untouched.
pub fn test_table(file: &[u8], work: &mut [u8], purpose: Purpose) -> Result<(), Refusal>
    ensures { Tested purpose file.now work.old work.new result }
{
    if work.len() < ROOM {
        numbers::room::clear(work, ROOM);
        return Err(Reason::RoomTooShort.of(0));
    }
    let answer = chain::run_tests(file, &mut work[..ROOM], purpose);
    numbers::room::clear(work, ROOM);
    answer
}
