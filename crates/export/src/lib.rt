// The checker for C: tables and rooms are pointers with lengths, and the answer is a record of bytes (include/sporekettle.h). Any bytes, any lengths.
#![tactic(auto)]

ghost use Rattle.table.specs.declared.Purpose.TheVariants.{Check, Filling};
ghost use Rattle.step.specs.Rooms.{rooms};
ghost use Rattle.filling.specs.Fill.{lent};
ghost use Rattle.export.specs.Answer.{TestReturns, CheckReturns, FillReturns};

use answer::{of_filled, of_mark, of_verdict};
use entry::check;
use filling::fill;
use numbers::record::put;
use table::{Purpose, test_table};

mod answer;

// The bytes of an answer.
pub const ANSWER: usize = 16;
// What a call returns where the answer is written,
pub const ANSWERED: u32 = 0;
// and where there is no room for it, so that nothing was done.
pub const NO_ROOM: u32 = 1;

// The tests of a table that is for that purpose.
fn test(file: &[u8], work: &mut [u8], answer: &mut [u8], purpose: Purpose) -> u32
    ensures { TestReturns purpose file.now work.old work.new answer.old answer.new result }
{
    if answer.len() < ANSWER {
        return NO_ROOM;
    }
    let verdict = test_table(file, work, purpose);
    put(answer, 0, of_verdict(verdict));
    ANSWERED
}

// Tests 2 to 7 of a table to check.
#[unsafe(no_mangle)]
pub extern "C" fn sporekettle_test_table(file: &[u8], work: &mut [u8], answer: &mut [u8]) -> u32
    ensures { TestReturns Check file.now work.old work.new answer.old answer.new result }
{
    test(file, work, answer, Purpose::Check)
}

// Tests 2 to 6 of a filling.
#[unsafe(no_mangle)]
pub extern "C" fn sporekettle_test_filling(file: &[u8], work: &mut [u8], answer: &mut [u8]) -> u32
    ensures { TestReturns Filling file.now work.old work.new answer.old answer.new result }
{
    test(file, work, answer, Purpose::Filling)
}

// The mark of a table.
#[unsafe(no_mangle)]
pub extern "C" fn sporekettle_check(
    file: &[u8],
    tree: &mut [u8],
    goals: &mut [u8],
    props: &mut [u8],
    work: &mut [u8],
    answer: &mut [u8],
) -> u32
    ensures { CheckReturns file.now (rooms tree.old goals.old props.old work.old)
        (rooms tree.new goals.new props.new work.new) answer.old answer.new result }
{
    if answer.len() < ANSWER {
        return NO_ROOM;
    }
    let mark = check(file, tree, goals, props, work);
    put(answer, 0, of_mark(mark));
    ANSWERED
}

// Goal number `goal` of the old table, filled.
#[unsafe(no_mangle)]
pub extern "C" fn sporekettle_fill(
    old: &[u8],
    goal: u16,
    filling: &[u8],
    tree: &mut [u8],
    goals: &mut [u8],
    props: &mut [u8],
    work: &mut [u8],
    edited: &mut [u8],
    answer: &mut [u8],
) -> u32
    ensures { FillReturns (lent tree.old goals.old props.old work.old edited.old)
        (lent tree.new goals.new props.new work.new edited.new) old.now
        filling.now goal answer.old answer.new result }
{
    if answer.len() < ANSWER {
        return NO_ROOM;
    }
    let filled = fill(old, goal, filling, tree, goals, props, work, edited);
    put(answer, 0, of_filled(filled));
    ANSWERED
}
