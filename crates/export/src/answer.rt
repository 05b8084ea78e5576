// Answers as records of 16 bytes, for a caller that has none of our types.
ghost use Rattle.std.specs.Prelude.{◌≡◌};
ghost use Rattle.export.specs.Answer.{accepted_record, refused_record, table_number, verdict_record, mark_record, filled_record};

use entry::Counts;
use filling::answer::{Rejection, Which};
use numbers::record::Record;
use numbers::refusal::Refusal;

#[tactic(auto, unfolding(crate::specs::Answer::accepted_record))]
fn accepted(n: Counts) -> Record
    ensures { result ≡ accepted_record n }
{
    Record {
        kind: 0,
        count: 0,
        a: 0,
        b: 0,
        c: 0,
        parameters: [n.records, n.goals, n.serials, n.made],
    }
}

#[tactic(auto, unfolding(crate::specs::Answer::refused_record))]
fn refused(e: Refusal, table: u16) -> Record
    ensures { result ≡ refused_record e table }
{
    Record {
        kind: 1,
        count: e.number,
        a: e.place,
        b: table,
        c: 0,
        parameters: [0, 0, 0, 0],
    }
}

#[tactic(auto, unfolding(crate::specs::Answer::table_number))]
fn table_number(which: Which) -> u16
    ensures { result ≡ table_number which }
{
    which as u16
}

// What filling a goal answers.
#[tactic(auto, unfolding(crate::specs::Answer::filled_record))]
pub fn of_filled(filled: Result<Counts, Rejection>) -> Record
    ensures { result ≡ filled_record filled }
{
    match filled {
        Ok(counts) => accepted(counts),
        Err(e) => refused(e.refusal, table_number(e.which)),
    }
}

// A mark: there is one table, and it has the old one's number.
#[tactic(auto, unfolding(crate::specs::Answer::mark_record, crate::specs::Answer::filled_record, crate::specs::Answer::table_number))]
pub fn of_mark(mark: Result<Counts, Refusal>) -> Record
    ensures { result ≡ mark_record mark }
{
    of_filled(mark.map_err(|refusal| Rejection {
        refusal,
        which: Which::Old,
    }))
}

// What the tests answer: a mark with no counts.
#[tactic(auto, unfolding(crate::specs::Answer::verdict_record, crate::specs::Answer::mark_record))]
pub fn of_verdict(verdict: Result<(), Refusal>) -> Record
    ensures { result ≡ verdict_record verdict }
{
    of_mark(verdict.map(|()| Counts {
        records: 0,
        goals: 0,
        serials: 0,
        made: 0,
    }))
}
