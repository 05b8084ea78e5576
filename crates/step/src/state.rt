// What a run carries along, and what it answers.
ghost use Rattle.std.specs.Prelude.{◌≡◌, ◌+◌, ◌<◌, ◌≤◌, length};
ghost use Rattle.numbers.specs.Limits.{largest};
ghost use Rattle.rules.specs.State.{limit};
ghost use Rattle.layout.specs.File.{props, terms, term_record};
ghost use Rattle.prop.specs.Room.{Arena};
ghost use Rattle.arena.specs.Copy.{most_records};
ghost use Rattle.table.specs.Passing.{Counted};
ghost use Rattle.step.specs.Modes.{answer_of, either};
ghost use Rattle.step.specs.Rooms.{count_of, inner, leaving};

use layout::header::proposition_count;
use layout::record::{TermRecord, term_at};
use numbers::{Proposition, Sort, Term};
use prop::propositions::Propositions;

// The counts: tree records, goals, serials and propositions made so far, and how many entries the context has; and the number of the goal whose
// picture the run takes, which it never changes.
#[derive(Clone, Copy)]
pub struct State {
    pub records: u16,
    pub goals: u16,
    pub serials: u16,
    pub made: u16,
    pub context: u16,
    pub asked: u16,
}

impl State {
    // No goal has that number, so it asks for no picture.
    pub const NO_PICTURE: u16 = 65535;

    // Nothing made yet, an empty context, and no picture asked for.
    pub const START: State = State {
        records: 0,
        goals: 0,
        serials: 0,
        made: 0,
        context: 0,
        asked: State::NO_PICTURE,
    };

    // How many propositions the room holds: the table's, and those made.
    #[tactic(auto, unfolding(rules::specs::State::limit))]
    pub fn count(self, file: &[u8]) -> u16
        requires in_bounds { 16 ≤ length file.now }
        requires st_bound { count_of file.now self ≤ most_records }
        ensures { result ≡ count_of file.now self }
    {
        proposition_count(file) + self.made
    }

    // The propositions in the room.
    pub fn held<'a>(self, file: &[u8], props: &'a [u8]) -> Propositions<'a>
        requires in_bounds { 16 ≤ length file.now }
        requires st_bound { count_of file.now self ≤ most_records }
        requires arena { Arena props.now (count_of file.now self) }
        ensures room { result.room.now ≡ props.now }
        ensures count { result.count ≡ count_of file.now self }
    {
        let count = self.count(file);
        Propositions { room: props, count }
    }

    // How many propositions may still be made.
    #[tactic(auto, unfolding(rules::specs::State::limit))]
    pub fn left(self) -> u16
        requires { self.made ≤ limit }
        ensures { result + self.made ≡ limit }
    {
        Proposition::MADE - self.made
    }

    // The counts once there are `end` propositions where there were `count`.
    pub fn grown(self, count: u16, end: u16) -> Self
        requires { (count ≤ end) × (self.made + end ≤ largest) }
        ensures { (result.made + count ≡ self.made + end) × (result.records ≡ self.records) × (result.goals ≡ self.goals)
            × (result.serials ≡ self.serials) × (result.context ≡ self.context) × (result.asked ≡ self.asked) }
    {
        State {
            made: self.made + (end - count),
            ..self
        }
    }

    // Premises stand behind their parent's record, which is written last.
    pub fn inner(self) -> Self
        requires { self.records < largest }
        ensures { result ≡ inner self }
    {
        State {
            records: self.records + 1,
            ..self
        }
    }

    // The context is again as long as it was.
    pub fn leave(self, context: u16) -> Self
        ensures { result ≡ leaving self context }
    {
        State { context, ..self }
    }
}

// A term is asked for its type, or held to one. No `Option`: this is the mode, and `None` would not say that a type is asked for.
#[derive(Clone, Copy)]
pub enum Want {
    Synth,
    Check(Sort),
}

impl Want {
    // The type that a rule answers: the wanted one, else what was found. (The mode is no Option, so this is no `unwrap_or`.)
    pub fn answered(self, t: Sort) -> Sort
        ensures { result ≡ answer_of self t }
    {
        match self {
            Want::Synth => t,
            Want::Check(e) => e,
        }
    }

    // Of two reasons for a refusal, as 12 / 22, the first is for checking and the second for synthesis.
    pub fn either<T: Copy>(self, a: T, b: T) -> T
        ensures { result ≡ either self a b }
    {
        match self {
            Want::Synth => b,
            Want::Check(_) => a,
        }
    }
}

// What a run answers, unless it refuses: a type, which in a check is the wanted one, and the counts that it left.
#[derive(Clone, Copy)]
pub struct Answer {
    pub typ: Sort,
    pub state: State,
}

// The record of term k.
pub fn term_record(file: &[u8], k: Term) -> TermRecord
    requires counted { Counted file.now }
    requires k_bound { k.0 < terms file.now }
    ensures { result ≡ term_record file.now k.0 }
{
    term_at(file, proposition_count(file), k)
}
