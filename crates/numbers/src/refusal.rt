// Refusals.
ghost use Rattle.std.specs.Prelude.{◌≡◌};
ghost use Rattle.numbers.specs.Refusals.{number_of, refusal_at};

use super::Term;

// A refusal: its number in document 01, and the number of the record that is to blame.
#[derive(Clone, Copy, Debug, PartialEq, Eq)]
pub struct Refusal {
    pub number: u8,
    pub place: u16,
}

// A refusal that is read or told by its number is made so; code names a `Reason`.
impl Refusal {
    // Record `place` is to blame; 0 where it is no record's fault.
    pub fn new(number: u8, place: u16) -> Self
        ensures { result ≡ refusal_at number place }
    {
        Refusal { number, place }
    }

    // Term `place` is to blame.
    pub fn at(number: u8, place: Term) -> Self
        ensures { result ≡ refusal_at number place.0 }
    {
        Refusal::new(number, place.0)
    }
}

// Why a submission is refused. docs/refusals.txt says more of each, under its number.
#[derive(Clone, Copy, Debug, PartialEq, Eq)]
pub enum Reason {
    // The rooms, and the tests of a table.
    RoomTooShort = 1,
    NoHeader = 2,
    WrongCounts = 3,
    Malformed = 4,
    BadlyLinked = 5,
    TooLarge = 6,
    OpenGoal = 7,
    // A term against a type that is wanted.
    CheckUnknownName = 10,
    CheckWrongTerm = 11,
    CheckWrongHead = 12,
    CheckNoObject = 13,
    CheckOtherType = 14,
    CheckOtherAscription = 15,
    CheckWitnessEscapes = 16,
    // A term whose type is found.
    SynthUnknownName = 20,
    SynthNoAnnotation = 21,
    SynthWrongHead = 22,
    SynthPairOfObject = 23,
    SynthNoProposition = 24,
    SynthNoType = 25,
    SynthArmsDiffer = 26,
    SynthWitnessEscapes = 27,
    // A run as a whole, and the goal to fill.
    TooManyMade = 30,
    NoSuchGoal = 31,
}

impl Reason {
    // Its number in document 01.
    pub fn number(self) -> u8
        ensures { result ≡ number_of self }
    {
        self as u8
    }

    // The refusal with record `place` to blame; 0 where it is no record's fault.
    pub fn of(self, place: u16) -> Refusal
        ensures { result ≡ refusal_at (number_of self) place }
    {
        Refusal::new(self.number(), place)
    }

    // The refusal with that term to blame.
    pub fn at(self, term: Term) -> Refusal
        ensures { result ≡ refusal_at (number_of self) term.0 }
    {
        Refusal::at(self.number(), term)
    }
}
