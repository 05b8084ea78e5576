// An atom's parameters, read and written. Only this module knows how a record of the room holds them: their numbers stand in its four fields, their
// kinds (0 free, 1 identifier, 2 bound) in b, two bits each, the first lowest. What is not used is zero.
ghost use Rattle.std.specs.Prelude.{◌≡◌, not, ◌<◌};
ghost use Rattle.rules.specs.Prop.{other};
ghost use Rattle.prop.specs.Atom.{kind_at, number_at, parameter_at, passes, kind_in, number_in, with_parameters};

use numbers::record::Record;
use numbers::{Name, Serial};

// A free name, an identifier, or bound, with the number of quantifiers between it and its own. An atom has places for four.
#[derive(Clone, Copy)]
pub enum Parameter {
    Free(Name),
    Identifier(Serial),
    Bound(u16),
    Unused,
}

fn kind_at(r: Record, i: u8) -> u16
    ensures { result ≡ kind_at r i }
{
    (r.b >> (2 * i.min(3))) % 4
}

fn number_at(r: Record, i: u8) -> u16
    ensures { result ≡ number_at r i }
{
    r.parameters[usize::from(i.min(3))]
}

// Place i of the atom r: 0 to 3. (The kinds are numbers in two bits of the record, which nothing else reads.)
#[tactic(auto, unfolding(crate::specs::Atom::parameter_at, crate::specs::Room::param))]
pub fn parameter_at(r: Record, i: u8) -> Parameter
    ensures { result ≡ parameter_at r i }
{
    if r.count <= i {
        return Parameter::Unused;
    }
    let kind = kind_at(r, i);
    let x = number_at(r, i);
    match kind {
        0 => Parameter::Free(Name(x)),
        1 => Parameter::Identifier(Serial(x)),
        _ => Parameter::Bound(x),
    }
}

// Place i holds the identifier s. (The longest runs do little else, so it is asked without a branch.)
pub fn is_at(r: Record, i: u8, s: Serial) -> bool
    ensures { result ≡ not (passes (other s.0) (parameter_at r i)) }
{
    (i < r.count) & (kind_at(r, i) == 1) & (number_at(r, i) == s.0)
}

impl Parameter {
    fn kind(self) -> u16
        ensures { (result ≡ kind_in self) × (result < 3) }
    {
        match self {
            Parameter::Free(_) | Parameter::Unused => 0,
            Parameter::Identifier(_) => 1,
            Parameter::Bound(_) => 2,
        }
    }

    // (A match: the number is of another type in each variant.)
    fn number(self) -> u16
        ensures { result ≡ number_in self }
    {
        match self {
            Parameter::Free(x) => x.0,
            Parameter::Identifier(i) => i.0,
            Parameter::Bound(k) => k,
            Parameter::Unused => 0,
        }
    }
}

// The atom r with these in its four places.
#[tactic(auto, unfolding(crate::specs::Atom::with_parameters))]
pub fn with_parameters(r: Record, p: Parameter, q: Parameter, s: Parameter, t: Parameter) -> Record
    ensures { result ≡ with_parameters r p q s t }
{
    Record {
        b: p.kind() + 4 * q.kind() + 16 * s.kind() + 64 * t.kind(),
        parameters: [p.number(), q.number(), s.number(), t.number()],
        ..r
    }
}
