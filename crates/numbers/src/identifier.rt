// Identifiers, as in the original's kernel/checker/identifier.rs: a name and the serial that tells it from others of that name.
ghost use Rattle.std.specs.Prelude.{◌≡◌, ◌+◌, ◌<◌};
ghost use Rattle.numbers.specs.Limits.{largest};

use super::counter::Counter;
use super::{Name, Serial};

#[derive(Clone, Copy, Debug, PartialEq, Eq)]
pub struct Identifier {
    pub name: Name,
    pub serial: Serial,
}

// A new identifier of that name, with the counter's next serial.
pub fn create(counter: &mut Counter, name: Name) -> Identifier
    requires { counter.old.count < largest }
    ensures { (result.name ≡ name) × (result.serial.0 ≡ counter.old.count) × (counter.new.count ≡ counter.old.count + 1) }
{
    Identifier {
        name,
        serial: Serial(counter.next_value()),
    }
}
