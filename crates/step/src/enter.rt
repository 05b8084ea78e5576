// New identifiers and their entries.
ghost use Rattle.std.specs.Prelude.{◌≡◌, ◌+◌, ◌*◌, ◌<◌, ◌≤◌, length};
ghost use Rattle.numbers.specs.Limits.{largest};
ghost use Rattle.context.specs.Context.{Inserted};
ghost use Rattle.step.specs.Rooms.{numbered, deeper};

use super::state::State;
use context::identifier_context::{Entry, insert};
use numbers::counter::Counter;
use numbers::identifier::{Identifier, create};
use numbers::{Name, Sort};

// A new identifier, and the counts with its serial among them.
#[derive(Clone, Copy)]
pub struct Fresh {
    pub identifier: Identifier,
    pub state: State,
}

impl State {
    // A new identifier of that name, with the next serial.
    pub fn new_identifier(self, name: Name) -> Fresh
        requires { self.serials < largest }
        ensures { (result.identifier.name ≡ name) × (result.identifier.serial.0 ≡ self.serials) × (result.state ≡ numbered self) }
    {
        let mut counter = Counter {
            count: self.serials,
        };
        let identifier = create(&mut counter, name);
        let serials = counter.count;
        let state = State { serials, ..self };
        Fresh { identifier, state }
    }
}

// The context gets an entry.
pub fn enter(work: &mut [u8], st: State, identifier: Identifier, typ: Sort) -> State
    requires context_in_bounds { 8 * st.context + 8 ≤ length work.old }
    requires context_lt_largest { st.context < largest }
    ensures { (result ≡ deeper st) × Inserted work.old st.context
        (record { name = identifier.name; serial = identifier.serial; typ = typ }) work.new }
{
    let entry = Entry {
        name: identifier.name,
        serial: identifier.serial,
        typ,
    };
    insert(work, usize::from(st.context), entry);
    State {
        context: st.context + 1,
        ..st
    }
}

// A new identifier of that name, and its entry.
pub fn enter_fresh(work: &mut [u8], st: State, name: Name, typ: Sort) -> State
    requires context_in_bounds { 8 * st.context + 8 ≤ length work.old }
    requires context_lt_largest { (st.context < largest) × (st.serials < largest) }
    ensures { (result ≡ deeper (numbered st)) × Inserted work.old st.context
        (record { name = name; serial = record { 0 = st.serials }; typ = typ }) work.new }
{
    let fresh = st.new_identifier(name);
    enter(work, fresh.state, fresh.identifier, typ)
}
