// Whether an identifier occurs in a proposition.
ghost use Rattle.std.specs.Prelude.{◌≡◌, ℕ, ◌<◌, ⊤};
ghost use Rattle.rules.specs.Prop.{other, holds};
ghost use Rattle.prop.specs.Room.{room_at};

use super::atom::is_at;
use super::each::Test;
use super::propositions::Propositions;
use numbers::record::Record;
use numbers::{Proposition, Serial};

// A parameter is not this identifier.
#[derive(Clone, Copy)]
struct Other(Serial);

impl Test for Other {
    ghost passes = { λ t. other t.0.0 };

    ghost ready = { λ t. ⊤ };

    fn all_pass(self, r: Record) -> bool {
        let s = self.0;
        !(is_at(r, 0, s) | is_at(r, 1, s) | is_at(r, 2, s) | is_at(r, 3, s))
    }
}

impl Propositions<'_> {
    #[tactic(auto, unfolding(rules::specs::Prop::holds))]
    pub fn holds(self, n: Proposition, s: Serial) -> bool
        requires { n.0 < self.count }
        ensures { (tables : ℕ) → result ≡ holds s.0 (room_at tables self.entry.room.now n.0) }
    {
        !self.each(n, Other(s))
    }
}
