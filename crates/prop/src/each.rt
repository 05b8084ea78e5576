// Whether each parameter of a proposition passes a test.
ghost use Rattle.std.specs.Prelude.{◌≡◌, Bool, ℕ, ◌<◌};
ghost use Rattle.rules.specs.Prop.{Param, each_param, each};
ghost use Rattle.prop.specs.Room.{params, room_at};

use super::node::View;
use super::propositions::Propositions;
use numbers::Proposition;
use numbers::record::Record;

// A test of parameters, asked of all those of an atom at once.
pub trait Test: Copy {
    ghost passes: { Self → Param → Bool };

    // What the test reads is there.
    ghost ready: { Self → Type 0 };

    fn all_pass(self, r: Record) -> bool
        requires { ready self }
        ensures { result ≡ each_param (passes self) (params r) };
}

impl Propositions<'_> {
    // The walk is over the tree: a shared node is visited at each of its places. (By reference, as `compare`.)
    pub fn each<T: Test>(&self, n: Proposition, test: T) -> bool
        requires n_lt_count { n.0 < self.now.count }
        requires test_ready { T.ready test }
        ensures { (tables : ℕ) → result ≡ each (λ d. T.passes test) 0 (room_at tables self.now.room.now n.0) }
    {
        match self.view_at(n) {
            View::Constant => true,
            View::Link(a, b) => self.each(a, test) && self.each(b, test),
            View::Quantifier(body) => self.each(body, test),
            View::Atom(r) => test.all_pass(r),
        }
    }
}
