// How many nodes a proposition has as a tree, counted with a budget.
ghost use Rattle.std.specs.Prelude.{◌≡◌, ℕ, ◌<◌};
ghost use Rattle.rules.specs.Prop.{size};
ghost use Rattle.prop.specs.Room.{room_at};
ghost use Rattle.prop.specs.Size.{counted};

use super::node::View;
use super::propositions::Propositions;
use numbers::Proposition;

impl Propositions<'_> {
    // The nodes of proposition n, if there are at most `left`. Made nodes are shared, so a tree's size may pass any 16-bit number: past the budget
    // nothing is counted, and no more than `left` nodes are visited. (By reference, as `compare`.)
    pub fn nodes_of(&self, n: Proposition, left: u16) -> Option<u16>
        requires { n.0 < self.now.count }
        ensures { (tables : ℕ) → result ≡ counted (size (room_at tables self.now.room.now n.0)) left }
    {
        if left == 0 {
            return None;
        }
        match self.view_at(n) {
            View::Constant | View::Atom(_) => Some(1),
            View::Link(a, b) => {
                let x = self.nodes_of(a, left - 1)?;
                let y = self.nodes_of(b, left - 1 - x)?;
                Some(1 + x + y)
            }
            View::Quantifier(body) => {
                let x = self.nodes_of(body, left - 1)?;
                Some(1 + x)
            }
        }
    }
}
