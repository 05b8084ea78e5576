// Tests 2 to 7 in their order, a line for each: it leans on what the tests before it gave.
// The room is as long as the tests want it, and what they leave there is not settled.
ghost use Rattle.std.specs.Prelude.{◌≡◌, ◌≤◌, length};
ghost use Rattle.table.specs.Tests.{tests, test_room};

use super::Purpose;
use super::closed::open_goal;
use super::forming::formless;
use super::link::badly_linked;
use super::opening::{well_aimed, well_counted, well_marked};
use super::size::oversized;
use super::verdict::{guiltless, holds};
use numbers::refusal::{Reason, Refusal};

#[tactic(auto, using(crate::proofs::Passing::in_turn), unfolding(crate::specs::Tests::unless, crate::specs::Tests::accused))]
pub fn run_tests(file: &[u8], work: &mut [u8], purpose: Purpose) -> Result<(), Refusal>
    requires { test_room ≤ length work.old }
    ensures { result ≡ tests purpose file.now }
{
    holds(well_marked(file), Reason::NoHeader)?;
    holds(well_counted(file), Reason::WrongCounts)?;
    guiltless(formless(file), Reason::Malformed)?;
    holds(well_aimed(file, purpose), Reason::BadlyLinked)?;
    guiltless(badly_linked(file, work, purpose), Reason::BadlyLinked)?;
    guiltless(oversized(file, work), Reason::TooLarge)?;
    guiltless(open_goal(file, work, purpose), Reason::OpenGoal)
}
