// What the answer of one test comes to: for `?`, with the test's own reason.
ghost use Rattle.std.specs.Prelude.{◌≡◌, Ok};
ghost use Rattle.numbers.specs.Refusals.{number_of};
ghost use Rattle.table.specs.Tests.{unless, accused};

use numbers::refusal::{Reason, Refusal};

// A test that no record is to blame for.
#[tactic(auto, unfolding(crate::specs::Tests::unless))]
pub fn holds(test: bool, reason: Reason) -> Result<(), Refusal>
    ensures { result ≡ unless test (number_of reason) (Ok tt) }
{
    if test { Ok(()) } else { Err(reason.of(0)) }
}

// A test that answers the lowest guilty record.
#[tactic(auto, unfolding(crate::specs::Tests::accused))]
pub fn guiltless(guilty: Option<u16>, reason: Reason) -> Result<(), Refusal>
    ensures { result ≡ accused (number_of reason) guilty (Ok tt) }
{
    match guilty {
        Some(i) => Err(reason.of(i)),
        None => Ok(()),
    }
}
