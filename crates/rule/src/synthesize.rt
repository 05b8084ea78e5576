// A term asked for its type, up to its first premise.
ghost use Rattle.std.specs.Prelude.{List, ℕ};
ghost use Rattle.step.specs.declared.state.Want.TheVariants.{Synth};
ghost use Rattle.step.specs.Rooms.{rooms};
ghost use Rattle.step.specs.Contract.{Ready};
ghost use Rattle.rule.specs.Going.{Begins};

use super::next::Next;
use super::{application, ascription, case, function, ident, let_in, pair, projection, unit};
use numbers::Term;
use numbers::refusal::{Reason, Refusal};
use step::state::{State, Want, term_record};

// A match on the kind byte: document 01's form.
pub fn begin(
    file: &[u8],
    tree: &mut [u8],
    props: &mut [u8],
    work: &mut [u8],
    k: Term,
    st: State,
) -> Result<Next, Refusal>
    requires { (goals : List ℕ) × Ready file.now (rooms tree.old goals props.old work.old) k.0 st }
    ensures { (goals : List ℕ) → Begins file.now (rooms tree.old goals props.old work.old)
        (rooms tree.new goals props.new work.new) k.0 Synth st result }
{
    match term_record(file, k).kind {
        0 => ident::synthesize(file, tree, work, k, st),
        1 => pair::synthesize(file, k, st),
        2..=3 => projection::synthesize(file, k, st),
        4 => function::synthesize(file, props, work, k, st),
        5 => application::synthesize(file, k, st),
        6 => let_in::begin(file, k, Want::Synth, st),
        7..=8 => Err(Reason::SynthNoType.at(k)),
        9 => case::begin(file, k, Want::Synth, st),
        10 => Err(Reason::SynthNoType.at(k)),
        11 => unit::synthesize(file, tree, props, k, st),
        12 => ascription::synthesize(file, props, work, k, st),
        13..=255 => Err(Reason::SynthNoType.at(k)),
    }
}
