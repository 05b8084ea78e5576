// OrLeft and OrRight, checked: against an Or, else 11; one part of it. (They are not synthesized: 25.)
ghost use Rattle.std.specs.Prelude.{List, ℕ, ◌<◌};
ghost use Rattle.numbers.specs.Limits.{largest};
ghost use Rattle.layout.specs.File.{term_record};
ghost use Rattle.prop.specs.Room.{TypeIn};
ghost use Rattle.step.specs.declared.state.Want.TheVariants.{Check};
ghost use Rattle.step.specs.Rooms.{count_of, rooms};
ghost use Rattle.rule.specs.Going.{Here, Room, Begins};

use super::next::{Next, Rest};
use numbers::refusal::{Reason, Refusal};
use numbers::{Sort, Term};
use prop::head::Link;
use step::inference::Inference;
use step::state::{State, Want, term_record};

pub fn check(file: &[u8], props: &[u8], k: Term, wanted: Sort, st: State) -> Result<Next, Refusal>
    requires here { Here file.now k.0 × (st.records < largest) }
    requires room { Room file.now props.now st × TypeIn (count_of file.now st) wanted }
    requires bound { (6 < (term_record file.now k.0).kind) × ((term_record file.now k.0).kind < 9) }
    ensures { (tree goals work : List ℕ) → Begins file.now (rooms tree goals props.now work)
        (rooms tree goals props.now work) k.0 (Check wanted) st result }
{
    let Some(parts) = st.held(file, props).split(wanted, Link::Or) else {
        return Err(Reason::CheckWrongTerm.at(k));
    };
    let r = term_record(file, k);
    // 7 is OrLeft: the kind byte, as in document 01's form.
    let (rule, part) = if r.kind == 7 {
        (Inference::OrIntroFst, parts.left)
    } else {
        (Inference::OrIntroSnd, parts.right)
    };
    let held = Want::Check(Sort::Proposition(part));
    Ok(Next::Ask(Rest::By(rule.number(), 1), r.child1, held, st.inner()))
}
