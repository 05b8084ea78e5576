// ProjectFst and ProjectSnd, synthesized: a part of an And, else 22 at the projection. (Checked, they are compared.)
ghost use Rattle.std.specs.Prelude.{List, ℕ, ◌+◌, ◌*◌, ◌<◌, ◌≤◌, length};
ghost use Rattle.numbers.specs.Limits.{largest};
ghost use Rattle.layout.specs.File.{term_record};
ghost use Rattle.prop.specs.Room.{TypeIn};
ghost use Rattle.step.specs.declared.state.Want.TheVariants.{Synth};
ghost use Rattle.step.specs.Rooms.{Rooms, count_of, rooms};
ghost use Rattle.rule.specs.declared.next.Rest.TheVariants.{Part};
ghost use Rattle.rule.specs.Going.{Here, Room, Begins, Resumes};

use super::next::{Next, Rest, Rule, by, proved};
use numbers::Term;
use numbers::refusal::{Reason, Refusal};
use prop::head::Link;
use step::inference::Inference;
use step::state::{Answer, State, Want, term_record};

pub fn synthesize(file: &[u8], k: Term, st: State) -> Result<Next, Refusal>
    requires here { Here file.now k.0 × (st.records < largest) }
    requires bound { (1 < (term_record file.now k.0).kind) × ((term_record file.now k.0).kind < 4) }
    ensures { (R : Rooms) → Begins file.now R R k.0 Synth st result }
{
    let r = term_record(file, k);
    Ok(Next::Ask(Rest::Part, r.child1, Want::Synth, st.inner()))
}

pub fn part(file: &[u8], tree: &mut [u8], props: &[u8], f: Rule, a: Answer) -> Result<Next, Refusal>
    requires here { Here file.now f.term.0 }
    requires room { Room file.now props.now a.state × TypeIn (count_of file.now a.state) a.typ }
    requires records_in_bounds { 16 * f.start.records + 16 ≤ length tree.old }
    ensures { (goals work : List ℕ) → Resumes file.now (rooms tree.old goals props.now work)
        (rooms tree.new goals props.now work) f Part a.typ a.state result }
{
    let Some(parts) = a.state.held(file, props).split(a.typ, Link::And) else {
        return Err(Reason::SynthWrongHead.at(f.term));
    };
    let r = term_record(file, f.term);
    // 2 is ProjectFst: the kind byte, as in document 01's form.
    let (rule, part) = if r.kind == 2 {
        (Inference::AndElimFst, parts.left)
    } else {
        (Inference::AndElimSnd, parts.right)
    };
    by(tree, f, rule.number(), 1, proved(part, a.state))
}
