// Abort, checked: its False is made, the body is held to it, and only then comes the test for a datatype (13). (It is not synthesized: 25.)
ghost use Rattle.std.specs.Prelude.{◌≡◌, List, ℕ, ◌+◌, ◌*◌, ◌<◌, ◌≤◌, length};
ghost use Rattle.numbers.specs.Limits.{largest};
ghost use Rattle.layout.specs.File.{term_record};
ghost use Rattle.prop.specs.Room.{TypeIn};
ghost use Rattle.step.specs.declared.state.Want.TheVariants.{Check};
ghost use Rattle.step.specs.Rooms.{count_of, rooms};
ghost use Rattle.rule.specs.declared.next.Rest.TheVariants.{Aborts};
ghost use Rattle.rule.specs.Going.{Here, Room, Begins, Resumes};

use super::next::{Next, Rest, Rule, by};
use arena::make::make_constant;
use numbers::refusal::{Reason, Refusal};
use numbers::{Sort, Term};
use step::inference::Inference;
use step::state::{Answer, State, Want, term_record};

pub fn check(
    file: &[u8],
    props: &mut [u8],
    k: Term,
    wanted: Sort,
    st: State,
) -> Result<Next, Refusal>
    requires here { Here file.now k.0 × (st.records < largest) }
    requires room { Room file.now props.old st × TypeIn (count_of file.now st) wanted }
    requires k_value { (term_record file.now k.0).kind ≡ 10 }
    ensures { (tree goals work : List ℕ) → Begins file.now (rooms tree goals props.old work)
        (rooms tree goals props.new work) k.0 (Check wanted) st result }
{
    let count = st.count(file);
    let Some(m) = make_constant(props, count, st.left(), false) else {
        return Err(Reason::TooManyMade.at(k));
    };
    let r = term_record(file, k);
    let s = st.grown(count, m.count).inner();
    Ok(Next::Ask(
        Rest::Aborts,
        r.child1,
        Want::Check(Sort::Proposition(m.at)),
        s,
    ))
}

pub fn aborts(tree: &mut [u8], f: Rule, a: Answer) -> Result<Next, Refusal>
    requires { 16 * f.start.records + 16 ≤ length tree.old }
    ensures { (l goals ps work : List ℕ) → Resumes l (rooms tree.old goals ps work) (rooms tree.new goals ps work) f
        Aborts a.typ a.state result }
{
    let Sort::Proposition(_) = f.want.answered(a.typ) else {
        return Err(Reason::CheckNoObject.at(f.term));
    };
    by(tree, f, Inference::FalsumElim.number(), 1, a)
}
