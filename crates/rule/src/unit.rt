// Unit. Checked: against True, else 11. Synthesized: a True is made.
ghost use Rattle.std.specs.Prelude.{◌≡◌, List, ℕ};
ghost use Rattle.layout.specs.File.{term_record};
ghost use Rattle.prop.specs.Room.{TypeIn};
ghost use Rattle.step.specs.declared.state.Want.TheVariants.{Check, Synth};
ghost use Rattle.step.specs.Rooms.{count_of, rooms};
ghost use Rattle.rule.specs.Going.{Here, Room, Place, Begins};

use super::next::Next;
use arena::make::make_constant;
use numbers::refusal::{Reason, Refusal};
use numbers::{Serial, Sort, Term};
use step::inference::Inference;
use step::node::{node, put_node};
use step::state::{Answer, State};

pub fn check(
    file: &[u8],
    tree: &mut [u8],
    props: &[u8],
    k: Term,
    wanted: Sort,
    st: State,
) -> Result<Next, Refusal>
    requires here { Here file.now k.0 }
    requires room { Room file.now props.now st × TypeIn (count_of file.now st) wanted }
    requires place { Place tree.old st }
    requires k_value { (term_record file.now k.0).kind ≡ 11 }
    ensures { (goals work : List ℕ) → Begins file.now (rooms tree.old goals props.now work)
        (rooms tree.new goals props.now work) k.0 (Check wanted) st result }
{
    if st.held(file, props).is_truth(wanted) {
        let top = node(
            Inference::TrueIntro,
            k,
            wanted,
            Serial::NONE,
            Serial::NONE,
            0,
        );
        put_node(tree, st.records, top);
        Ok(Next::Done(Answer {
            typ: wanted,
            state: st.inner(),
        }))
    } else {
        Err(Reason::CheckWrongTerm.at(k))
    }
}

pub fn synthesize(
    file: &[u8],
    tree: &mut [u8],
    props: &mut [u8],
    k: Term,
    st: State,
) -> Result<Next, Refusal>
    requires here { Here file.now k.0 }
    requires room { Room file.now props.old st }
    requires place { Place tree.old st }
    requires k_value { (term_record file.now k.0).kind ≡ 11 }
    ensures { (goals work : List ℕ) → Begins file.now (rooms tree.old goals props.old work)
        (rooms tree.new goals props.new work) k.0 Synth st result }
{
    let count = st.count(file);
    let Some(m) = make_constant(props, count, st.left(), true) else {
        return Err(Reason::TooManyMade.at(k));
    };
    let t = Sort::Proposition(m.at);
    let top = node(Inference::TrueIntro, k, t, Serial::NONE, Serial::NONE, 0);
    put_node(tree, st.records, top);
    Ok(Next::Done(Answer {
        typ: t,
        state: st.grown(count, m.count).inner(),
    }))
}
