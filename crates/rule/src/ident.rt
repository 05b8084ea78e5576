// Ident, synthesized: its latest entry, else 20. (Checked, it is compared.)
ghost use Rattle.std.specs.Prelude.{◌≡◌, List, ℕ, ◌*◌, ◌≤◌, length};
ghost use Rattle.layout.specs.File.{term_record};
ghost use Rattle.step.specs.declared.state.Want.TheVariants.{Synth};
ghost use Rattle.step.specs.Rooms.{rooms};
ghost use Rattle.rule.specs.Going.{Here, Place, Begins};

use super::next::Next;
use context::identifier_context::get_by_name;
use numbers::refusal::{Reason, Refusal};
use numbers::{Serial, Term};
use step::inference::Inference;
use step::node::{node, put_node};
use step::state::{Answer, State, term_record};

pub fn synthesize(
    file: &[u8],
    tree: &mut [u8],
    work: &[u8],
    k: Term,
    st: State,
) -> Result<Next, Refusal>
    requires here { Here file.now k.0 }
    requires place { Place tree.old st }
    requires context_in_bounds { 8 * st.context ≤ length work.now }
    requires k_value { (term_record file.now k.0).kind ≡ 0 }
    ensures { (goals ps : List ℕ) → Begins file.now (rooms tree.old goals ps work.now)
        (rooms tree.new goals ps work.now) k.0 Synth st result }
{
    let r = term_record(file, k);
    let Some(e) = get_by_name(work, st.context as usize, r.name1) else {
        return Err(Reason::SynthUnknownName.at(k));
    };
    let top = node(Inference::Ident, k, e.typ, e.serial, Serial::NONE, 0);
    put_node(tree, st.records, top);
    Ok(Next::Done(Answer {
        typ: e.typ,
        state: st.inner(),
    }))
}
