// A rule goes on from the answer to its last premise.
ghost use Rattle.std.specs.Prelude.{List, ℕ, ◌+◌, ◌*◌, ◌≤◌, length};
ghost use Rattle.prop.specs.Room.{TypeIn};
ghost use Rattle.step.specs.Rooms.{count_of, rooms};
ghost use Rattle.layout.specs.File.{term_record};
ghost use Rattle.rule.specs.Reading.{after, Inside};
ghost use Rattle.rule.specs.Going.{Here, Room, Held, Resumes};

use super::next::{Next, Rest, Rule, by};
use super::{abort, application, case, function, let_in, pair, projection};
use numbers::refusal::Refusal;
use step::state::Answer;

pub fn resume(
    file: &[u8],
    tree: &mut [u8],
    props: &mut [u8],
    work: &mut [u8],
    f: Rule,
    rest: Rest,
    a: Answer,
) -> Result<Next, Refusal>
    requires here { Here file.now f.term.0 }
    requires room { Room file.now props.old a.state × TypeIn (count_of file.now a.state) a.typ }
    requires held { Held (count_of file.now a.state) work.old a.state rest }
    requires inside { Inside file.now f.term.0 (after (term_record file.now f.term.0) rest) }
    requires records_in_bounds { 16 * f.start.records + 16 ≤ length tree.old }
    ensures { (goals : List ℕ) → Resumes file.now (rooms tree.old goals props.old work.old)
        (rooms tree.new goals props.new work.new) f rest a.typ a.state result }
{
    match rest {
        Rest::By(rule, premises) => by(tree, f, rule, premises, a),
        Rest::Right(rule, b) => pair::right(file, f, rule, b, a.state),
        Rest::Second => pair::second(file, f, a),
        Rest::Both(t) => pair::both(file, tree, props, f, t, a),
        Rest::Part => projection::part(file, tree, props, f, a),
        Rest::Closes(rule, i) => function::closes(tree, f, rule, i, a),
        Rest::Abstracts(i, t) => function::abstracts(file, tree, props, f, i, t, a),
        Rest::Argument => application::argument(file, props, work, f, a),
        Rest::Concludes(b) => application::concludes(tree, f, b, a.state),
        Rest::Instance(i, body) => application::instance(file, tree, props, f, i, body, a.state),
        Rest::LetBody => let_in::body(file, props, work, f, a),
        Rest::LetEnd(i, j) => let_in::end(file, tree, props, f, i, j, a),
        Rest::CaseLeft => case::left(file, props, work, f, a),
        Rest::CaseRight(i, b) => case::right(file, work, f, i, b, a),
        Rest::CaseEnd(i, j, t) => case::end(file, tree, props, f, i, j, t, a),
        Rest::Aborts => abort::aborts(tree, f, a),
    }
}
