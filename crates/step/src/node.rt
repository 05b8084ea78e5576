// Records of the proof tree and of the goals.
ghost use Rattle.std.specs.Prelude.{◌≡◌, ◌+◌, ◌*◌, ◌≤◌, length};
ghost use Rattle.numbers.specs.Records.{Put};
ghost use Rattle.step.specs.Trees.{rule_number, node_rec, node_at, goal_at, goal_rec, PutGoal};

use super::inference::Inference;
use context::identifier_context::sort_of;
use numbers::record::{Record, put, put_word, record_at, word};
use numbers::{Proposition, Serial, Sort, Term};

// What a node's sixteen bytes say: where it has no serial stands `Serial::NONE`. The rule is a number, since a tree's bytes can be anything.
#[derive(Clone, Copy)]
pub struct NodeRecord {
    pub rule: u8,
    pub term: Term,
    pub conclusion: Sort,
    pub first: Serial,
    pub second: Serial,
    pub premises: u16,
}

// What a goal's eight bytes say.
#[derive(Clone, Copy)]
pub struct Goal {
    pub term: Term,
    pub proposition: Proposition,
    pub context: u16,
    pub zero: u16,
}

// A node's record: its conclusion is a proposition, or a datatype in a type judgement. Any rule number may stand in it. (Six parameters: they are
// the record's fields.)
pub fn node_record(
    rule: u8,
    term: Term,
    t: Sort,
    first: Serial,
    second: Serial,
    premises: u16,
) -> Record
    ensures { result ≡ node_rec rule term.0 t first.0 second.0 premises }
{
    let (count, b) = match t {
        Sort::Proposition(p) => (0, p.0),
        Sort::Datatype(d) => (1, d.0),
    };
    Record {
        kind: rule,
        count,
        a: term.0,
        b,
        c: first.0,
        parameters: [second.0, premises, 0, 0],
    }
}

// The record of a node by one of the rules.
pub fn node(
    rule: Inference,
    term: Term,
    t: Sort,
    first: Serial,
    second: Serial,
    premises: u16,
) -> Record
    ensures { result ≡ node_rec (rule_number rule) term.0 t first.0 second.0 premises }
{
    node_record(rule.number(), term, t, first, second, premises)
}

// The node becomes record `at` of the tree.
pub fn put_node(tree: &mut [u8], at: u16, r: Record)
    requires { 16 * at + 16 ≤ length tree.old }
    ensures { Put tree.old at r tree.new }
{
    put(tree, usize::from(at), r);
}

// Node n of the tree, whatever its bytes are.
pub fn node_at(tree: &[u8], n: u16) -> NodeRecord
    requires { 16 * n + 16 ≤ length tree.now }
    ensures { result ≡ node_at tree.now n }
{
    let r = record_at(tree, usize::from(n));
    NodeRecord {
        rule: r.kind,
        term: Term(r.a),
        conclusion: sort_of(u16::from(r.count), r.b),
        first: Serial(r.c),
        second: Serial(r.parameters[0]),
        premises: r.parameters[1],
    }
}

// Goal number `at`.
pub fn put_goal(goals: &mut [u8], at: u16, g: Goal)
    requires { 8 * at + 8 ≤ length goals.old }
    ensures { PutGoal goals.old at g goals.new }
{
    let i = 8 * usize::from(at);
    put_word(goals, i, g.term.0);
    put_word(goals, i + 2, g.proposition.0);
    put_word(goals, i + 4, g.context);
    put_word(goals, i + 6, g.zero);
}

// Goal number i, whatever its bytes are.
pub fn goal_at(goals: &[u8], i: u16) -> Goal
    requires { 8 * i + 8 ≤ length goals.now }
    ensures { result ≡ goal_at goals.now i }
{
    let at = 8 * usize::from(i);
    Goal {
        term: Term::from_bytes(goals, at),
        proposition: Proposition::from_bytes(goals, at + 2),
        context: word(goals, at + 4),
        zero: word(goals, at + 6),
    }
}

// What a Sorry wants, in a context of so many entries. (No accepted run has a goal that wants a datatype.)
pub fn goal_of(term: Term, t: Sort, context: u16) -> Goal
    ensures { result ≡ goal_rec term.0 t context }
{
    let proposition = match t {
        Sort::Proposition(p) => p,
        Sort::Datatype(d) => Proposition(d.0),
    };
    Goal {
        term,
        proposition,
        context,
        zero: 0,
    }
}
