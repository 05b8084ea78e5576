// Fills goals from standard input and prints each answer whole, in the lines of the original's runner as `trace` does. An old table, a goal's number in
// 32 bits and a filling make one entry; a table stands after its length in 32 bits. Where an old table's length is 0, or the input ends, it stops. The line
// after a refusal says which table its place is in.
#![tactic(auto)]

use editing::EDITED;
use entry::rooms::{GOALS, PROPOSITIONS, TREE, WORK};
use filling::fill;
use show::input::{LONGEST, next_word, read_table};
use show::tree::Accepted;
use std::io;
use std::io::{Read, Write};

fn answer<W: Write>(out: &mut W, old: &[u8], goal: u16, filling: &[u8]) -> io::Result<()> {
    let mut tree = [0u8; TREE];
    let mut goals = [0u8; GOALS];
    let mut props = [0u8; PROPOSITIONS];
    let mut work = [0u8; WORK];
    let mut edited = [0u8; EDITED];
    match fill(
        old,
        goal,
        filling,
        &mut tree,
        &mut goals,
        &mut props,
        &mut work,
        &mut edited,
    ) {
        Ok(c) => {
            let accepted = Accepted {
                tree: &tree,
                goals: &goals,
                props: &props,
                records: c.records,
                open: c.goals,
                serials: c.serials,
                made: c.made,
            };
            write!(out, "{accepted:#}")
        }
        Err(e) => {
            show::refused(out, e.refusal)?;
            writeln!(out, "where {}", e.which)
        }
    }
}

// No table has so many goals as 16 bits count, so the largest number stands for all that are larger.
fn goal_number(n: usize) -> u16 {
    u16::try_from(n).unwrap_or(u16::MAX)
}

// The answer to the next filling, of an old table that has that length.
fn next<R: Read, W: Write>(from: &mut R, out: &mut W, size: usize) -> io::Result<()> {
    let mut old = [0u8; LONGEST];
    let n = read_table(from, &mut old, size);
    let goal = goal_number(next_word(from));
    let mut filling = [0u8; LONGEST];
    let size = next_word(from);
    let m = read_table(from, &mut filling, size);
    answer(out, &old[..n], goal, &filling[..m])
}

// (As in `trace`: the loop is `show::each`, and each program has a `main`.)
fn main(rt: HostRuntime) -> io::Result<()> {
    let mut from = rt.stdin();
    let mut out = show::output(&rt);
    show::each(&mut from, &mut out, next)?;
    out.flush()
}
