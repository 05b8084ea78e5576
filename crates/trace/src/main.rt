// Marks tables from standard input, each after its length in 32 bits (0 or the input's end stops), and prints each answer whole: tree records with
// their conclusions, goals with their propositions, and the counts. The lines are those of the original's runner, for a plain comparison; only a
// goal's visible serials are left out, since no room holds them.
#![tactic(auto)]

use entry::check;
use entry::rooms::{GOALS, PROPOSITIONS, TREE, WORK};
use show::input::{LONGEST, read_table};
use show::tree::Accepted;
use std::io;
use std::io::{Read, Write};

fn answer<W: Write>(out: &mut W, file: &[u8]) -> io::Result<()> {
    let mut tree = [0u8; TREE];
    let mut goals = [0u8; GOALS];
    let mut props = [0u8; PROPOSITIONS];
    let mut work = [0u8; WORK];
    match check(file, &mut tree, &mut goals, &mut props, &mut work) {
        Ok(c) => {
            let accepted = Accepted {
                tree: &tree,
                goals: &goals,
                props: &props,
                records: c.records,
                open: c.goals,
                serials: c.serials,
                made: c.made,
            };
            write!(out, "{accepted:#}")
        }
        Err(e) => show::refused(out, e),
    }
}

// The answer to the next table, which has that length.
fn next<R: Read, W: Write>(from: &mut R, out: &mut W, size: usize) -> io::Result<()> {
    let mut room = [0u8; LONGEST];
    let n = read_table(from, &mut room, size);
    answer(out, &room[..n])
}

fn main(rt: HostRuntime) -> io::Result<()> {
    let mut from = rt.stdin();
    let mut out = show::output(&rt);
    show::each(&mut from, &mut out, next)?;
    out.flush()
}
