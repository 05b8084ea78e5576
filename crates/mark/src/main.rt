// `mark FILE`: the mark of a proof table, in the lines that document 01 shows. Accepted: the counts of records and goals, a line for each tree record
// (rule, term, serials, premises) and one for each goal (term, context length). Refused: the number and the place.
#![tactic(auto)]

use entry::check;
use entry::rooms::{GOALS, PROPOSITIONS, TREE, WORK};
use show::arguments::argument_count;
use show::input::{LONGEST, read_argument};
use show::tree::Accepted;
use std::io;
use std::io::Write;

// The mark of these bytes, in rooms of the listed sizes.
fn answer<W: Write>(out: &mut W, file: &[u8]) -> io::Result<()> {
    let mut tree = [0u8; TREE];
    let mut goals = [0u8; GOALS];
    let mut props = [0u8; PROPOSITIONS];
    let mut work = [0u8; WORK];
    match check(file, &mut tree, &mut goals, &mut props, &mut work) {
        Ok(c) => {
            let accepted = Accepted {
                tree: &tree,
                goals: &goals,
                props: &props,
                records: c.records,
                open: c.goals,
                serials: c.serials,
                made: c.made,
            };
            write!(out, "{accepted}")
        }
        Err(e) => show::refused(out, e),
    }
}

fn main(rt: HostRuntime) -> io::Result<()> {
    if argument_count(&rt) != 2 {
        return eprintln!(rt; "usage: mark FILE");
    }
    let mut room = [0u8; LONGEST];
    let Some(n) = read_argument(&rt, 1, &mut room) else {
        return Ok(());
    };
    let mut out = show::output(&rt);
    answer(&mut out, &room[..n])?;
    out.flush()
}
