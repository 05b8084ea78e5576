// `fill OLD GOAL FILLING`: goal number GOAL of the table in OLD, filled with the table in FILLING. Accepted, the filling's own tree and goals are
// printed in the lines of `mark`. A refusal ends with the table that its place is in: old, filling or edited.
// `fill OLD GOAL FILLING EDITED` also writes the edited table of an accepted filling to EDITED.
#![tactic(auto)]

ghost use Rattle.std.specs.Prelude.{◌≤◌, length};

use editing::EDITED;
use entry::rooms::{GOALS, PROPOSITIONS, TREE, WORK};
use filling::fill;
use layout::header::{proposition_count, term_count};
use show::arguments::{argument_count, number_argument, write_argument};
use show::input::{LONGEST, read_argument};
use show::tree::Accepted;
use std::io;
use std::io::Write;

// The filling's answer, in rooms of the listed sizes; and whether it is accepted.
fn answer<W: Write>(
    out: &mut W,
    old: &[u8],
    goal: u16,
    filling: &[u8],
    edited: &mut [u8],
) -> io::Result<bool> {
    let mut tree = [0u8; TREE];
    let mut goals = [0u8; GOALS];
    let mut props = [0u8; PROPOSITIONS];
    let mut work = [0u8; WORK];
    match fill(
        old, goal, filling, &mut tree, &mut goals, &mut props, &mut work, edited,
    ) {
        Ok(c) => {
            let accepted = Accepted {
                tree: &tree,
                goals: &goals,
                props: &props,
                records: c.records,
                open: c.goals,
                serials: c.serials,
                made: c.made,
            };
            write!(out, "{accepted}")?;
            Ok(true)
        }
        Err(e) => {
            show::refusal(out, e.refusal)?;
            writeln!(out, " {}", e.which)?;
            Ok(false)
        }
    }
}

// How long the edited table is: as its header says, and no longer than its room.
fn length_of(edited: &[u8]) -> usize
    requires { 16 ≤ length edited.now }
    ensures { result ≤ length edited.now }
{
    let p = usize::from(proposition_count(edited));
    let t = usize::from(term_count(edited));
    (16 * (p + t) + 16).min(edited.len())
}

// The edited table goes into the file that argument 4 names, without the zeros behind it in its room.
fn write_edited(rt: &HostRuntime, edited: &[u8; EDITED]) {
    let n = length_of(edited);
    write_argument(rt, 4, &edited[..n]);
}

fn fill_files(rt: &HostRuntime, goal: u16, kept: bool) -> io::Result<()> {
    let mut old = [0u8; LONGEST];
    let Some(n) = read_argument(rt, 1, &mut old) else {
        return Ok(());
    };
    let mut filling = [0u8; LONGEST];
    let Some(m) = read_argument(rt, 3, &mut filling) else {
        return Ok(());
    };
    let mut edited = [0u8; EDITED];
    let mut out = show::output(rt);
    let accepted = answer(&mut out, &old[..n], goal, &filling[..m], &mut edited)?;
    out.flush()?;
    if accepted && kept {
        write_edited(rt, &edited);
    }
    Ok(())
}

fn main(rt: HostRuntime) -> io::Result<()> {
    let count = argument_count(&rt);
    if count != 4 && count != 5 {
        return eprintln!(rt; "usage: fill OLD GOAL FILLING [EDITED]");
    }
    match number_argument(&rt, 2) {
        Some(goal) => fill_files(&rt, goal, count == 5),
        None => eprintln!(rt; "the goal is not a number"),
    }
}
