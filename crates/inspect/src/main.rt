// `inspect FILE`: how many propositions and terms a table says it has, and the verdict of its tests as a table to check.
// `inspect -f FILE` tests it as a filling.
#![tactic(auto)]

use layout::header::{proposition_count, term_count};
use show::arguments::argument_count;
use show::input::{LONGEST, read_argument};
use std::io;
use std::io::Write;
use std::rt::Env;
use table::Purpose;

fn counts<W: Write>(out: &mut W, file: &[u8]) -> io::Result<()> {
    if 16 <= file.len() {
        let propositions = proposition_count(file);
        let terms = term_count(file);
        writeln!(out, "propositions {propositions} terms {terms}")?;
    }
    Ok(())
}

fn answer<W: Write>(out: &mut W, file: &[u8], purpose: Purpose) -> io::Result<()> {
    let mut work = [0u8; table::ROOM];
    counts(out, file)?;
    show::answer(out, table::test_table(file, &mut work, purpose))
}

// The file that argument i names.
fn inspect(rt: &HostRuntime, i: usize, purpose: Purpose) -> io::Result<()> {
    let mut room = [0u8; LONGEST];
    let Some(n) = read_argument(rt, i, &mut room) else {
        return Ok(());
    };
    let mut out = show::output(rt);
    answer(&mut out, &room[..n], purpose)?;
    out.flush()
}

// Whether the first argument is -f.
fn is_filling(rt: &HostRuntime) -> bool {
    let mut flag = [0u8; 2];
    rt.arg(1, &mut flag).is_ok() && flag == *b"-f"
}

fn main(rt: HostRuntime) -> io::Result<()> {
    match argument_count(&rt) {
        2 => inspect(&rt, 1, Purpose::Check),
        3 if is_filling(&rt) => inspect(&rt, 2, Purpose::Filling),
        _ => eprintln!(rt; "usage: inspect FILE, or inspect -f FILE for a filling"),
    }
}
