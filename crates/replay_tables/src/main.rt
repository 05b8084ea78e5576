// Tests a stream of tables from standard input and prints a line for each: the count of tables in 32 bits; then for each its length in
// 32 bits, a byte that says what it is for (0 a check, else a filling), and its bytes. tests/tables/README.md has the rest.
#![tactic(auto)]

use show::input::{LONGEST, next_word, read_table};
use std::io;
use std::io::{Read, Write};
use table::Purpose;

// A check where the input ends, too.
fn next_purpose<R: Read>(from: &mut R) -> Purpose {
    let mut mode = [0u8];
    read_table(from, &mut mode, 1);
    match mode {
        [0] => Purpose::Check,
        _ => Purpose::Filling,
    }
}

fn replay<R: Read, W: Write>(from: &mut R, out: &mut W) -> io::Result<()> {
    let mut room = [0u8; LONGEST];
    let mut work = [0u8; table::ROOM];
    let size = next_word(from);
    let purpose = next_purpose(from);
    let n = read_table(from, &mut room, size);
    show::answer(out, table::test_table(&room[..n], &mut work, purpose))
}

fn main(rt: HostRuntime) -> io::Result<()> {
    let mut from = rt.stdin();
    let mut out = show::output(&rt);
    for _ in 0..next_word(&mut from) {
        replay(&mut from, &mut out)?;
    }
    out.flush()
}
