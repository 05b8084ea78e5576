// Room for an AlphaEq node above a tree that was written before the need for it was known.
// (Record by record: `copy_within` becomes a call of memmove, and the library for C needs memset alone.)
ghost use Rattle.std.specs.Prelude.{◌≡◌, ◌+◌, ◌*◌, ◌≤◌, length};
ghost use Rattle.step.specs.Shift.{Shifted};

use numbers::record::{put, record_at};

// Records `from` up to `to` each move up by one.
pub fn shift(tree: &mut [u8], from: u16, to: u16)
    requires from_le_to { from ≤ to }
    requires to_in_bounds { 16 * to + 16 ≤ length tree.old }
    ensures { Shifted from to tree.old tree.new }
{
    for i in (from..to).rev() {
        let r = record_at(tree, i as usize);
        put(tree, i as usize + 1, r);
    }
}
