// Rooms that a caller lends, emptied.
ghost use Rattle.std.specs.Prelude.{◌≡◌, length, replicate};
ghost use Rattle.numbers.specs.Rooms.{cleared};

// Every byte becomes 0. In the built program the library's loop was seen to be a call of memset.
pub fn fill_zero(room: &mut [u8])
    ensures { room.new ≡ replicate (length room.old) 0 }
{
    room.fill(0);
}

// The first n bytes become 0, or all where there are fewer; the rest stays.
pub fn clear(room: &mut [u8], n: usize)
    ensures { room.new ≡ cleared n room.old }
{
    let end = n.min(room.len());
    fill_zero(&mut room[..end]);
}
