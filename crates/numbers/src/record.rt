// 16-bit numbers, low byte first, and 16-byte records in a room of bytes.
ghost use Rattle.std.specs.Prelude.{◌≡◌, ◌+◌, ◌*◌, ◌<◌, ◌≤◌, length};
ghost use Rattle.numbers.specs.Records.{word_at, put_word, record_at, Put};

// What sixteen bytes say, field by field as a proposition's record has them: an atom holds its parameters by value, `count` of
// them. Other kinds of record read the same fields under names of their own.
#[derive(Clone, Copy, Debug, PartialEq, Eq)]
pub struct Record {
    pub kind: u8,
    pub count: u8,
    pub a: u16,
    pub b: u16,
    pub c: u16,
    pub parameters: [u16; 4],
}

pub fn word(b: &[u8], at: usize) -> u16
    requires { at + 1 < length b.now }
    ensures { result ≡ word_at b.now at }
{
    u16::from_le_bytes([b[at], b[at + 1]])
}

pub fn put_word(b: &mut [u8], at: usize, v: u16)
    requires { at + 1 < length b.old }
    ensures { b.new ≡ put_word b.old at v }
{
    let [low, high] = v.to_le_bytes();
    b[at] = low;
    b[at + 1] = high;
}

// The record at number n.
pub fn record_at(b: &[u8], n: usize) -> Record
    requires { 16 * n + 16 ≤ length b.now }
    ensures { result ≡ record_at b.now n }
{
    let at = 16 * n;
    Record {
        kind: b[at],
        count: b[at + 1],
        a: word(b, at + 2),
        b: word(b, at + 4),
        c: word(b, at + 6),
        parameters: [
            word(b, at + 8),
            word(b, at + 10),
            word(b, at + 12),
            word(b, at + 14),
        ],
    }
}

// Writes the record at number n, and no other.
pub fn put(b: &mut [u8], n: usize, r: Record)
    requires { 16 * n + 16 ≤ length b.old }
    ensures { Put b.old n r b.new }
{
    let at = 16 * n;
    b[at] = r.kind;
    b[at + 1] = r.count;
    put_word(b, at + 2, r.a);
    put_word(b, at + 4, r.b);
    put_word(b, at + 6, r.c);
    put_word(b, at + 8, r.parameters[0]);
    put_word(b, at + 10, r.parameters[1]);
    put_word(b, at + 12, r.parameters[2]);
    put_word(b, at + 14, r.parameters[3]);
}
