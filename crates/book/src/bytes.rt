// The bytes of a book. A place is any number; past the end every byte is 0. Whoever knows that bytes are there reads them without that question.
ghost use Rattle.std.specs.Prelude.{◌≡◌, ◌+◌, ◌<◌, ◌≤◌, ◌^◌, length};
ghost use Rattle.book.specs.Types.{byte, pair, quad};
ghost use Rattle.book.specs.Places.{from, is_there, Skipped};

// How many bytes are left at p.
pub fn left_at(b: &[u8], p: usize) -> usize
    ensures { result ≡ length (from b.now p) }
{
    if p < b.len() {
        return b.len() - p;
    }
    0
}

// Whether the byte k bytes after p is there. Where k is known, a loop asks it with one test.
pub fn is_there(b: &[u8], p: usize, k: usize) -> bool
    ensures { result ≡ is_there b.now p k }
{
    p < left_at(b, k)
}

// The byte k bytes after p, which is there.
pub fn byte_there(b: &[u8], p: usize, k: usize) -> usize
    requires { p + k < length b.now }
    ensures { (result ≡ byte (from b.now p) k) × (result < 256) }
{
    let i = p + k;
    usize::from(b[i])
}

// The number of two bytes that are there: one load, as the machine has it.
pub fn pair_there(b: &[u8], p: usize, k: usize) -> usize
    requires { p + k + 2 ≤ length b.now }
    ensures { (result ≡ pair (from b.now p) k) × (result < 65536) }
{
    let i = p + k;
    usize::from(u16::from_be_bytes([b[i], b[i + 1]]))
}

// The number of four bytes that are there.
pub fn quad_there(b: &[u8], p: usize, k: usize) -> u32
    requires { p + k + 4 ≤ length b.now }
    ensures { result ≡ quad (from b.now p) k }
{
    let i = p + k;
    u32::from_be_bytes([b[i], b[i + 1], b[i + 2], b[i + 3]])
}

// The byte k bytes after p.
pub fn byte_at(b: &[u8], p: usize, k: usize) -> usize
    ensures { (result ≡ byte (from b.now p) k) × (result < 256) }
{
    if left_at(b, p) <= k {
        return 0;
    }
    byte_there(b, p, k)
}

// The number of two bytes.
pub fn pair_at(b: &[u8], p: usize, k: usize) -> usize
    requires { k < 2 ^ 33 }
    ensures { (result ≡ pair (from b.now p) k) × (result < 65536) }
{
    if k + 2 <= left_at(b, p) {
        return pair_there(b, p, k);
    }
    byte_at(b, p, k) * 256 + byte_at(b, p, k + 1)
}

// The number of four bytes.
pub fn quad_at(b: &[u8], p: usize, k: usize) -> u32
    requires { k < 2 ^ 32 }
    ensures { result ≡ quad (from b.now p) k }
{
    if k + 4 <= left_at(b, p) {
        return quad_there(b, p, k);
    }
    (pair_at(b, p, k) * 65536 + pair_at(b, p, k + 2)) as u32
}

// The place n bytes after p, no further than the end.
pub fn skip(b: &[u8], p: usize, n: usize) -> usize
    ensures { Skipped b.now p n result }
{
    if left_at(b, p) <= n {
        return b.len();
    }
    p + n
}
