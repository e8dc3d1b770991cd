// Whether bytes are well-formed UTF-8, by the Unicode standard's Table 3-7.
ghost use Rattle.std.specs.Prelude.{◌≡◌, ℕ, ◌<◌, ◌≤◌, length, get_or, drop, map, take_while, ltb};
ghost use Rattle.ground.specs.Choice.{within};
ghost use Rattle.text.specs.Unicode.{utf8, ranges};
ghost use Rattle.text.specs.Code.Sequence.{range_of, Row, row_length, Passed};

// A column of a line of the table: In(0xA0, 0xBF) is the standard's A0..BF. Not RangeInclusive, which has a third part, whether it is spent, and is not Copy.
#[derive(Clone, Copy)]
pub struct In(pub u8, pub u8);

impl In {
    fn holds(self, x: u8) -> bool
        ensures { result ≡ within (range_of self) x }
    {
        (self.0 <= x) & (x <= self.1)
    }
}

// The Unicode standard's Table 3-7, a line for each of its lines and in its order: the first byte, then the columns of those that follow it, and behind it the
// code points. The answer is of how many bytes the sequence is; none where the bytes from `at` on are none of these.
fn sequence_at(s: &[u8], at: usize) -> Option<usize>
    requires { at < length s.now }
    ensures { result ≡ row_length (drop at s.now) }
{
    match s[at] {
        0x00..=0x7F => Some(1), // U+0000..U+007F
        0xC2..=0xDF => row(s, at, [In(0x80, 0xBF)]), // U+0080..U+07FF
        0xE0 => row(s, at, [In(0xA0, 0xBF), In(0x80, 0xBF)]), // U+0800..U+0FFF
        0xE1..=0xEC => row(s, at, [In(0x80, 0xBF), In(0x80, 0xBF)]), // U+1000..U+CFFF
        0xED => row(s, at, [In(0x80, 0x9F), In(0x80, 0xBF)]), // U+D000..U+D7FF
        0xEE..=0xEF => row(s, at, [In(0x80, 0xBF), In(0x80, 0xBF)]), // U+E000..U+FFFF
        0xF0 => row(s, at, [In(0x90, 0xBF), In(0x80, 0xBF), In(0x80, 0xBF)]), // U+10000..U+3FFFF
        0xF1..=0xF3 => row(s, at, [In(0x80, 0xBF), In(0x80, 0xBF), In(0x80, 0xBF)]), // U+40000..U+FFFFF
        0xF4 => row(s, at, [In(0x80, 0x8F), In(0x80, 0xBF), In(0x80, 0xBF)]), // U+100000..U+10FFFF
        _ => None,
    }
}

// A line whose first byte stands at `at`: how many bytes it has, where those that follow are there and each in its column.
#[tactic(auto, using(crate::proofs::Bytes::row_laws))]
fn row<const N: usize>(s: &[u8], at: usize, columns: [In; N]) -> Option<usize>
    requires { at < length s.now }
    ensures { Row s.now at (ranges (map range_of columns.entry)) result }
{
    if s.len() - at <= N {
        return None;
    }
    for i in 0..N {
        if !columns[i].holds(s[at + 1 + i]) {
            return None;
        }
    }
    Some(N + 1)
}

// No byte is above this one. The loop has no other end than the text's, so that the compiler takes many bytes at a time.
fn highest(s: &[u8]) -> u8
    ensures { (k : ℕ) → k < length s.now → get_or s.now k 0 ≤ result }
{
    let mut top = 0;
    for x in s {
        top = top.max(*x);
    }
    top
}

// Past the bytes below 80, 16 at a time, which the compiler takes at once.
fn past_blocks(s: &[u8], at: usize) -> usize
    requires { at ≤ length s.now }
    ensures { Passed s.now at result }
{
    let mut i = at;
    for block in s[at..].chunks_exact(16) {
        if 0x80 <= highest(block) {
            return i;
        }
        i += 16;
    }
    i
}

// How many bytes below 80 come first.
fn ascii_first(s: &[u8]) -> usize
    ensures { result ≡ length (take_while (λ x. ltb x 0x80) s.now) }
{
    s.iter().take_while(|x| **x < 0x80).count()
}

// The place of the next byte that is not below 80.
#[tactic(auto, using(crate::proofs::Bytes::low_inside, crate::proofs::Bytes::low_passed))]
fn past_ascii(s: &[u8], at: usize) -> usize
    requires { at ≤ length s.now }
    ensures { Passed s.now at result }
{
    let i = past_blocks(s, at);
    i + ascii_first(&s[i..])
}

// Most text is ASCII, which the highest byte tells. Any other is taken by whole sequences; after one of a single byte the ASCII that follows is passed at
// once, and after a longer one nothing is looked for, since text that is not ASCII mostly goes on so.
pub fn is_utf8(s: &[u8]) -> bool
    ensures { result ≡ utf8 s.now }
{
    if highest(s) < 0x80 {
        return true;
    }
    let mut at = past_ascii(s, 0);
    while at < s.len() {
        let Some(n) = sequence_at(s, at) else {
            return false;
        };
        at += n;
        if n == 1 {
            at = past_ascii(s, at);
        }
    }
    true
}
