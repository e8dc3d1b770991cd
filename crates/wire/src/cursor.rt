// Where a reading stands in the data, and how it moves. Nothing is required of a position, an origin or a length: each test stands
// before the sum that it allows, so nothing wraps, past the end too.
ghost use Rattle.std.specs.Prelude.{◌≡◌, ◌+◌, ◌-◌, ◌<◌, ◌≤◌, length};
ghost use Rattle.wire.specs.declared.cursor.Unread.TheVariants.{Short};
ghost use Rattle.wire.specs.Place.{cursor_at, brought_back, in_a_word, alignment_of, gap_of, padding_of, seek_to, align_to};

use crate::settings::Version;

#[derive(Clone, Copy)]
pub struct Cursor {
    pub pos: usize,
    pub origin: usize,
}

// What is told of a read that ran short: where it began, and the bytes that it still needed.
#[derive(Clone, Copy)]
pub struct Told {
    pub position: usize,
    pub need: usize,
}

// A read that ran short: where the reading stands, and what is told. Whoever meets one passes it on whole.
#[derive(Clone, Copy)]
pub struct Shortage {
    pub at: Cursor,
    pub told: Told,
}

impl Shortage {
    // The same shortage, with the reading standing at `c` again. What is told stays.
    pub fn back_to(self, c: Cursor) -> Shortage
        ensures { result ≡ brought_back self c }
    {
        Shortage { at: c, ..self }
    }
}

// Why a value is not read: the data has too few bytes, or bytes that no such value has.
#[derive(Clone, Copy)]
pub enum Unread {
    Short(Shortage),
    Bad,
}

impl From<Shortage> for Unread {
    ghost from_gives = { λ x e. e ≡ Short x };

    fn from(x: Shortage) -> Unread {
        Unread::Short(x)
    }
}

impl Cursor {
    // The most that XCDR2 aligns to.
    pub const CAP: usize = 4;

    pub fn new(pos: usize, origin: usize) -> Self
        ensures { result ≡ cursor_at pos origin }
    {
        Cursor { pos, origin }
    }

    // How many bytes lead to the next multiple of `alignment`, counted from the origin.
    fn padding(self, alignment: usize) -> usize
        requires { 0 < alignment }
        ensures { result ≡ padding_of self alignment }
    {
        gap(self.pos.saturating_sub(self.origin), alignment)
    }

    // Past a block of n bytes. A block's bytes stay in the data, so the Rust's read_bytes is this too.
    pub fn seek(self, s: &[u8], n: usize) -> Result<Cursor, Shortage>
        ensures { result ≡ seek_to s.now self n }
    {
        let need = lack(self.pos, n, s.len());
        if 0 < need {
            let told = Told {
                position: self.pos,
                need,
            };
            return Err(Shortage { at: self, told });
        }
        Ok(Cursor::new(self.pos + n, self.origin))
    }

    // Where a number of `size` bytes stands, if the data has all of it; the caller asks whether it does. A position alone goes by register.
    pub fn start(self, s: &[u8], version: Version, size: usize) -> usize
        requires { (0 < size) × (size ≤ 8) }
        ensures { (result + size ≤ length s.now → result ≡ self.pos + padding_of self (alignment_of version size)) × (result ≤ length s.now + 8) }
    {
        let pos = self.pos;
        let origin = self.origin;
        let end = s.len();
        if pos < origin {
            return end;
        }
        if end < pos {
            return end;
        }
        pos + gap(pos - origin, alignment_of(version, size))
    }

    // To where a number of `size` bytes may stand.
    pub fn align(self, s: &[u8], version: Version, size: usize) -> Result<Cursor, Shortage>
        requires { 0 < size }
        ensures { result ≡ align_to s.now version self size }
    {
        let alignment = alignment_of(version, size);
        let n = self.padding(alignment);
        self.seek(s, n)
    }
}

// The bytes of n from `pos` on that the data of so many lacks, or the most that a word holds: 0 where it has them all.
fn lack(pos: usize, n: usize, end: usize) -> usize
    ensures { result ≡ in_a_word (pos + n - end) }
{
    if end < pos {
        (pos - end).saturating_add(n)
    } else {
        n.saturating_sub(end - pos)
    }
}

fn alignment_of(version: Version, size: usize) -> usize
    ensures { (result ≡ alignment_of version size) × (result ≤ size) }
{
    match version {
        Version::Xcdr1 => size,
        Version::Xcdr2 => size.min(Cursor::CAP),
    }
}

fn gap(from: usize, alignment: usize) -> usize
    requires { 0 < alignment }
    ensures { (result ≡ gap_of from alignment) × (result < alignment) }
{
    // By a constant the remainder costs nothing; by a number that is not known it is a division.
    match alignment {
        1 => 0,
        2 => (2 - from % 2) % 2,
        4 => (4 - from % 4) % 4,
        8 => (8 - from % 8) % 8,
        _ => (alignment - from % alignment) % alignment,
    }
}
