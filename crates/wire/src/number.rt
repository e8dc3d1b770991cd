// Numbers in the data. Each is aligned to its own size, then its bytes are read in the settings' byte order; what ran short keeps the
// position reached.
ghost use Rattle.std.specs.Prelude.{◌≡◌, ◌+◌, ◌^◌, ◌<◌, ◌≤◌, length};
ghost use Rattle.wire.specs.Number.{number_at, boolean_in, read_float128, float128_here, read_boolean};
ghost use Rattle.wire.specs.Code.Reads.{ReadIs, HereIs};

use crate::cursor::{Cursor, Shortage, Unread};
use crate::reader::Reader;
use crate::settings::ByteOrder;
use kinds::names::{BOOLEAN, FLOAT128};

// The number that `width` bytes from `pos` spell, the first byte the highest.
fn from_be_bytes(s: &[u8], pos: usize, width: usize) -> u64
    requires { (pos + width ≤ length s.now) × (width ≤ 8) }
    ensures { (result ≡ number_at ByteOrder.BigEndian 0 s.now pos width) × (result < 256 ^ width) }
{
    let mut v = 0;
    for x in &s[pos..pos + width] {
        v = v * 256 + u64::from(*x);
    }
    v
}

// The number that `width` bytes from `pos` spell, the last byte the highest.
fn from_le_bytes(s: &[u8], pos: usize, width: usize) -> u64
    requires { (pos + width ≤ length s.now) × (width ≤ 8) }
    ensures { (result ≡ number_at ByteOrder.LittleEndian 0 s.now pos width) × (result < 256 ^ width) }
{
    let mut v = 0;
    for last in s[pos..pos + width].iter().rev() {
        v = v * 256 + u64::from(*last);
    }
    v
}

// Any width, byte by byte.
fn from_each_byte(s: &[u8], order: ByteOrder, pos: usize, width: usize) -> u64
    requires { (pos + width ≤ length s.now) × (width ≤ 8) }
    ensures { (result ≡ number_at order 0 s.now pos width) × (result < 256 ^ width) }
{
    match order {
        ByteOrder::BigEndian => from_be_bytes(s, pos, width),
        ByteOrder::LittleEndian => from_le_bytes(s, pos, width),
    }
}

fn two_bytes(s: &[u8], order: ByteOrder, p: usize) -> u64
    requires { p + 2 ≤ length s.now }
    ensures { (result ≡ number_at order 0 s.now p 2) × (result < 256 ^ 2) }
{
    let bytes = [s[p], s[p + 1]];
    match order {
        ByteOrder::BigEndian => u64::from(u16::from_be_bytes(bytes)),
        ByteOrder::LittleEndian => u64::from(u16::from_le_bytes(bytes)),
    }
}

fn four_bytes(s: &[u8], order: ByteOrder, p: usize) -> u64
    requires { p + 4 ≤ length s.now }
    ensures { (result ≡ number_at order 0 s.now p 4) × (result < 256 ^ 4) }
{
    let bytes = [s[p], s[p + 1], s[p + 2], s[p + 3]];
    match order {
        ByteOrder::BigEndian => u64::from(u32::from_be_bytes(bytes)),
        ByteOrder::LittleEndian => u64::from(u32::from_le_bytes(bytes)),
    }
}

fn eight_bytes(s: &[u8], order: ByteOrder, p: usize) -> u64
    requires { p + 8 ≤ length s.now }
    ensures { (result ≡ number_at order 0 s.now p 8) × (result < 256 ^ 8) }
{
    let bytes = [
        s[p],
        s[p + 1],
        s[p + 2],
        s[p + 3],
        s[p + 4],
        s[p + 5],
        s[p + 6],
        s[p + 7],
    ];
    match order {
        ByteOrder::BigEndian => u64::from_be_bytes(bytes),
        ByteOrder::LittleEndian => u64::from_le_bytes(bytes),
    }
}

// Each width that a kind has is one load of the machine's; a loop over bytes would be eight.
pub fn from_bytes(s: &[u8], order: ByteOrder, pos: usize, width: usize) -> u64
    requires { (pos + width ≤ length s.now) × (width ≤ 8) }
    ensures { (result ≡ number_at order 0 s.now pos width) × (result < 256 ^ width) }
{
    match width {
        2 => two_bytes(s, order, pos),
        4 => four_bytes(s, order, pos),
        8 => eight_bytes(s, order, pos),
        _ => from_each_byte(s, order, pos, width),
    }
}

fn boolean_in(v: u64, c: Cursor) -> Result<(bool, Cursor), Unread>
    ensures { result ≡ boolean_in v c }
{
    match v {
        0 => Ok((false, c)),
        1 => Ok((true, c)),
        _ => Err(Unread::Bad),
    }
}

impl<'a> Reader<'a> {
    // The number where the cursor stands.
    fn number_here(self, at: Cursor, width: usize) -> Result<(u64, Cursor), Shortage>
        requires { width ≤ 8 }
        ensures { HereIs self.entry.bytes.now self.entry.set.order at width result }
    {
        let past = at.seek(self.bytes, width)?;
        Ok((from_bytes(self.bytes, self.set.order, at.pos, width), past))
    }

    // Serialization rule 2: a primitive of `width` bytes. Most are there whole, and then one test settles the alignment and the bytes.
    pub fn read_number(self, at: Cursor, width: usize) -> Result<(u64, Cursor), Shortage>
        requires { (0 < width) × (width ≤ 8) }
        ensures { ReadIs self.entry.bytes.now self.entry.set at width result }
    {
        let q = at.start(self.bytes, self.set.version, width);
        if q + width <= self.bytes.len() {
            return Ok((
                from_bytes(self.bytes, self.set.order, q, width),
                Cursor::new(q + width, at.origin),
            ));
        }
        let c = at.align(self.bytes, self.set.version, width)?;
        self.number_here(c, width)
    }

    // The 16 bytes where the cursor stands, in one read: the low half of the number, then the high half.
    fn float128_here(self, at: Cursor) -> Result<(u64, u64, Cursor), Shortage>
        ensures { result ≡ float128_here self.entry.bytes.now self.entry.set.order at }
    {
        let past = at.seek(self.bytes, 16)?;
        let first = from_bytes(self.bytes, self.set.order, at.pos, 8);
        let second = from_bytes(self.bytes, self.set.order, at.pos + 8, 8);
        match self.set.order {
            ByteOrder::BigEndian => Ok((second, first, past)),
            ByteOrder::LittleEndian => Ok((first, second, past)),
        }
    }

    pub fn read_float128(self, at: Cursor) -> Result<(u64, u64, Cursor), Shortage>
        ensures { result ≡ read_float128 self.entry.bytes.now self.entry.set at }
    {
        let alignment = usize::from(kinds::align_of(FLOAT128));
        let c = at.align(self.bytes, self.set.version, alignment)?;
        self.float128_here(c)
    }

    pub fn read_boolean(self, at: Cursor) -> Result<(bool, Cursor), Unread>
        ensures { result ≡ read_boolean self.entry.bytes.now self.entry.set at }
    {
        let width = usize::from(kinds::align_of(BOOLEAN));
        let (v, c) = self.read_number(at, width)?;
        boolean_in(v, c)
    }
}
