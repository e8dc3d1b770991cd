// The DHEADER of XCDR2: where what follows it begins and ends.
ghost use Rattle.std.specs.Prelude.{◌≡◌, ◌+◌};
ghost use Rattle.wire.specs.Ends.{cut_at};
ghost use Rattle.wire.specs.Dheader.{up_to, dheader_at, contents_at};

use crate::cursor::{Cursor, Unread};
use crate::number::from_bytes;
use crate::reader::Reader;
use crate::settings::Version;

impl<'a> Reader<'a> {
    // The contents begin at `from`. They would end past the data, where ends are kept, or end there; where ends are not kept, that may be past the end of the data.
    fn up_to(self, from: Cursor, end: usize) -> Result<(Cursor, usize), Unread>
        ensures { result ≡ up_to self.entry.bytes.now self.entry.set from end }
    {
        if self.bytes.len() < end && self.set.keeps_ends() {
            return Err(Unread::Bad);
        }
        Ok((from, end))
    }

    // The sum cannot wrap: the cursor is inside the data, and the value is a u32. Mostly the data has all of the contents: then the mode is not asked.
    fn dheader(self, at: Cursor) -> Result<(Cursor, usize), Unread>
        ensures { result ≡ dheader_at self.entry.bytes.now self.entry.set at }
    {
        let q = at.start(self.bytes, self.set.version, 4);
        if q + 4 <= self.bytes.len() {
            let n = from_bytes(self.bytes, self.set.order, q, 4);
            let end = q + 4 + (n as usize);
            if end <= self.bytes.len() {
                return Ok((Cursor::new(q + 4, at.origin), end));
            }
        }
        let (n, c) = self.read_number(at, 4)?;
        self.up_to(c, c.pos + (n as usize))
    }

    // The contents of a value that may have a DHEADER before it. XCDR1 has none.
    pub fn contents_at(self, delimited: bool, at: Cursor) -> Result<(Cursor, usize), Unread>
        ensures { result ≡ contents_at self.entry.bytes.now self.entry.set delimited at }
    {
        match self.set.version {
            Version::Xcdr2 if delimited => self.dheader(at),
            _ => Ok((at, self.bytes.len())),
        }
    }

    // The data up to so many bytes after a place: where ends are kept, it is cut there. A position means the same in it.
    pub fn cut(self, from: usize, length: u64) -> &'a [u8]
        ensures { result.now ≡ cut_at self.entry.set self.entry.bytes.now (from + length) }
    {
        let size = self.bytes.len();
        if !self.set.keeps_ends() || size <= from || size - from <= length as usize {
            return self.bytes;
        }
        let end = from + (length as usize);
        &self.bytes[..end]
    }
}
