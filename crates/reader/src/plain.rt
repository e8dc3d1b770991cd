// The quick way for a member: most are numbers, booleans, texts or lists of numbers, and there whole; and most headers stand where they are looked for first.
ghost use Rattle.book.specs.Types.{type_no};
ghost use Rattle.book.specs.Places.{member_at, types_in};
ghost use Rattle.book.specs.Asked.{read_as};
ghost use Rattle.table.specs.Rows.{room, row_at};
ghost use Rattle.values.specs.Code.Quick.{Quickly};
ghost use Rattle.reader.specs.Value.{Nest, value_of};
ghost use Rattle.std.specs.Prelude.{◌+◌, ◌<◌, ◌≡◌};
ghost use Rattle.lookup.specs.Code.Ahead.{HeadOrEnd, HeaderAhead};

use crate::Deserializer;
use book::asked::{kind_at, read_as_there};
use book::bytes::is_there;
use book::index::Types;
use book::member::head_there;
use book::types::bound;
use kinds::names::{ARRAY, CHAR16, SEQUENCE};
use lookup::ahead::{Ahead, Hint, header_ahead};
use values::quick::list_at;
use wire::cursor::Cursor;
use wire::number::from_bytes;

// The kind that type number `ty` is read as, if its own 14 bytes are there; or 0, which is neither taken nor opened.
pub fn kind_of(types: &Types, ty: usize) -> u8
    ensures { 0 < result → result ≡ read_as (type_no (types_in types.now) ty) }
{
    if types.index.len() <= ty {
        return 0;
    }
    let at = types.place(ty);
    if !is_there(types.book, at, book::types::LAST) {
        return 0;
    }
    read_as_there(types.book, at)
}

// The kind that the member at p is read as, once found; or 0.
pub fn kind_found(types: &Types, p: usize) -> u8
    ensures { 0 < result → result ≡ read_as (type_no (types_in types.now) (member_at types.now.book.now p).type) }
{
    if !is_there(types.book, p, book::member::LAST) {
        return 0;
    }
    let m = head_there(types.book, p);
    kind_of(types, m.ty)
}

impl<'a> Deserializer<'a> {
    // Takes a value of type number `ty` where that is a list of numbers which are there whole (no DHEADER begins it), and tells the position after it; or None, and
    // nothing is done. Its row says how many rows follow it.
    pub fn list(self, t: &mut [u64], ty: usize, id: u64, c: Cursor, n: usize) -> Option<usize>
        ensures { (nest : Nest) → Quickly (value_of (types_in self.entry.types) self.entry.reader.bytes.now self.entry.reader.set nest ty id c (room t.old n)) (1 + (row_at t.new n).b) n c.origin t.old t.new result }
    {
        let book = self.types.book;
        let at = self.types.place(ty);
        let of = kind_at(book, at);
        if (of != SEQUENCE) & (of != ARRAY) {
            return None;
        }
        let kind = kind_at(book, self.types.element_place(at));
        if !kinds::is_primitive(kind) | (kind == CHAR16) {
            return None;
        }
        let r = self.reader;
        if of == ARRAY {
            return list_at(r, t, kind, id, u64::from(bound(book, at)), c, n);
        }
        let p = c.start(r.bytes, r.set.version, 4);
        if r.bytes.len() < p + 4 {
            return None;
        }
        let count = from_bytes(r.bytes, r.set.order, p, 4);
        list_at(r, t, kind, id, count, Cursor::new(p + 4, c.origin), n)
    }

    // What the header where the hint says tells of the member at p, if that is there whole: so no byte of it is asked for again.
    pub fn ahead(self, p: usize, h: Hint, origin: usize) -> Option<Ahead>
        requires { HeadOrEnd self.reader.bytes.now h.next origin }
        ensures { HeaderAhead self.entry.reader.bytes.now self.entry.reader.set (member_at self.entry.types.book.now p).id h origin result }
    {
        if !is_there(self.types.book, p, book::member::LAST) {
            return None;
        }
        let m = head_there(self.types.book, p);
        header_ahead(self.reader, m.id, h, origin)
    }
}
