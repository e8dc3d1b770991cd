// A value by its type, and lists of values.
ghost use Rattle.book.specs.Places.{type_at};
ghost use Rattle.table.specs.Rows.{room};
ghost use Rattle.table.specs.Code.Outcome.{Done};
ghost use Rattle.reader.specs.Code.Cycle.{elements_in, list_in, value_in};

use crate::Deserializer;
use crate::types::end_at;
use book::asked::{is_sequence, kind_at, read_as};
use book::types::{bound, element};
use kinds::names::{ARRAY, BYTE, NONE, SEQUENCE, UINT8};
use kinds::stored_of;
use table::out::{Out, Refusal, Trouble};
use table::rows::{Row, is_full, put_row};
use values::count::count_at;
use values::list::plain;
use values::quick::any_at;
use values::scalar::scalar;
use wire::cursor::Cursor;
use wire::reader::Reader;

impl<'a> Deserializer<'a> {
    // A value, by its type's kind.
    #[cycle(reading)]
    pub fn value(&self, t: &mut [u64], ty: usize, id: u64, c: Cursor, n: usize, depth: usize) -> Out
        ensures { Done (value_in self.now depth ty id c (room t.old n)) n t.old t.new result }
    {
        let p = self.types.place(ty);
        let kind = kind_at(self.types.book, p);
        if kind == NONE {
            return Ok((c, n));
        }
        if kinds::unsupported_member(kind) {
            return Err(Trouble::Refused(Refusal::Unsupported));
        }
        if kinds::opens(kind) {
            return self.as_nested(t, ty, id, 1, c, n, depth);
        }
        if (kind == SEQUENCE) | (kind == ARRAY) {
            return self.listed(t, p, id, c, n, depth);
        }
        let kind = read_as(self.types.book, p);
        if let Some(past) = any_at(self.reader, t, kind, id, c, n) {
            return Ok((Cursor::new(past, c.origin), n + 1));
        }
        scalar(self.reader, t, kind, id, c, n)
    }

    // Serialization rules 8 to 13: a sequence or an array, whose type is at `at`.
    #[cycle(reading)]
    pub fn listed(self, t: &mut [u64], at: usize, id: u64, c: Cursor, n: usize, depth: usize) -> Out
        ensures { Done (list_in self.entry depth (type_at self.entry.types.book.now at) id c (room t.old n)) n t.old t.new result }
    {
        let book = self.types.book;
        let primitive = self.types.primitive_element(at);
        let (d, end) = self.reader.contents_at(!primitive, c)?;
        let part = Deserializer {
            types: self.types,
            reader: Reader {
                bytes: self.reader.cut(0, end as u64),
                set: self.reader.set,
            },
        };
        let (count, first) = count_at(
            part.reader,
            is_sequence(book, at),
            u64::from(bound(book, at)),
            d,
        )?;
        let out = part.elements(t, element(book, at), id, count, first, n, depth);
        if self.reader.set.keeps_ends() & !primitive {
            return end_at(end, out);
        }
        out
    }

    // The elements of a list, by their type.
    #[cycle(reading)]
    pub fn elements(
        &self,
        t: &mut [u64],
        ty: usize,
        id: u64,
        count: u64,
        c: Cursor,
        n: usize,
        depth: usize,
    ) -> Out
        ensures { Done (elements_in self.now depth ty id count c (room t.old n)) n t.old t.new result }
    {
        let p = self.types.place(ty);
        let kind = kind_at(self.types.book, p);
        if kinds::unsupported_element(kind) {
            return Err(Trouble::Refused(Refusal::Unsupported));
        }
        if kinds::opens(kind) {
            if is_full(t, n) {
                return Err(Trouble::Refused(Refusal::NoRoom));
            }
            let row = Row {
                kind: u64::from(stored_of(SEQUENCE)),
                id,
                a: u64::from(stored_of(kind)),
                b: count,
                place: c.pos as u64,
            };
            put_row(t, n, row);
            if count == 0 {
                return Ok((c, n + 1));
            }
            return self.as_nested(t, ty, 0, count, c, n + 1, depth);
        }
        let bytes = (kind == BYTE) | (kind == UINT8);
        plain(
            self.reader,
            t,
            read_as(self.types.book, p),
            bytes,
            id,
            count,
            c,
            n,
        )
    }
}
