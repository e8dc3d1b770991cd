// The reading of a value: the Rust's XTypesDeserializer. Its functions call each other in a cycle, and the depth falls at each value
// that is opened.
#![tactic(auto)]

ghost use Rattle.book.specs.Places.{member_at, type_at, types_in};
ghost use Rattle.book.specs.Asked.{is_structure, is_mutable};
ghost use Rattle.table.specs.Rows.{room};
ghost use Rattle.table.specs.Code.Outcome.{Done};
ghost use Rattle.reader.specs.Nested.{reading};
ghost use Rattle.reader.specs.Code.Cycle.{run_in, members_in, body_in, fmember_in};
ghost use Rattle.ground.specs.Choice.{both};
ghost use Rattle.std.specs.Prelude.{◌≡◌, false};

pub mod member;
pub mod plain;
pub mod structure;
pub mod types;
pub mod union;
pub mod value;

use book::asked::{base_at, is_delimited, is_mutable, kind_at};
use book::bytes::is_there;
use book::index::Types;
use book::member::{head_at, head_there, member_count};
use kinds::names::{ENUM, STRUCTURE};
use lookup::ahead::start_at;
use table::out::{Out, Refusal, Trouble};
use table::rows::{Row, is_full, put_beneath, put_row, row_at};
use values::quick::value_at;
use values::scalar::enum_type;
use wire::cursor::Cursor;
use wire::reader::Reader;

// How many values may be opened one in the other; the root is the first.
const DEPTH: usize = 16;

// The types, and what values of them are read from. It is lent to `value`, `elements`, `option` and `found`, of which a copy for each call would lie on the stack of
// every value that is open. The others take it by value: the compiler takes most into their caller, and `as_nested` and `mmember`, which are called, are quicker so.
#[derive(Clone, Copy)]
pub struct Deserializer<'a> {
    pub types: Types<'a>,
    pub reader: Reader<'a>,
}

impl<'a> Deserializer<'a> {
    // A whole reading of the data, from its start: one value of type number `root`.
    pub fn top_level_type(self, t: &mut [u64], root: usize) -> Out
        ensures { Done (reading (types_in self.entry.types) self.entry.reader.bytes.now self.entry.reader.set root (room t.old 0)) 0 t.old t.new result }
    {
        self.as_nested(t, root, 0, 1, Cursor::new(0, 0), 0, DEPTH)
    }

    // Opens so many structures, enums or unions of one type, one after the other: a member's alone, or a list's. Of each the kind, the depth
    // and the room are asked in this order. Its row is written first, so that nothing of it has to be kept, and counts the rows beneath when they are there.
    #[cycle(reading)]
    pub fn as_nested(
        self,
        t: &mut [u64],
        ty: usize,
        id: u64,
        count: u64,
        c: Cursor,
        n: usize,
        depth: usize,
    ) -> Out
        ensures { Done (run_in self.entry depth ty id count c (room t.old n)) n t.old t.new result }
    {
        let at = self.types.place(ty);
        let kind = kind_at(self.types.book, at);
        let mut number = id;
        let mut place = c;
        let mut m = n;
        for i in 0..count {
            if !kinds::opens(kind) {
                return Err(Trouble::Refused(Refusal::InvalidType));
            }
            if depth == 0 {
                return Err(Trouble::Refused(Refusal::TooDeep));
            }
            if is_full(t, m) {
                return Err(Trouble::Refused(Refusal::NoRoom));
            }
            let row = Row {
                kind: u64::from(kinds::stored_of(kind)),
                id: number,
                a: ty as u64,
                b: 0,
                place: place.pos as u64,
            };
            put_row(t, m, row);
            let (next, k) = self.body(t, at, kind, place, m + 1, depth - 1)?;
            let rows = k - m;
            let beneath = rows - 1;
            put_beneath(t, m, beneath as u64);
            place = next;
            m = k;
            number = i + 1;
        }
        Ok((place, m))
    }

    // One value alone. Whoever calls `as_nested` keeps what it hands over in memory for that: so `fmember`, which the compiler takes into the structure's loop, calls this.
    #[cycle(reading)]
    pub fn single(self, t: &mut [u64], ty: usize, id: u64, c: Cursor, n: usize, depth: usize) -> Out
        ensures { Done (run_in self.entry depth ty id 1 c (room t.old n)) n t.old t.new result }
    {
        self.as_nested(t, ty, id, 1, c, n, depth)
    }

    // What stands beneath the row of a value whose type is at `at`: an enum's number; else what begins it, its members, and what ends it.
    #[cycle(reading)]
    pub fn body(self, t: &mut [u64], at: usize, kind: u8, c: Cursor, n: usize, depth: usize) -> Out
        requires { kind ≡ (type_at self.types.book.now at).kind }
        ensures { Done (body_in self.entry depth (type_at self.entry.types.book.now at) c (room t.old n)) n t.old t.new result }
    {
        let book = self.types.book;
        if kind == ENUM {
            return enum_type(self.reader, t, base_at(book, at), c, n);
        }
        let (d, end) = self.beginning(at, c)?;
        let part = Deserializer {
            types: self.types,
            reader: Reader {
                bytes: self.reader.cut(0, end as u64),
                set: self.reader.set,
            },
        };
        if (kind == STRUCTURE) & is_mutable(book, at) {
            let (back, h) = start_at(part.reader, 0 < member_count(book, at), d)?;
            return part.mmembers(t, at, end, back, h, n, depth);
        }
        let (e, k) = part.inner(t, at, d, n, depth)?;
        if self.reader.set.keeps_ends() & is_delimited(book, at) {
            return Ok((Cursor::new(end, e.origin), k));
        }
        Ok((e, k))
    }

    // The members of a structure that is not Mutable, or of a union.
    #[cycle(reading)]
    pub fn inner(self, t: &mut [u64], at: usize, c: Cursor, n: usize, depth: usize) -> Out
        requires { both (is_structure (type_at self.types.book.now at)) (is_mutable (type_at self.types.book.now at)) ≡ false }
        ensures { Done (members_in self.entry depth (type_at self.entry.types.book.now at) c (room t.old n)) n t.old t.new result }
    {
        let book = self.types.book;
        if kind_at(book, at) == STRUCTURE {
            return self.fstruct(t, at, c, n, depth);
        }
        self.parts(t, at, is_mutable(book, at), c, n, depth)
    }

    // A member of a Final or Appendable type: most are taken where they stand, or opened. That its 9 bytes before its labels are there is asked once, and then of none
    // of them.
    #[cycle(reading)]
    pub fn fmember(self, t: &mut [u64], p: usize, c: Cursor, n: usize, depth: usize) -> Out
        ensures { Done (fmember_in self.entry depth (member_at self.entry.types.book.now p) c (room t.old n)) n t.old t.new result }
    {
        if is_there(self.types.book, p, book::member::LAST) {
            let m = head_there(self.types.book, p);
            if !m.optional {
                let id = u64::from(m.id);
                let kind = plain::kind_of(&self.types, m.ty);
                if let Some(past) = value_at(self.reader, t, kind, id, c, n) {
                    return Ok((Cursor::new(past, c.origin), n + 1));
                }
                if kinds::opens(kind) {
                    return self.single(t, m.ty, id, c, n, depth);
                }
            }
        }
        self.rest(t, p, c, n, depth)
    }

    // A member of a Final or Appendable type that `fmember` did not take or open: an optional one, a list, or one whose bytes in the book are not all there. The
    // compiler takes this into the structure's loop; a list of numbers is taken from here.
    #[cycle(reading)]
    pub fn rest(self, t: &mut [u64], p: usize, c: Cursor, n: usize, depth: usize) -> Out
        ensures { Done (fmember_in self.entry depth (member_at self.entry.types.book.now p) c (room t.old n)) n t.old t.new result }
    {
        let m = head_at(self.types.book, p);
        if m.optional {
            return self.option(t, p, c, n, depth);
        }
        let id = u64::from(m.id);
        if let Some(past) = self.list(t, m.ty, id, c, n) {
            let rows = row_at(t, n).b as usize;
            return Ok((Cursor::new(past, c.origin), n + 1 + rows));
        }
        self.value(t, m.ty, id, c, n, depth)
    }
}
