// A member that is optional, or found by its lookup.
ghost use Rattle.std.specs.Prelude.{◌≡◌};
ghost use Rattle.book.specs.Places.{member_at};
ghost use Rattle.table.specs.Rows.{room};
ghost use Rattle.table.specs.Code.Outcome.{Done};
ghost use Rattle.reader.specs.Code.Cycle.{found_in, mmember_in, optional_in};

use crate::Deserializer;
use crate::plain::kind_found;
use crate::types::came_back;
use book::asked::kind_at;
use book::member::{id, type_index};
use book::types::element;
use lookup::ahead::value_at;
use lookup::member::locate;
use lookup::straight::{Sought, look_up};
use table::out::Out;
use values::quick::any_at;
use wire::cursor::Cursor;
use wire::reader::Reader;
use wire::settings::Version;

impl<'a> Deserializer<'a> {
    // Serialization rules 19 and 20: an optional member of a Final or Appendable type. XCDR1 looks it up, XCDR2 asks a boolean.
    #[cycle(reading)]
    #[tactic(auto, unfolding(crate::specs::Member::optional_by, crate::specs::Member::on_present, table::specs::Code::Outcome::answer, table::specs::Outcome::rows_of, table::specs::Rows::words))]
    pub fn option(&self, t: &mut [u64], p: usize, c: Cursor, n: usize, depth: usize) -> Out
        ensures { Done (optional_in self.now depth (member_at self.now.types.book.now p) c (room t.old n)) n t.old t.new result }
    {
        let book = self.types.book;
        match self.reader.set.version {
            Version::Xcdr1 => self.mmember(t, p, c, n, depth),
            Version::Xcdr2 => {
                let (present, d) = self.reader.read_boolean(c)?;
                if present {
                    return self.value(t, type_index(book, p), u64::from(id(book, p)), d, n, depth);
                }
                Ok((d, n))
            }
        }
    }

    // Serialization rules 22, 24 and 25: a member by its lookup. The place comes back, whatever was read.
    #[cycle(reading)]
    pub fn mmember(self, t: &mut [u64], p: usize, c: Cursor, n: usize, depth: usize) -> Out
        ensures { Done (mmember_in self.entry depth (member_at self.entry.types.book.now p) c (room t.old n)) n t.old t.new result }
    {
        let wanted = id(self.types.book, p);
        match look_up(self.reader, wanted, c) {
            Sought::Found(v, length) => {
                let d = value_at(self.reader.set.version, v, c.origin);
                let reader = Reader {
                    bytes: self.reader.cut(v, length),
                    set: self.reader.set,
                };
                let kind = kind_found(&self.types, p);
                if let Some(_) = any_at(reader, t, kind, u64::from(wanted), d, n) {
                    return Ok((c, n + 1));
                }
                let own = Deserializer {
                    types: self.types,
                    reader,
                };
                let (_, m) = came_back(c, own.found(t, p, length, d, n, depth))?;
                Ok((c, m))
            }
            Sought::Absent => Ok((c, n)),
            Sought::Unsettled => self.located(t, p, wanted, c, n, depth),
        }
    }

    // A member by the search from the structure's start.
    #[cycle(reading)]
    pub fn located(
        self,
        t: &mut [u64],
        p: usize,
        wanted: u32,
        c: Cursor,
        n: usize,
        depth: usize,
    ) -> Out
        requires { wanted ≡ (member_at self.types.book.now p).id }
        ensures { Done (mmember_in self.entry depth (member_at self.entry.types.book.now p) c (room t.old n)) n t.old t.new result }
    {
        let (found, back) = locate(self.reader, wanted, c)?;
        let Some((length, d)) = found else {
            return Ok((back, n));
        };
        let own = Deserializer {
            types: self.types,
            reader: Reader {
                bytes: self.reader.cut(d.pos, length),
                set: self.reader.set,
            },
        };
        let (_, m) = came_back(back, own.found(t, p, length, d, n, depth))?;
        Ok((back, m))
    }

    // The value of a member that was found, from its own data. The crate's XCDR2 takes a sequence of primitives by the length that was found.
    #[cycle(reading)]
    pub fn found(
        &self,
        t: &mut [u64],
        p: usize,
        length: u64,
        c: Cursor,
        n: usize,
        depth: usize,
    ) -> Out
        ensures { Done (found_in self.now depth (member_at self.now.types.book.now p) length c (room t.old n)) n t.old t.new result }
    {
        let book = self.types.book;
        let ty = type_index(book, p);
        let i = u64::from(id(book, p));
        let q = self.types.place(ty);
        if kinds::opens(kind_at(book, q)) {
            return self.as_nested(t, ty, i, 1, c, n, depth);
        }
        if self.by_length(q) {
            let count = self.element_count(q, length);
            return self.elements(t, element(book, q), i, count, c, n, depth);
        }
        self.value(t, ty, i, c, n, depth)
    }
}
