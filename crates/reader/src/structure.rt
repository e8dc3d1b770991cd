// Structures: the members of one, in order or each by its lookup.
ghost use Rattle.std.specs.Prelude.{◌≡◌, []};
ghost use Rattle.book.specs.Places.{type_at};
ghost use Rattle.table.specs.Rows.{room};
ghost use Rattle.table.specs.Code.Outcome.{Done};
ghost use Rattle.wire.specs.Place.{align_to};
ghost use Rattle.lookup.specs.Code.Ahead.{TrueHint};
ghost use Rattle.reader.specs.Code.Cycle.{fmembers_in, mmembers_in};

use crate::Deserializer;
use crate::plain::kind_found;
use crate::types::{came_back, ended_by};
use book::member::{id, members, type_index};
use lookup::ahead::{Hint, hint_after, value_at};
use table::out::Out;
use values::quick;
use wire::cursor::Cursor;
use wire::reader::Reader;

impl<'a> Deserializer<'a> {
    // Serialization rule 17: the members of a Final or Appendable structure. Too few bytes may end it as read.
    #[cycle(reading)]
    pub fn fstruct(self, t: &mut [u64], at: usize, c: Cursor, n: usize, depth: usize) -> Out
        ensures { Done (fmembers_in self.entry depth (type_at self.entry.types.book.now at) c (room t.old n)) n t.old t.new result }
    {
        let mut place = c;
        let mut m = n;
        for p in members(self.types.book, at) {
            match self.fmember(t, p, place, m, depth) {
                Ok((next, k)) => {
                    place = next;
                    m = k;
                }
                Err(e) => return ended_by(self.types.book, at, p, e, (place, m)),
            }
        }
        Ok((place, m))
    }

    // Serialization rules 21 and 23: the members of a Mutable structure, each by its lookup, and its end. Every lookup comes back to `back`,
    // where the first one's alignment leads. Where members stand in the order of their ids, the next header is the one that is wanted.
    #[cycle(reading)]
    pub fn mmembers(
        self,
        t: &mut [u64],
        at: usize,
        end: usize,
        back: Cursor,
        hint: Hint,
        n: usize,
        depth: usize,
    ) -> Out
        requires { TrueHint self.reader.bytes.now self.reader.set back back.origin hint × (((type_at self.types.book.now at).members ≡ [] → ⊥) → align_to self.reader.bytes.now self.reader.set.version back 4 ≡ Ok back) }
        ensures { Done (mmembers_in self.entry depth (type_at self.entry.types.book.now at) end back (room t.old n)) n t.old t.new result }
    {
        let book = self.types.book;
        let mut h = hint;
        let mut m = n;
        for p in members(book, at) {
            let Some(ahead) = self.ahead(p, h, back.origin) else {
                (_, m) = self.mmember(t, p, back, m, depth)?;
                continue;
            };
            let wanted = id(book, p);
            h = hint_after(ahead, wanted);
            let c = value_at(self.reader.set.version, ahead.value, back.origin);
            let reader = Reader {
                bytes: self.reader.cut(ahead.value, ahead.length),
                set: self.reader.set,
            };
            let number = u64::from(wanted);
            let kind = kind_found(&self.types, p);
            if let Some(_) = quick::value_at(reader, t, kind, number, c, m) {
                m += 1;
                continue;
            }
            let own = Deserializer {
                types: self.types,
                reader,
            };
            let read = if kinds::opens(kind) {
                own.as_nested(t, type_index(book, p), number, 1, c, m, depth)
            } else {
                own.found(t, p, ahead.length, c, m, depth)
            };
            (_, m) = came_back(back, read)?;
        }
        self.ending(end, back, h, m)
    }
}
