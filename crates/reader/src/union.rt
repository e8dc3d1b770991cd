// Unions: the discriminator, and the member that it selects.
ghost use Rattle.book.specs.Places.{type_at, member_at};
ghost use Rattle.table.specs.Rows.{room};
ghost use Rattle.table.specs.Code.Outcome.{Done};
ghost use Rattle.reader.specs.Code.Cycle.{union_in, discriminator_in, chosen_in};

use crate::Deserializer;
use book::member::{id, is_optional, members, type_index};
use choice::discriminator::{Unsaid, discriminator_at};
use choice::select::select;
use table::out::{Out, Refusal, Trouble};
use wire::cursor::Cursor;

impl<'a> Deserializer<'a> {
    // Serialization rules 26 to 28: the parts of a union, whose type is at `at`: its discriminator, and the member that this selects.
    #[cycle(reading)]
    pub fn parts(
        self,
        t: &mut [u64],
        at: usize,
        mutable: bool,
        c: Cursor,
        n: usize,
        depth: usize,
    ) -> Out
        ensures { Done (union_in self.entry depth mutable (type_at self.entry.types.book.now at) c (room t.old n)) n t.old t.new result }
    {
        let Some(p) = members(self.types.book, at).next() else {
            return Err(Trouble::Refused(Refusal::InvalidType));
        };
        let (d, m) = self.first(t, p, mutable, c, n, depth)?;
        let v = discriminator_at(t, n, m);
        self.chosen(t, at, p, mutable, v, d, m, depth)
    }

    // The first member, at p, which is the discriminator: a Mutable union's is looked up, any other's read as not optional.
    #[cycle(reading)]
    pub fn first(
        self,
        t: &mut [u64],
        p: usize,
        mutable: bool,
        c: Cursor,
        n: usize,
        depth: usize,
    ) -> Out
        ensures { Done (discriminator_in self.entry depth mutable (member_at self.entry.types.book.now p) c (room t.old n)) n t.old t.new result }
    {
        if mutable {
            return self.mmember(t, p, c, n, depth);
        }
        let book = self.types.book;
        self.value(t, type_index(book, p), u64::from(id(book, p)), c, n, depth)
    }

    // The member that the discriminator at p selects, of the union at `at`.
    #[cycle(reading)]
    #[tactic(auto, unfolding(crate::specs::Union::on_discriminator, table::specs::Code::Outcome::answer, table::specs::Outcome::rows_of, table::specs::Rows::words))]
    pub fn chosen(
        self,
        t: &mut [u64],
        at: usize,
        p: usize,
        mutable: bool,
        v: Result<i32, Unsaid>,
        c: Cursor,
        n: usize,
        depth: usize,
    ) -> Out
        ensures { Done (chosen_in self.entry depth mutable (member_at self.entry.types.book.now p) (type_at self.entry.types.book.now at) c (room t.old n) v) n t.old t.new result }
    {
        let d = v?;
        let Some(q) = select(&self.types, at, p, d) else {
            return Err(Trouble::Refused(Refusal::InvalidData));
        };
        if mutable {
            return self.mmember(t, q, c, n, depth);
        }
        let book = self.types.book;
        if is_optional(book, q) {
            return self.option(t, q, c, n, depth);
        }
        self.value(t, type_index(book, q), u64::from(id(book, q)), c, n, depth)
    }
}
