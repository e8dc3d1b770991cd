// What the cycle asks of a type and a member for a rule of its own, where a value's contents begin, and where a Mutable structure and a list end.
ghost use Rattle.std.specs.Prelude.{◌≡◌, List, ℕ};
ghost use Rattle.book.specs.Places.{member_at, type_at, types_in};
ghost use Rattle.reader.specs.Member.{by_length, element_count};
ghost use Rattle.reader.specs.Structure.{absorbs};
ghost use Rattle.reader.specs.Nested.{may_fail_unheard, beginning_of, ending_by};
ghost use Rattle.reader.specs.Code.Ending.{coming_back, ended_if, ending_at};
ghost use Rattle.table.specs.Code.Outcome.{Done};
ghost use Rattle.lookup.specs.Code.Ahead.{TrueHint};

use crate::Deserializer;
use book::asked::{extensibility_at, is_delimited, is_mutable, is_sequence, kind_at};
use book::member::construct;
use kinds::names::STRUCTURE;
use lookup::ahead::{Hint, sentinel_from};
use table::out::{Out, Refusal, Trouble};
use wire::cursor::{Cursor, Unread};
use wire::settings::{Mode, Settings, Version};

// Whether too few bytes for the member at p end the structure whose type is at `at` as read.
#[tactic(auto, using(std::proofs::lemmas::Bool::Decides::nat_tests), unfolding(crate::specs::Structure::absorbs))]
pub fn absorbs(book: &[u8], at: usize, p: usize) -> bool
    ensures { result ≡ absorbs (type_at book.now at) (member_at book.now p) }
{
    (extensibility_at(book, at) == 1) | (construct(book, p) == 0)
}

// What a structure comes to, whose type is at `at` and which was read so far, where the member at p was not: too few bytes may end it as read.
#[tactic(auto, using(std::proofs::lemmas::Bool::Decides::nat_tests), unfolding(crate::specs::Code::Ending::ended_if))]
pub fn ended_by(book: &[u8], at: usize, p: usize, e: Trouble, so_far: (Cursor, usize)) -> Out
    ensures { result ≡ ended_if (absorbs (type_at book.now at) (member_at book.now p)) so_far.1 e }
{
    match e {
        Trouble::Short(x) if absorbs(book, at, p) => Ok((x.at, so_far.1)),
        _ => Err(e),
    }
}

// Whether a DHEADER that is short is not heard: a Mutable union's, where ends are not kept.
#[tactic(auto, using(std::proofs::lemmas::Bool::Decides::nat_tests), unfolding(crate::specs::Nested::may_fail_unheard, book::specs::Asked::is_structure))]
fn may_fail_unheard(book: &[u8], set: Settings, at: usize) -> bool
    ensures { result ≡ may_fail_unheard set (type_at book.now at) }
{
    if set.keeps_ends() {
        return false;
    }
    is_mutable(book, at) & (kind_at(book, at) != STRUCTURE)
}

// What ends a list that its DHEADER ends: its elements end exactly there.
#[tactic(auto, using(std::proofs::lemmas::Bool::Decides::nat_tests), unfolding(crate::specs::Code::Ending::ending_at))]
pub fn end_at(end: usize, out: Out) -> Out
    ensures { result ≡ ending_at end out }
{
    match out {
        Ok((c, _)) if c.pos != end => Err(Trouble::Refused(Refusal::InvalidData)),
        _ => out,
    }
}

// The place comes back, whatever was read: the reading stands at `c` again.
#[tactic(auto, using(std::proofs::lemmas::Bool::Decides::nat_tests), unfolding(crate::specs::Code::Ending::coming_back))]
pub fn came_back(c: Cursor, out: Out) -> Out
    ensures { result ≡ coming_back c out }
{
    match out {
        Ok((_, n)) => Ok((c, n)),
        Err(Trouble::Short(x)) => Err(Trouble::Short(x.back_to(c))),
        Err(Trouble::Refused(k)) => Err(Trouble::Refused(k)),
    }
}

impl<'a> Deserializer<'a> {
    // Whether a member of this type, once found, is taken by the length of its header.
    #[tactic(auto, using(std::proofs::lemmas::Bool::Decides::nat_tests), unfolding(crate::specs::Member::by_length))]
    pub fn by_length(self, at: usize) -> bool
        ensures { result ≡ by_length self.entry.reader.set.version self.entry.reader.set.mode (types_in self.entry.types) (type_at self.entry.types.book.now at) }
    {
        match (self.reader.set.version, self.reader.set.mode) {
            (Version::Xcdr2, Mode::Crate) => {
                is_sequence(self.types.book, at) & self.types.primitive_element(at)
            }
            (Version::Xcdr2, Mode::Standard) => false,
            (Version::Xcdr1, _) => false,
        }
    }

    // How many elements that length holds.
    pub fn element_count(self, at: usize, length: u64) -> u64
        ensures { result ≡ element_count (types_in self.entry.types) (type_at self.entry.types.book.now at) length }
    {
        let kind = kind_at(self.types.book, self.types.element_place(at));
        length / u64::from(kinds::element_of(kind))
    }

    // Serialization rules 29 and 30: what begins a structure or a union, and where its members stand. Where a short DHEADER is not heard, they
    // stand where it ran short.
    #[tactic(auto, using(std::proofs::lemmas::Bool::Decides::nat_tests), unfolding(crate::specs::Nested::beginning_of, crate::specs::Nested::unheard_if, crate::specs::Nested::unheard))]
    pub fn beginning(self, at: usize, c: Cursor) -> Result<(Cursor, usize), Unread>
        ensures { result ≡ beginning_of self.entry.reader.bytes.now self.entry.reader.set (type_at self.entry.types.book.now at) c }
    {
        let book = self.types.book;
        match self.reader.contents_at(is_delimited(book, at), c) {
            Err(Unread::Short(x)) if may_fail_unheard(book, self.reader.set, at) => {
                Ok((x.at, self.reader.bytes.len()))
            }
            contents => contents,
        }
    }

    // What ends a Mutable structure, after n rows: the marker in XCDR1, from where the hint says; in XCDR2 it ends where its DHEADER says,
    // wherever its members were.
    pub fn ending(self, end: usize, c: Cursor, h: Hint, n: usize) -> Out
        requires { TrueHint self.reader.bytes.now self.reader.set c c.origin h }
        ensures { (t : List ℕ) → Done (ending_by self.entry.reader.bytes.now self.entry.reader.set self.entry.reader.set.version end c) n t t result }
    {
        match self.reader.set.version {
            Version::Xcdr1 => {
                let e = sentinel_from(self.reader, c, h)?;
                Ok((e, n))
            }
            Version::Xcdr2 => Ok((Cursor::new(end, c.origin), n)),
        }
    }
}
