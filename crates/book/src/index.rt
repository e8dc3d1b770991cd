// The types of a book by their numbers: the place of each stands in a list that the caller lends.
ghost use Rattle.std.specs.Prelude.{◌≡◌, length};
ghost use Rattle.book.specs.Types.{type_no};
ghost use Rattle.book.specs.Places.{member_at, type_at, index_count, indexed, types_in, PlaceOf};
ghost use Rattle.book.specs.Asked.{primitive_element};

use crate::asked::kind_at;
use crate::bytes::{pair_at, skip};
use crate::member::type_index;
use crate::types::{element, type_count};

// A book, and the places of its types.
#[derive(Clone, Copy)]
pub struct Types<'a> {
    pub book: &'a [u8],
    pub index: &'a [u32],
}

// Writes the places of the types, at most 64 and at most as many as the list has room for, and returns how many it wrote.
pub fn index(b: &[u8], lent: &mut [u32]) -> usize
    ensures { (result ≡ index_count b.now (length lent.old)) × (lent.new ≡ indexed b.now lent.old) }
{
    let n = type_count(b).min(64).min(lent.len());
    let mut p = 7;
    for i in 0..n {
        lent[i] = p as u32;
        p = skip(b, p, pair_at(b, p, 0));
    }
    n
}

impl Types<'_> {
    // The place of type number k.
    pub fn place(&self, k: usize) -> usize
        ensures { PlaceOf self.now.book.now self.now.index.now k result }
    {
        if self.index.len() <= k {
            return self.book.len();
        }
        self.index[k] as usize
    }

    // The kind of type number k.
    pub fn kind_of(&self, k: usize) -> u8
        ensures { result ≡ (type_no (types_in self.now) k).kind }
    {
        kind_at(self.book, self.place(k))
    }

    // The place of the elements' type, of the list at a place.
    pub fn element_place(&self, at: usize) -> usize
        ensures { PlaceOf self.now.book.now self.now.index.now (type_at self.now.book.now at).element result }
    {
        self.place(element(self.book, at))
    }

    // The place of the type of the member at p.
    pub fn member_place(&self, p: usize) -> usize
        ensures { PlaceOf self.now.book.now self.now.index.now (member_at self.now.book.now p).type result }
    {
        self.place(type_index(self.book, p))
    }

    // Whether the elements of the list at a place are primitives. The Rust's is_element_type_kind_primitive.
    pub fn primitive_element(&self, at: usize) -> bool
        ensures { result ≡ primitive_element (types_in self.now) (type_at self.now.book.now at) }
    {
        kinds::is_primitive(self.kind_of(element(self.book, at)))
    }
}
