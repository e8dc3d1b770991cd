// Which member holds a label, and which is the default.
ghost use Rattle.std.specs.Prelude.{◌≡◌, get_or, pos};
ghost use Rattle.wire.specs.Signed.{same_z};
ghost use Rattle.book.specs.Places.{member_at, type_at};
ghost use Rattle.book.specs.Labels.{is_in, first_with, last_default, told};

use crate::member::{is_default, label, label_count, members};

fn label_is(b: &[u8], p: usize, i: usize, d: i32) -> bool
    ensures { result ≡ same_z d (get_or (member_at b.now p).labels i (pos 0)) }
{
    let l = label(b, p, i);
    d == l
}

// Whether the member at p holds the label d.
pub fn holds(b: &[u8], p: usize, d: i32) -> bool
    ensures { result ≡ is_in d (member_at b.now p).labels }
{
    for i in 0..label_count(b, p) {
        if label_is(b, p, i, d) {
            return true;
        }
    }
    false
}

// The first member, of the type at `at`, that holds the label d.
pub fn first_with(b: &[u8], at: usize, d: i32) -> Option<usize>
    ensures { told b.now result ≡ first_with d (type_at b.now at).members }
{
    for p in members(b, at) {
        if holds(b, p, d) {
            return Some(p);
        }
    }
    None
}

// The last default member of the type at `at`.
pub fn last_default(b: &[u8], at: usize) -> Option<usize>
    ensures { told b.now result ≡ last_default (type_at b.now at).members }
{
    let mut last = None;
    for p in members(b, at) {
        if is_default(b, p) {
            last = Some(p);
        }
    }
    last
}
