// What is wrong with a book: document 01's rules of a book in reading order, the first that is broken told. Counts are tested before the
// loops that they bound. Quick tests only accept.
ghost use Rattle.std.specs.Prelude.{◌≡◌, true, ◌&&◌, List, [], ℕ, ◌+◌, ◌<◌, ◌≤◌, length};
ghost use Rattle.ground.specs.Choice.{pick, every};
ghost use Rattle.book.specs.Types.{BookType};
ghost use Rattle.book.specs.Places.{from, Bare, member_at, type_at, listed, earlier, Below, indexed, types_in};
ghost use Rattle.book.specs.Rules.{head_ok, codes_ok, bounds_ok, element_ok, count_ok, own_ok, other_id, link_ok, first_of_union, first_kind_ok};
ghost use Rattle.book.specs.Rules.{flags_ok, construct_ok, label_count_ok, record_ok, book_ok};
ghost use Rattle.book.specs.Fault.{broken, unless, own_fault, member_fault, members_fault, record_fault, records_fault, fault_of};

use crate::bytes::{byte_at, byte_there, left_at, pair_at, pair_there, quad_at, quad_there, skip};
use crate::fault::{Fault, HEAD, Reason, is_right};
use crate::index::{Types, index};
use crate::member::Run;
use crate::types::{ANNOTATION, ARRAY, BITMASK, ENUM, SEQUENCE, STRUCTURE, UNION};
use crate::{member, types};

// The index of no type.
const NONE: usize = 65535;

fn head_ok(b: &[u8]) -> bool
    ensures { result ≡ head_ok b.now }
{
    let size = quad_at(b, 0, 0) as usize;
    let count = types::type_count(b);
    ((size == b.len()) & (b.len() <= 65536))
        & (byte_at(b, 0, 4) == 1)
        & ground::in_range(count as u64, 1, 64)
}

fn codes_ok(b: &[u8], at: usize) -> bool
    ensures { result ≡ codes_ok (type_at b.now at) }
{
    let kind = types::kind(b, at);
    let base = types::base(b, at);
    (kind <= 27)
        & (types::extensibility(b, at) <= 2)
        & ((base <= 27) & ((base == 0) | (kind == ENUM)))
        & (types::bound_flag(b, at) <= 1)
}

fn bound_ok(b: &[u8], at: usize) -> bool
    ensures { result ≡ bounds_ok (type_at b.now at) }
{
    let bounded = types::is_bounded(b, at);
    (!(types::kind(b, at) == ARRAY) | bounded) & (bounded | (types::bound(b, at) == 0))
}

fn element_ok(b: &[u8], at: usize, k: usize) -> bool
    ensures { result ≡ element_ok k (type_at b.now at) }
{
    let kind = types::kind(b, at);
    let element = types::element(b, at);
    if (kind == SEQUENCE) | (kind == ARRAY) {
        return element < k;
    }
    element == NONE
}

fn count_ok(b: &[u8], at: usize) -> bool
    ensures { result ≡ count_ok (type_at b.now at) }
{
    let kind = types::kind(b, at);
    let n = member::member_count(b, at);
    (n <= 64)
        & ((n == 0) | ground::in_range(kind as u64, 21, 23))
        & (!((kind == ENUM) | (kind == UNION)) | (1 <= n))
}

// That record k is wrong by this reason, unless the rule is kept.
fn unless(kept: bool, k: usize, reason: Reason) -> Result<(), Fault>
    ensures { result ≡ unless kept (broken k reason) }
{
    if kept {
        return Ok(());
    }
    Err(Fault { at: k, reason })
}

// The own bytes of record k. Fields that stand next to each other and have one reason are tested together.
fn own_fault(b: &[u8], at: usize, k: usize) -> Result<(), Fault>
    ensures { result ≡ own_fault k (type_at b.now at) }
{
    unless(codes_ok(b, at), k, Reason::CodeRange)?;
    unless(bound_ok(b, at), k, Reason::Bound)?;
    unless(element_ok(b, at, k), k, Reason::TypeLink)?;
    unless(count_ok(b, at), k, Reason::MemberList)
}

fn other_id(b: &[u8], p: usize, id: u32) -> bool
    ensures { result ≡ other_id id (member_at b.now p) }
{
    !(member::id(b, p) == id)
}

// Whether none of the members has this id.
fn id_is_new(b: &[u8], ms: Run, id: u32) -> bool
    ensures { result ≡ every (other_id id) (listed b.now ms.entry) }
{
    for p in ms {
        if !other_id(b, p, id) {
            return false;
        }
    }
    true
}

// Whether none of the `done` members before has this id. Theirs are below `top`: an id that is not need not be compared with each.
fn id_differs(b: &[u8], at: usize, done: usize, top: u64, id: u32) -> bool
    requires { Below top (earlier b.now at done) }
    ensures { result ≡ every (other_id id) (earlier b.now at done) }
{
    if top <= id as u64 {
        return true;
    }
    let start = skip(b, at, 14);
    let before = Run {
        book: b,
        at: start,
        left: done,
    };
    id_is_new(b, before, id)
}

fn link_ok(b: &[u8], at: usize, k: usize, p: usize) -> bool
    ensures { result ≡ link_ok k (type_at b.now at) (member_at b.now p) }
{
    let link = member::type_index(b, p);
    if types::kind(b, at) == ENUM {
        return link == NONE;
    }
    link < k
}

// Whether a member with `done` before it is the first of a union.
fn first_of_union(b: &[u8], at: usize, done: usize) -> bool
    ensures { result ≡ first_of_union (type_at b.now at) (earlier b.now at done) }
{
    (types::kind(b, at) == UNION) & (done == 0)
}

// Whether the member at p, if it is the first of a union, has a type that a discriminator may have.
fn first_kind_ok(types: &Types, first: bool, p: usize) -> bool
    ensures { result ≡ first_kind_ok (types_in types.now) «first» (member_at types.now.book.now p) }
{
    if !first {
        return true;
    }
    let kind = types::kind(types.book, types.member_place(p));
    ground::in_range(kind as u64, 1, 15) | (kind == BITMASK) | (kind == ENUM)
}

// The member at p, of the type at `at`, record k, with `done` members before it, whose ids are below `top`; `id` is its own. What is asked of a
// union's first alone comes after what is asked of the same field in every member.
fn member_fault(
    types: &Types,
    at: usize,
    k: usize,
    done: usize,
    top: u64,
    p: usize,
    id: u32,
) -> Result<(), Fault>
    requires { Below top (earlier types.now.book.now at done) × (id ≡ (member_at types.now.book.now p).id) }
    ensures { result ≡ member_fault (types_in types.now) k (type_at types.now.book.now at) (earlier types.now.book.now at done) (member_at types.now.book.now p) }
{
    let b = types.book;
    let first = first_of_union(b, at, done);
    unless(id_differs(b, at, done, top, id), k, Reason::MemberList)?;
    unless(!first | (id == 0), k, Reason::FirstMember)?;
    unless(link_ok(b, at, k, p), k, Reason::TypeLink)?;
    unless(first_kind_ok(types, first, p), k, Reason::FirstMember)?;
    unless(member::flags(b, p) <= 3, k, Reason::CodeRange)?;
    unless(!first | !member::is_default(b, p), k, Reason::FirstMember)?;
    unless(member::construct(b, p) <= 2, k, Reason::CodeRange)?;
    let labels = member::label_count(b, p);
    unless(labels <= 16, k, Reason::MemberList)?;
    unless(!first | (labels == 0), k, Reason::FirstMember)
}

// The members of the type at `at`, record k, which leaves them `room` bytes. Ids mostly rise from member to member, and are then compared
// with the greatest before them alone.
fn members_fault(types: &Types, at: usize, k: usize, room: usize) -> Result<(), Fault>
    ensures { result ≡ members_fault (types_in types.now) k (type_at types.now.book.now at) [] (type_at types.now.book.now at).members room }
{
    let b = types.book;
    let mut left = room;
    let mut top = 0u64;
    for (done, p) in member::members(b, at).enumerate() {
        let size = 9 + 4 * member::label_count(b, p);
        if left < size {
            return Err(Fault {
                at: k,
                reason: Reason::RecordLength,
            });
        }
        let id = member::id(b, p);
        member_fault(types, at, k, done, top, p, id)?;
        top = top.max(u64::from(id) + 1);
        left -= size;
    }
    unless(left == 0, k, Reason::RecordLength)
}

// Whether the member at p, whose 9 bytes are there, keeps the rules of every member but that of its id. Its type, record k, is no enum.
fn fields_ok(b: &[u8], k: usize, p: usize) -> bool
    requires { p + 9 ≤ length b.now }
    ensures { (t : BookType) → (t.kind ≡ 21 → ⊥) → result ≡ true → true ≡ (link_ok k t (member_at b.now p) && flags_ok (member_at b.now p) && construct_ok (member_at b.now p) && label_count_ok (member_at b.now p)) }
{
    if k <= pair_there(b, p, 4) {
        return false;
    }
    if 3 < byte_there(b, p, 6) {
        return false;
    }
    if 2 < byte_there(b, p, 7) {
        return false;
    }
    byte_there(b, p, 8) <= 16
}

// Whether the own bytes, which are there, have an extensibility and no base, bound or element.
fn is_bare(b: &[u8], at: usize) -> bool
    requires { at + 14 ≤ length b.now }
    ensures { result ≡ true → Bare (from b.now at) }
{
    if 2 < byte_there(b, at, 3) {
        return false;
    }
    // base, flag and half of the bound; the other half, and the element
    if quad_there(b, at, 4) != 0 {
        return false;
    }
    quad_there(b, at, 8) == 65535
}

// Whether the own bytes, which are there, are those of a structure: an extensibility and at most 64 members, and nothing else.
fn own_plain(b: &[u8], at: usize) -> bool
    requires { at + 14 ≤ length b.now }
    ensures { (result ≡ true → (type_at b.now at).kind ≡ 22) × ((k : ℕ) → result ≡ true → true ≡ own_ok k (type_at b.now at)) }
{
    if byte_there(b, at, 2) != STRUCTURE {
        return false;
    }
    if is_bare(b, at) {
        return pair_there(b, at, 12) <= 64;
    }
    false
}

// Whether the record is a structure's that keeps every rule, its ids rising from member to member. Most structures' are: one walk tells of
// them what else takes two. Of other records it tells nothing.
fn is_structure(b: &[u8], at: usize, k: usize) -> bool
    ensures { (types : List BookType) → result ≡ true → true ≡ record_ok types k (from b.now at) }
{
    let size = pair_at(b, at, 0);
    if left_at(b, at) < size {
        return false;
    }
    if size < 14 {
        return false;
    }
    if !own_plain(b, at) {
        return false;
    }
    // (d) By hand: `members` asks of each member whether it is there, and here the room that is left says so, with the rule of lengths.
    let mut p = at + 14;
    let mut left = member::member_count(b, at);
    let mut room = size - 14;
    let mut top = 0;
    while 0 < left {
        if room < 9 {
            return false;
        }
        let id = quad_there(b, p, 0) as u64;
        if id < top {
            return false;
        }
        if !fields_ok(b, k, p) {
            return false;
        }
        let step = 9 + 4 * byte_there(b, p, 8);
        if room < step {
            return false;
        }
        top = id + 1;
        p += step;
        room -= step;
        left -= 1;
    }
    room == 0
}

// Whether the record is of 14 bytes, with an extensibility and a kind that asks for nothing else, and no base, bound, element or member.
// Most are, and keep every rule.
fn is_plain(b: &[u8], at: usize) -> bool
    ensures { (types : List BookType) (k : ℕ) → result ≡ true → true ≡ record_ok types k (from b.now at) }
{
    if left_at(b, at) < 14 {
        return false;
    }
    if pair_there(b, at, 0) != 14 {
        return false;
    }
    if ANNOTATION < byte_there(b, at, 2) {
        return false;
    }
    if is_bare(b, at) {
        return pair_there(b, at, 12) == 0;
    }
    false
}

// Record k, at a place.
fn record_fault(types: &Types, at: usize, k: usize) -> Result<(), Fault>
    ensures { result ≡ record_fault (types_in types.now) k (from types.now.book.now at) }
{
    let b = types.book;
    if is_plain(b, at) {
        return Ok(());
    }
    if is_structure(b, at, k) {
        return Ok(());
    }
    let size = pair_at(b, at, 0);
    unless(size <= left_at(b, at), k, Reason::RecordLength)?;
    if size < 14 {
        return Err(Fault {
            at: k,
            reason: Reason::RecordLength,
        });
    }
    own_fault(b, at, k)?;
    members_fault(types, at, k, size - 14)
}

// The records of the index, one after the other from byte 7 on, and nothing after them.
fn records_fault(types: &Types) -> Result<(), Fault>
    ensures { result ≡ records_fault (types_in types.now) 0 (length types.now.index.now) (from types.now.book.now 7) }
{
    let b = types.book;
    let mut p = 7;
    for k in 0..types.index.len() {
        record_fault(types, p, k)?;
        p = skip(b, p, pair_at(b, p, 0));
    }
    unless(left_at(b, p) == 0, HEAD, Reason::Head)
}

// What is wrong with a book. Leaves the places of the types, which it judges by, as `index` does; where the head is not right it writes none.
pub fn judge_into(b: &[u8], lent: &mut [u32]) -> Result<(), Fault>
    requires { 64 ≤ length lent.old }
    ensures { (result ≡ fault_of b.now) × (lent.new ≡ pick (head_ok b.now) (indexed b.now lent.old) lent.old) }
{
    unless(head_ok(b), HEAD, Reason::Head)?;
    let n = index(b, lent);
    records_fault(&Types {
        book: b,
        index: &lent[0..n],
    })
}

// What is wrong with a book: the first broken rule in reading order.
pub fn fault(b: &[u8]) -> Result<(), Fault>
    ensures { result ≡ fault_of b.now }
{
    let mut places = [0u32; 64];
    judge_into(b, &mut places)
}

// Whether a book is right.
pub fn judge(b: &[u8]) -> bool
    ensures { result ≡ book_ok b.now }
{
    is_right(fault(b))
}
