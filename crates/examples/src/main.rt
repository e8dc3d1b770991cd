// Document 01's rules of a book, run, with what order 2 tells of one that is broken: example 1's book, for each rule the smallest books that break it
// alone, for each field that breaks two rules and each two neighbouring places one, example 1's book cut after each byte, and the books at the
// bounds. Each line is a book's name, what is told of it (a record's number, 65535 for the head, and the reason's), and its bytes where they are few.
#![tactic(auto)]

mod books;

ghost use Rattle.std.specs.Prelude.{◌≡◌, ◌+◌, ◌*◌};

use book::bytes::skip;
use book::fault::Fault;
use books::{ARRAY, ENUM, EXAMPLE1, LABELLED, LABELS18, LONGER, PAIR, PLAIN, SEQUENCE, UNION};

fn main(rt: HostRuntime) {
    lengths(&rt);
    head(&rt);
    own_bytes(&rt);
    links(&rt);
    members(&rt);
    first_of_union(&rt);
    one_field(&rt);
    own_neighbours(&rt);
    member_neighbours(&rt);
    cuts(&rt);
    right(&rt);
    allowed_types(&rt);
    allowed_members(&rt);
    bounds(&rt);
}

// Slices of few bytes, each with its own length stated as far as it has room.
fn lengths(rt: &impl Print) {
    show(rt, b"0 bytes", b"");
    show(rt, b"3 bytes", b"\x00\x00\x00");
    show(rt, b"4 bytes", b"\x00\x00\x00\x04");
    show(rt, b"6 bytes", b"\x00\x00\x00\x06\x01\x00");
}

fn head(rt: &impl Print) {
    changed(rt, b"length 22 of 21 bytes", &PLAIN, 3, 22);
    changed(rt, b"version 2", &PLAIN, 4, 2);
    show(rt, b"no type", b"\x00\x00\x00\x07\x01\x00\x00");
    changed(rt, b"record longer than the book", &PLAIN, 8, 15);
    show(
        rt,
        b"record of 13 bytes",
        b"\x00\x00\x00\x14\x01\x00\x01\x00\x0d\x04\x00\x00\x00\x00\x00\x00\x00\xff\xff\x00",
    );
    changed(rt, b"a byte after the members", &LONGER, 8, 15);
    changed(rt, b"second member not there", &EXAMPLE1, 34, 2);
    changed(rt, b"label not there", &EXAMPLE1, 43, 1);
    show(rt, b"no record", b"\x00\x00\x00\x07\x01\x00\x01");
    show(rt, b"half a length", b"\x00\x00\x00\x08\x01\x00\x01\x0e");
    changed(rt, b"a byte after the last record", &LONGER, 3, 22);
}

fn own_bytes(rt: &impl Print) {
    changed(rt, b"kind 28", &PLAIN, 9, 28);
    changed(rt, b"extensibility 3", &PLAIN, 10, 3);
    changed(rt, b"base 4 of INT32", &PLAIN, 11, 4);
    changed(rt, b"base 28 of an enum", &ENUM, 11, 28);
    changed(rt, b"bound flag 2", &PLAIN, 12, 2);
    changed(rt, b"array without a bound", &SEQUENCE, 23, 26);
    changed(rt, b"bound 1 without its flag", &PLAIN, 16, 1);
}

fn links(rt: &impl Print) {
    changed(rt, b"element of INT32", &PLAIN, 18, 0xfe);
    changed(rt, b"element its own record", &SEQUENCE, 32, 1);
    changed_twice(
        rt,
        b"sequence without an element",
        &SEQUENCE,
        31,
        0xff,
        32,
        0xff,
    );
    changed_twice(rt, b"array without an element", &ARRAY, 31, 0xff, 32, 0xff);
    changed(rt, b"member its own record", &EXAMPLE1, 40, 1);
    changed_twice(
        rt,
        b"structure's member without a type",
        &EXAMPLE1,
        39,
        0xff,
        40,
        0xff,
    );
    changed(rt, b"enum's member with a type", &EXAMPLE1, 23, 21);
}

fn members(rt: &impl Print) {
    changed(rt, b"member of an alias", &EXAMPLE1, 23, 18);
    changed(rt, b"enum without a member", &PLAIN, 9, 21);
    changed(rt, b"union without a member", &PLAIN, 9, 23);
    changed(rt, b"two members of one id", &PAIR, 47, 7);
    changed(rt, b"flags 4", &EXAMPLE1, 41, 4);
    changed(rt, b"try-construct 3", &EXAMPLE1, 42, 3);
    show(rt, b"18 labels", &LABELS18);
}

fn first_of_union(rt: &impl Print) {
    changed(rt, b"union's first with id 1", &UNION, 38, 1);
    changed(rt, b"union's first of kind 16", &UNION, 9, 16);
    changed(rt, b"union's first a default", &UNION, 41, 2);
    changed(rt, b"union's first with a label", &LABELLED, 23, 23);
}

// One field that breaks two rules: the earlier reason is told.
fn one_field(rt: &impl Print) {
    changed(rt, b"array's bound flag 2", &ARRAY, 26, 2);
    changed(rt, b"union's first its own record", &UNION, 40, 1);
    changed(rt, b"union's first with flags 6", &UNION, 41, 6);
    changed(rt, b"union's first with 18 labels", &LABELS18, 23, 23);
}

// Two neighbouring places that break rules: the earlier is told.
fn own_neighbours(rt: &impl Print) {
    changed_twice(rt, b"head, length", &PLAIN, 4, 2, 8, 15);
    changed_twice(rt, b"length, kind", &PLAIN, 8, 15, 9, 28);
    changed_twice(rt, b"base, bound flag", &SEQUENCE, 23, 26, 25, 4);
    changed_twice(rt, b"bound flag, bound", &PLAIN, 12, 2, 16, 1);
    changed_twice(rt, b"bound, element", &PLAIN, 16, 1, 18, 0xfe);
    changed_twice(rt, b"element, member count", &PLAIN, 18, 0xfe, 20, 1);
    changed(rt, b"member count, a member's place", &PLAIN, 20, 1);
    changed_twice(rt, b"kind, a member's place", &EXAMPLE1, 23, 28, 34, 2);
    changed_twice(rt, b"own bytes, a member's type", &EXAMPLE1, 24, 3, 40, 1);
    changed(rt, b"a byte left, the next length", &EXAMPLE1, 8, 15);
    changed_twice(rt, b"a record, the next", &EXAMPLE1, 9, 21, 24, 3);
    changed(rt, b"the last record, a byte left", &LONGER, 9, 28);
}

fn member_neighbours(rt: &impl Print) {
    changed_twice(rt, b"label not there, id", &PAIR, 47, 7, 52, 1);
    changed_twice(
        rt,
        b"label not there, union's first id",
        &UNION,
        38,
        1,
        43,
        1,
    );
    changed_twice(rt, b"id, type", &PAIR, 47, 7, 49, 1);
    changed_twice(rt, b"union's first id, type", &UNION, 38, 1, 40, 1);
    changed_twice(rt, b"type, flags", &EXAMPLE1, 40, 1, 41, 4);
    changed_twice(rt, b"union's first kind, flags", &UNION, 9, 16, 41, 4);
    changed_twice(
        rt,
        b"union's first default, try-construct",
        &UNION,
        41,
        2,
        42,
        3,
    );
    changed(rt, b"try-construct, label count", &LABELS18, 42, 3);
    changed(rt, b"label count, the next member", &LABELS18, 34, 2);
    changed_twice(
        rt,
        b"union's first label, the next member",
        &LABELLED,
        23,
        23,
        34,
        2,
    );
    changed(rt, b"label count, bytes left", &LABELS18, 43, 17);
}

// Example 1's book cut after n bytes: as it is, and with its length put right.
fn cut(rt: &impl Print, n: usize) {
    if EXAMPLE1.len() <= n {
        return;
    }
    show(rt, b"example 1 cut", &EXAMPLE1[..n]);
    let mut b = EXAMPLE1;
    b[3] = n as u8;
    show(rt, b"example 1 cut, its length right", &b[..n]);
}

fn cuts(rt: &impl Print) {
    for n in 0..EXAMPLE1.len() {
        cut(rt, n);
    }
}

// Right books: example 1's, and the smallest.
fn right(rt: &impl Print) {
    show(rt, b"example 1", &EXAMPLE1);
    show(rt, b"INT32", &PLAIN);
    show(rt, b"sequence", &SEQUENCE);
    show(rt, b"array of bound 0", &ARRAY);
    show(rt, b"enum", &ENUM);
    show(rt, b"union of its discriminator", &UNION);
    show(rt, b"two members", &PAIR);
    show(rt, b"structure's member with a label", &LABELLED);
}

// What no rule names.
fn allowed_types(rt: &impl Print) {
    changed_twice(rt, b"INT32 with a bound", &PLAIN, 12, 1, 16, 5);
    changed(rt, b"Mutable INT32", &PLAIN, 10, 2);
    changed(rt, b"enum of base 27", &ENUM, 11, 27);
    changed(rt, b"structure without members", &PLAIN, 9, 22);
}

fn allowed_members(rt: &impl Print) {
    changed_twice(rt, b"flags 3, Trim", &EXAMPLE1, 41, 3, 42, 2);
    changed_twice(
        rt,
        b"union's first optional, UseDefault",
        &UNION,
        41,
        1,
        42,
        0,
    );
    changed(rt, b"union's first of kind 15", &UNION, 9, 15);
    changed(rt, b"union's first of kind 19", &UNION, 9, 19);
}

// Books at the bounds, built.
fn bounds(rt: &impl Print) {
    types(rt, b"64 types", 64);
    types(rt, b"65 types", 65);
    structures(rt, b"64 members", 0, 64, 0, 16);
    structures(rt, b"65 members", 0, 65, 0, 16);
    structures(rt, b"16 labels", 0, 1, 16, 16);
    structures(rt, b"17 labels", 0, 1, 17, 17);
    structures(rt, b"65536 bytes", 13, 63, 1004, 16);
    structures(rt, b"65537 bytes", 13, 64, 1002, 16);
}

// Writes the name of a book, what is told of it, and its bytes.
fn show(rt: &impl Print, name: &[u8], b: &[u8]) {
    let _ = rt.write_all(name);
    if book::judge::judge(b) {
        let _ = rt.write_all(b": right");
    }
    if let Err(found) = book::judge::fault(b) {
        show_fault(rt, found);
    }
    if b.len() <= FEW {
        let _ = rt.write_all(b" ");
        show_bytes(rt, b);
    }
    let _ = rt.write_all(b"\n");
}

fn show_fault(rt: &impl Print, found: Fault) {
    let _ = rt.write_all(b": record ");
    let _ = rt.print(found.at as u64);
    let _ = rt.write_all(b" number ");
    let _ = rt.print(u64::from(found.number()));
}

// A book of no more bytes is shown.
const FEW: usize = 128;

const DIGITS: [u8; 16] = *b"0123456789abcdef";

fn digit(x: u8) -> u8 {
    DIGITS[(x % 16) as usize]
}

fn show_bytes(rt: &impl Print, b: &[u8]) {
    for x in b {
        let _ = rt.write_all(&[digit(*x / 16), digit(*x)]);
    }
}

fn put(b: &mut [u8], at: usize, x: u8) {
    if let Some(there) = b.get_mut(at) {
        *there = x;
    }
}

// The book s with x at i and y at j: the books that differ from a right one in a byte or two.
fn changed_twice(rt: &impl Print, name: &[u8], s: &[u8], i: usize, x: u8, j: usize, y: u8) {
    let mut b = [0u8; FEW];
    if let Some(part) = b.get_mut(..s.len()) {
        part.copy_from_slice(s);
        put(part, i, x);
        put(part, j, y);
        show(rt, name, part);
    }
}

fn changed(rt: &impl Print, name: &[u8], s: &[u8], i: usize, x: u8) {
    changed_twice(rt, name, s, i, x, i, x);
}

// Books that are too long to write out are built in a buffer that is zero but for what is put there.
fn low(x: u32) -> u8 {
    (x % 256) as u8
}

// Two bytes, big-endian, and the place after them.
fn put_pair(b: &mut [u8], at: usize, x: u32) -> usize {
    put(b, at, low(x / 256));
    let next = skip(b, at, 1);
    put(b, next, low(x));
    skip(b, next, 1)
}

fn put_head(b: &mut [u8], size: u32, count: u32) -> usize {
    put_pair(b, 0, size / 65536);
    put_pair(b, 2, size);
    put(b, 4, 1);
    put_pair(b, 5, count)
}

// A record up to its members, with no element.
fn put_type(b: &mut [u8], at: usize, size: u32, kind: u8, count: u32) -> usize {
    let k = put_pair(b, at, size);
    put(b, k, kind);
    let e = put_pair(b, skip(b, k, 8), 65535);
    put_pair(b, e, count)
}

// A member of type 0, Discard, whose labels are all 0.
fn put_member(b: &mut [u8], at: usize, id: u32, labels: u8) -> usize {
    put(b, skip(b, at, 3), low(id));
    put(b, skip(b, at, 7), 1);
    put(b, skip(b, at, 8), labels);
    skip(b, at, 9 + 4 * (labels as usize))
}

// n records of INT32.
fn put_types(b: &mut [u8], at: usize, n: u8) -> usize {
    let mut p = at;
    for _ in 0..n {
        p = put_type(b, p, 14, 4, 0);
    }
    p
}

fn least(x: u16, y: u8) -> u8 {
    x.min(u16::from(y)) as u8
}

// `count` members with `labels` labels in all, the first members `most` each.
fn put_members(b: &mut [u8], at: usize, count: u8, labels: u16, most: u8) -> usize {
    let mut p = at;
    let mut left = labels;
    for i in 0..count {
        let n = least(left, most);
        p = put_member(b, p, u32::from(i), n);
        left = left.saturating_sub(u16::from(n));
    }
    p
}

// A structure's bytes.
fn size_of(members: u8, labels: u16) -> u32
    ensures { result ≡ 14 + 9 * members + 4 * labels }
{
    14 + 9 * u32::from(members) + 4 * u32::from(labels)
}

fn put_structure(b: &mut [u8], at: usize, members: u8, labels: u16, most: u8) -> usize {
    let p = put_type(b, at, size_of(members, labels), 22, u32::from(members));
    put_members(b, p, members, labels, most)
}

// n structures of 64 members with 16 labels each, 4,686 bytes.
fn put_full(b: &mut [u8], at: usize, n: u8) -> usize {
    let mut p = at;
    for _ in 0..n {
        p = put_structure(b, p, 64, 1024, 16);
    }
    p
}

fn show_part(rt: &impl Print, name: &[u8], b: &[u8], n: u32) {
    if let Some(part) = b.get(..n as usize) {
        show(rt, name, part);
    }
}

// A book of n types INT32.
fn types(rt: &impl Print, name: &[u8], n: u8) {
    let mut b = [0u8; 1024];
    let size = 7 + 14 * u32::from(n);
    let p = put_head(&mut b, size, u32::from(n));
    put_types(&mut b, p, n);
    show_part(rt, name, &b, size);
}

// A book of INT32, `full` structures of 4,686 bytes, and one of `members` members with `labels` labels, at most `most` each.
fn structures(rt: &impl Print, name: &[u8], full: u8, members: u8, labels: u16, most: u8) {
    let mut b = [0u8; 65537];
    let size = 21 + 4686 * u32::from(full) + size_of(members, labels);
    let p = put_head(&mut b, size, 2 + u32::from(full));
    let q = put_types(&mut b, p, 1);
    let r = put_full(&mut b, q, full);
    put_structure(&mut b, r, members, labels, most);
    show_part(rt, name, &b, size);
}
