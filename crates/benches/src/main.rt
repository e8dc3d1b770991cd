// Document 01's bench examples, 1 to 13, run through the library, and each number of its table reached (4 never is).
// The file stdout is written from document 01, and each row's place from order 7 of document 02.
#![tactic(auto)]

use sinotayam::answer::Status;
use wire::settings::Mode;

const IDENTIFIER: [u8; 2] = *b"\x00\x01";

// Example 1's book: INT32, and a structure of 7: INT32.
const INT32: [u8; 44] =
    *b"\x00\x00\x00\x2c\x01\x00\x02\x00\x0e\x04\x00\x00\x00\x00\x00\x00\x00\xff\xff\x00\x00\x00\x17\x16\x00\
    \x00\x00\x00\x00\x00\x00\xff\xff\x00\x01\x00\x00\x00\x07\x00\x00\x00\x01\x00";

// Order 3's type: M{5: INT32, 65541: INT32}.
const ALIKE: [u8; 53] =
    *b"\x00\x00\x00\x35\x01\x00\x02\x00\x0e\x04\x00\x00\x00\x00\x00\x00\x00\xff\xff\x00\x00\x00\x20\x16\x02\
    \x00\x00\x00\x00\x00\x00\xff\xff\x00\x02\x00\x00\x00\x05\x00\x00\x00\x01\x00\x00\x01\x00\x05\x00\x00\x00\x01\x00";

// The same as the first, UseDefault.
const INT32_DEFAULT: [u8; 44] =
    *b"\x00\x00\x00\x2c\x01\x00\x02\x00\x0e\x04\x00\x00\x00\x00\x00\x00\x00\xff\xff\x00\x00\x00\x17\x16\x00\
    \x00\x00\x00\x00\x00\x00\xff\xff\x00\x01\x00\x00\x00\x07\x00\x00\x00\x00\x00";

// 1: BOOLEAN.
const BOOLEAN: [u8; 44] =
    *b"\x00\x00\x00\x2c\x01\x00\x02\x00\x0e\x01\x00\x00\x00\x00\x00\x00\x00\xff\xff\x00\x00\x00\x17\x16\x00\
    \x00\x00\x00\x00\x00\x00\xff\xff\x00\x01\x00\x00\x00\x01\x00\x00\x00\x01\x00";

// 1: STRING8.
const STRING8: [u8; 44] =
    *b"\x00\x00\x00\x2c\x01\x00\x02\x00\x0e\x10\x00\x00\x00\x00\x00\x00\x00\xff\xff\x00\x00\x00\x17\x16\x00\
    \x00\x00\x00\x00\x00\x00\xff\xff\x00\x01\x00\x00\x00\x01\x00\x00\x00\x01\x00";

// 1: STRING16.
const STRING16: [u8; 44] =
    *b"\x00\x00\x00\x2c\x01\x00\x02\x00\x0e\x11\x00\x00\x00\x00\x00\x00\x00\xff\xff\x00\x00\x00\x17\x16\x00\
    \x00\x00\x00\x00\x00\x00\xff\xff\x00\x01\x00\x00\x00\x01\x00\x00\x00\x01\x00";

// 1: UINT8, 2: INT64.
const UINT8_INT64: [u8; 67] =
    *b"\x00\x00\x00\x43\x01\x00\x03\x00\x0e\x0d\x00\x00\x00\x00\x00\x00\x00\xff\xff\x00\x00\x00\x0e\x05\x00\
    \x00\x00\x00\x00\x00\x00\xff\xff\x00\x00\x00\x20\x16\x00\x00\x00\x00\x00\x00\x00\xff\xff\x00\x02\x00\
    \x00\x00\x01\x00\x00\x00\x01\x00\x00\x00\x00\x02\x00\x01\x00\x01\x00";

// Mutable, 1: UINT16.
const MUTABLE_UINT16: [u8; 44] =
    *b"\x00\x00\x00\x2c\x01\x00\x02\x00\x0e\x06\x00\x00\x00\x00\x00\x00\x00\xff\xff\x00\x00\x00\x17\x16\x02\
    \x00\x00\x00\x00\x00\x00\xff\xff\x00\x01\x00\x00\x00\x01\x00\x00\x00\x01\x00";

// Mutable, 1: list of UINT16.
const MUTABLE_LIST: [u8; 58] =
    *b"\x00\x00\x00\x3a\x01\x00\x03\x00\x0e\x06\x00\x00\x00\x00\x00\x00\x00\xff\xff\x00\x00\x00\x0e\x19\x00\
    \x00\x00\x00\x00\x00\x00\x00\x00\x00\x00\x00\x17\x16\x02\x00\x00\x00\x00\x00\x00\xff\xff\x00\x01\x00\
    \x00\x00\x01\x00\x01\x00\x01\x00";

// Final, 1: optional UINT16, 2: UINT16.
const OPTIONAL_UINT16: [u8; 53] =
    *b"\x00\x00\x00\x35\x01\x00\x02\x00\x0e\x06\x00\x00\x00\x00\x00\x00\x00\xff\xff\x00\x00\x00\x20\x16\x00\
    \x00\x00\x00\x00\x00\x00\xff\xff\x00\x02\x00\x00\x00\x01\x00\x00\x01\x01\x00\x00\x00\x00\x02\x00\x00\
    \x00\x01\x00";

// Mutable, 1: STRING8.
const MUTABLE_STRING8: [u8; 44] =
    *b"\x00\x00\x00\x2c\x01\x00\x02\x00\x0e\x10\x00\x00\x00\x00\x00\x00\x00\xff\xff\x00\x00\x00\x17\x16\x02\
    \x00\x00\x00\x00\x00\x00\xff\xff\x00\x01\x00\x00\x00\x01\x00\x00\x00\x01\x00";

// 17 structures, each in the next.
const CHAIN: [u8; 389] =
    *b"\x00\x00\x01\x85\x01\x00\x11\x00\x0e\x16\x00\x00\x00\x00\x00\x00\x00\xff\xff\x00\x00\x00\x17\x16\x00\
    \x00\x00\x00\x00\x00\x00\xff\xff\x00\x01\x00\x00\x00\x01\x00\x00\x00\x01\x00\x00\x17\x16\x00\x00\x00\
    \x00\x00\x00\x00\xff\xff\x00\x01\x00\x00\x00\x01\x00\x01\x00\x01\x00\x00\x17\x16\x00\x00\x00\x00\x00\
    \x00\x00\xff\xff\x00\x01\x00\x00\x00\x01\x00\x02\x00\x01\x00\x00\x17\x16\x00\x00\x00\x00\x00\x00\x00\
    \xff\xff\x00\x01\x00\x00\x00\x01\x00\x03\x00\x01\x00\x00\x17\x16\x00\x00\x00\x00\x00\x00\x00\xff\xff\
    \x00\x01\x00\x00\x00\x01\x00\x04\x00\x01\x00\x00\x17\x16\x00\x00\x00\x00\x00\x00\x00\xff\xff\x00\x01\
    \x00\x00\x00\x01\x00\x05\x00\x01\x00\x00\x17\x16\x00\x00\x00\x00\x00\x00\x00\xff\xff\x00\x01\x00\x00\
    \x00\x01\x00\x06\x00\x01\x00\x00\x17\x16\x00\x00\x00\x00\x00\x00\x00\xff\xff\x00\x01\x00\x00\x00\x01\
    \x00\x07\x00\x01\x00\x00\x17\x16\x00\x00\x00\x00\x00\x00\x00\xff\xff\x00\x01\x00\x00\x00\x01\x00\x08\
    \x00\x01\x00\x00\x17\x16\x00\x00\x00\x00\x00\x00\x00\xff\xff\x00\x01\x00\x00\x00\x01\x00\x09\x00\x01\
    \x00\x00\x17\x16\x00\x00\x00\x00\x00\x00\x00\xff\xff\x00\x01\x00\x00\x00\x01\x00\x0a\x00\x01\x00\x00\
    \x17\x16\x00\x00\x00\x00\x00\x00\x00\xff\xff\x00\x01\x00\x00\x00\x01\x00\x0b\x00\x01\x00\x00\x17\x16\
    \x00\x00\x00\x00\x00\x00\x00\xff\xff\x00\x01\x00\x00\x00\x01\x00\x0c\x00\x01\x00\x00\x17\x16\x00\x00\
    \x00\x00\x00\x00\x00\xff\xff\x00\x01\x00\x00\x00\x01\x00\x0d\x00\x01\x00\x00\x17\x16\x00\x00\x00\x00\
    \x00\x00\x00\xff\xff\x00\x01\x00\x00\x00\x01\x00\x0e\x00\x01\x00\x00\x17\x16\x00\x00\x00\x00\x00\x00\
    \x00\xff\xff\x00\x01\x00\x00\x00\x01\x00\x0f\x00\x01\x00";

// 1: CHAR16.
const CHAR16: [u8; 44] =
    *b"\x00\x00\x00\x2c\x01\x00\x02\x00\x0e\x0f\x00\x00\x00\x00\x00\x00\x00\xff\xff\x00\x00\x00\x17\x16\x00\
    \x00\x00\x00\x00\x00\x00\xff\xff\x00\x01\x00\x00\x00\x01\x00\x00\x00\x01\x00";

// A Mutable union over an INT32, with a default member.
const MUTABLE_UNION: [u8; 53] =
    *b"\x00\x00\x00\x35\x01\x00\x02\x00\x0e\x04\x00\x00\x00\x00\x00\x00\x00\xff\xff\x00\x00\x00\x20\x17\x02\
    \x00\x00\x00\x00\x00\x00\xff\xff\x00\x02\x00\x00\x00\x00\x00\x00\x00\x01\x00\x00\x00\x00\x01\x00\x00\
    \x02\x01\x00";

fn title(rt: &impl Print, s: &[u8]) {
    let _ = rt.write_all(s);
    let _ = rt.write_all(b"\n");
}

fn read_in(
    rt: &impl Print,
    name: &[u8],
    book: &[u8],
    root: usize,
    message: &[u8],
    table: &mut [u64],
) {
    title(rt, name);
    let a = sinotayam::read(book, root, message, Mode::Crate, table);
    cases::lines::answer(rt, a, table);
}

fn read(rt: &impl Print, name: &[u8], book: &[u8], root: usize, message: &[u8]) {
    let mut table = [0u64; 8192];
    read_in(rt, name, book, root, message, &mut table);
}

// Examples 1, 2 and 4.
fn scalars(rt: &impl Print) {
    read(rt, b"1", &INT32, 1, b"\x00\x01\x00\x00\xfe\xff\xff\xff");
    read(rt, b"2", &INT32, 1, b"\x00\x01\x00\x00\xfe\xff\xff");
    read(
        rt,
        b"2, UseDefault",
        &INT32_DEFAULT,
        1,
        b"\x00\x01\x00\x00\xfe\xff\xff",
    );
    read(rt, b"4", &BOOLEAN, 1, b"\x00\x01\x00\x00\x02");
}

// Examples 5 to 7.
fn texts_and_alignment(rt: &impl Print) {
    read(rt, b"5", &STRING8, 1, b"\x00\x01\x00\x00\x00\x00\x00\x00");
    read(
        rt,
        b"5, with 41 added",
        &STRING8,
        1,
        b"\x00\x01\x00\x00\x00\x00\x00\x00\x41",
    );
    read(rt, b"6", &STRING16, 1, b"\x00\x01\x00\x00\x01\x00\x00\x00");
    read(
        rt,
        b"7, XCDR2",
        &UINT8_INT64,
        2,
        b"\x00\x07\x00\x00\x01\x00\x00\x00\x02\x00\x00\x00\x00\x00\x00\x00",
    );
    read(
        rt,
        b"7, XCDR1",
        &UINT8_INT64,
        2,
        b"\x00\x01\x00\x00\x01\x00\x00\x00\x02\x00\x00\x00\x00\x00\x00\x00",
    );
}

// Examples 8 and 9.
fn lookups(rt: &impl Print) {
    read(
        rt,
        b"8",
        &MUTABLE_UINT16,
        1,
        b"\x00\x03\x00\x00\x01\x00\x02\x00\x34\x12\x00\x00\x02\x3f\x00\x00",
    );
    read(
        rt,
        b"8, first 8 bytes only",
        &MUTABLE_UINT16,
        1,
        b"\x00\x03\x00\x00\x01\x00\x02\x00\x34\x12\x00\x00",
    );
    read(
        rt,
        b"9",
        &MUTABLE_UINT16,
        1,
        b"\x00\x03\x00\x00\x02\x3f\x02\x00\xaa\xaa\x00\x00\x01\x00\x02\x00\x34\x12\x00\x00",
    );
}

// Examples 10 to 12.
fn members(rt: &impl Print) {
    read(
        rt,
        b"10",
        &MUTABLE_LIST,
        2,
        b"\x00\x0b\x00\x00\x10\x00\x00\x00\x01\x00\x00\x40\x08\x00\x00\x00\x02\x00\x00\x00\x0a\x00\x0b\x00",
    );
    read(
        rt,
        b"10, eight zero bytes more",
        &MUTABLE_LIST,
        2,
        b"\x00\x0b\x00\x00\x10\x00\x00\x00\x01\x00\x00\x40\x08\x00\x00\x00\x02\x00\x00\x00\x0a\x00\x0b\x00\x00\
    \x00\x00\x00\x00\x00\x00\x00",
    );
    read(
        rt,
        b"11",
        &OPTIONAL_UINT16,
        1,
        b"\x00\x01\x00\x00\x01\x00\x02\x00\x34\x12\x00\x00",
    );
    read(
        rt,
        b"12",
        &MUTABLE_STRING8,
        1,
        b"\x00\x0b\x00\x00\x0a\x00\x00\x00\x01\x00\x00\x50\x02\x00\x00\x00\x41\x00",
    );
}

// Example 13: chains.
fn chains(rt: &impl Print) {
    read(rt, b"13, chain of 16", &CHAIN, 15, b"\x00\x01\x00\x00");
    read(rt, b"13, chain of 17", &CHAIN, 16, b"\x00\x01\x00\x00");
}

// The numbers that no example gives, and the order of refusals.
fn roots(rt: &impl Print) {
    read(rt, b"3", &INT32, 0, b"\x00\x01\x00\x00\xfe\xff\xff\xff");
    read(rt, b"9", &INT32, 2, b"\x00\x01\x00\x00\xfe\xff\xff\xff");
    read(rt, b"9 before 1", &INT32, 2, b"\x00\x01");
}

fn numbers(rt: &impl Print) {
    read(rt, b"1, a message of 3 bytes", &INT32, 1, b"\x00\x01\x00");
    read(
        rt,
        b"2, identifier 0004",
        &INT32,
        1,
        b"\x00\x04\x00\x00\xfe\xff\xff\xff",
    );
    read(rt, b"11", &CHAR16, 1, b"\x00\x01\x00\x00\x41\x00");
    read(
        rt,
        b"14",
        &MUTABLE_UNION,
        1,
        b"\x00\x03\x00\x00\x02\x3f\x00\x00",
    );
}

// Example 3: the room for rows, by order 7 in tables of 9 and of 10 words.
fn rooms(rt: &impl Print) {
    let mut short = [0u64; 9];
    read_in(
        rt,
        b"3, 9 words",
        &INT32,
        1,
        b"\x00\x01\x00\x00\xfe\xff\xff\xff",
        &mut short,
    );
    let mut enough = [0u64; 10];
    read_in(
        rt,
        b"3, 10 words",
        &INT32,
        1,
        b"\x00\x01\x00\x00\xfe\xff\xff\xff",
        &mut enough,
    );
}

// Example 13: the longest message, and one byte more; both are an INT32 of 0, big-endian, and zeros.
fn lengths(rt: &impl Print) {
    let longest = [0u8; 65536];
    read(rt, b"13, 65536 bytes", &INT32, 1, &longest);
    let longer = [0u8; 65537];
    read(rt, b"13, 65537 bytes", &INT32, 1, &longer);
    read(
        rt,
        b"13, 65537 bytes, root 2: 9 before 10",
        &INT32,
        2,
        &longer,
    );
}

fn data(rt: &impl Print, name: &[u8], s: &[u8]) {
    let mut table = [0u64; 10];
    title(rt, name);
    let a = sinotayam::read_data(&INT32, 1, IDENTIFIER, s, Mode::Crate, &mut table);
    cases::lines::answer(rt, a, &table);
}

// The same of data.
fn data_lengths(rt: &impl Print) {
    let most = [0u8; 65532];
    data(rt, b"13, 65532 bytes of data", &most);
    let more = [0u8; 65533];
    data(rt, b"13, 65533 bytes of data", &more);
}

// A status by its number.
fn print_status(rt: &impl Print, n: Status) {
    code(rt, n.code());
}

fn code(rt: &impl Print, k: u8) {
    let _ = rt.print(k as u64);
    let _ = rt.write_all(b"\n");
}

// What is wrong with a book, as C is told it.
fn fault(rt: &impl Print, book: &[u8]) {
    let _ = rt.print(sinotayam::c::sinotayam_fault(book) as u64);
    let _ = rt.write_all(b"\n");
}

// A book's number comes before 9: of version 2, then with a record of kind 28. The record is told too: 65535 and 17, 1 and 19; 0 of the right book.
fn broken(rt: &impl Print) {
    let mut book = INT32;
    book[4] = 2;
    read(
        rt,
        b"17 before 9",
        &book,
        2,
        b"\x00\x01\x00\x00\xfe\xff\xff\xff",
    );
    fault(rt, &book);
    book[4] = 1;
    book[23] = 28;
    read(
        rt,
        b"19 before 9",
        &book,
        2,
        b"\x00\x01\x00\x00\xfe\xff\xff\xff",
    );
    fault(rt, &book);
    fault(rt, &INT32);
}

// Example 1 with an index.
fn prepared_in(rt: &impl Print, name: &[u8], index: &mut [u32]) {
    let mut table = [0u64; 8192];
    title(rt, name);
    print_status(rt, sinotayam::prepared::prepare(&INT32, index));
    let a = sinotayam::read_prepared(
        &INT32,
        index,
        1,
        b"\x00\x01\x00\x00\xfe\xff\xff\xff",
        Mode::Crate,
        &mut table,
    );
    cases::lines::answer(rt, a, &table);
}

// One that has room, and one that has none.
fn prepared(rt: &impl Print) {
    let mut index = [0u32; 3];
    prepared_in(rt, b"prepared", &mut index);
    let mut short = [0u32; 2];
    prepared_in(rt, b"prepared, 2 words", &mut short);
}

// Example 12's text: row 0 is no text, row 1 is, row 2 is all 0; and row 1 in data that ends before it.
fn texts(rt: &impl Print) {
    let mut table = [0u64; 15];
    title(rt, b"text");
    let message = b"\x00\x0b\x00\x00\x0a\x00\x00\x00\x01\x00\x00\x50\x02\x00\x00\x00\x41\x00";
    let a = sinotayam::read(&MUTABLE_STRING8, 1, message, Mode::Crate, &mut table);
    cases::lines::answer(rt, a, &table);
    let s = b"\x0a\x00\x00\x00\x01\x00\x00\x50\x02\x00\x00\x00\x41\x00";
    text(rt, &table, 0, s);
    text(rt, &table, 1, s);
    text(rt, &table, 2, s);
    text(
        rt,
        &table,
        1,
        b"\x0a\x00\x00\x00\x01\x00\x00\x50\x02\x00\x00\x00",
    );
}

fn text(rt: &impl Print, table: &[u64], row: usize, s: &[u8]) {
    print_status(rt, sinotayam::texts::text_status(table, row, s));
    title(rt, sinotayam::texts::text(table, row, s));
}

// The type check of example 1's book: the structure passes, an INT32 is no root, there is no type 2; and bytes that are no book. Then of order 3's
// type, for any encoding and for XCDR2 only.
fn checks(rt: &impl Print) {
    title(rt, b"check");
    code(rt, fit::check(&INT32, 1, false));
    code(rt, fit::check(&INT32, 0, false));
    code(rt, fit::check(&INT32, 2, false));
    code(rt, fit::check(b"", 0, false));
    code(rt, fit::check(&ALIKE, 1, false));
    code(rt, fit::check(&ALIKE, 1, true));
}

fn main(rt: HostRuntime) {
    scalars(&rt);
    texts_and_alignment(&rt);
    rooms(&rt);
    lookups(&rt);
    members(&rt);
    chains(&rt);
    lengths(&rt);
    data_lengths(&rt);
    roots(&rt);
    numbers(&rt);
    broken(&rt);
    prepared(&rt);
    texts(&rt);
    checks(&rt);
}
