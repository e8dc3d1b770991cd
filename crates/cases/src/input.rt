// A case as bytes: the book, the root, the message's length and the message.
ghost use Rattle.std.specs.Prelude.{◌≡◌, ◌≤◌, length};
ghost use Rattle.cases.specs.Input.{input_of, Replied};

use book::bytes::{pair_at, quad_at};
use sinotayam::answer::Answer;
use std::io::Read;
use wire::settings::Mode;

// The book's size, the root, and the message's size.
#[derive(Clone, Copy)]
pub struct Case {
    pub book: usize,
    pub root: usize,
    pub message: usize,
}

#[tactic(auto, using(std::proofs::lemmas::Bool::Decides::nat_tests), unfolding(crate::specs::Input::input_of, book::specs::Places::from))]
pub fn input_of(s: &[u8]) -> Option<Case>
    ensures { result ≡ input_of s.now }
{
    let book = quad_at(s, 0, 0) as usize;
    let root = pair_at(s, book, 0);
    let message = quad_at(s, book, 2) as usize;
    let size = book + 6 + message;
    if !(ground::in_range(book as u64, 4, 65536) & (message <= 65536) & (s.len() == size)) {
        return None;
    }
    Some(Case {
        book,
        root,
        message,
    })
}

// Reads the message of a case with its book. Where s is no case, nothing is read.
pub fn read_case(s: &[u8], table: &mut [u64]) -> Option<Answer>
    ensures { Replied (input_of s.now) s.now table.old table.new result }
{
    let case = input_of(s)?;
    let start = case.book + 6;
    let end = start + case.message;
    let message = &s[start..end];
    Some(sinotayam::read(&s[..case.book], case.root, message, Mode::Crate, table))
}

// Reads until buf is full, the input ends or a read fails. Tells how many bytes it put at buf's start.
pub fn read_full(from: &mut impl Read, buf: &mut [u8]) -> usize
    ensures { result ≤ length buf.new }
{
    // No for: how many turns there are, the input says.
    let mut done = 0;
    while done < buf.len() {
        match from.read(&mut buf[done..]) {
            Ok(0) => return done,
            Ok(n) => done += n,
            Err(_) => return done,
        }
    }
    done
}
