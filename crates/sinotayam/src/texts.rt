// The text call: the part of the data that a text row points to.
ghost use Rattle.std.specs.Prelude.{◌≡◌};
ghost use Rattle.sinotayam.specs.Answer.{code_of};
ghost use Rattle.sinotayam.specs.Text.{span_of, span_in, text_of, text_number};

use crate::answer::Status;
use table::rows::{Row, row_at};

// The kinds of text rows: numbers, since a row's kind is a word of the lent table, which may hold any.
const STRING8: u64 = 16;

const STRING16: u64 = 17;

// Where a text stands in the data: its start, and how many bytes. A row may hold any words, whose sums a word need not hold.
#[tactic(auto, using(std::proofs::lemmas::Bool::Decides::nat_tests), unfolding(crate::specs::Text::span_of, crate::specs::Text::text_bytes))]
fn span_of(r: Row, size: usize) -> Option<(usize, usize)>
    ensures { result ≡ span_of r size }
{
    let start = r.a as usize;
    let units = r.b as usize;
    let bytes = match r.kind {
        STRING8 => units,
        STRING16 => units.checked_add(units)?,
        _ => return None,
    };
    if size < start.checked_add(bytes)? {
        return None;
    }
    Some((start, bytes))
}

fn span_in(table: &[u64], row: usize, s: &[u8]) -> Option<(usize, usize)>
    ensures { result ≡ span_in table.now row s.now }
{
    span_of(row_at(table, row), s.len())
}

// The text of a row: that very part of the data, or an empty part.
#[tactic(auto, using(std::proofs::lemmas::Bool::Decides::nat_tests), unfolding(crate::specs::Text::part_at))]
pub fn text<'a>(table: &[u64], row: usize, s: &'a [u8]) -> &'a [u8]
    ensures { result.now ≡ text_of table.now row s.now }
{
    match span_in(table, row, s) {
        Some((start, n)) => {
            let end = start + n;
            &s[start..end]
        }
        None => &s[0..0],
    }
}

// Which of the two it is: Read or NotText.
#[tactic(auto, using(std::proofs::lemmas::Bool::Decides::nat_tests), unfolding(crate::specs::Text::span_number, crate::specs::Answer::code_of))]
pub fn text_status(table: &[u64], row: usize, s: &[u8]) -> Status
    ensures { code_of result ≡ text_number table.now row s.now }
{
    match span_in(table, row, s) {
        Some(_) => Status::Read,
        None => Status::NotText,
    }
}
