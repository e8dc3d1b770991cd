// An answer as lines on standard output. A write that fails is passed over, and what follows is written all the same.
ghost use Rattle.std.specs.Prelude.{◌≡◌};

use sinotayam::answer::Answer;
use table::rows::row_at;
use wire::cursor::Told;

fn number(rt: &impl Print, n: u64) {
    let _ = rt.print(n);
}

fn text(rt: &impl Print, s: &[u8]) {
    let _ = rt.write_all(s);
}

// Row i: kind, id, a, b, place.
fn line(rt: &impl Print, table: &[u64], i: usize) {
    let row = row_at(table, i);
    number(rt, row.kind);
    text(rt, b" ");
    number(rt, row.id);
    text(rt, b" ");
    number(rt, row.a);
    text(rt, b" ");
    number(rt, row.b);
    text(rt, b" ");
    number(rt, row.place);
    text(rt, b"\n");
}

// "answer N rows K", and the rows. Tells how many rows it wrote.
pub fn answer(rt: &impl Print, a: Answer, table: &[u64]) -> usize
    ensures { result ≡ a.rows }
{
    let rows = a.rows;
    text(rt, b"answer ");
    number(rt, u64::from(a.status.code()));
    text(rt, b" rows ");
    number(rt, rows as u64);
    text(rt, b"\n");
    // No for: how far it came is what the clause tells.
    let mut i = 0;
    while i < rows {
        line(rt, table, i);
        i += 1;
    }
    i
}

// "told P N": where the read that ran short began, and the bytes that it still needed. Tells how many.
pub fn told(rt: &impl Print, x: Told) -> usize
    ensures { result ≡ x.need }
{
    text(rt, b"told ");
    number(rt, x.position as u64);
    text(rt, b" ");
    number(rt, x.need as u64);
    text(rt, b"\n");
    x.need
}
