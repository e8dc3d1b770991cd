// Value rows in the lent table. Nobody else knows how many words a row has.
ghost use Rattle.std.specs.Prelude.{◌≡◌, ◌+◌, ◌*◌, ◌≤◌, length};
ghost use Rattle.table.specs.Rows.{width, no_room, row_at};
ghost use Rattle.table.specs.Code.Rows.{put_row, counting, cleared_from};

#[derive(Clone, Copy)]
pub struct Row {
    pub kind: u64,
    pub id: u64,
    pub a: u64,
    pub b: u64,
    pub place: u64,
}

// The words of a row.
pub const WIDTH: usize = 5;

// Whether the table has no place for a row after its first n.
pub fn is_full(t: &[u64], n: usize) -> bool
    ensures { result ≡ no_room t.now n }
{
    t.len() / WIDTH <= n
}

// Writes row n.
pub fn put_row(t: &mut [u64], n: usize, r: Row)
    requires { width * n + width ≤ length t.old }
    ensures { t.new ≡ put_row t.old n r }
{
    let i = WIDTH * n;
    t[i] = r.kind;
    t[i + 1] = r.id;
    t[i + 2] = r.a;
    t[i + 3] = r.b;
    t[i + 4] = r.place;
}

// Sets how many rows stand beneath row n, which is there already.
pub fn put_beneath(t: &mut [u64], n: usize, beneath: u64)
    requires { width * n + width ≤ length t.old }
    ensures { t.new ≡ put_row t.old n (counting (row_at t.old n) beneath) }
{
    t[WIDTH * n + 3] = beneath;
}

// Row n as the table holds it; past the last whole row it is all 0.
pub fn row_at(t: &[u64], n: usize) -> Row
    ensures { result ≡ row_at t.now n }
{
    if t.len() / WIDTH <= n {
        return Row {
            kind: 0,
            id: 0,
            a: 0,
            b: 0,
            place: 0,
        };
    }
    let i = WIDTH * n;
    Row {
        kind: t[i],
        id: t[i + 1],
        a: t[i + 2],
        b: t[i + 3],
        place: t[i + 4],
    }
}

// Leaves the first n rows, and sets every word after them to 0.
pub fn clear_after(t: &mut [u64], n: usize)
    requires { width * n ≤ length t.old }
    ensures { t.new ≡ cleared_from (width * n) t.old }
{
    t[WIDTH * n..].fill(0);
}
