// The searches over the rows of a column: the lowest row with a bit, whether any row but one has it, and the lowest block of four rows of which
// one has it. Each reads a single byte of a row's cell.

#![tactic(auto)]

ghost use Rattle.std.specs.Prelude.{◌≡◌, cond, ◌+◌, ◌*◌, ◌/◌, ◌<◌, eqb, get_or};
ghost use Rattle.matrix.specs.Bounded.{any, least};
ghost use Rattle.matrix.specs.Bytes.{bit};
ghost use Rattle.matrix.specs.Shape.{columns, bits_of};
ghost use Rattle.matrix.specs.Reading.{cell_at};
ghost use Rattle.cells.specs.Station.{Station, Cell};
ghost use Rattle.cells.specs.Places.{low_place};
ghost use Rattle.row_search.specs.SomeBelow.{some_below};
ghost use Rattle.row_search.specs.Rows.{row_has};
ghost use Rattle.row_search.specs.Blocks.{block_has};

use matrix::Shape;

// The lowest row that has bit j in column c.
pub fn first_row(b: &[u8], f: Shape, c: usize, j: usize) -> Option<usize>
    requires { Station b.now f × (c < columns f) × (j < bits_of f) }
    ensures { result ≡ some_below f.n (least f.n (λ r. bit j (cell_at b.now r c))) }
{
    (0..f.n).find(
        |&r|
            requires { Cell b.now f r c × (j < bits_of f) }
        { cells::has(b, f, r, c, j) },
    )
}

// The lowest byte of the cell of row r and column c, which is its last. Bits 0 to 7 stand in it.
fn low_byte(b: &[u8], f: Shape, r: usize, c: usize) -> usize
    requires { Cell b.now f r c }
    ensures { result ≡ get_or b.now (low_place f r c) 0 }
{
    b[cells::place(f, r, c) + (f.width - 1)] as usize
}

// The byte v of row r in a search that leaves row `skip` out: a choice between two numbers, and no branch round the read.
fn unless_skipped(v: usize, r: usize, skip: usize) -> usize
    ensures { result ≡ cond (eqb r skip) 0 v }
{
    if r == skip { 0 } else { v }
}

// Whether a row but `skip` has bit j in column c. It reads the lowest bytes of all rows, without a branch, and asks at the end.
pub fn some_row(b: &[u8], f: Shape, c: usize, j: usize, skip: usize) -> bool
    requires { Station b.now f × (c < columns f) × (j < 8) }
    ensures { result ≡ any f.n (row_has b.now c j skip) }
{
    let mut seen = 0;
    for r in 0..f.n {
        seen |= unless_skipped(low_byte(b, f, r, c), r, skip);
    }
    cells::bit_of(seen, j)
}

// Whether one of the four rows of block q, 4 q to 4 q + 3, has bit j in column c: their lowest bytes are joined, and tested once.
fn one_of_four(b: &[u8], f: Shape, c: usize, j: usize, q: usize) -> bool
    requires { Station b.now f × (c < columns f) × (j < 8) × (4 * q + 3 < f.n) }
    ensures { result ≡ block_has b.now c j q }
{
    let r = 4 * q;
    let two = low_byte(b, f, r, c) | low_byte(b, f, r + 1, c);
    let all = two | low_byte(b, f, r + 2, c) | low_byte(b, f, r + 3, c);
    cells::bit_of(all, j)
}

// The lowest block of four rows of which one has bit j, of 0 to 7, in column c. Where none has, it is the number of whole blocks, since a search
// row by row goes on after them.
pub fn first_block(b: &[u8], f: Shape, c: usize, j: usize) -> usize
    requires { Station b.now f × (c < columns f) × (j < 8) }
    ensures { result ≡ least (f.n / 4) (block_has b.now c j) }
{
    let blocks = f.n / 4;
    let found = (0..blocks).find(
        |&q|
            requires { Station b.now f × (c < columns f) × (j < 8) × (4 * q + 3 < f.n) }
        { one_of_four(b, f, c, j, q) },
    );
    found.unwrap_or(blocks)
}
