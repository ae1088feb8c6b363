// The cells of a record's bytes: where one stands, and reading and storing one.

#![tactic(auto)]

ghost use Rattle.std.specs.Prelude.{◌≡◌, ◌<◌};
ghost use Rattle.matrix.specs.Bytes.{bit};
ghost use Rattle.matrix.specs.Shape.{columns, bits_of, basics_of, cell_place};
ghost use Rattle.matrix.specs.Reading.{cell_at, set_cell};
ghost use Rattle.codec.specs.Bits.{word_bits};
ghost use Rattle.codec.specs.ShapeRight.{ShapeRight};
ghost use Rattle.cells.specs.Station.{Cell};
ghost use Rattle.cells.specs.Places.{row_bytes, bit_place};

use matrix::Shape;

// The number of columns, the bits of a cell, and the number of basic rights that they have room for.
// These are functions and no methods, since `Shape` is declared in another crate, for the definitions.
pub fn columns_of(f: Shape) -> usize
    requires { ShapeRight f }
    ensures { result ≡ columns f }
{
    f.n + f.p
}

pub fn bits_of(f: Shape) -> usize
    requires { ShapeRight f }
    ensures { result ≡ bits_of f }
{
    8 * f.width
}

pub fn basics_of(f: Shape) -> usize
    requires { ShapeRight f }
    ensures { result ≡ basics_of f }
{
    4 * f.width - 1
}

// The bytes of a row.
pub fn row_bytes(f: Shape) -> usize
    requires { ShapeRight f }
    ensures { result ≡ row_bytes f }
{
    f.width * columns_of(f)
}

// The place of the first byte of the cell of row r and column c.
pub fn place(f: Shape, r: usize, c: usize) -> usize
    requires { ShapeRight f × (r < f.n) × (c < columns f) }
    ensures { result ≡ cell_place f r c }
{
    f.first + f.width * (r * columns_of(f) + c)
}

// The cell of row r and column c: two bytes or four.
pub fn cell(b: &[u8], f: Shape, r: usize, c: usize) -> usize
    requires { Cell b.now f r c }
    ensures { result ≡ cell_at b.now r c }
{
    let at = place(f, r, c);
    if f.width == 2 {
        octets::two(b, at) as usize
    } else {
        octets::four(b, at) as usize
    }
}

// The cell of row r and column c becomes v, without what is above its bits.
pub fn store(b: &mut [u8], f: Shape, r: usize, c: usize, v: usize)
    requires { Cell b.old f r c }
    ensures { b.new ≡ set_cell b.old r c v }
{
    let at = place(f, r, c);
    if f.width == 2 {
        octets::put_two(b, at, (v % 65536) as u16);
    } else {
        octets::put_four(b, at, (v % 4294967296) as u32);
    }
}

// Whether bit j of v is set.
pub fn bit_of(v: usize, j: usize) -> bool
    requires { j < word_bits }
    ensures { result ≡ bit j v }
{
    (v >> j) % 2 == 1
}

// The place of the byte that has bit j of the cell of row r and column c.
pub fn bit_place(f: Shape, r: usize, c: usize, j: usize) -> usize
    requires { ShapeRight f × (r < f.n) × (c < columns f) × (j < bits_of f) }
    ensures { result ≡ bit_place f r c j }
{
    place(f, r, c) + (f.width - 1 - j / 8)
}

// Whether the cell of row r and column c has bit j: the bit's byte alone is read.
pub fn has(b: &[u8], f: Shape, r: usize, c: usize, j: usize) -> bool
    requires { Cell b.now f r c × (j < bits_of f) }
    ensures { result ≡ bit j (cell_at b.now r c) }
{
    bit_of(b[bit_place(f, r, c, j)] as usize, j % 8)
}
