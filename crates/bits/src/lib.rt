// Bits and cells of a record that is of the right form changed: a right given or taken, a column or a row cleared, own inherited.

#![tactic(auto)]

ghost use Rattle.std.specs.Prelude.{◌≡◌, ◌<◌};
ghost use Rattle.matrix.specs.Names.{name_of};
ghost use Rattle.matrix.specs.State.{put, clear};
ghost use Rattle.matrix.specs.Shape.{columns};
ghost use Rattle.matrix.specs.Reading.{state_of};
ghost use Rattle.matrix.specs.Changes.{inherit, in_column};
ghost use Rattle.codec.specs.Bits.{with_bit};
ghost use Rattle.cells.specs.Station.{Station, Cell};
ghost use Rattle.states.specs.Needs.{RightIn, BitIn};
ghost use Rattle.bits.specs.Became.{Became};
ghost use Rattle.bits.specs.Passed.{in_row};
ghost use Rattle.codec.specs.ShapeRight.{TwoOrFour};
ghost use Rattle.bits.specs.OwnBytes.{last_byte, own_joined};

use matrix::{Name, Right, Shape};

// The byte v with bit j set or cleared.
fn with_bit(v: u8, j: usize, on: bool) -> u8
    requires { j < 8 }
    ensures { result ≡ with_bit j on v }
{
    if on { v | (1 << j) } else { v & !(1 << j) }
}

// Right y is given to row w in column c, or taken from it.
fn put_in_column(b: &mut [u8], f: Shape, y: Right, w: usize, c: usize, on: bool)
    requires { Cell b.old f w c × RightIn f y }
    ensures { Became b.old b.new (put y w (name_of f.n c) on (state_of b.old)) }
{
    let j = states::code_of(y);
    let at = cells::bit_place(f, w, c, j);
    b[at] = with_bit(b[at], j % 8, on);
}

// Right y over x is given to row w, or taken from it.
pub fn put_right(b: &mut [u8], f: Shape, y: Right, w: usize, x: Name, on: bool)
    requires { BitIn b.old f y w x }
    ensures { Became b.old b.new (put y w x on (state_of b.old)) }
{
    let c = states::column_of(x);
    put_in_column(b, f, y, w, c, on);
}

// Every cell of column c is cleared. They lie apart, so each is stored by itself.
pub fn clear_column(b: &mut [u8], f: Shape, c: usize)
    requires { Station b.old f × (c < columns f) }
    ensures { Became b.old b.new (clear (in_column (name_of f.n c)) (state_of b.old)) }
{
    for w in 0..f.n {
        cells::store(b, f, w, c, 0);
    }
}

// Every cell of row r is cleared: they lie one after another.
pub fn clear_row(b: &mut [u8], f: Shape, r: usize)
    requires { Station b.old f × (r < f.n) }
    ensures { Became b.old b.new (clear (in_row r) (state_of b.old)) }
{
    let at = cells::place(f, r, 0);
    b[at..at + cells::row_bytes(f)].fill(0);
}

// 1 where byte k of a row is the last of its cell, which has two bytes or four, and else 0. It is made of digits, so that the compiler may take
// many bytes at once.
fn last_byte(width: usize, k: usize) -> u8
    requires { TwoOrFour width }
    ensures { result ≡ last_byte width k }
{
    (k % 2) as u8 & ((k / 2 % 2) as u8 | (width == 2) as u8)
}

// The byte x at place k of a row, joined with own where the byte y of another row has it: own is bit 0 of a cell's last byte.
fn own_joined(x: u8, y: u8, width: usize, k: usize) -> u8
    requires { TwoOrFour width }
    ensures { result ≡ own_joined width x y k }
{
    x | (y & last_byte(width, k))
}

// Row i gains own over all that row s owns. The rows are taken byte by byte as they lie, so that the compiler may take many at once.
// Both are parts of one slice, in either order or the same, so that no two slices can lend them: they are read and written by index.
pub fn inherit_own(b: &mut [u8], f: Shape, i: usize, s: usize)
    requires { Station b.old f × (i < f.n) × (s < f.n) }
    ensures { Became b.old b.new (inherit i s (state_of b.old)) }
{
    let to = cells::place(f, i, 0);
    let from = cells::place(f, s, 0);
    let bytes = cells::row_bytes(f);
    for k in 0..bytes {
        b[to + k] = own_joined(b[to + k], b[from + k], f.width, k);
    }
}
