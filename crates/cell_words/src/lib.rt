// The cells of a record as words of four bytes, of which a cell of two bytes is a half: one read and stored, and whether a shape has room for all.

#![tactic(auto)]

ghost use Rattle.std.specs.Prelude.{◌≡◌, ℕ, ◌+◌, ◌≤◌, length};
ghost use Rattle.matrix.specs.Bytes.{number_at, set_number};
ghost use Rattle.matrix.specs.Shape.{basics_of};
ghost use Rattle.matrix.specs.Reading.{state_of};
ghost use Rattle.matrix.specs.Converting.{basic_from};
ghost use Rattle.codec.specs.ShapeRight.{ShapeRight, TwoOrFour};
ghost use Rattle.cell_words.specs.Wanted.{Wanted};
ghost use Rattle.cell_words.specs.Words.{Turned};
ghost use Rattle.cell_words.specs.Places.{cells_of, place_of};

use matrix::Shape;

// The number of the cells.
pub fn cells_of(f: Shape) -> usize
    requires { ShapeRight f }
    ensures { result ≡ cells_of f }
{
    f.n * cells::columns_of(f)
}

// The place of the cell numbered k, row after row; of none, the end of the last.
pub fn place_of(f: Shape, k: usize) -> usize
    requires { ShapeRight f × (k ≤ cells_of f) }
    ensures { result ≡ place_of f k }
{
    f.first + f.width * k
}

// The cell of `width` bytes from `at` on, as a word whose first byte is the lowest, so that the compiler may read all at once. A cell of two bytes
// is the upper half of its word.
pub fn word(b: &[u8], at: usize, width: usize) -> u32
    requires { TwoOrFour width × (at + width ≤ length b.now) }
    ensures { Turned result (number_at b.now at width) }
{
    if width == 2 {
        u16::from_le_bytes([b[at], b[at + 1]]) as u32 * 65536
    } else {
        u32::from_le_bytes([b[at], b[at + 1], b[at + 2], b[at + 3]])
    }
}

// The cell of `width` bytes from `at` on becomes that of the word v: where it has two bytes, the word's upper half.
pub fn put_word(out: &mut [u8], at: usize, width: usize, v: u32)
    requires { TwoOrFour width × (at + width ≤ length out.old) }
    ensures { (m : ℕ) → Turned v m → out.new ≡ set_number out.old at width m }
{
    let bytes = v.to_le_bytes();
    if width == 2 {
        out[at..at + 2].copy_from_slice(&bytes[2..]);
    } else {
        out[at..at + 4].copy_from_slice(&bytes);
    }
}

// Whether a basic right is set that shape g has no room for. A cell of four bytes has it in its first two, the lower half of its word: the words of
// all cells are joined, without a branch, and looked at in the end.
pub fn too_wide(b: &[u8], f: Shape, g: Shape) -> bool
    requires { Wanted b.now f g }
    ensures { result ≡ basic_from (basics_of g) f (state_of b.now) }
{
    if f.width <= g.width {
        return false;
    }
    let mut seen: u32 = 0;
    for k in 0..cells_of(f) {
        seen |= word(b, place_of(f, k), f.width);
    }
    seen % 65536 != 0
}
