// Whether a right is held, on a record that is of the right form.

#![tactic(auto)]

ghost use Rattle.std.specs.Prelude.{◌≡◌, ◌<◌};
ghost use Rattle.matrix.specs.Shape.{bits_of};
ghost use Rattle.matrix.specs.Refusals.{holding_of};
ghost use Rattle.matrix.specs.Calls.{question_fits, holds_on};
ghost use Rattle.codec.specs.Bits.{word_bits};
ghost use Rattle.codec.specs.ShapeRight.{ShapeRight};
ghost use Rattle.cells.specs.Station.{Cell, Station};
ghost use Rattle.holding.specs.Held.{held_on};
ghost use Rattle.holding.specs.Mask.{mask_of};

use matrix::{Refusal, Shape};

// The mask of a right's code: the bits by which that right is held (Manual 1.3). A basic right is held by the bit of its starred form too, of
// which the code is odd, and by that of own, which is bit 0. The kind of the right makes no branch here: it is a digit, 1 or 0.
fn mask_of(code: usize) -> usize
    requires { code < word_bits }
    ensures { result ≡ mask_of code }
{
    let basic = (1 < code) as usize;
    (1 << code) | (1 << (code | basic)) | basic
}

// Whether s holds the right of a code over the name of column o: one of the mask's bits is set in the cell.
pub fn is_held(b: &[u8], f: Shape, s: usize, o: usize, right: usize) -> bool
    requires { Cell b.now f s o × (right < bits_of f) }
    ensures { result ≡ holds_on b.now s o right }
{
    cells::cell(b, f, s, o) & mask_of(right) != 0
}

// Whether the numbers of a question are those of a row, a column and a right of the record.
pub fn question_fits(f: Shape, s: usize, o: usize, right: usize) -> bool
    requires { ShapeRight f }
    ensures { result ≡ question_fits f s o right }
{
    s < f.n && o < cells::columns_of(f) && right < cells::bits_of(f)
}

// Whether s holds a right over the name of column o, numbers as given: refusal 7, or yes or no.
pub fn held_on(b: &[u8], f: Shape, s: usize, o: usize, right: usize) -> Result<bool, Refusal>
    requires { Station b.now f }
    ensures { holding_of result ≡ held_on b.now s o right }
{
    if !question_fits(f, s, o, right) {
        return Err(Refusal::Bounds);
    }
    Ok(is_held(b, f, s, o, right))
}
