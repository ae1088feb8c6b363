// The shape of a record, which its version and its bytes 5 and 6 fix: made here from its bytes, and handed on as one value.

#![tactic(auto)]

ghost use Rattle.std.specs.Prelude.{◌≡◌, ◌≤◌, ◌<◌, length, get_or};
ghost use Rattle.matrix.specs.Shape.{limits, header_bytes, width_of, first_of, shape_in, shape_of};
ghost use Rattle.matrix.specs.Record.{record_refusal};

use matrix::{HEADER_BYTES, Shape};

// The byte at a place, as a number.
pub fn byte(b: &[u8], j: usize) -> usize
    requires { j < length b.now }
    ensures { result ≡ get_or b.now j 0 }
{
    b[j] as usize
}

// The bytes of a cell in a version.
fn width_of(version: usize) -> usize
    ensures { result ≡ width_of version }
{
    if version == 1 { 2 } else { 4 }
}

// The place of the first cell in a version.
fn first_of(version: usize) -> usize
    ensures { result ≡ first_of version }
{
    HEADER_BYTES
}

// The shape of a version with n subject names and p plain names.
pub fn shape_in(version: usize, n: usize, p: usize) -> Shape
    ensures { result ≡ shape_in version n p }
{
    Shape {
        version,
        n,
        p,
        width: width_of(version),
        first: first_of(version),
    }
}

// The shape that a record's bytes say.
pub fn shape(b: &[u8]) -> Shape
    requires { header_bytes ≤ length b.now }
    ensures { result ≡ shape_of b.now }
{
    shape_in(byte(b, 0), byte(b, 5), byte(b, 6))
}

// The shape of a record that is not turned down. The bytes of a cell are twice the version's number, as a product: from a choice of one of two
// numbers the compiler would make a shift.
pub fn valid_shape(b: &[u8]) -> Shape
    requires { record_refusal limits b.now ≡ 0 }
    ensures { result ≡ shape_of b.now }
{
    let version = byte(b, 0);
    Shape {
        version,
        n: byte(b, 5),
        p: byte(b, 6),
        width: 2 * version,
        first: first_of(version),
    }
}
