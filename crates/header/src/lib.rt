// The header of a record: its version, the numbers of its names, and its size, as the tests 2 to 4 ask for them.

#![tactic(auto)]

ghost use Rattle.std.specs.Prelude.{◌≡◌};
ghost use Rattle.matrix.specs.Shape.{limits, known_version, in_range, sized};
ghost use Rattle.header.specs.Headed.{Headed};

use matrix::{MOST_PLAIN, MOST_SUBJECTS, Shape};

// The version is one that is read.
pub fn known_version(version: usize) -> bool
    ensures { result ≡ known_version version }
{
    matches!(version, 1 | 2)
}

// n and p are within the limits.
pub fn in_range(f: Shape) -> bool
    ensures { result ≡ in_range limits f }
{
    (1..=MOST_SUBJECTS).contains(&f.n) && f.p <= MOST_PLAIN
}

// L, which counts the bytes from byte 5 on, and the true length are those of the shape.
pub fn right_size(b: &[u8], f: Shape) -> bool
    requires { Headed b.now f }
    ensures { result ≡ sized b.now }
{
    let size = f.first + f.width * (f.n * (f.n + f.p));
    octets::four(b, 1) as usize == size - 5 && b.len() == size
}
