// A record in another version: by which test it is refused, and writing it there.

#![tactic(auto)]

ghost use Rattle.std.specs.Prelude.{◌≡◌, true, length};
ghost use Rattle.matrix.specs.Shape.{limits, known_version, size_of};
ghost use Rattle.matrix.specs.Reading.{content, state_of, bytes_of};
ghost use Rattle.matrix.specs.Record.{record_refusal};
ghost use Rattle.matrix.specs.Refusals.{numbers_by};
ghost use Rattle.matrix.specs.Converting.{convert_result, convert_output};
ghost use Rattle.codec.specs.ShapeRight.{ShapeRight};
ghost use Rattle.cells.specs.Station.{Station};
ghost use Rattle.converting.specs.Needs.{Fits};

use matrix::{Refusal, Shape};

// The bytes before those that L counts: the version and L itself.
const COUNTED_FROM: usize = 5;

// The bytes of a record.
fn size_of(f: Shape) -> usize
    requires { ShapeRight f }
    ensures { result ≡ size_of f }
{
    cell_words::place_of(f, cell_words::cells_of(f))
}

// The header of a record of shape g: version, L, n and p.
fn put_header(out: &mut [u8], g: Shape)
    requires { ShapeRight g × (length out.old ≡ size_of g) }
    ensures { Station out.new g }
{
    let count = size_of(g) - COUNTED_FROM;
    out[0] = g.version as u8;
    octets::put_four(out, 1, count as u32);
    out[5] = g.n as u8;
    out[6] = g.p as u8;
}

// The record b of shape f, in shape g, fills `out`: the header, and each cell.
// The cells go by number, since no clause says what `chunks_exact_mut` leaves in a slice.
fn write(b: &[u8], f: Shape, out: &mut [u8], g: Shape)
    requires { Fits b.now f g × (length out.old ≡ size_of g) }
    ensures { out.new ≡ bytes_of (content g (state_of b.now)) }
{
    put_header(out, g);
    for k in 0..cell_words::cells_of(f) {
        let from = cell_words::place_of(f, k);
        let to = cell_words::place_of(g, k);
        cell_words::put_word(out, to, g.width, cell_words::word(b, from, f.width));
    }
}

// The same, where the record may already be of the version: then it is copied.
fn fill(b: &[u8], f: Shape, out: &mut [u8], g: Shape)
    requires { Fits b.now f g × (length out.old ≡ size_of g) }
    ensures { out.new ≡ bytes_of (content g (state_of b.now)) }
{
    if f.version == g.version {
        out.copy_from_slice(b);
    } else {
        write(b, f, out, g);
    }
}

// A record that passed 1 to 5, in another version at the start of `out`, and the bytes of the new record. What is after it there stays.
pub fn convert(b: &[u8], f: Shape, version: usize, out: &mut [u8]) -> Result<usize, Refusal>
    requires { Station b.now f × (record_refusal limits b.now ≡ 0) × (known_version version ≡ true) }
    ensures result { numbers_by (λ size. size) result ≡ convert_result limits version b.now out.old }
    ensures output { out.new ≡ convert_output limits version b.now out.old }
{
    let g = opening::shape_in(version, f.n, f.p);
    let size = size_of(g);
    if cell_words::too_wide(b, f, g) {
        return Err(Refusal::HighRight);
    }
    if out.len() < size {
        return Err(Refusal::BufferShort);
    }
    fill(b, f, &mut out[..size], g);
    Ok(size)
}
