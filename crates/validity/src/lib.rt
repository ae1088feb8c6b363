// Whether a record is turned down, and by which of the refusals 1 to 5.

#![tactic(auto)]

ghost use Rattle.std.specs.Prelude.{◌≡◌, true, length, replicate, IfOk};
ghost use Rattle.matrix.specs.Shape.{limits, most_subjects, shape_of};
ghost use Rattle.matrix.specs.Reading.{state_of};
ghost use Rattle.matrix.specs.Record.{valid_matrix, record_refusal};
ghost use Rattle.matrix.specs.Refusals.{number_of};
ghost use Rattle.cells.specs.Station.{Station};
ghost use Rattle.codec.specs.ShapeRight.{ShapeRight};
ghost use Rattle.columns.specs.Cells.{matrix_of};
ghost use Rattle.validity.specs.Few.{FewColumns};
ghost use Rattle.validity.specs.Opens.{Opens};
ghost use Rattle.validity.specs.Whole.{Scanned};

use columns::{COUNTED, Cells, OneLane, TwoLanes, Width};
use lanes::{Lanes, Matrix, UPPER};
use matrix::{HEADER_BYTES, MOST_SUBJECTS, Refusal, Shape};
use plains::Columns;
use std::marker::PhantomData;
use tallies::AT_ONCE;

// The lanes of the bytes of a record of this shape.
fn lanes_in<'a>(b: &'a [u8], f: Shape) -> Lanes<'a>
    requires { Station b.now f }
    ensures bytes { result.bytes.now ≡ b.now }
    ensures place { result.matrix ≡ matrix_of f }
{
    Lanes {
        bytes: b,
        matrix: Matrix {
            first: f.first,
            rows: f.n,
            lanes: f.width / 2 * (f.n + f.p),
        },
    }
}

// The matrix is valid, by the tests of the subjects, whose lanes are counted, of the plain columns and of the table of owners, one after another.
// The table `owners` is left with a guess of who owns each subject, of which nothing is promised.
fn cells_valid<W: Width>(
    lanes: Lanes,
    f: Shape,
    tally: &[u8; COUNTED],
    odd: &[u8; COUNTED],
    marks: &[u8; COUNTED],
    owners: &mut [u8],
) -> bool
    requires scanned { Scanned lanes.bytes.now f W.LANES lanes.matrix tally.now odd.now marks.now }
    requires room { length owners.old ≡ lanes.matrix.rows }
    ensures { result ≡ valid_matrix (shape_of lanes.entry.bytes.now) (state_of lanes.entry.bytes.now) }
{
    let cells = Cells::<W> {
        lanes,
        width: PhantomData,
    };
    if !cells.subjects(tally, odd) {
        return false;
    }
    let columns = Columns::<W> {
        lanes,
        subjects: lanes.matrix.rows,
        plain: f.p,
        width: PhantomData,
    };
    if !plains::plains(&columns) {
        return false;
    }
    columns::owners::<W>(owners, marks);
    owner_table::rooted(owners)
}

// The matrix of a record of this shape is valid, by these tests. Its cells are lanes, one each or two.
fn tested(b: &[u8], f: Shape, owners: &mut [u8; MOST_SUBJECTS]) -> bool
    requires { Station b.now f }
    ensures { result ≡ valid_matrix (shape_of b.now) (state_of b.now) }
{
    let lanes = lanes_in(b, f);
    let mut tally = [0u8; COUNTED];
    let mut odd = [0u8; COUNTED];
    let mut marks = [0u8; COUNTED];
    counting::count(&mut tally, &mut odd, &mut marks, lanes, f.width / 2 * f.n);
    let owners = &mut owners[..f.n];
    if f.width == 2 {
        cells_valid::<OneLane>(lanes, f, &tally, &odd, &marks, owners)
    } else {
        cells_valid::<TwoLanes>(lanes, f, &tally, &odd, &marks, owners)
    }
}

// A record of this shape has cells of one lane, no more subjects and no more plain columns than are counted and merged at once, and as many columns
// as that or more.
fn few_columns(f: Shape) -> bool
    requires { ShapeRight f }
    ensures { result ≡ true → FewColumns f }
{
    f.width == 2 && f.n <= AT_ONCE && f.p <= AT_ONCE && AT_ONCE <= f.n + f.p
}

// The matrix of such a record is valid, by the same tests with its counts in a few numbers. They pass only where all subjects exist and each owner
// has a lower number than what it owns, as in most records; where they fail, nothing is said.
fn few_valid(b: &[u8], f: Shape, owners: &mut [u8; MOST_SUBJECTS]) -> bool
    requires { Station b.now f × FewColumns f }
    ensures { result ≡ true → true ≡ valid_matrix (shape_of b.now) (state_of b.now) }
{
    let lanes = lanes_in(b, f);
    let n = lanes.matrix.rows;
    let cells = Cells::<OneLane> {
        lanes,
        width: PhantomData,
    };
    let columns = Columns::<OneLane> {
        lanes,
        subjects: n,
        plain: f.p,
        width: PhantomData,
    };
    let counts = tallies::rows(lanes, 0, false);
    if !cells.all_present() {
        return false;
    }
    if !few_subjects::counts_fit(&counts, n) {
        return false;
    }
    if !plains::one_part(&columns) {
        return false;
    }
    tallies::put_places(owners, 0, &counts.since, UPPER, n);
    owner_table::descends(&owners[..n])
}

// The matrix of a record of this shape is valid, where that is soon seen; where it is not, nothing is said.
fn surely_valid(b: &[u8], f: Shape, owners: &mut [u8; MOST_SUBJECTS]) -> bool
    requires { Station b.now f }
    ensures { result ≡ true → true ≡ valid_matrix (shape_of b.now) (state_of b.now) }
{
    few_columns(f) && few_valid(b, f, owners)
}

// The matrix of a record of this shape is valid.
fn valid(b: &[u8], f: Shape, owners: &mut [u8; MOST_SUBJECTS]) -> bool
    requires { Station b.now f × (length owners.old ≡ most_subjects) }
    ensures verdict { result ≡ valid_matrix (shape_of b.now) (state_of b.now) }
    ensures table { length owners.new ≡ most_subjects }
{
    surely_valid(b, f, owners) || tested(b, f, owners)
}

// Whether a record is turned down, and by which refusal, 1 to 5. The table `owners`, of zeros at first, is left with a guess of who owns each
// subject, for callers that follow owners: they test each guess, so nothing is promised of it.
fn check(b: &[u8], owners: &mut [u8; MOST_SUBJECTS]) -> Result<(), Refusal>
    requires { owners.old ≡ replicate most_subjects 0 }
    ensures number { number_of result ≡ record_refusal limits b.now }
    ensures station { IfOk result (λ _. Station b.now (shape_of b.now)) }
    ensures table { length owners.new ≡ most_subjects }
{
    if b.len() < HEADER_BYTES {
        return Err(Refusal::RecordShort);
    }
    let f = opening::shape(b);
    if !header::known_version(f.version) {
        return Err(Refusal::Version);
    }
    if !header::in_range(f) {
        return Err(Refusal::Counts);
    }
    if !header::right_size(b, f) {
        return Err(Refusal::RecordLength);
    }
    if valid(b, f, owners) {
        Ok(())
    } else {
        Err(Refusal::NotValid)
    }
}

// Opens a record: its shape, or the refusal, 1 to 5, that turns it down. Compiled into its callers, which so know what is the same in all shapes;
// a shape that `check` answered would stand in memory.
#[inline(always)]
pub fn open_with(b: &[u8], owners: &mut [u8; MOST_SUBJECTS]) -> Result<Shape, Refusal>
    requires { owners.old ≡ replicate most_subjects 0 }
    ensures opened { Opens b.now result }
    ensures table { length owners.new ≡ most_subjects }
{
    check(b, owners)?;
    Ok(opening::shape(b))
}

// The same, where nobody follows owners.
#[inline(always)]
pub fn open(b: &[u8]) -> Result<Shape, Refusal>
    ensures { Opens b.now result }
{
    let mut owners = [0u8; MOST_SUBJECTS];
    open_with(b, &mut owners)
}
