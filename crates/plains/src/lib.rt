// The plain columns of a record. They are merged and tested part by part, so that no list of a whole row is needed.

#![tactic(auto)]

ghost use Rattle.std.specs.Prelude.{◌≡◌, ◌+◌, ◌/◌, ◌≤◌, ◌<◌, length, get_or};
ghost use Rattle.matrix.specs.Bounded.{all};
ghost use Rattle.lanes.specs.Lanes.{seen_at};
ghost use Rattle.columns.specs.Cells.{most_columns, lanes_of, last_lane};
ghost use Rattle.plains.specs.Checks.{plain_test, plain_wrong, wrong_of};
ghost use Rattle.plains.specs.Parts.{at_once, SomeLanes, Columned, PartIn};

use columns::Width;
use lanes::{Lanes, UPPER};
use std::marker::PhantomData;

// The numbers of lanes that are merged at once.
const AT_ONCE: usize = 8;

const SOME: usize = 32;

const MANY: usize = 48;

const MOST: usize = 96;

// The lanes of a record's columns. A row has a cell for each of so many subjects, then one for each of so many plain names, and no more. How many
// rows there are is not asked: of a plain column nothing is looked at but what is seen in it, over all rows.
#[derive(Drop)]
pub struct Columns<'a, W: Width> {
    pub lanes: Lanes<'a>,
    pub subjects: usize,
    pub plain: usize,
    pub width: PhantomData<W>,
    pub ghost columned: { Columned W.LANES subjects plain lanes.matrix },
}

// What is wrong with cell c of a list of what is seen in lanes: nothing where it is owned and nobody controls it, else its bits.
fn plain_wrong<W: Width>(seen: &[u16], c: usize) -> u16
    requires { (c < most_columns) × (last_lane W.LANES c < length seen.now) }
    ensures { result ≡ plain_wrong W.LANES (λ j. get_or seen.now j 0) c }
{
    if seen[columns::last_lane::<W>(c)] / UPPER % 4 == 1 {
        0
    } else {
        columns::bits_of::<W>(seen, c)
    }
}

// What is wrong with the cells of a list from cell `from` on below k. All of them are looked at, so that the compiler may take many at once.
fn cells_wrong<W: Width>(seen: &[u16], from: usize, k: usize) -> u16
    requires { (k ≤ most_columns) × (lanes_of W.LANES k ≤ length seen.now) × (from ≤ k) }
    ensures { result ≡ wrong_of (plain_wrong W.LANES (λ j. get_or seen.now j 0)) from k }
{
    let mut wrong = 0;
    for c in from..k {
        wrong |= plain_wrong::<W>(seen, c);
    }
    wrong
}

// What is wrong with the columns from column a on, as many as have PART lanes, without the first `from`. The compiler knows the number of lanes,
// so that it holds the list of what is seen in them in registers.
fn part_wrong<W: Width, const PART: usize>(cells: &Columns<W>, a: usize, from: usize) -> u16
    requires { PartIn cells.now.lanes.matrix W.LANES PART a from }
    ensures { result ≡ wrong_of (λ i. plain_wrong W.LANES (seen_at cells.now.lanes.bytes.now cells.now.lanes.matrix) (a + i)) from (PART / W.LANES) }
{
    let mut seen = [0u16; PART];
    merging::merge(&mut seen, cells.lanes, columns::lanes_of::<W>(a), PART);
    cells_wrong::<W>(&seen, from, PART / W::LANES)
}

// The same for a part of so many lanes, which are one of four numbers.
fn known_wrong<W: Width>(cells: &Columns<W>, lanes: usize, a: usize, from: usize) -> u16
    requires { PartIn cells.now.lanes.matrix W.LANES lanes a from × SomeLanes lanes }
    ensures { result ≡ wrong_of (λ i. plain_wrong W.LANES (seen_at cells.now.lanes.bytes.now cells.now.lanes.matrix) (a + i)) from (lanes / W.LANES) }
{
    match lanes {
        MOST => part_wrong::<W, MOST>(cells, a, from),
        MANY => part_wrong::<W, MANY>(cells, a, from),
        SOME => part_wrong::<W, SOME>(cells, a, from),
        _ => part_wrong::<W, AT_ONCE>(cells, a, from),
    }
}

// How many lanes the next part has, of a row of so many, where `left` are left: no part is larger than the row, and the last one repeats few.
fn lanes_for(left: usize, lanes: usize) -> usize
    requires { at_once ≤ lanes }
    ensures some { SomeLanes result }
    ensures inside { result ≤ lanes }
{
    if left <= AT_ONCE || lanes < SOME {
        AT_ONCE
    } else if left <= SOME || lanes < MANY {
        SOME
    } else if left < MOST || lanes < MOST {
        MANY
    } else {
        MOST
    }
}

// The plain columns, part by part. A last part that would go beyond the row begins earlier, and what it repeats is left out. A `while`, since
// the parts are of different sizes.
fn parts_right<W: Width>(cells: &Columns<W>) -> bool
    requires { at_once ≤ cells.now.lanes.matrix.lanes }
    ensures { result ≡ all cells.now.plain (λ i. plain_test W.LANES (seen_at cells.now.lanes.bytes.now cells.now.lanes.matrix) (cells.now.subjects + i)) }
{
    let n = cells.subjects;
    let all = n + cells.plain;
    let mut wrong = 0;
    let mut c = n;
    while c < all {
        let lanes = lanes_for(columns::lanes_of::<W>(all - c), cells.lanes.matrix.lanes);
        let step = lanes / W::LANES;
        let a = lanes::part(c, step, all);
        wrong |= known_wrong(cells, lanes, a, c - a);
        c += step;
    }
    wrong == 0
}

// The plain columns where they are no more than one part. It ends with the row, and what it has of the subjects' columns is left out.
pub fn one_part<W: Width>(cells: &Columns<W>) -> bool
    requires { (at_once ≤ cells.now.lanes.matrix.lanes) × (lanes_of W.LANES (cells.now.plain) ≤ at_once) }
    ensures { result ≡ all cells.now.plain (λ i. plain_test W.LANES (seen_at cells.now.lanes.bytes.now cells.now.lanes.matrix) (cells.now.subjects + i)) }
{
    let n = cells.subjects;
    let a = n + cells.plain - AT_ONCE / W::LANES;
    part_wrong::<W, AT_ONCE>(cells, a, n - a) == 0
}

// The plain columns, which come after those of the subjects. Where a row has fewer lanes than a part, all of it is merged.
pub fn plains<W: Width>(cells: &Columns<W>) -> bool
    ensures { result ≡ all cells.now.plain (λ i. plain_test W.LANES (seen_at cells.now.lanes.bytes.now cells.now.lanes.matrix) (cells.now.subjects + i)) }
{
    let lanes = cells.lanes.matrix.lanes;
    if lanes < AT_ONCE {
        let n = cells.subjects;
        let mut seen = [0u16; AT_ONCE];
        merging::merge(&mut seen, cells.lanes, 0, lanes);
        return cells_wrong::<W>(&seen, n, n + cells.plain) == 0;
    }
    if columns::lanes_of::<W>(cells.plain) <= AT_ONCE {
        return one_part(cells);
    }
    parts_right(cells)
}
