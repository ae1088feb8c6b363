// What is counted in lanes over all rows, several lanes at once: the two low bits of each lane's upper byte.

#![tactic(auto)]

ghost use Rattle.std.specs.Prelude.{◌≡◌, ℕ, ◌+◌, ◌-◌, ◌*◌, ◌≤◌, ◌<◌, length};
ghost use Rattle.lanes.specs.Lists.{Filled};
ghost use Rattle.lanes.specs.Lanes.{place_of};
ghost use Rattle.tallies.specs.Blocks.{at_once, Sized, Filling};
ghost use Rattle.tallies.specs.Halves.{number_in, last_at, lanes_at, row_half, taken, Halves, Put};

use lanes::{Lanes, UPPER};

// The numbers that count at once, a lane or two each.
pub const AT_ONCE: usize = 8;

// What the numbers count of their lanes, each half for itself: the two low bits added up, which bits an odd number of rows have, and up to how many
// rows an odd number had the lowest one.
#[derive(Clone, Copy)]
pub struct Counts {
    pub low: [u16; AT_ONCE],
    pub odd: [u16; AT_ONCE],
    pub since: [u16; AT_ONCE],
}

// What a number counts: the lane from byte `at` on as it is, so that the compiler reads it at once; nobody asks for what the lower half counts of its
// lower byte. Where the number counts both this lane and the one AT_ONCE lanes after it, its halves have the two low bits of their upper bytes.
#[inline(always)]
fn number(b: &[u8], at: usize, both: bool) -> u16
    requires { at + last_at both + 1 < length b.now }
    ensures { result ≡ number_in both b.now at }
{
    if both {
        lanes::lane(b, at + 1) % 4 + lanes::lane(b, at + 2 * AT_ONCE) / UPPER % 4 * UPPER
    } else {
        u16::from_le_bytes([b[at], b[at + 1]])
    }
}

impl Counts {
    ghost use Rattle.matrix.specs.Shaped.{Octets};
    ghost use Rattle.tallies.specs.Blocks.{at_once};
    ghost use Rattle.tallies.specs.Halves.{numbers_from, lanes_at, Joined, Room, LowAlone};

    // One row, whose lanes begin at byte `at`, joins what is counted. Only two low bits are added, so that no half grows beyond a byte.
    #[inline(always)]
    fn join(&mut self, b: &[u8], at: usize, both: bool)
        requires { (at + 2 * lanes_at both ≤ length b.now) × Room self.old }
        ensures joined { Joined (numbers_from both b.now at) at_once self.old self.new }
        ensures bytes { Octets b.now }
    {
        for j in 0..AT_ONCE {
            let v = number(b, at + 2 * j, both);
            self.low[j] += v % 4 + v / UPPER % 4 * UPPER;
            self.odd[j] ^= v;
            self.since[j] += self.odd[j] % 2 + self.odd[j] / UPPER % 2 * UPPER;
        }
    }

    // Of the bits that an odd number of rows have, the two low ones alone are left in each half.
    #[inline(always)]
    fn keep_low(&mut self)
        ensures { LowAlone at_once self.old self.new }
    {
        for j in 0..AT_ONCE {
            self.odd[j] = self.odd[j] % 4 + self.odd[j] / UPPER % 4 * UPPER;
        }
    }
}

// What is counted over all rows of the lanes from lane c on, in each number of one lane, or of both that lane and the one AT_ONCE lanes after it. Of
// one lane the bits that an odd number of rows have are all those of its bytes, of both the two low ones of their upper bytes.
#[inline(always)]
pub fn rows(m: Lanes, c: usize, both: bool) -> Counts
    requires { (3 * m.matrix.rows < 256) × (c + lanes_at both ≤ m.matrix.lanes) }
    ensures { Halves (row_half both m.entry.bytes.now m.entry.matrix c) m.entry.matrix.rows result }
{
    let mut counts = Counts {
        low: [0; AT_ONCE],
        odd: [0; AT_ONCE],
        since: [0; AT_ONCE],
    };
    for r in 0..m.matrix.rows {
        counts.join(m.bytes, m.place(r, c), both);
    }
    counts
}

// The one row that has the bit, where a of the rows are that row and those after it; 0 where a is 0.
pub fn place(rows: usize, a: u8) -> u8
    requires { (rows < 256) × (a ≤ rows) }
    ensures { result ≡ place_of rows a }
{
    if a == 0 { 0 } else { rows as u8 - a }
}

// One half of each number into a list, from place c on: the lower half where `unit` is 1, the upper half where it is UPPER.
fn put(list: &mut [u8], c: usize, counts: &[u16; AT_ONCE], unit: u16)
    requires { (0 < unit) × (c + at_once ≤ length list.old) }
    ensures { Filled c at_once (λ x. taken counts.now unit (x - c)) list.old list.new }
{
    for j in 0..AT_ONCE {
        list[c + j] = (counts[j] / unit % UPPER) as u8;
    }
}

// The same, where a half counts the rows from one row on: that row into the list.
// One function with a closure for what is stored would be no plainer: its contract would speak of the closure's in place of `taken`.
pub fn put_places(list: &mut [u8], c: usize, counts: &[u16; AT_ONCE], unit: u16, rows: usize)
    requires { (0 < unit) × (c + at_once ≤ length list.old) × (rows < 256) × ((j : ℕ) → j < at_once → taken counts.now unit j ≤ rows) }
    ensures { Filled c at_once (λ x. place_of rows (taken counts.now unit (x - c))) list.old list.new }
{
    for j in 0..AT_ONCE {
        list[c + j] = place(rows, (counts[j] / unit % UPPER) as u8);
    }
}

// The same for all three lists.
// They stay slices, as the array's length is the caller's: a struct of arrays would have that length as a parameter of six functions.
pub fn put_all(
    tally: &mut [u8],
    odd: &mut [u8],
    marks: &mut [u8],
    c: usize,
    counts: &Counts,
    unit: u16,
    rows: usize,
)
    requires { (0 < unit) × (c + at_once ≤ length tally.old) × Sized (length tally.old) tally.old odd.old marks.old × (rows < 256) × ((j : ℕ) → j < at_once → taken counts.now.since unit j ≤ rows) }
    ensures { Put counts.now rows c unit tally.old odd.old marks.old tally.new odd.new marks.new }
{
    put(tally, c, &counts.low, unit);
    put(odd, c, &counts.odd, unit);
    put_places(marks, c, &counts.since, unit, rows);
}

// The lanes that are counted at once, from lane c on.
#[inline(always)]
pub fn several(tally: &mut [u8], odd: &mut [u8], marks: &mut [u8], m: Lanes, c: usize, both: bool)
    requires { (3 * m.matrix.rows < 256) × (c + lanes_at both ≤ m.matrix.lanes) × (c + lanes_at both ≤ length tally.old) × Sized (length tally.old) tally.old odd.old marks.old }
    ensures { Filling m.entry.bytes.now m.entry.matrix c (lanes_at both) tally.old odd.old marks.old tally.new odd.new marks.new }
{
    let n = m.matrix.rows;
    let mut counts = rows(m, c, both);
    if both {
        put_all(tally, odd, marks, c, &counts, 1, n);
        put_all(tally, odd, marks, c + AT_ONCE, &counts, UPPER, n);
    } else {
        counts.keep_low();
        put_all(tally, odd, marks, c, &counts, UPPER, n);
    }
}

// One lane, where a row has fewer than are counted at once.
pub fn one(tally: &mut [u8], odd: &mut [u8], marks: &mut [u8], m: Lanes, c: usize)
    requires { (3 * m.matrix.rows < 256) × (c < m.matrix.lanes) × (c < length tally.old) × Sized (length tally.old) tally.old odd.old marks.old }
    ensures { Filling m.entry.bytes.now m.entry.matrix c 1 tally.old odd.old marks.old tally.new odd.new marks.new }
{
    let mut low: u8 = 0;
    let mut parity: u8 = 0;
    let mut since: u8 = 0;
    for r in 0..m.matrix.rows {
        let v = m.upper(r, c);
        low += v % 4;
        parity ^= v;
        since += parity % 2;
    }
    tally[c] = low;
    odd[c] = parity % 4;
    marks[c] = place(m.matrix.rows, since);
}
