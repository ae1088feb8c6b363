// Lanes of 16 bits, row after row, as the passes over a record read them.

#![tactic(auto)]

ghost use Rattle.std.specs.Prelude.{◌≡◌, ◌+◌, ◌*◌, ◌/◌, ◌≤◌, ◌<◌, eqb, length, get_or};
ghost use Rattle.matrix.specs.Bounded.{all};
ghost use Rattle.lanes.specs.Lists.{Part};
ghost use Rattle.lanes.specs.Lanes.{fault_of, lane_in, lane_at, upper_at, row_place, Laid};

// What the upper byte of a lane counts.
pub const UPPER: u16 = 256;

// Where lanes lie: `rows` rows of `lanes` lanes each, the first lane at byte `first`.
#[derive(Clone, Copy)]
pub struct Matrix {
    pub first: usize,
    pub rows: usize,
    pub lanes: usize,
}

// Lent bytes that hold a row or more, and where the lanes lie in them.
#[derive(Clone, Copy)]
pub struct Lanes<'a> {
    pub bytes: &'a [u8],
    pub matrix: Matrix,
    pub ghost laid: { Laid bytes.now matrix },
}

impl<'a> Lanes<'a> {
    // The byte at which lane c of row r begins.
    pub fn place(self, r: usize, c: usize) -> usize
        requires { (r < self.matrix.rows) × (c ≤ self.matrix.lanes) }
        ensures { result ≡ row_place self.entry.matrix r + 2 * c }
    {
        self.matrix.first + r * (2 * self.matrix.lanes) + 2 * c
    }

    // Lane c of row r.
    pub fn lane(self, r: usize, c: usize) -> u16
        requires { (r < self.matrix.rows) × (c < self.matrix.lanes) }
        ensures { result ≡ lane_at self.entry.bytes.now self.entry.matrix r c }
    {
        lane(self.bytes, self.place(r, c))
    }

    // The upper byte of that lane.
    pub fn upper(self, r: usize, c: usize) -> u8
        requires { (r < self.matrix.rows) × (c < self.matrix.lanes) }
        ensures { result ≡ upper_at self.entry.bytes.now self.entry.matrix r c }
    {
        self.bytes[self.place(r, c) + 1]
    }
}

// The lane from byte `at` on. Its first byte is the lower one, so that the compiler may read both at once.
pub fn lane(b: &[u8], at: usize) -> u16
    requires { at + 1 < length b.now }
    ensures word { result ≡ lane_in b.now at }
    ensures low { result / 256 ≡ get_or b.now (at + 1) 0 }
{
    b[at] as u16 + b[at + 1] as u16 * UPPER
}

// Where the next part of w lanes begins, after those below lane c. A last part that would go beyond the row begins earlier and repeats some.
pub fn part(c: usize, w: usize, lanes: usize) -> usize
    requires { w ≤ lanes }
    ensures { Part w lanes c result }
{
    c.min(lanes - w)
}

// 1 where a test fails, else 0: for loops that make all tests before they answer, so that the compiler may make many at once.
pub fn fault(passes: bool) -> u8
    ensures { result ≡ fault_of passes }
{
    u8::from(!passes)
}

// All bytes are zero. All of them are looked at, so that the compiler may take many at once.
pub fn all_zero(b: &[u8]) -> bool
    ensures { result ≡ all (length b.now) (λ j. eqb (get_or b.now j 0) 0) }
{
    b.iter().fold(0, |any, byte| any | byte) == 0
}
