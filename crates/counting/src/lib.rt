// What is counted in each lane over all rows: the two low bits of its upper byte.

#![tactic(auto)]

ghost use Rattle.std.specs.Prelude.{◌≡◌, ◌*◌, ◌%◌, ◌≤◌, ◌<◌, length};
ghost use Rattle.lanes.specs.Lanes.{Counted};
ghost use Rattle.tallies.specs.Blocks.{at_once, Sized};
ghost use Rattle.tallies.specs.Halves.{lanes_at};

use lanes::Lanes;
use tallies::AT_ONCE;

// The lanes below `upto`, part by part, of a row that has a part or more: in each number one lane or both. A last part that would go beyond the row
// begins earlier. Each of the two has a call of its own, so that the compiler knows it.
#[inline(always)]
fn count_parts(
    tally: &mut [u8],
    odd: &mut [u8],
    marks: &mut [u8],
    m: Lanes,
    upto: usize,
    both: bool,
)
    requires { (3 * m.matrix.rows < 256) × (lanes_at both ≤ m.matrix.lanes) × (upto ≤ m.matrix.lanes) × (upto ≤ length tally.old) × (length tally.old % (2 * at_once) ≡ 0) × Sized (length tally.old) tally.old odd.old marks.old }
    ensures { Counted (length tally.old) m.entry.bytes.now m.entry.matrix upto tally.new odd.new marks.new }
{
    let step = if both { 2 * AT_ONCE } else { AT_ONCE };
    for c in (0..upto).step_by(step) {
        let start = lanes::part(c, step, m.matrix.lanes);
        tallies::several(tally, odd, marks, m, start, both);
    }
}

// The lanes below `upto`, one after another, of a row that has fewer than are counted at once.
fn count_each(tally: &mut [u8], odd: &mut [u8], marks: &mut [u8], m: Lanes, upto: usize)
    requires { (3 * m.matrix.rows < 256) × (upto ≤ m.matrix.lanes) × (upto ≤ length tally.old) × Sized (length tally.old) tally.old odd.old marks.old }
    ensures { Counted (length tally.old) m.entry.bytes.now m.entry.matrix upto tally.new odd.new marks.new }
{
    for c in 0..upto {
        tallies::one(tally, odd, marks, m, c);
    }
}

// The lanes below `upto`.
pub fn count(tally: &mut [u8], odd: &mut [u8], marks: &mut [u8], m: Lanes, upto: usize)
    requires { (3 * m.matrix.rows < 256) × (upto ≤ m.matrix.lanes) × (upto ≤ length tally.old) × (length tally.old % (2 * at_once) ≡ 0) × Sized (length tally.old) tally.old odd.old marks.old }
    ensures { Counted (length tally.old) m.entry.bytes.now m.entry.matrix upto tally.new odd.new marks.new }
{
    if m.matrix.lanes < AT_ONCE {
        count_each(tally, odd, marks, m, upto);
    } else if m.matrix.lanes < 2 * AT_ONCE {
        count_parts(tally, odd, marks, m, upto, false);
    } else {
        count_parts(tally, odd, marks, m, upto, true);
    }
}
