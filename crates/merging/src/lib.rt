// The bits that are seen in each lane, over all rows.

#![tactic(auto)]

ghost use Rattle.std.specs.Prelude.{◌≡◌, ◌+◌, ◌≤◌, length, replicate};
ghost use Rattle.lanes.specs.Lanes.{Seen};

use lanes::Lanes;

// What is seen in k lanes from lane c on, in a list of zeros. Where k is known to the compiler and the list is the caller's own, it is held in
// registers over all rows.
pub fn merge(seen: &mut [u16], m: Lanes, c: usize, k: usize)
    requires { (c + k ≤ m.matrix.lanes) × (k ≤ length seen.old) × (seen.old ≡ replicate (length seen.old) 0) }
    ensures { Seen m.entry.bytes.now m.entry.matrix c k (length seen.old) seen.new }
{
    for r in 0..m.matrix.rows {
        for j in 0..k {
            seen[j] |= m.lane(r, c + j);
        }
    }
}
