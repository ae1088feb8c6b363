// The counts of the subjects of a record that has few, each a lane, from the numbers in which several lanes are counted at once.

#![tactic(auto)]

ghost use Rattle.std.specs.Prelude.{◌≡◌, ◌≤◌};
ghost use Rattle.matrix.specs.Bounded.{all};
ghost use Rattle.tallies.specs.Blocks.{at_once};
ghost use Rattle.few_subjects.specs.Counts.{few_test};

use lanes::UPPER;
use tallies::Counts;

// The counts of the n subjects, where all exist, of which each is in the upper half of a number. All of them are looked at.
pub fn counts_fit(counts: &Counts, n: usize) -> bool
    requires { n ≤ at_once }
    ensures { result ≡ all n (few_test counts.now) }
{
    let mut wrong: u8 = 0;
    for s in 0..n {
        let tally = (counts.low[s] / UPPER % UPPER) as u8;
        let parity = (counts.odd[s] / UPPER % UPPER) as u8;
        wrong |= lanes::fault(columns::counts(s, tally, parity));
    }
    wrong == 0
}
