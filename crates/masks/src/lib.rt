// Sets of subjects as 64-bit masks: the existing subjects of a record, and those that a trust mask leaves out. A set stays a plain number: it is
// one in the C interface, and the definitions speak of its bits.

#![tactic(auto)]

ghost use Rattle.std.specs.Prelude.{◌≡◌, not, ◌&&◌, ◌^◌, ◌<◌, ltb};
ghost use Rattle.std.specs.Iterator.{at_most};
ghost use Rattle.matrix.specs.Bounded.{least, count};
ghost use Rattle.matrix.specs.Bytes.{bit};
ghost use Rattle.matrix.specs.State.{exists};
ghost use Rattle.matrix.specs.Reading.{state_of};
ghost use Rattle.cells.specs.Station.{Station};
ghost use Rattle.row_search.specs.SomeBelow.{some_below};
ghost use Rattle.masks.specs.Marks.{mask_bits, MarksOf, LeftOut, Added, Outside};
ghost use Rattle.masks.specs.Stepping.{GivesLowest};

use matrix::Shape;

// The existing subjects of a record.
pub fn existing(b: &[u8], f: Shape) -> u64
    requires { Station b.now f }
    ensures { MarksOf b.now f.n result }
{
    let mut m = 0;
    for s in 0..f.n {
        if states::subject_exists(b, f, s) {
            m = added(m, s);
        }
    }
    m
}

// The members of a set that a trust mask leaves out: the set, masked by the complement of the trust mask.
pub fn untrusted(set: u64, trust: u64) -> u64
    ensures { LeftOut set trust result }
{
    set & !trust
}

// The number of members of a set.
pub fn size(set: u64) -> usize
    ensures { result ≡ count mask_bits (λ j. bit j set) }
{
    u64::count_ones(set) as usize
}

// The lowest member of a set.
pub fn lowest(set: u64) -> Option<usize>
    ensures { result ≡ some_below mask_bits (least mask_bits (λ j. bit j set)) }
{
    if size(set) == 0 {
        return None;
    }
    Some(u64::trailing_zeros(set) as usize)
}

// The lowest untrusted existing subject.
pub fn lowest_untrusted(b: &[u8], f: Shape, trust: u64) -> Option<usize>
    requires { Station b.now f }
    ensures { result ≡ some_below f.n (least f.n (λ v. exists (state_of b.now) v && not (bit v trust))) }
{
    let all = existing(b, f);
    lowest(untrusted(all, trust))
}

// Whether a trust mask has no bit at n or above. No record has as many subjects as a mask has bits.
pub fn trust_fits(trust: u64, n: usize) -> bool
    requires { n < mask_bits }
    ensures { result ≡ ltb trust (2 ^ n) }
{
    trust >> n == 0
}

// Whether subject s is a member of a set.
pub fn has(set: u64, s: usize) -> bool
    requires { s < mask_bits }
    ensures { result ≡ bit s set }
{
    (set >> s) % 2 == 1
}

// A set with subject s added.
pub fn added(set: u64, s: usize) -> u64
    requires { s < mask_bits }
    ensures { Added set s result }
{
    set | (1 << s)
}

// The members of a set, lowest first: those that are still to come.
#[derive(Drop)]
pub struct Members {
    pub left: u64,
}

impl Iterator for Members {
    type Item = usize;

    ghost next_gives = { GivesLowest };

    ghost remaining = { λ s. at_most s.left };

    fn next(&mut self) -> Option<usize> {
        let v = lowest(self.left)?;
        self.left &= !(1 << v);
        Some(v)
    }
}

// The subjects below a bound that are not members of a set, lowest first.
pub fn outside(set: u64, bound: usize) -> Members
    requires { bound < mask_bits }
    ensures { Outside set bound result.left }
{
    let all = (1 << bound) - 1;
    Members {
        left: untrusted(all, set),
    }
}
