// Tests of each column of a record. Its cells are lanes: one each in version 1, two each in version 2.

#![tactic(auto)]

ghost use Rattle.std.specs.Prelude.{◌≡◌, ℕ, ◌/◌, ◌≤◌, ◌<◌, length, get_or, refl};
ghost use Rattle.std.proofs.Common.{inl, inr};
ghost use Rattle.matrix.specs.Bounded.{all};
ghost use Rattle.matrix.specs.Bytes.{bit};
ghost use Rattle.matrix.specs.Shape.{most_subjects};
ghost use Rattle.lanes.specs.Lanes.{lane_at, upper_at, seen_at};
ghost use Rattle.lanes.specs.Lists.{Stored};
ghost use Rattle.columns.specs.Cells.{OneOrTwo, most_columns, lanes_of, last_lane, bits_in};
ghost use Rattle.columns.specs.Checks.{present, root_counts, other_counts, counts, count_test, subject_test, Celled, IsRow};

use lanes::{Lanes, UPPER};
use matrix::MOST_SUBJECTS;
use std::marker::PhantomData;

// The most lanes of a cell, and so those of the most subjects' columns.
const MOST_LANES: usize = 2;

pub const COUNTED: usize = MOST_LANES * MOST_SUBJECTS;

// How many lanes a cell has: a type, so that the compiler knows the number in every loop over cells.
pub trait Width: Drop {
    ghost LANES: { ℕ };

    const LANES: usize;

    ghost one_or_two: { OneOrTwo LANES };
}

// The cells of version 1.
#[derive(Drop)]
pub struct OneLane;

impl Width for OneLane {
    ghost LANES = { 1 };

    const LANES: usize = 1;

    ghost one_or_two = { inl refl };
}

// The cells of version 2.
#[derive(Drop)]
pub struct TwoLanes;

impl Width for TwoLanes {
    ghost LANES = { 2 };

    const LANES: usize = 2;

    ghost one_or_two = { inr refl };
}

// The lanes of k cells.
pub fn lanes_of<W: Width>(k: usize) -> usize
    requires { k ≤ most_columns }
    ensures { result ≡ lanes_of W.LANES k }
{
    W::LANES * k
}

// The last lane of cell c, which has own and control.
pub fn last_lane<W: Width>(c: usize) -> usize
    requires { c < most_columns }
    ensures { result ≡ last_lane W.LANES c }
{
    W::LANES * c + (W::LANES - 1)
}

// The bits that are seen in cell c: those of its first lane and of its last, which may be the same one.
pub fn bits_of<W: Width>(seen: &[u16], c: usize) -> u16
    requires { (c < most_columns) × (last_lane W.LANES c < length seen.now) }
    ensures { result ≡ bits_in W.LANES (λ j. get_or seen.now j 0) c }
{
    seen[lanes_of::<W>(c)] | seen[last_lane::<W>(c)]
}

// The upper byte of a cell's last lane has control, or an odd number of them have.
fn controls(upper: u8) -> bool
    ensures { result ≡ bit 1 upper }
{
    upper / 2 % 2 == 1
}

// U has no owner, and nobody else controls it: of a tally of 2, which is the number of owners and twice that of those that control, an odd
// number control.
fn root_counts(tally: u8, odd: u8) -> bool
    ensures { result ≡ root_counts tally odd }
{
    tally == 2 && controls(odd)
}

// Any other subject has one owner, and at most one besides itself controls it: 3 where an odd number control it, and 5 where an even number do.
fn other_counts(tally: u8, odd: u8) -> bool
    ensures { result ≡ other_counts tally odd }
{
    if controls(odd) {
        tally == 3
    } else {
        tally == 5
    }
}

// The counts of subject s, which exists.
pub fn counts(s: usize, tally: u8, odd: u8) -> bool
    ensures { result ≡ counts s tally odd }
{
    if s == 0 {
        root_counts(tally, odd)
    } else {
        other_counts(tally, odd)
    }
}

// The counts of the n subjects, where all exist. All of them are looked at, so that the compiler may take many at once.
fn counts_fit<W: Width>(tally: &[u8; COUNTED], odd: &[u8; COUNTED], n: usize) -> bool
    requires { (1 ≤ n) × (n ≤ most_subjects) }
    ensures { result ≡ all n (count_test W.LANES tally.now odd.now) }
{
    let root = last_lane::<W>(0);
    let mut wrong = lanes::fault(root_counts(tally[root], odd[root]));
    for s in 1..n {
        let j = last_lane::<W>(s);
        wrong |= lanes::fault(other_counts(tally[j], odd[j]));
    }
    wrong == 0
}

// Puts the owner of each subject, which stands at the last lane of its column, at the subject's own place.
pub fn owners<W: Width>(owners: &mut [u8], marks: &[u8; COUNTED])
    requires { length owners.old ≤ most_subjects }
    ensures { Stored (length owners.old) (λ s. get_or marks.now (last_lane W.LANES s) 0) owners.old owners.new }
{
    for (s, owner) in owners.iter_mut().enumerate() {
        *owner = marks[last_lane::<W>(s)];
    }
}

// The lanes of a record's cells. A row has a cell for each subject, and there are as many rows. What a row has after these cells isn't looked at
// here, but for the row of an absent subject, which is zero to its end.
#[derive(Drop)]
pub struct Cells<'a, W: Width> {
    pub lanes: Lanes<'a>,
    pub width: PhantomData<W>,
    pub ghost celled: { Celled W.LANES lanes.matrix },
}

impl<'a, W: Width> Cells<'a, W> {
    // The row of subject s.
    fn row(&self, s: usize) -> &'a [u8]
        requires { s < self.now.lanes.matrix.rows }
        ensures { IsRow self.now.lanes.bytes.now self.now.lanes.matrix s result.now }
    {
        let at = self.lanes.place(s, 0);
        &self.lanes.bytes[at..at + 2 * self.lanes.matrix.lanes]
    }

    // The last lane of the own cell of subject s, which exists where the lane has control.
    fn own(&self, s: usize) -> u16
        requires { s < self.now.lanes.matrix.rows }
        ensures lane { result ≡ lane_at self.now.lanes.bytes.now self.now.lanes.matrix s (last_lane W.LANES s) }
        ensures upper { result / 256 ≡ upper_at self.now.lanes.bytes.now self.now.lanes.matrix s (last_lane W.LANES s) }
    {
        lanes::lane(self.lanes.bytes, self.lanes.place(s, last_lane::<W>(s)))
    }

    // Every subject exists. All of them are looked at.
    pub fn all_present(&self) -> bool
        ensures { result ≡ all self.now.lanes.matrix.rows (present W.LANES self.now.lanes.bytes.now self.now.lanes.matrix) }
    {
        let mut missing = 0;
        for s in 0..self.lanes.matrix.rows {
            missing |= lanes::fault(controls((self.own(s) / UPPER) as u8));
        }
        missing == 0
    }

    // Subject s: its counts where it exists. An absent one is not U, and its column and row are zero.
    fn subject(
        &self,
        seen: &[u16; COUNTED],
        tally: &[u8; COUNTED],
        odd: &[u8; COUNTED],
        s: usize,
    ) -> bool
        requires { s < self.now.lanes.matrix.rows }
        ensures { result ≡ subject_test W.LANES self.now.lanes.bytes.now self.now.lanes.matrix (λ j. get_or seen.now j 0) tally.now odd.now s }
    {
        if controls((self.own(s) / UPPER) as u8) {
            let j = last_lane::<W>(s);
            counts(s, tally[j], odd[j])
        } else {
            s != 0 && bits_of::<W>(seen, s) == 0 && lanes::all_zero(self.row(s))
        }
    }

    // The subjects where some are absent: what is seen in their columns is needed too.
    fn with_absent(&self, tally: &[u8; COUNTED], odd: &[u8; COUNTED]) -> bool
        ensures { result ≡ all self.now.lanes.matrix.rows (subject_test W.LANES self.now.lanes.bytes.now self.now.lanes.matrix (seen_at self.now.lanes.bytes.now self.now.lanes.matrix) tally.now odd.now) }
    {
        let rows = self.lanes.matrix.rows;
        let mut seen = [0u16; COUNTED];
        merging::merge(&mut seen, self.lanes, 0, lanes_of::<W>(rows));
        for s in 0..rows {
            if !self.subject(&seen, tally, odd, s) {
                return false;
            }
        }
        true
    }

    // The subjects. Where all exist, only their counts are to be tested. The two lists are no struct, since `counting` fills each as a slice.
    pub fn subjects(&self, tally: &[u8; COUNTED], odd: &[u8; COUNTED]) -> bool
        ensures { result ≡ all self.now.lanes.matrix.rows (subject_test W.LANES self.now.lanes.bytes.now self.now.lanes.matrix (seen_at self.now.lanes.bytes.now self.now.lanes.matrix) tally.now odd.now) }
    {
        if self.all_present() {
            counts_fit::<W>(tally, odd, self.lanes.matrix.rows)
        } else {
            self.with_absent(tally, odd)
        }
    }
}
