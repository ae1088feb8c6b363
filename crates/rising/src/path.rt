ghost use Rattle.std.specs.Prelude.{◌≡◌, ◌-◌, ◌≤◌, ◌<◌, List, ℕ, [], ◌∷◌, ◌++◌, length, take, drop, replicate};
ghost use Rattle.matrix.specs.Shape.{most_subjects};
ghost use Rattle.rising.specs.Spread.{Spread, first_back, spread_back};

use matrix::MOST_SUBJECTS;
use std::marker::Model;

// The subjects that a way up passed, the last first. They fill the array from its end on, so that each stands before those passed before it. Zeros
// stand before them all, so that the subjects tell the bytes: a path is `Copy`.
#[derive(Clone, Copy)]
pub struct Path {
    subjects: [u8; MOST_SUBJECTS],
    first: usize,
}

impl Model for Path {
    ghost Value = { List ℕ };

    ghost view = { λ p. drop p.first p.subjects };

    ghost inverse = { λ ws. record { subjects = replicate (most_subjects - length ws) 0 ++ ws; first = most_subjects - length ws } };

    ghost invariant = { λ p. Spread p.subjects p.first };

    ghost inverse_ok = { λ p h i. record { subjects = spread_back p.subjects p.first h i; first = first_back p.subjects p.first h i } };
}

impl Path {
    pub fn new() -> Path
        ensures { result ≡ [] }
    {
        Path {
            subjects: [0; MOST_SUBJECTS],
            first: MOST_SUBJECTS,
        }
    }

    // One subject more is passed.
    pub fn push(&mut self, w: usize)
        requires { (length self.old < most_subjects) × (w < 256) }
        ensures { self.new ≡ w ∷ self.old }
    {
        self.first -= 1;
        self.subjects[self.first] = w as u8;
    }

    pub fn subjects(&self) -> &[u8]
        ensures { result.now ≡ self.now }
    {
        &self.subjects[self.first..]
    }

    // Only the last k subjects passed are kept.
    pub fn keep_last(&mut self, k: usize)
        requires { k ≤ length self.old }
        ensures { self.new ≡ take k self.old }
    {
        let from = self.first;
        self.first = MOST_SUBJECTS - k;
        self.subjects.copy_within(from..from + k, self.first);
        self.subjects[..self.first].fill(0);
    }
}
