// Tables of owners: whether following them from every subject comes to U. A table has an entry for each subject.

#![tactic(auto)]

ghost use Rattle.std.specs.Prelude.{◌≡◌, ◌≤◌, eqb, length};
ghost use Rattle.matrix.specs.Bounded.{all};
ghost use Rattle.matrix.specs.Shape.{most_subjects};
ghost use Rattle.owner_table.specs.Followed.{followed};
ghost use Rattle.owner_table.specs.Table.{reach, owner_in, lower_test, Inside, Doubled};

use matrix::MOST_SUBJECTS;

// U's entry is U, and that of any other subject has a lower number than the subject. All of them are looked at, so that the compiler may take
// many at once.
pub fn descends(owners: &[u8]) -> bool
    requires { length owners.now ≤ most_subjects }
    ensures { result ≡ all (length owners.now) (lower_test owners.now) }
{
    let mut wrong = 0;
    for (s, owner) in owners.iter().enumerate() {
        wrong |= lanes::fault(*owner < (s as u8).max(1));
    }
    wrong == 0
}

// Fills u with a table that follows t twice.
fn double(t: &[u8], u: &mut [u8])
    requires same { length u.old ≡ length t.now }
    requires inside { Inside (length t.now) (owner_in t.now) }
    ensures { Doubled t.now u.new }
{
    for (s, to) in u.iter_mut().enumerate() {
        *to = t[t[s] as usize];
    }
}

// Following owners from any subject comes to U: it does where each owner has a lower number than what it owns, and else after six doublings
// each entry has followed 64 owners, and there are fewer subjects. Where all have come to U before, the rest of the doublings is left out.
pub fn rooted(owners: &[u8]) -> bool
    requires few { length owners.now ≤ most_subjects }
    requires inside { Inside (length owners.now) (owner_in owners.now) }
    ensures { result ≡ all (length owners.now) (λ s. eqb (followed (owner_in owners.now) reach s) 0) }
{
    if descends(owners) {
        return true;
    }
    let mut u = [0u8; MOST_SUBJECTS];
    let mut v = [0u8; MOST_SUBJECTS];
    let u = &mut u[..owners.len()];
    let v = &mut v[..owners.len()];
    v.copy_from_slice(owners);
    for pass in 0..3usize {
        double(v, u);
        double(u, v);
        if lanes::all_zero(v) {
            return true;
        }
    }
    false
}
