// The way up over a name: from the lowest of its owners from whom a way up meets an untrusted subject, with the subjects on it that are needed.

#![tactic(auto)]

ghost use Rattle.std.specs.Prelude.{◌≡◌, ◌<◌, length};
ghost use Rattle.std.specs.List.{All};
ghost use Rattle.matrix.specs.Reading.{state_of};
ghost use Rattle.states.specs.Needs.{NameIn};
ghost use Rattle.question.specs.Trust.{trusted_by};
ghost use Rattle.route.specs.Parts.{until_owner};
ghost use Rattle.ways.specs.Ways.{risen_over, way_over};
ghost use Rattle.rising.specs.Rises.{risen_to, Found};
ghost use Rattle.rising.specs.Shut.{ShutAll};
ghost use Rattle.climbing.specs.Climbs.{owner_rise, way_to};

use matrix::{Name, Right};
use rising::{Met, Path, ValidRecord};

// The way up from subject w where it owns x, and none where it doesn't.
fn owner_rise(r: &ValidRecord, trust: u64, x: Name, w: usize, closed: &mut u64) -> Option<Met>
    requires { NameIn r.now.b.now r.now.f x × (w < r.now.f.n) × ShutAll (state_of r.now.b.now) (trusted_by trust) closed.old }
    ensures risen { owner_rise (state_of r.now.b.now) (trusted_by trust) x w ≡ risen_to result }
    ensures found { Found r.now.f.n result }
    ensures shut { ShutAll (state_of r.now.b.now) (trusted_by trust) closed.new }
{
    if !states::has_bit(r.b, r.f, Right::Own, w, x) {
        return None;
    }
    rising::rise_from(r, trust, w, closed)
}

// The way over subject v of a valid record: that of its owner, since it has no other.
fn way_over_subject(r: &ValidRecord, trust: u64, v: usize) -> Option<Met>
    requires { v < r.now.f.n }
    ensures risen { risen_over (state_of r.now.b.now) (trusted_by trust) (Name.Subject v) ≡ risen_to result }
    ensures found { Found r.now.f.n result }
{
    let w = states::owner_of(r.b, r.f, r.owners, v)?;
    let mut closed: u64 = 0;
    rising::rise_from(r, trust, w, &mut closed)
}

// The way over plain object o: that of its lowest owner whose way up meets an untrusted subject. The rows below the first block of rows with
// an owner are left out. `closed` gathers the subjects passed by ways up that met none, so that no later way passes them again.
fn way_over_plain(r: &ValidRecord, trust: u64, o: usize) -> Option<Met>
    requires { NameIn r.now.b.now r.now.f (Name.Plain o) }
    ensures risen { risen_over (state_of r.now.b.now) (trusted_by trust) (Name.Plain o) ≡ risen_to result }
    ensures found { Found r.now.f.n result }
{
    let first = 4 * row_search::first_block(r.b, r.f, o, 0);
    let mut closed: u64 = 0;
    for w in first..r.f.n {
        let met = owner_rise(r, trust, Name::Plain(o), w, &mut closed);
        if met.is_some() {
            return met;
        }
    }
    None
}

// How many subjects of a path are needed, down to the first that owns plain object o. The last needs no look: nobody stands after it.
fn needed_of(r: &ValidRecord, o: usize, path: &[u8]) -> usize
    requires { NameIn r.now.b.now r.now.f (Name.Plain o) × All (λ w. w < r.now.f.n) path.now }
    ensures { result ≡ length (until_owner (state_of r.now.b.now).owns (Name.Plain o) path.now) }
{
    let Some((_, above)) = path.split_last() else {
        return 0;
    };
    for (t, w) in above.iter().enumerate() {
        if states::has_bit(r.b, r.f, Right::Own, *w as usize, Name::Plain(o)) {
            return t + 1;
        }
    }
    path.len()
}

// The path of a way over plain object o without the subjects below the highest on it that owns o: where that one is destroyed, o is inherited.
// One subject alone is that owner.
#[tactic(auto, using(crate::specs::Needed::until_one))]
fn shorten(r: &ValidRecord, o: usize, path: &mut Path)
    requires { NameIn r.now.b.now r.now.f (Name.Plain o) × All (λ w. w < r.now.f.n) path.old }
    ensures { path.new ≡ until_owner (state_of r.now.b.now).owns (Name.Plain o) path.old }
{
    let subjects = path.subjects();
    if subjects.len() < 2 {
        return;
    }
    let k = needed_of(r, o, subjects);
    path.keep_last(k);
}

// The way over an existing name x of a valid record.
pub fn way_up(r: &ValidRecord, trust: u64, x: Name) -> Option<Met>
    requires { NameIn r.now.b.now r.now.f x }
    ensures way { way_over (state_of r.now.b.now) (trusted_by trust) x ≡ way_to result }
    ensures found { Found r.now.f.n result }
{
    match x {
        Name::Subject(v) => way_over_subject(r, trust, v),
        Name::Plain(o) => {
            let mut met = way_over_plain(r, trust, o)?;
            shorten(r, o, &mut met.passed);
            Some(met)
        }
    }
}
