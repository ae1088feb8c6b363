// The way up from one subject of a record that is of the right form: from owner to owner to the first untrusted subject.

#![tactic(auto)]

ghost use Rattle.std.specs.Prelude.{◌≡◌, ◌<◌, []};
ghost use Rattle.matrix.specs.Reading.{state_of};
ghost use Rattle.question.specs.Trust.{trusted_by};
ghost use Rattle.chain.specs.Rising.{rise_in};
ghost use Rattle.rising.specs.Rises.{risen_to, Found};
ghost use Rattle.rising.specs.Shut.{ShutAll, Next};

pub use path::Path;
pub use valid::ValidRecord;

mod path;
mod valid;

// The first untrusted subject that a way up meets, and the trusted ones that it passed.
#[derive(Clone, Copy)]
pub struct Met {
    pub subject: usize,
    pub passed: Path,
}

// The owner to whom the way up goes on from subject v. It ends at U, at a member of `closed`, and without an owner.
fn next_up(r: &ValidRecord, closed: u64, v: usize) -> Option<usize>
    requires { v < r.now.f.n }
    ensures { Next (state_of r.now.b.now) closed v result }
{
    if v == 0 || masks::has(closed, v) {
        return None;
    }
    states::owner_of(r.b, r.f, r.owners, v)
}

// The way up from subject w. `closed` are subjects from which the way up is known to meet no untrusted one: where this way ends at one of
// those, at U or without an owner, all whom it passed join them. Where it may visit no more subjects, they don't: the owners may form a cycle.
pub fn rise_from(r: &ValidRecord, trust: u64, w: usize, closed: &mut u64) -> Option<Met>
    requires { (w < r.now.f.n) × ShutAll (state_of r.now.b.now) (trusted_by trust) closed.old }
    ensures risen { rise_in (state_of r.now.b.now) (trusted_by trust) (state_of r.now.b.now).top w [] ≡ risen_to result }
    ensures found { Found r.now.f.n result }
    ensures shut { ShutAll (state_of r.now.b.now) (trusted_by trust) closed.new }
{
    let mut at = w;
    let mut seen = *closed;
    let mut passed = Path::new();
    for _ in 0..r.f.n {
        if !masks::has(trust, at) {
            return Some(Met {
                subject: at,
                passed,
            });
        }
        let Some(owner) = next_up(r, *closed, at) else {
            *closed = seen;
            return None;
        };
        passed.push(at);
        seen = masks::added(seen, at);
        at = owner;
    }
    None
}
