// The safety question: the way by which a right can come to be held is searched, and its list is written.

#![tactic(auto)]

ghost use Rattle.std.specs.Prelude.{◌≡◌, false, not, ◌&&◌, ◌||◌, ◌<◌};
ghost use Rattle.matrix.specs.Names.{same_name};
ghost use Rattle.matrix.specs.State.{exists, held};
ghost use Rattle.matrix.specs.Shape.{limits};
ghost use Rattle.matrix.specs.Reading.{state_of};
ghost use Rattle.matrix.specs.Calls.{question_fits};
ghost use Rattle.codec.specs.ShapeRight.{ShapeRight};
ghost use Rattle.question.specs.Safety.{decided_of, safety_of};
ghost use Rattle.question.specs.Trust.{trusted_by};
ghost use Rattle.question.specs.Asked.{trust_fits, Answers};
ghost use Rattle.route.specs.Parts.{among};
ghost use Rattle.ways.specs.Ways.{by_star, by_creation, from_above, way_over, way_made, way_of};
ghost use Rattle.writing.specs.Put.{HeadRoom};
ghost use Rattle.told.specs.Told.{Told};
ghost use Rattle.safety.specs.Asks.{Asks, Headed};

use matrix::{LIST_HEAD, MOST_SUBJECTS, Name, RECORD_BYTES, Refusal, Shape};
use rising::ValidRecord;
use telling::Target;

// Each function below answers the number of commands of the list that leaks, which it leaves in the buffer, or none where the question is safe.

// The head of a list of k commands is written.
fn leaks(out: &mut [u8], k: usize) -> Option<usize>
    requires { HeadRoom out.old k }
    ensures { Headed out.old out.new k (decided_of result) }
{
    writing::put_head(out, k);
    Some(k)
}

// The list of an untrusted subject i with the star.
fn by_star(r: &ValidRecord, i: usize, t: Target, out: &mut [u8]) -> Option<usize>
    requires { Asks r.now.b.now r.now.f t (by_star i) out.old × (i < r.now.f.n) }
    ensures { Told (state_of r.now.b.now) t.s t.x t.y (by_star i) out.old out.new (decided_of result) }
{
    let absent = !states::subject_exists(r.b, r.f, t.s);
    let k = telling::put_star(out, i, t, absent);
    leaks(out, k)
}

// Whether s still has to be created once x is.
fn still_absent(r: &ValidRecord, s: usize, x: Name) -> bool
    requires { s < r.now.f.n }
    ensures { result ≡ not (same_name (Name.Subject s) x || exists (state_of r.now.b.now) s) }
{
    match x {
        Name::Subject(w) if s == w => false,
        _ => !states::subject_exists(r.b, r.f, s),
    }
}

// The list of an untrusted subject v that creates x.
fn by_creation(r: &ValidRecord, v: usize, t: Target, out: &mut [u8]) -> Option<usize>
    requires { Asks r.now.b.now r.now.f t (by_creation v) out.old × (v < r.now.f.n) }
    ensures { Told (state_of r.now.b.now) t.s t.x t.y (by_creation v) out.old out.new (decided_of result) }
{
    let held = telling::held_when_made(v, t.s, t.x, t.y);
    let absent = still_absent(r, t.s, t.x);
    let k = telling::put_creation(out, v, t, absent, held);
    leaks(out, k)
}

// Whether s is absent once the subjects of the path are destroyed.
fn gone(r: &ValidRecord, s: usize, path: &[u8]) -> bool
    requires { s < r.now.f.n }
    ensures { result ≡ (not (exists (state_of r.now.b.now) s) || among s path.now) }
{
    !states::subject_exists(r.b, r.f, s) || telling::is_among(path, s)
}

// The list of an untrusted subject v above x: the subjects of the path are destroyed, and v gives s the right.
fn from_above(r: &ValidRecord, v: usize, path: &[u8], t: Target, out: &mut [u8]) -> Option<usize>
    requires { Asks r.now.b.now r.now.f t (from_above v path.now) out.old × (v < r.now.f.n) }
    ensures { Told (state_of r.now.b.now) t.s t.x t.y (from_above v path.now) out.old out.new (decided_of result) }
{
    let j = telling::put_destroys(out, v, path);
    if telling::owns_then(v, t.s, t.y) {
        return leaks(out, j);
    }
    let absent = gone(r, t.s, path);
    let again = targets::again_needed(r.b, r.f, r.owners, t.s, t.x, t.y);
    let k = telling::put_finish(out, j, v, t, absent, again);
    leaks(out, k)
}

// The answer where x exists.
fn over(r: &ValidRecord, trust: u64, t: Target, out: &mut [u8]) -> Option<usize>
    requires { Asks r.now.b.now r.now.f t (way_over (state_of r.now.b.now) (trusted_by trust) t.x) out.old }
    ensures { Told (state_of r.now.b.now) t.s t.x t.y (way_over (state_of r.now.b.now) (trusted_by trust) t.x) out.old out.new (decided_of result) }
{
    let met = climbing::way_up(r, trust, t.x)?;
    from_above(r, met.subject, met.passed.subjects(), t, out)
}

// The answer where x is absent.
fn made(r: &ValidRecord, trust: u64, t: Target, out: &mut [u8]) -> Option<usize>
    requires { Asks r.now.b.now r.now.f t (way_made (state_of r.now.b.now) (trusted_by trust)) out.old }
    ensures { Told (state_of r.now.b.now) t.s t.x t.y (way_made (state_of r.now.b.now) (trusted_by trust)) out.old out.new (decided_of result) }
{
    let v = masks::lowest_untrusted(r.b, r.f, trust)?;
    by_creation(r, v, t, out)
}

// The answer to a question on a valid record for a right that is not held.
fn decide(r: &ValidRecord, trust: u64, t: Target, out: &mut [u8]) -> Option<usize>
    requires { Asks r.now.b.now r.now.f t (way_of (state_of r.now.b.now) (trusted_by trust) t.s t.x t.y) out.old × (held (state_of r.now.b.now) t.y t.s t.x ≡ false) }
    ensures { Told (state_of r.now.b.now) t.s t.x t.y (way_of (state_of r.now.b.now) (trusted_by trust) t.s t.x t.y) out.old out.new (decided_of result) }
{
    if !targets::is_possible(t.s, t.x, t.y) {
        return None;
    }
    if let Some(i) = targets::star_holder(r.b, r.f, trust, t.y, t.x) {
        return by_star(r, i, t, out);
    }
    if states::name_exists(r.b, r.f, t.x) {
        return over(r, trust, t, out);
    }
    made(r, trust, t, out)
}

// Whether the numbers of a question are within the bounds of a record.
fn within_bounds(f: Shape, trust: u64, s: usize, o: usize, right: usize) -> bool
    requires { ShapeRight f }
    ensures { result ≡ (question_fits f s o right && trust_fits f trust) }
{
    holding::question_fits(f, s, o, right) && masks::trust_fits(trust, f.n)
}

// The safety question on any bytes and numbers.
pub fn ask(
    b: &[u8],
    trust: u64,
    s: usize,
    o: usize,
    right: usize,
    out: &mut [u8],
) -> Result<Option<usize>, Refusal>
    ensures { Answers limits b.now trust s o right out.old out.new (safety_of result) }
{
    let mut owners = [0u8; MOST_SUBJECTS];
    let f = validity::open_with(b, &mut owners)?;
    if !within_bounds(f, trust, s, o, right) {
        return Err(Refusal::Bounds);
    }
    if out.len() < LIST_HEAD + RECORD_BYTES * (f.n + 2) {
        return Err(Refusal::BufferShort);
    }
    if holding::is_held(b, f, s, o, right) {
        return Ok(leaks(out, 0));
    }
    let record = ValidRecord {
        b,
        f,
        owners: &owners,
    };
    let x = states::name_of(f.n, o);
    let y = states::right_of(right);
    Ok(decide(&record, trust, Target { s, x, y }, out))
}
