// Writing the parts of a list that makes a right held, one command after another. Each function that writes answers the number of the next
// command: a writer that held the buffer would need a clause on its reference in every contract.

#![tactic(auto)]

ghost use Rattle.std.specs.Prelude.{◌≡◌, cond, false, ◌&&◌, [], ◌∷◌, ◌++◌, eqb, ◌+◌, ◌<◌, length};
ghost use Rattle.matrix.specs.Names.{column_of};
ghost use Rattle.matrix.specs.Shape.{most_subjects};
ghost use Rattle.route.specs.Parts.{fields, destroys, creates, creates_name, giving_code, basic_number, gives, held_by_own, finish, destroys_all, among};
ghost use Rattle.ways.specs.Ways.{passes_right, made_held};
ghost use Rattle.writing.specs.Put.{ByteFields};
ghost use Rattle.telling.specs.Tells.{Tells, Fits};
ghost use Rattle.telling.specs.Parts.{passing_code};

use matrix::{Fields, Form, Name, Right};
pub use target::Target;

mod target;

// The command numbered j.
fn put(out: &mut [u8], j: usize, c: Fields) -> usize
    requires { Fits out.old j 1 × ByteFields c }
    ensures { Tells out.old out.new j (c ∷ []) result }
{
    writing::put_command(out, j, c);
    j + 1
}

// The command numbered j where it is wanted.
fn put_if(wanted: bool, out: &mut [u8], j: usize, c: Fields) -> usize
    requires { Fits out.old j (cond wanted 1 0) × ByteFields c }
    ensures { Tells out.old out.new j (cond wanted (c ∷ []) []) result }
{
    if !wanted {
        return j;
    }
    put(out, j, c)
}

// A command by its fields.
fn fields(code: usize, i: usize, s: usize, o: usize, k: usize) -> Fields
    ensures { result ≡ fields code i s o k }
{
    Fields { code, i, s, o, k }
}

// v destroys subject w.
fn destroys(v: usize, w: usize) -> Fields
    ensures { result ≡ destroys v w }
{
    fields(13, v, w, 0, 0)
}

// v creates subject w.
fn creates(v: usize, w: usize) -> Fields
    ensures { result ≡ creates v w }
{
    fields(12, v, w, 0, 0)
}

// v creates x.
fn creates_name(v: usize, x: Name) -> Fields
    ensures { result ≡ creates_name v x }
{
    match x {
        Name::Subject(w) => creates(v, w),
        Name::Plain(o) => fields(10, v, 0, o, 0),
    }
}

// The code by which an owner gives the right y over x.
fn giving_code(x: Name, y: Right) -> usize
    ensures { result ≡ giving_code x y }
{
    match (x, y) {
        (Name::Subject(_), Right::Own) => 3,
        (Name::Plain(_), Right::Own) => 7,
        (_, Right::Control) => 6,
        (_, Right::Basic(_, Form::Plain)) => 4,
        (_, Right::Basic(_, Form::Starred)) => 5,
    }
}

// The code by which a holder of the star passes the right y on.
fn passing_code(y: Right) -> usize
    ensures { result ≡ passing_code y }
{
    match y {
        Right::Basic(_, Form::Starred) => 2,
        Right::Own | Right::Control | Right::Basic(_, Form::Plain) => 1,
    }
}

// The number of a basic right, 0 for own and control.
fn basic_number(y: Right) -> usize
    ensures { result ≡ basic_number y }
{
    match y {
        Right::Own | Right::Control => 0,
        Right::Basic(k, _) => k,
    }
}

// The command of a code by which i makes a target so.
fn aimed(code: usize, i: usize, t: Target) -> Fields
    ensures { result ≡ fields code i t.s (column_of t.x) (basic_number t.y) }
{
    fields(code, i, t.s, states::column_of(t.x), basic_number(t.y))
}

// v, who owns the name, gives the right.
fn gives(v: usize, t: Target) -> Fields
    ensures { result ≡ gives v t.s t.x t.y }
{
    aimed(giving_code(t.x, t.y), v, t)
}

// i, who has the starred right, passes it on.
fn passes_right(i: usize, t: Target) -> Fields
    ensures { result ≡ passes_right i t.s t.x t.y }
{
    aimed(passing_code(t.y), i, t)
}

// The end of a list, once v owns x.
pub fn put_finish(out: &mut [u8], j: usize, v: usize, t: Target, absent: bool, again: bool) -> usize
    requires { Fits out.old j (cond again 2 0 + cond absent 2 1) × (v < most_subjects) }
    ensures { Tells out.old out.new j (finish v t.s t.x t.y absent again) result }
{
    let o = states::column_of(t.x);
    let j = put_if(again, out, j, destroys(v, o));
    let j = put_if(again, out, j, creates(v, o));
    let j = put_if(absent, out, j, creates(v, t.s));
    put(out, j, gives(v, t))
}

// The list of an untrusted subject i with the star: s is created where it is absent, and i passes it the right.
pub fn put_star(out: &mut [u8], i: usize, t: Target, absent: bool) -> usize
    requires { Fits out.old 0 2 × (i < most_subjects) }
    ensures { Tells out.old out.new 0 (cond absent (creates i t.s ∷ []) [] ++ (passes_right i t.s t.x t.y ∷ [])) result }
{
    let j = put_if(absent, out, 0, creates(i, t.s));
    put(out, j, passes_right(i, t))
}

// The list of a subject v that creates x: nothing more where s then holds the right.
pub fn put_creation(out: &mut [u8], v: usize, t: Target, absent: bool, held: bool) -> usize
    requires { Fits out.old 0 3 × (v < most_subjects) }
    ensures { Tells out.old out.new 0 (creates_name v t.x ∷ cond held [] (finish v t.s t.x t.y absent false)) result }
{
    let j = put(out, 0, creates_name(v, t.x));
    if held {
        return j;
    }
    put_finish(out, j, v, t, absent, false)
}

// v destroys the subjects of the path in turn.
pub fn put_destroys(out: &mut [u8], v: usize, path: &[u8]) -> usize
    requires { Fits out.old 0 (length path.now) × (v < most_subjects) }
    ensures { Tells out.old out.new 0 (destroys_all v path.now) result }
{
    let mut j = 0;
    for w in path {
        j = put(out, j, destroys(v, *w as usize));
    }
    j
}

// Whether s is on the path.
pub fn is_among(path: &[u8], s: usize) -> bool
    ensures { result ≡ among s path.now }
{
    path.iter().any(|w| s == *w as usize)
}

// Whether s holds the right y as soon as v owns the name: own makes every right held but control.
pub fn owns_then(v: usize, s: usize, y: Right) -> bool
    ensures { result ≡ (held_by_own y && eqb s v) }
{
    match y {
        Right::Own | Right::Basic(_, _) => s == v,
        Right::Control => false,
    }
}

// Whether s holds the right y over x as soon as v creates x, and so owns it. It asks nothing of its numbers, so that they are no `Target`.
pub fn held_when_made(v: usize, s: usize, x: Name, y: Right) -> bool
    ensures { result ≡ made_held v s x y }
{
    match (x, y) {
        (Name::Subject(w), Right::Control) => s == w,
        (_, y) => owns_then(v, s, y),
    }
}
