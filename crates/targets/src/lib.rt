// The tests of a question's target that need no way up, on a record that is of the right form: an untrusted subject with the star, whether the
// target is possible, and whether o is to be destroyed and created again.

#![tactic(auto)]

ghost use Rattle.std.specs.Prelude.{◌≡◌, ◌<◌};
ghost use Rattle.matrix.specs.Bounded.{least};
ghost use Rattle.matrix.specs.Owners.{walk, meets};
ghost use Rattle.matrix.specs.Shape.{basics_of};
ghost use Rattle.matrix.specs.Reading.{state_of};
ghost use Rattle.row_search.specs.SomeBelow.{some_below};
ghost use Rattle.states.specs.Needs.{RightIn, NameIn, Guessed};
ghost use Rattle.question.specs.Trust.{trusted_by};
ghost use Rattle.safe.specs.Possible.{possible};
ghost use Rattle.finish.specs.Finish.{again_needed};
ghost use Rattle.ways.specs.Ways.{star_holder};

use matrix::{Form, MOST_SUBJECTS, Name, Right, Shape, Walked};

// The lowest untrusted subject that has basic right k starred over x. The search goes from one untrusted subject to the next.
fn star_row(b: &[u8], f: Shape, trust: u64, k: usize, x: Name) -> Option<usize>
    requires { NameIn b.now f x × (k < basics_of f) }
    ensures { result ≡ some_below f.n (least f.n (star_holder (state_of b.now) (trusted_by trust) x (Right.Basic k Form.Starred))) }
{
    for v in masks::outside(trust, f.n) {
        if states::has_bit(b, f, Right::Basic(k, Form::Starred), v, x) {
            return Some(v);
        }
    }
    None
}

// The lowest untrusted subject with the star of right y over x. Own and control have no star.
pub fn star_holder(b: &[u8], f: Shape, trust: u64, y: Right, x: Name) -> Option<usize>
    requires { NameIn b.now f x × RightIn f y }
    ensures { result ≡ some_below f.n (least f.n (star_holder (state_of b.now) (trusted_by trust) x y)) }
{
    match y {
        Right::Own | Right::Control => None,
        Right::Basic(k, _) => star_row(b, f, trust, k, x),
    }
}

// Whether a valid state may have s with right y over x.
pub fn is_possible(s: usize, x: Name, y: Right) -> bool
    ensures { result ≡ possible s x y }
{
    match (x, y) {
        (Name::Subject(o), Right::Own) => o != s && o != 0,
        (Name::Subject(o), Right::Control) => o != 0 || s == 0,
        (Name::Plain(_), Right::Control) => false,
        _ => true,
    }
}

// Whether the owner walk from s meets subject o.
fn walk_meets(b: &[u8], f: Shape, owners: &[u8; MOST_SUBJECTS], s: usize, o: usize) -> bool
    requires { Guessed b.now f owners.now × (s < f.n) }
    ensures { result ≡ meets (walk (state_of b.now) s (Name.Subject o)) }
{
    matches!(states::owner_walk(b, f, owners, s, o), Walked::Meets(_))
}

// Whether x is to be destroyed and created again before right y over it is given to s: own of a subject that the walk from s meets, and
// control of a subject that another controls.
pub fn again_needed(
    b: &[u8],
    f: Shape,
    owners: &[u8; MOST_SUBJECTS],
    s: usize,
    x: Name,
    y: Right,
) -> bool
    requires { NameIn b.now f x × Guessed b.now f owners.now × (s < f.n) }
    ensures { result ≡ again_needed (state_of b.now) s x y }
{
    match (x, y) {
        (Name::Subject(o), Right::Own) => walk_meets(b, f, owners, s, o),
        (Name::Subject(o), Right::Control) => states::controlled(b, f, o),
        _ => false,
    }
}
