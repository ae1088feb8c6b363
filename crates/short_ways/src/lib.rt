// The short way of commands over a basic right that are accepted on a valid record: fewer looks at the record than the tests of a command take
// in turn.

#![tactic(auto)]

ghost use Rattle.std.specs.Prelude.{◌≡◌, true, ◌<◌};
ghost use Rattle.matrix.specs.Valid.{Valid};
ghost use Rattle.matrix.specs.Shape.{basics_of};
ghost use Rattle.matrix.specs.Answers.{Answer};
ghost use Rattle.matrix.specs.Reading.{state_of};
ghost use Rattle.matrix.specs.Calls.{names_fit};
ghost use Rattle.cells.specs.Station.{Station};
ghost use Rattle.states.specs.Needs.{RightIn, BitIn};
ghost use Rattle.decoding.specs.Decoded.{form_from};
ghost use Rattle.short_ways.specs.Answered.{Answered};
ghost use Rattle.short_ways.specs.Allowed.{Where, subject_fits, Allowed};

use matrix::{Fields, Form, Name, Right, Shape};

// What is asked of s: it exists where it is given the right y over o (on), and it has its bit where the right is taken from it.
fn subject_fits(b: &[u8], f: Shape, y: Right, s: usize, o: Name, on: bool) -> bool
    requires { BitIn b.now f y s o }
    ensures { result ≡ subject_fits (state_of b.now) y s o on }
{
    if on {
        return states::subject_exists(b, f, s);
    }
    states::has_bit(b, f, y, s, o)
}

// The basic right of a command over o is given to s, or taken from it, where s fits and i has the right y over o; whether it was.
fn put_allowed(b: &mut [u8], f: Shape, c: Fields, y: Right, first: usize, on: bool) -> bool
    requires { Station b.old f × (names_fit f c ≡ true) × (c.k < basics_of f) × RightIn f y }
    ensures { Where result b.old b.new (Allowed b.old b.new f.n c y (form_from c.code first) on) }
{
    let o = states::name_of(f.n, c.o);
    let form = decoding::form_from(c.code, first);
    if !subject_fits(b, f, Right::Basic(c.k, form), c.s, o, on) {
        return false;
    }
    if !states::has_bit(b, f, y, c.i, o) {
        return false;
    }
    bits::put_right(b, f, Right::Basic(c.k, form), c.s, o, on);
    true
}

// The short way of a command over a basic right, which changes one bit. It is taken where the command is accepted because i has a right
// over o itself: the star for a transfer, own for a grant or a delete. Where i has a right over o, i and o exist, so that is not asked; nor is
// of a delete whether s exists, which has the right.
pub fn by_right(b: &mut [u8], f: Shape, c: Fields) -> bool
    requires { Station b.old f × Valid (state_of b.old) }
    ensures { Where result b.old b.new (Answered b.old b.new c (Answer.Accepted 0)) }
{
    if cells::basics_of(f) <= c.k {
        return false;
    }
    if !decoding::names_fit(f, c) {
        return false;
    }
    match c.code {
        1..=2 => put_allowed(b, f, c, Right::Basic(c.k, Form::Starred), 1, true),
        4..=5 => put_allowed(b, f, c, Right::Own, 4, true),
        8..=9 => put_allowed(b, f, c, Right::Own, 8, false),
        _ => false,
    }
}
