// The short ways of commands over a subject that are accepted on a valid record: codes 6, 12 and 13.

#![tactic(auto)]

ghost use Rattle.std.specs.Prelude.{◌≡◌, true};
ghost use Rattle.matrix.specs.Valid.{Valid};
ghost use Rattle.matrix.specs.Answers.{Answer};
ghost use Rattle.matrix.specs.Reading.{state_of};
ghost use Rattle.matrix.specs.Calls.{names_fit};
ghost use Rattle.cells.specs.Station.{Station};
ghost use Rattle.short_ways.specs.Answered.{Answered};
ghost use Rattle.short_ways.specs.Ready.{doing};
ghost use Rattle.short_ways.specs.Allowed.{Where};
ghost use Rattle.short_ways.specs.WithoutBasic.{WithoutBasic};

use matrix::{Act, Command, Fields, Name, Right, Shape};

// The command of the fields that does `act`.
fn command_of(f: Shape, c: Fields, act: Act) -> Command
    ensures { result ≡ doing f.n c act }
{
    let o = states::name_of(f.n, c.o);
    Command {
        i: c.i,
        s: c.s,
        o,
        act,
    }
}

// The short way of code 6: s gets control of a subject that i owns and that nobody else controls.
fn grant_control(b: &mut [u8], f: Shape, c: Fields) -> bool
    requires { WithoutBasic b.old f c × (c.code ≡ 6) }
    ensures { Where result b.old b.new (Answered b.old b.new c (Answer.Accepted 0)) }
{
    if f.n <= c.o {
        return false;
    }
    if !states::subject_exists(b, f, c.s) {
        return false;
    }
    if !states::has_bit(b, f, Right::Own, c.i, Name::Subject(c.o)) {
        return false;
    }
    if states::controlled(b, f, c.o) {
        return false;
    }
    bits::put_right(b, f, Right::Control, c.s, Name::Subject(c.o), true);
    true
}

// The short way of code 12: an absent subject gets the owner i and controls itself.
fn create_subject(b: &mut [u8], f: Shape, c: Fields) -> bool
    requires { WithoutBasic b.old f c × (c.code ≡ 12) }
    ensures { Where result b.old b.new (Answered b.old b.new c (Answer.Accepted 0)) }
{
    if c.o != 0 {
        return false;
    }
    if !states::subject_exists(b, f, c.i) {
        return false;
    }
    if states::subject_exists(b, f, c.s) {
        return false;
    }
    changes::create_subject(b, f, command_of(f, c, Act::CreateSubject));
    true
}

// The short way of code 13: i inherits what s owns, and row and column s are cleared.
fn destroy_subject(b: &mut [u8], f: Shape, c: Fields) -> bool
    requires { WithoutBasic b.old f c × (c.code ≡ 13) }
    ensures { Where result b.old b.new (Answered b.old b.new c (Answer.Accepted 0)) }
{
    if c.o != 0 {
        return false;
    }
    if !states::has_bit(b, f, Right::Own, c.i, Name::Subject(c.s)) {
        return false;
    }
    changes::destroy_subject(b, f, command_of(f, c, Act::DestroySubject));
    true
}

// The short ways of the codes over a subject that follow no links. Where one is taken the names are the record's, as the caller's table of guesses
// asks.
pub fn over_subject(b: &mut [u8], f: Shape, c: Fields) -> bool
    requires { Station b.old f × Valid (state_of b.old) }
    ensures { Where result b.old b.new (Answered b.old b.new c (Answer.Accepted 0) × (names_fit f c ≡ true)) }
{
    if c.k != 0 {
        return false;
    }
    if !decoding::names_fit(f, c) {
        return false;
    }
    if c.code == 6 {
        return grant_control(b, f, c);
    }
    if c.code == 12 {
        return create_subject(b, f, c);
    }
    if c.code == 13 {
        return destroy_subject(b, f, c);
    }
    false
}
