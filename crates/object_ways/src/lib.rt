// The short ways of commands over a plain object that are accepted on a valid record: codes 3, 7, 10 and 11.

#![tactic(auto)]

ghost use Rattle.std.specs.Prelude.{◌≡◌, cond};
ghost use Rattle.matrix.specs.Valid.{Valid};
ghost use Rattle.matrix.specs.Answers.{Answer};
ghost use Rattle.matrix.specs.Reading.{state_of};
ghost use Rattle.cells.specs.Station.{Station};
ghost use Rattle.short_ways.specs.Answered.{Answered};
ghost use Rattle.short_ways.specs.Allowed.{Where};
ghost use Rattle.short_ways.specs.WithoutBasic.{WithoutBasic};

use matrix::{Fields, Kind, Right, Shape};

// The short way of code 10: an absent plain object gets an owner.
fn create_object(b: &mut [u8], f: Shape, c: Fields) -> bool
    requires { WithoutBasic b.old f c × (c.code ≡ 10) }
    ensures { Where result b.old b.new (Answered b.old b.new c (Answer.Accepted 0)) }
{
    let o = states::name_of(f.n, c.o);
    if c.s != 0 {
        return false;
    }
    if !rules::kind_fits(Kind::PlainName, o) {
        return false;
    }
    if !states::subject_exists(b, f, c.i) {
        return false;
    }
    if states::name_exists(b, f, o) {
        return false;
    }
    bits::put_right(b, f, Right::Own, c.i, o, true);
    true
}

// The short way of code 11: the column of a plain object that i owns is cleared.
fn destroy_object(b: &mut [u8], f: Shape, c: Fields) -> bool
    requires { WithoutBasic b.old f c × (c.code ≡ 11) }
    ensures { Where result b.old b.new (Answered b.old b.new c (Answer.Accepted 0)) }
{
    let o = states::name_of(f.n, c.o);
    if c.s != 0 {
        return false;
    }
    if !rules::kind_fits(Kind::PlainName, o) {
        return false;
    }
    if !states::has_bit(b, f, Right::Own, c.i, o) {
        return false;
    }
    bits::clear_column(b, f, c.o);
    true
}

// The short ways of codes 3 and 7 over a plain object that i owns: s gets own of it, and i keeps its own (code 7) or loses it first (code 3).
fn give_own(b: &mut [u8], f: Shape, c: Fields, keeps: bool) -> bool
    requires { WithoutBasic b.old f c × (c.code ≡ cond keeps 7 3) }
    ensures { Where result b.old b.new (Answered b.old b.new c (Answer.Accepted 0)) }
{
    let o = states::name_of(f.n, c.o);
    if !rules::kind_fits(Kind::PlainName, o) {
        return false;
    }
    let there = states::subject_exists(b, f, c.s);
    if !there {
        return false;
    }
    if !states::has_bit(b, f, Right::Own, c.i, o) {
        return false;
    }
    bits::put_right(b, f, Right::Own, c.i, o, keeps);
    bits::put_right(b, f, Right::Own, c.s, o, true);
    true
}

// The short ways of the codes over a plain object, which use no basic right.
pub fn over_object(b: &mut [u8], f: Shape, c: Fields) -> bool
    requires { Station b.old f × Valid (state_of b.old) }
    ensures { Where result b.old b.new (Answered b.old b.new c (Answer.Accepted 0)) }
{
    if c.k != 0 {
        return false;
    }
    if !decoding::names_fit(f, c) {
        return false;
    }
    if c.code == 3 {
        return give_own(b, f, c, false);
    }
    if c.code == 7 {
        return give_own(b, f, c, true);
    }
    if c.code == 10 {
        return create_object(b, f, c);
    }
    if c.code == 11 {
        return destroy_object(b, f, c);
    }
    false
}
