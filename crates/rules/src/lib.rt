// The tests 9 to 12 and 19 of a command on a record, each by itself. Those of existence ask that the record is valid.

#![tactic(auto)]

ghost use Rattle.std.specs.Prelude.{◌≡◌, ◌&&◌};
ghost use Rattle.matrix.specs.State.{exists, exists_name};
ghost use Rattle.matrix.specs.Valid.{Valid};
ghost use Rattle.matrix.specs.Tests.{kind_fits, present, free, permitted, deletable};
ghost use Rattle.matrix.specs.Reading.{state_of};
ghost use Rattle.states.specs.Needs.{RightIn};
ghost use Rattle.rules.specs.Needs.{CommandIn};

use matrix::{Act, Command, Form, Kind, Name, Right, Shape};

// Whether a name is of the kind that a command needs.
pub fn kind_fits(kind: Kind, x: Name) -> bool
    ensures { result ≡ kind_fits kind x }
{
    match kind {
        Kind::AnyName => true,
        Kind::SubjectName => match x {
            Name::Subject(_) => true,
            Name::Plain(_) => false,
        },
        Kind::PlainName => match x {
            Name::Subject(_) => false,
            Name::Plain(_) => true,
        },
    }
}

// Whether s and o exist.
fn both_exist(b: &[u8], f: Shape, c: Command) -> bool
    requires { CommandIn b.now f c × Valid (state_of b.now) }
    ensures { result ≡ (exists (state_of b.now) c.s && exists_name (state_of b.now) c.o) }
{
    let o = c.o;
    if states::subject_exists(b, f, c.s) {
        return states::exists_by(b, f, c.i, c.s, o);
    }
    false
}

// Whether the names that a command needs exist: for a transfer, a grant and a delete both.
pub fn names_present(b: &[u8], f: Shape, c: Command) -> bool
    requires { CommandIn b.now f c × Valid (state_of b.now) }
    ensures { result ≡ present (state_of b.now) c c.act }
{
    let act = c.act;
    let o = c.o;
    match act {
        Act::CreateObject => true,
        Act::DestroyObject => states::exists_by(b, f, c.i, c.s, o),
        Act::CreateSubject => true,
        Act::DestroySubject => states::subject_exists(b, f, c.s),
        _ => both_exist(b, f, c),
    }
}

// Whether the name that a command creates is absent.
pub fn name_free(b: &[u8], f: Shape, c: Command) -> bool
    requires { CommandIn b.now f c }
    ensures { result ≡ free (state_of b.now) c c.act }
{
    let act = c.act;
    let o = c.o;
    match act {
        Act::Transfer(_) => true,
        Act::Grant(_) => true,
        Act::Delete(_) => true,
        Act::CreateObject => !states::name_exists(b, f, o),
        Act::DestroyObject => true,
        Act::CreateSubject => !states::subject_exists(b, f, c.s),
        Act::DestroySubject => true,
    }
}

// Whether i owns o.
fn owns_object(b: &[u8], f: Shape, c: Command) -> bool
    requires { CommandIn b.now f c }
    ensures { result ≡ (state_of b.now).owns c.i c.o }
{
    let o = c.o;
    states::has_bit(b, f, Right::Own, c.i, o)
}

// Whether i may transfer the right y over o.
fn may_transfer(b: &[u8], f: Shape, c: Command, y: Right) -> bool
    requires { CommandIn b.now f c × RightIn f y }
    ensures { result ≡ permitted (state_of b.now) c (Act.Transfer y) }
{
    let o = c.o;
    match y {
        Right::Own => owns_object(b, f, c),
        Right::Control => false,
        Right::Basic(k, _) => states::has_bit(b, f, Right::Basic(k, Form::Starred), c.i, o),
    }
}

// Whether i may delete the right y of s over o.
fn may_delete(b: &[u8], f: Shape, c: Command, y: Right) -> bool
    requires { CommandIn b.now f c }
    ensures { result ≡ permitted (state_of b.now) c (Act.Delete y) }
{
    match y {
        Right::Own => false,
        Right::Control => false,
        Right::Basic(_, _) => {
            if owns_object(b, f, c) {
                return true;
            }
            states::has_bit(b, f, Right::Control, c.i, Name::Subject(c.s))
        }
    }
}

// Whether i has the right that the command needs.
pub fn is_permitted(b: &[u8], f: Shape, c: Command) -> bool
    requires { CommandIn b.now f c }
    ensures { result ≡ permitted (state_of b.now) c c.act }
{
    let act = c.act;
    match act {
        Act::Transfer(y) => may_transfer(b, f, c, y),
        Act::Grant(_) => owns_object(b, f, c),
        Act::Delete(y) => may_delete(b, f, c, y),
        Act::CreateObject => true,
        Act::DestroyObject => owns_object(b, f, c),
        Act::CreateSubject => true,
        Act::DestroySubject => states::has_bit(b, f, Right::Own, c.i, Name::Subject(c.s)),
    }
}

// Whether the bit that a delete clears is set.
pub fn is_deletable(b: &[u8], f: Shape, c: Command) -> bool
    requires { CommandIn b.now f c }
    ensures { result ≡ deletable (state_of b.now) c c.act }
{
    let act = c.act;
    let o = c.o;
    match act {
        Act::Delete(y) => states::has_bit(b, f, y, c.s, o),
        _ => true,
    }
}
