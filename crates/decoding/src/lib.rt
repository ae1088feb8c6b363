// Decoding of a command: its code's row of the table, and the tests 6 and 7.

#![tactic(auto)]

ghost use Rattle.std.specs.Prelude.{◌≡◌};
ghost use Rattle.matrix.specs.Commands.{fields_fit};
ghost use Rattle.matrix.specs.Calls.{names_fit};
ghost use Rattle.codec.specs.ShapeRight.{ShapeRight};
ghost use Rattle.decoding.specs.Decoded.{form_from, over_basic, over_name, of_object, of_subject, ruled_of, basic_fits, decoded_of};

use matrix::{Act, Command, Fields, Form, Kind, Refusal, Right, Rule, Shape};

// A decoded command, with the kind that its o has to be of.
#[derive(Clone, Copy)]
pub struct Decoded {
    pub kind: Kind,
    pub command: Command,
}

// The form of a basic right, by whether the code is the first of its pair.
pub fn form_from(code: usize, first: usize) -> Form
    ensures { result ≡ form_from code first }
{
    if code == first {
        return Form::Plain;
    }
    Form::Starred
}

// A row that uses s, o and k, for a basic right over any name.
fn over_basic(act: Act) -> Rule
    ensures { result ≡ over_basic act }
{
    Rule {
        s: true,
        o: true,
        k: true,
        kind: Kind::AnyName,
        act,
    }
}

// A row that uses s and o, for another right over a name of a kind.
fn over_name(kind: Kind, act: Act) -> Rule
    ensures { result ≡ over_name kind act }
{
    Rule {
        s: true,
        o: true,
        k: false,
        kind,
        act,
    }
}

// A row that uses o alone, a plain object that is created or destroyed.
fn of_object(act: Act) -> Rule
    ensures { result ≡ of_object act }
{
    Rule {
        s: false,
        o: true,
        k: false,
        kind: Kind::PlainName,
        act,
    }
}

// A row that uses s alone, a subject that is created or destroyed.
fn of_subject(act: Act) -> Rule
    ensures { result ≡ of_subject act }
{
    Rule {
        s: true,
        o: false,
        k: false,
        kind: Kind::AnyName,
        act,
    }
}

// The row of a code in the table of commands, if there is one: the fields used, the kind needed and the change.
fn rule_of(code: usize, k: usize) -> Option<Rule>
    ensures { result ≡ ruled_of code k }
{
    match code {
        1..=2 => Some(over_basic(Act::Transfer(Right::Basic(k, form_from(code, 1))))),
        3..=3 => Some(over_name(Kind::AnyName, Act::Transfer(Right::Own))),
        4..=5 => Some(over_basic(Act::Grant(Right::Basic(k, form_from(code, 4))))),
        6..=6 => Some(over_name(Kind::SubjectName, Act::Grant(Right::Control))),
        7..=7 => Some(over_name(Kind::PlainName, Act::Grant(Right::Own))),
        8..=9 => Some(over_basic(Act::Delete(Right::Basic(k, form_from(code, 8))))),
        10..=10 => Some(of_object(Act::CreateObject)),
        11..=11 => Some(of_object(Act::DestroyObject)),
        12..=12 => Some(of_subject(Act::CreateSubject)),
        13..=13 => Some(of_subject(Act::DestroySubject)),
        _ => None,
    }
}

// Whether a command's names are the record's.
pub fn names_fit(f: Shape, c: Fields) -> bool
    requires { ShapeRight f }
    ensures { result ≡ names_fit f c }
{
    c.i < f.n && c.s < f.n && c.o < cells::columns_of(f)
}

// Whether the number of the basic right is in range where it is used, and else 0.
fn basic_fits(basics: usize, used: bool, k: usize) -> bool
    ensures { result ≡ basic_fits basics used k }
{
    if used { k < basics } else { k == 0 }
}

// Whether the fields are what the rule uses, and 0 where it does not, for so many basic rights.
fn fields_fit(basics: usize, r: Rule, c: Fields) -> bool
    ensures { result ≡ fields_fit basics r c.s c.o c.k }
{
    (r.s || c.s == 0) && (r.o || c.o == 0) && basic_fits(basics, r.k, c.k)
}

// A command decoded for a record of a shape, or the refusal 6 or 7.
pub fn decode(f: Shape, c: Fields) -> Result<Decoded, Refusal>
    requires { ShapeRight f }
    ensures { result ≡ decoded_of f c }
{
    let Some(r) = rule_of(c.code, c.k) else {
        return Err(Refusal::Code);
    };
    if !names_fit(f, c) {
        return Err(Refusal::Bounds);
    }
    if !fields_fit(cells::basics_of(f), r, c) {
        return Err(Refusal::Bounds);
    }
    let o = states::name_of(f.n, c.o);
    Ok(Decoded {
        command: Command {
            i: c.i,
            s: c.s,
            o,
            act: r.act,
        },
        kind: r.kind,
    })
}
