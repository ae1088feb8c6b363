// One command on a valid record: decoded, tested, and carried out where it is accepted.

#![tactic(auto)]

ghost use Rattle.std.specs.Prelude.{◌≡◌, ◌<◌, length};
ghost use Rattle.matrix.specs.Commands.{kind_of};
ghost use Rattle.matrix.specs.Refusals.{answer_of};
ghost use Rattle.matrix.specs.Shape.{most_subjects, shape_of};
ghost use Rattle.states.specs.Needs.{Guessed};
ghost use Rattle.rules.specs.Needs.{CommandIn};
ghost use Rattle.short_ways.specs.Answered.{Answered, Carried};

use decoding::Decoded;
use matrix::{Act, Command, Fields, MOST_SUBJECTS, Name, Refused, Right, Shape};

// Row w becomes the guess of who owns subject v.
fn guess(owners: &mut [u8; MOST_SUBJECTS], v: usize, w: usize)
    requires { w < most_subjects }
{
    if v < MOST_SUBJECTS {
        owners[v] = w as u8;
    }
}

// Row i becomes the guess wherever row s is. Every guess is written, so that the compiler may take many at once.
fn hand_on(owners: &mut [u8; MOST_SUBJECTS], s: usize, i: usize)
    requires { (s < most_subjects) × (i < most_subjects) }
{
    let from = s as u8;
    let to = i as u8;
    for w in owners.iter_mut() {
        *w = if *w == from { to } else { *w };
    }
}

// The guesses of who owns each subject follow an accepted command, so that a run's walks seldom have to search. They stay guesses:
// nothing rests on what stands in the table.
fn follow(owners: &mut [u8; MOST_SUBJECTS], d: Command)
    requires { (d.s < most_subjects) × (d.i < most_subjects) }
{
    match d.act {
        Act::Transfer(y) => match (y, d.o) {
            (Right::Own, Name::Subject(v)) => guess(owners, v, d.s),
            _ => {}
        },
        Act::CreateSubject => guess(owners, d.s, d.i),
        Act::DestroySubject => hand_on(owners, d.s, d.i),
        _ => {}
    }
}

// A decoded command, tested and carried out: the links of the walk, with a refusal too.
fn carry_out(
    b: &mut [u8],
    f: Shape,
    owners: &mut [u8; MOST_SUBJECTS],
    decoded: Decoded,
) -> Result<usize, Refused>
    requires { CommandIn b.old f decoded.command × (decoded.kind ≡ kind_of decoded.command.act) × Guessed b.old f owners.old }
    ensures answer { Carried b.old b.new decoded.command (answer_of result) }
    ensures table { length owners.new ≡ most_subjects }
{
    let d = decoded.command;
    let links = verdict::judge(b, f, owners, d, decoded.kind)?;
    changes::apply(b, f, d);
    follow(owners, d);
    Ok(links)
}

// A command as given, on a valid record, with guesses of who owns each subject. The record is opened here: the function is compiled by itself,
// and so knows what is the same in all records.
pub fn command_on(
    b: &mut [u8],
    owners: &mut [u8; MOST_SUBJECTS],
    c: Fields,
) -> Result<usize, Refused>
    requires { Guessed b.old (shape_of b.old) owners.old }
    ensures answer { Answered b.old b.new c (answer_of result) }
    ensures table { length owners.new ≡ most_subjects }
{
    let f = opening::shape(b);
    let decoded = decoding::decode(f, c)?;
    carry_out(b, f, owners, decoded)
}

// The guesses follow a command over a subject that went a short way, given by its fields.
fn follow_fields(owners: &mut [u8; MOST_SUBJECTS], c: Fields)
    requires { (c.s < most_subjects) × (c.i < most_subjects) }
{
    match c.code {
        12 => guess(owners, c.s, c.i),
        13 => hand_on(owners, c.s, c.i),
        _ => {}
    }
}

// The same fields, made anew: handed on by themselves, they stand in memory only where they are handed on.
fn anew(c: Fields) -> Fields
    ensures { result ≡ c }
{
    Fields {
        code: c.code,
        i: c.i,
        s: c.s,
        o: c.o,
        k: c.k,
    }
}

// The same in a list, where most commands are accepted: the short ways are tried first.
pub fn command_in_list(
    b: &mut [u8],
    f: Shape,
    owners: &mut [u8; MOST_SUBJECTS],
    c: Fields,
) -> Result<usize, Refused>
    requires { Guessed b.old f owners.old }
    ensures answer { Answered b.old b.new c (answer_of result) }
    ensures table { length owners.new ≡ most_subjects }
{
    if short_ways::by_right(b, f, c) {
        return Ok(0);
    }
    if object_ways::over_object(b, f, c) {
        return Ok(0);
    }
    if !subject_ways::over_subject(b, f, c) {
        return command_on(b, owners, anew(c));
    }
    follow_fields(owners, c);
    Ok(0)
}
