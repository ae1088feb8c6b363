// The verdict on a command: the tests 8 to 12, 19, 13 and 14, one after another, with the links of the owner walk.

#![tactic(auto)]

ghost use Rattle.std.specs.Prelude.{◌≡◌, true};
ghost use Rattle.matrix.specs.Commands.{kind_of};
ghost use Rattle.matrix.specs.Valid.{Valid};
ghost use Rattle.matrix.specs.Tests.{kind_fits};
ghost use Rattle.matrix.specs.Reading.{state_of};
ghost use Rattle.matrix.specs.Refusals.{number_of, numbers_of};
ghost use Rattle.states.specs.Needs.{Guessed};
ghost use Rattle.rules.specs.Needs.{CommandIn};
ghost use Rattle.verdict.specs.Stages.{early};
ghost use Rattle.verdict.specs.Judged.{Entitled, Judged, JudgedLate};

use matrix::{Act, Command, Kind, MOST_SUBJECTS, Name, Refusal, Refused, Right, Shape, Walked};

// Test 13: the walk from s must not meet o, where o is a subject. A plain object has no walk. This test and the next are compiled into their caller:
// the record's shape and the command stand in no memory then.
#[inline(always)]
fn own_transferred(
    b: &[u8],
    f: Shape,
    owners: &[u8; MOST_SUBJECTS],
    c: Command,
) -> Result<usize, Refused>
    requires { Entitled b.now f c × (c.act ≡ Act.Transfer Right.Own) × Guessed b.now f owners.now }
    ensures { JudgedLate (state_of b.now) c (numbers_of result) }
{
    let Name::Subject(t) = c.o else {
        // no walk, and so no links
        return Ok(0);
    };
    match states::owner_walk(b, f, owners, c.s, t) {
        Walked::Meets(links) => Err(Refused {
            refusal: Refusal::WalkMeets,
            value: links,
        }),
        Walked::Root(links) => Ok(links),
        Walked::Lost => Ok(0),
    }
}

// Test 14: no subject but o itself may control o.
#[inline(always)]
fn control_granted(b: &[u8], f: Shape, c: Command) -> Result<usize, Refused>
    requires { Entitled b.now f c × (c.act ≡ Act.Grant Right.Control) }
    ensures { JudgedLate (state_of b.now) c (numbers_of result) }
{
    let Name::Subject(t) = c.o else {
        return Ok(0);
    };
    if states::controlled(b, f, t) {
        return Err(Refusal::OtherController.into());
    }
    Ok(0)
}

// The tests 12, 19, 13 and 14. Two of them look at the record once more: 13 where own is transferred, and 14 where control is granted.
fn judge_late(
    b: &[u8],
    f: Shape,
    owners: &[u8; MOST_SUBJECTS],
    c: Command,
) -> Result<usize, Refused>
    requires { CommandIn b.now f c × (kind_fits (kind_of c.act) c.o ≡ true) × Guessed b.now f owners.now }
    ensures { JudgedLate (state_of b.now) c (numbers_of result) }
{
    if !rules::is_permitted(b, f, c) {
        return Err(Refusal::RightLacking.into());
    }
    if !rules::is_deletable(b, f, c) {
        return Err(Refusal::NotSet.into());
    }
    match c.act {
        Act::Transfer(y) => match y {
            Right::Own => own_transferred(b, f, owners, c),
            _ => Ok(0),
        },
        Act::Grant(y) => match y {
            Right::Control => control_granted(b, f, c),
            _ => Ok(0),
        },
        _ => Ok(0),
    }
}

// The tests 8 to 11: the first that is not passed.
fn judge_early(b: &[u8], f: Shape, c: Command, kind: Kind) -> Result<(), Refusal>
    requires { CommandIn b.now f c × (kind ≡ kind_of c.act) × Valid (state_of b.now) }
    ensures { number_of result ≡ early (state_of b.now) c }
{
    if !states::subject_exists(b, f, c.i) {
        return Err(Refusal::InitiatorAbsent);
    }
    if !rules::kind_fits(kind, c.o) {
        return Err(Refusal::WrongKind);
    }
    if !rules::names_present(b, f, c) {
        return Err(Refusal::NameAbsent);
    }
    if !rules::name_free(b, f, c) {
        return Err(Refusal::NameExists);
    }
    Ok(())
}

// The verdict on a command, with guesses of who owns each subject for the walk: the links of the walk, with a refusal too.
pub fn judge(
    b: &[u8],
    f: Shape,
    owners: &[u8; MOST_SUBJECTS],
    c: Command,
    kind: Kind,
) -> Result<usize, Refused>
    requires { CommandIn b.now f c × (kind ≡ kind_of c.act) × Guessed b.now f owners.now }
    ensures { Judged (state_of b.now) c (numbers_of result) }
{
    judge_early(b, f, c, kind)?;
    judge_late(b, f, owners, c)
}
