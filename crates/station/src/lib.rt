// The public calls. Each takes any bytes and any numbers, and its answer, with the bytes after it, is the definition's.

#![tactic(auto)]

ghost use Rattle.std.specs.Prelude.{◌≡◌, ◌≤◌, true, length, IfOk, IfSome};
ghost use Rattle.matrix.specs.Numbers.{held_numbers, command_numbers, run_numbers};
ghost use Rattle.matrix.specs.Refusals.{number_of, holding_of, answer_of, outcome_of, numbers_by, one_more};
ghost use Rattle.matrix.specs.Shape.{limits, known_version};
ghost use Rattle.matrix.specs.Calls.{valid_answer, held_answer, held_result, command_answer, command_result, command_bytes, run_answer, run_result, run_bytes};
ghost use Rattle.matrix.specs.Converting.{convert_result, convert_output};
ghost use Rattle.matrix.specs.CommandList.{most_list_bytes};
ghost use Rattle.matrix.specs.FirstHeld.{first_held_result, Lent};
ghost use Rattle.question.specs.Safety.{safety_of};
ghost use Rattle.question.specs.Asked.{Answers};
ghost use Rattle.station.specs.Given.{fields_of};

use lists::List;
use matrix::{Fields, MOST_SUBJECTS, Refusal, Refused};

// Whether a record is valid.
pub fn valid(b: &[u8]) -> bool
    ensures { result ≡ valid_answer limits b.now }
{
    validity::open(b).is_ok()
}

// Whether a right is held by subject s over column o, by the right's code.
pub fn held(b: &[u8], s: u64, o: u64, right: u64) -> Result<bool, Refusal>
    ensures answer { holding_of result ≡ held_answer limits b.now s o right }
    ensures numbers { held_numbers (holding_of result) ≡ held_result limits b.now s o right }
{
    let f = validity::open(b)?;
    holding::held_on(b, f, s as usize, o as usize, right as usize)
}

// One command on a record: accepted with the links of the owner walk, or refused with the links.
pub fn command(b: &mut [u8], code: u64, i: u64, s: u64, o: u64, k: u64) -> Result<usize, Refused>
    ensures answer { answer_of result ≡ command_answer limits b.old (fields_of code i s o k) }
    ensures bytes { b.new ≡ command_bytes limits b.old (fields_of code i s o k) }
    ensures numbers { command_numbers (answer_of result) ≡ command_result limits b.old (fields_of code i s o k) }
{
    let mut owners = [0u8; MOST_SUBJECTS];
    validity::open_with(b, &mut owners)?;
    let c = Fields {
        code: code as usize,
        i: i as usize,
        s: s as usize,
        o: o as usize,
        k: k as usize,
    };
    commands::command_on(b, &mut owners, c)
}

// The commands of a list in turn, up to the first that is refused: how many were accepted, with a refusal too. The shape is made anew, in the form
// that the run's loop is compiled for.
pub fn run(b: &mut [u8], l: &[u8]) -> Result<usize, Refused>
    ensures answer { outcome_of result ≡ run_answer limits b.old l.now }
    ensures bytes { b.new ≡ run_bytes limits b.old l.now }
    ensures numbers { run_numbers (outcome_of result) ≡ run_result limits b.old l.now }
{
    let mut owners = [0u8; MOST_SUBJECTS];
    validity::open_with(b, &mut owners)?;
    let Some(list) = List::read(l) else {
        return Err(Refusal::ListForm.into());
    };
    let f = opening::valid_shape(b);
    runs::run_on(b, f, &mut owners, list)
}

// After how many commands of a list a right is first held, if after any, where the commands are tried in turn on a copy of the record. The copy is
// lent, at least as long as the record.
pub fn first_held(
    b: &[u8],
    l: &[u8],
    s: u64,
    o: u64,
    right: u64,
    copy: &mut [u8],
) -> Result<Option<usize>, Refusal>
    ensures result { numbers_by one_more result ≡ first_held_result limits b.now l.now s o right (length copy.old) }
    ensures few { IfOk result (λ first. IfSome first (λ n. n ≤ most_list_bytes)) }
    ensures lent { Lent (number_of result) (length b.now) copy.old copy.new }
{
    trials::first_held(b, l, s as usize, o as usize, right as usize, copy)
}

// The record in a version, which is one that is read, at the start of `out`.
fn convert(b: &[u8], version: usize, out: &mut [u8]) -> Result<usize, Refusal>
    requires { known_version version ≡ true }
    ensures result { numbers_by (λ size. size) result ≡ convert_result limits version b.now out.old }
    ensures output { out.new ≡ convert_output limits version b.now out.old }
{
    let f = validity::open(b)?;
    converting::convert(b, f, version, out)
}

// The record in version 1 at the start of `out`, and the bytes of the new record.
pub fn to_version_1(b: &[u8], out: &mut [u8]) -> Result<usize, Refusal>
    ensures result { numbers_by (λ size. size) result ≡ convert_result limits 1 b.now out.old }
    ensures output { out.new ≡ convert_output limits 1 b.now out.old }
{
    convert(b, 1, out)
}

// The record in version 2 at the start of `out`.
pub fn to_version_2(b: &[u8], out: &mut [u8]) -> Result<usize, Refusal>
    ensures result { numbers_by (λ size. size) result ≡ convert_result limits 2 b.now out.old }
    ensures output { out.new ≡ convert_output limits 2 b.now out.old }
{
    convert(b, 2, out)
}

// The safety question: the number of commands of a list that leaks, which is written at the start of `out`, or none where the question is safe.
pub fn safety(
    b: &[u8],
    trust: u64,
    s: u64,
    o: u64,
    right: u64,
    out: &mut [u8],
) -> Result<Option<usize>, Refusal>
    ensures { Answers limits b.now trust s o right out.old out.new (safety_of result) }
{
    safety::ask(b, trust, s as usize, o as usize, right as usize, out)
}
