// The public calls for programs in other languages, each under a name of C. The file include/bunvespo.h says what the numbers mean.

#![tactic(auto)]

ghost use Rattle.std.specs.Prelude.{◌≡◌, ◌≤◌, length, IfSome};
ghost use Rattle.matrix.specs.Shape.{limits};
ghost use Rattle.matrix.specs.Calls.{valid_answer, held_answer, command_answer, command_bytes, run_answer, run_bytes};
ghost use Rattle.matrix.specs.Converting.{convert_result, convert_output};
ghost use Rattle.matrix.specs.CommandList.{most_list_bytes};
ghost use Rattle.matrix.specs.Refusals.{one_more};
ghost use Rattle.matrix.specs.FirstHeld.{first_held_result, Lent};
ghost use Rattle.station.specs.Given.{fields_of};
ghost use Rattle.matrix.specs.Numbers.{truth, held_numbers, command_numbers, run_numbers};
ghost use Rattle.history.specs.Calls.{Emptied, Put, Counted};
ghost use Rattle.bunvespo.specs.Numbers.{AnswersNumbers};

use matrix::Numbers;

// Whether a record is valid: 1 or 0.
#[unsafe(no_mangle)]
pub extern "C" fn bunvespo_valid(b: &[u8]) -> u64
    ensures { result ≡ truth (valid_answer limits b.now) }
{
    u64::from(station::valid(b))
}

// Whether a right is held: the value is 1 or 0.
#[unsafe(no_mangle)]
pub extern "C" fn bunvespo_held(b: &[u8], s: u64, o: u64, right: u64) -> Numbers
    ensures { result ≡ held_numbers (held_answer limits b.now s o right) }
{
    match station::held(b, s, o, right) {
        Ok(held) => Numbers::value(u64::from(held)),
        Err(refusal) => Numbers::refused(refusal),
    }
}

// One command: the value is the number of owner links that the walk followed.
#[unsafe(no_mangle)]
pub extern "C" fn bunvespo_command(
    b: &mut [u8],
    code: u64,
    i: u64,
    s: u64,
    o: u64,
    k: u64,
) -> Numbers
    ensures numbers { result ≡ command_numbers (command_answer limits b.old (fields_of code i s o k)) }
    ensures bytes { b.new ≡ command_bytes limits b.old (fields_of code i s o k) }
{
    station::command(b, code, i, s, o, k).into()
}

// A list of commands: the value is the number accepted.
#[unsafe(no_mangle)]
pub extern "C" fn bunvespo_run(b: &mut [u8], l: &[u8]) -> Numbers
    ensures numbers { result ≡ run_numbers (run_answer limits b.old l.now) }
    ensures bytes { b.new ≡ run_bytes limits b.old l.now }
{
    station::run(b, l).into()
}

// A number of commands as a value: one more, and 0 where there is none.
fn one_more(commands: Option<usize>) -> u64
    requires { IfSome commands (λ n. n ≤ most_list_bytes) }
    ensures { result ≡ one_more commands }
{
    match commands {
        Some(n) => n as u64 + 1,
        None => 0,
    }
}

// The safety question: the value is 0 for safe, and N + 1 for leaks by N commands.
#[unsafe(no_mangle)]
pub extern "C" fn bunvespo_safety(
    b: &[u8],
    trust: u64,
    s: u64,
    o: u64,
    right: u64,
    out: &mut [u8],
) -> Numbers
    ensures { AnswersNumbers b.now trust s o right out.old out.new result }
{
    match station::safety(b, trust, s, o, right, out) {
        Ok(found) => Numbers::value(one_more(found)),
        Err(refusal) => Numbers::refused(refusal),
    }
}

// The first command of a list after which a right is held: the value is 0 for none, and m + 1 where m commands come before.
#[unsafe(no_mangle)]
pub extern "C" fn bunvespo_first_held(
    b: &[u8],
    l: &[u8],
    s: u64,
    o: u64,
    right: u64,
    copy: &mut [u8],
) -> Numbers
    ensures numbers { result ≡ first_held_result limits b.now l.now s o right (length copy.old) }
    ensures lent { Lent result.refusal (length b.now) copy.old copy.new }
{
    match station::first_held(b, l, s, o, right, copy) {
        Ok(first) => Numbers::value(one_more(first)),
        Err(refusal) => Numbers::refused(refusal),
    }
}

// A record in version 1 at the start of the output: the value is the bytes of the new record.
#[unsafe(no_mangle)]
pub extern "C" fn bunvespo_to_version_1(b: &[u8], out: &mut [u8]) -> Numbers
    ensures numbers { result ≡ convert_result limits 1 b.now out.old }
    ensures bytes { out.new ≡ convert_output limits 1 b.now out.old }
{
    match station::to_version_1(b, out) {
        Ok(size) => Numbers::value(size as u64),
        Err(refusal) => Numbers::refused(refusal),
    }
}

// The same in version 2.
#[unsafe(no_mangle)]
pub extern "C" fn bunvespo_to_version_2(b: &[u8], out: &mut [u8]) -> Numbers
    ensures numbers { result ≡ convert_result limits 2 b.now out.old }
    ensures bytes { out.new ≡ convert_output limits 2 b.now out.old }
{
    match station::to_version_2(b, out) {
        Ok(size) => Numbers::value(size as u64),
        Err(refusal) => Numbers::refused(refusal),
    }
}

// An empty window of late refusals.
#[unsafe(no_mangle)]
pub extern "C" fn bunvespo_window_empty(w: &mut [u8])
    ensures { Emptied w.old w.new }
{
    window::empty(w);
}

// One more entry of the window: the value is 0.
#[unsafe(no_mangle)]
pub extern "C" fn bunvespo_window_put(w: &mut [u8], initiator: u64, outcome: u64) -> Numbers
    ensures { Put w.old initiator outcome w.new result }
{
    match window::put(w, initiator, outcome) {
        Ok(()) => Numbers::value(0),
        Err(refusal) => Numbers::refused(refusal),
    }
}

// The count of a number: the value is the count.
#[unsafe(no_mangle)]
pub extern "C" fn bunvespo_window_count(w: &[u8], number: u64) -> Numbers
    ensures { Counted w.now number result }
{
    match window::count(w, number) {
        Ok(count) => Numbers::value(u64::from(count)),
        Err(refusal) => Numbers::refused(refusal),
    }
}
