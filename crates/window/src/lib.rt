// The window of late refusals, which counts for each of 64 subject numbers what was refused of the commands of late. Bytes of any length and
// content are answered.

#![tactic(auto)]

ghost use Rattle.std.specs.Prelude.{◌≡◌, ◌<◌, IfOk};
ghost use Rattle.matrix.specs.Bytes.{number_at, set_number};
ghost use Rattle.history.specs.Entries.{window_numbers, window_refusal};
ghost use Rattle.history.specs.Window.{count_place};
ghost use Rattle.history.specs.Calls.{Emptied, Put, Counted};
ghost use Rattle.matrix.specs.Numbers.{truth};
ghost use Rattle.matrix.specs.Refusals.{number_of, numbers_by};
ghost use Rattle.window.specs.Changed.{lowered, entered};

use history::{COUNTS_PLACE, NEXT_PLACE, WINDOW_BYTES, WINDOW_ENTRIES, WINDOW_NUMBERS};
use matrix::Refusal;

// A number that has a count; any other is refused by 17.
fn named(number: u64) -> Result<usize, Refusal>
    ensures refusal { number_of result ≡ window_refusal number }
    ensures same { IfOk result (λ n. (n ≡ number) × (n < window_numbers)) }
{
    if number < WINDOW_NUMBERS as u64 {
        Ok(number as usize)
    } else {
        Err(Refusal::WindowNumber)
    }
}

// The bytes of a window.
type Window = [u8; WINDOW_BYTES];

// The count of a number.
fn count_at(w: &Window, number: usize) -> u16
    requires { number < window_numbers }
    ensures { result ≡ number_at w.now (count_place number) 2 }
{
    octets::two(w, COUNTS_PLACE + 2 * number)
}

// The count of a number becomes v.
fn set_count(w: &mut Window, number: usize, v: u16)
    requires { number < window_numbers }
    ensures { w.new ≡ set_number w.old (count_place number) 2 v }
{
    octets::put_two(w, COUNTS_PLACE + 2 * number, v);
}

// An entry leaves the window, given by its byte: if it was refused, the count of its initiator, whose number is one less than the byte, is
// one lower. Where it was accepted, so that the byte is 0, the count of the last number is stored as it was: the way through the code does not
// depend on the outcome of what leaves. A byte above 64 is no entry's.
fn lower(w: &mut Window, leaving: u8)
    ensures { w.new ≡ lowered w.old leaving }
{
    let byte = leaving as usize;
    if WINDOW_NUMBERS < byte {
        return;
    }
    let number = (byte + (WINDOW_NUMBERS - 1)) % WINDOW_NUMBERS;
    let v = count_at(w, number);
    set_count(w, number, v.wrapping_sub(u16::from(leaving != 0)));
}

// An entry takes the place of the one that has to leave, and its initiator's count is higher by one where it was refused.
fn enter(w: &mut Window, number: usize, refused: bool)
    requires { number < window_numbers }
    ensures { w.new ≡ entered w.old number (truth refused) }
{
    let place = w[NEXT_PLACE] as usize;
    let leaving = w[place];
    lower(w, leaving);
    w[place] = u8::from(refused) * (number as u8 + 1);
    w[NEXT_PLACE] = ((place + 1) % WINDOW_ENTRIES) as u8;
    let v = count_at(w, number);
    set_count(w, number, v.wrapping_add(u16::from(refused)));
}

// The window without entries. Bytes of another length than a window's stay as they are.
pub fn empty(w: &mut [u8])
    ensures { Emptied w.old w.new }
{
    if w.len() == WINDOW_BYTES {
        w.fill(0);
    }
}

// One more entry: the initiator of a command, and its outcome, 0 if it was accepted. Refused by 17 for an initiator of 64 or more. Bytes of
// another length than a window's stay as they are.
pub fn put(w: &mut [u8], initiator: u64, outcome: u64) -> Result<(), Refusal>
    ensures { Put w.old initiator outcome w.new (numbers_by (λ _. 0) result) }
{
    let number = named(initiator)?;
    if w.len() != WINDOW_BYTES {
        return Ok(());
    }
    enter(w.first_chunk_mut().unwrap(), number, outcome != 0);
    Ok(())
}

// The count of a number, refused by 17 for a number of 64 or more; 0 where the bytes are none of a window.
pub fn count(w: &[u8], number: u64) -> Result<u16, Refusal>
    ensures { Counted w.now number (numbers_by (λ n. n) result) }
{
    let number = named(number)?;
    let Ok(window) = w.try_into() else {
        return Ok(0);
    };
    Ok(count_at(window, number))
}
