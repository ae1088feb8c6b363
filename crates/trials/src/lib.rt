// The commands of a list tried in turn on a lent copy of a record, for the first after which a right is held.

#![tactic(auto)]

ghost use Rattle.std.specs.Prelude.{◌≡◌, ◌≤◌, ◌<◌, length, IfOk, IfSome};
ghost use Rattle.matrix.specs.Shape.{limits, bits_of};
ghost use Rattle.matrix.specs.Refusals.{number_of, numbers_by, one_more};
ghost use Rattle.matrix.specs.CommandList.{most_list_bytes};
ghost use Rattle.matrix.specs.FirstHeld.{first_on, first_held_result, Lent};
ghost use Rattle.cells.specs.Station.{Cell};
ghost use Rattle.states.specs.Needs.{Guessed};

use lists::List;
use matrix::{MOST_SUBJECTS, Refusal, Shape};

// The commands in turn on the record b, which keeps what they make of it, until the right is held or one is refused: the number of commands before
// the right is held, if it ever is. Each command is tested in full: the short ways are left to the list run, whose loop they are compiled into as
// long as it alone calls them.
fn first_on(
    b: &mut [u8],
    f: Shape,
    owners: &mut [u8; MOST_SUBJECTS],
    list: List,
    s: usize,
    o: usize,
    right: usize,
) -> Option<usize>
    requires { Guessed b.old f owners.old × Cell b.old f s o × (right < bits_of f) }
    ensures first { one_more result ≡ first_on b.old list.entry.bytes.now s o right }
    ensures few { IfSome result (λ n. n ≤ most_list_bytes) }
{
    let mut before = 0;
    for c in list.commands() {
        if holding::is_held(b, f, s, o, right) {
            return Some(before);
        }
        let Ok(_) = commands::command_on(b, owners, c) else {
            return None;
        };
        before += 1;
    }
    if holding::is_held(b, f, s, o, right) {
        Some(before)
    } else {
        None
    }
}

// The same on a copy of the record, which is as long.
fn try_on(
    b: &[u8],
    f: Shape,
    owners: &mut [u8; MOST_SUBJECTS],
    list: List,
    s: usize,
    o: usize,
    right: usize,
    copy: &mut [u8],
) -> Option<usize>
    requires { Guessed b.now f owners.old × Cell b.now f s o × (right < bits_of f) × (length copy.old ≡ length b.now) }
    ensures first { one_more result ≡ first_on b.now list.entry.bytes.now s o right }
    ensures few { IfSome result (λ n. n ≤ most_list_bytes) }
{
    copy.copy_from_slice(b);
    first_on(copy, f, owners, list, s, o, right)
}

// After how many commands of a list a right is first held, if after any, on any bytes and numbers.
pub fn first_held(
    b: &[u8],
    l: &[u8],
    s: usize,
    o: usize,
    right: usize,
    copy: &mut [u8],
) -> Result<Option<usize>, Refusal>
    ensures result { numbers_by one_more result ≡ first_held_result limits b.now l.now s o right (length copy.old) }
    ensures few { IfOk result (λ first. IfSome first (λ n. n ≤ most_list_bytes)) }
    ensures lent { Lent (number_of result) (length b.now) copy.old copy.new }
{
    let mut owners = [0u8; MOST_SUBJECTS];
    let f = validity::open_with(b, &mut owners)?;
    if !holding::question_fits(f, s, o, right) {
        return Err(Refusal::Bounds);
    }
    if copy.len() < b.len() {
        return Err(Refusal::BufferShort);
    }
    let Some(list) = List::read(l) else {
        return Err(Refusal::ListForm);
    };
    let size = b.len();
    Ok(try_on(b, f, &mut owners, list, s, o, right, &mut copy[..size]))
}
