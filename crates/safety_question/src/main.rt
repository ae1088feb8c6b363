// Asks the safety question that stands in the standard input (Manual 10.2) and prints the answer (Manual 10.3): `safe`, `refused N`, or
// `leaks N` with the commands of the list, a line for each. It ends with an error only where a read or a write fails.

#![tactic(auto)]

ghost use Rattle.std.specs.Prelude.{◌<◌, length, take, IfOk};
ghost use Rattle.std.specs.Io.{ReadsAtMost};
ghost use Rattle.std.specs.Io.KnownBytes.{Consumes, IsAtEnd};

use asking::MOST_INPUT;
use lists::List;
use matrix::{Fields, LIST_HEAD, MOST_SUBJECTS, RECORD_BYTES};
use std::io::{self, Read};

// The bytes of the longest list that leaks.
const LONGEST_LIST: usize = LIST_HEAD + RECORD_BYTES * (MOST_SUBJECTS + 2);

// Fills the buffer from its start until it is full or the input ends, and returns how many bytes it put there. A read that gives some of the
// bytes is gone on with.
fn read_full<R: Read>(input: &mut R, buffer: &mut [u8]) -> io::Result<usize>
    ensures bound { ReadsAtMost result buffer.new }
    ensures bytes { IfOk result (λ n. Consumes (R.remaining input.old) (R.remaining input.new) (take n buffer.new)) }
    ensures whole { IfOk result (λ n. n < length buffer.new → IsAtEnd (R.remaining input.new)) }
{
    let mut size = 0;
    while size < buffer.len() {
        let count = input.read(&mut buffer[size..])?;
        if count == 0 {
            break;
        }
        size += count;
    }
    Ok(size)
}

// A command: code, i, s, o, k.
fn print_command(rt: &impl Print, c: Fields) -> io::Result<()> {
    let Fields { code, i, s, o, k } = c;
    println!(rt; "{code} {i} {s} {o} {k}")
}

// The commands of a list, a line for each.
fn print_list(rt: &impl Print, list: List) -> io::Result<()> {
    for c in list.commands() {
        print_command(rt, c)?;
    }
    Ok(())
}

fn main(rt: HostRuntime) -> io::Result<()> {
    let mut input = [0u8; MOST_INPUT + 1];
    let size = read_full(&mut rt.stdin(), &mut input)?;
    let mut out = [0u8; LONGEST_LIST];
    match asking::ask(&input[..size], &mut out) {
        Err(refusal) => println!(rt; "refused {}", refusal.number()),
        Ok(found) => match found {
            None => println!(rt; "safe"),
            Some(count) => {
                println!(rt; "leaks {count}")?;
                let list = List::read(&out[..LIST_HEAD + RECORD_BYTES * count]).unwrap();
                print_list(&rt, list)
            }
        },
    }
}
