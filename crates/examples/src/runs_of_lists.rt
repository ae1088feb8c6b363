// Row 16 of the refusal table, and list runs on station A.
ghost use Rattle.std.specs.Prelude.{◌<◌, ◌≤◌};

use crate::answers::{Ran, compared};
use crate::asked::Command;
use crate::buffers::{Buffer, Replaced};
use crate::records::A;
use std::{fmt, io};

// The bytes of the list of ten commands.
const TEN_BYTES: usize = 65;

// Ten commands. On A the first two, grant r and grant control, are accepted and change the record. The third is the second
// again, which is refused. The fourth, which destroys the log, would be accepted.
const TEN: [u8; TEN_BYTES] = *b"\x01\x00\x00\x00\x3C\
    \x05\x04\x01\x01\x02\x00\x05\x06\x01\x00\x02\x00\
    \x05\x06\x01\x00\x02\x00\x05\x0B\x02\x00\x03\x00\
    \x05\x0B\x02\x00\x03\x00\x05\x0B\x02\x00\x03\x00\
    \x05\x0B\x02\x00\x03\x00\x05\x0B\x02\x00\x03\x00\
    \x05\x0B\x02\x00\x03\x00\x05\x0B\x02\x00\x03\x00";

// The first bytes of the list of ten commands, with an L below 256, of which one byte may be replaced.
#[derive(Clone, Copy)]
struct List {
    buffer: Buffer<TEN_BYTES>,
    l: u8,
    replaced: Option<Replaced<TEN_BYTES>>,
}

impl List {
    fn first(len: usize, l: u8) -> Self
        requires { len ≤ TEN_BYTES }
    {
        let mut all = TEN;
        all[4] = l;
        List {
            buffer: Buffer::first(all, len),
            l,
            replaced: None,
        }
    }

    // The same list with another byte at a place.
    fn with(self, at: usize, byte: u8) -> Self
        requires { at < TEN_BYTES }
    {
        let replaced = Some(Replaced::new(at, byte));
        List {
            buffer: self.buffer.with(replaced),
            replaced,
            ..self
        }
    }

    fn bytes(&self) -> &[u8] {
        self.buffer.bytes()
    }
}

impl fmt::Display for List {
    fn fmt<W: fmt::Write>(&self, f: &mut fmt::Formatter<W>) -> fmt::Result {
        let len = self.bytes().len();
        let l = self.l;
        write!(f, "list of {len} bytes, L = {l}")?;
        if let Some(byte) = self.replaced {
            write!(f, ", {byte}")?;
        }
        Ok(())
    }
}

// Runs a list on A, whose bytes are then those before the run or not.
fn run(rt: &impl Print, list: &[u8]) -> io::Result<()> {
    let original = A.buffer();
    let mut changed = original;
    let ran = Ran(station::run(changed.bytes_mut(), list));
    let after = compared(original.bytes(), changed.bytes());
    println!(rt; ": {ran}, {after}")
}

fn of_ten(rt: &impl Print) -> io::Result<()> {
    for (row, list) in [
        // 01 00 00 00 01 05, then a list that ends before L does, one of version 2, and one with nothing after L = 6
        (16u8, List::first(6, 1)),
        (16, List::first(4, 0)),
        (16, List::first(5, 0).with(0, 2)),
        (16, List::first(5, 6)),
        // the length byte of the tenth record
        (16, List::first(65, 60).with(59, 4)),
        // no command, the first two, and all ten
        (0, List::first(5, 0)),
        (0, List::first(17, 12)),
        (14, List::first(65, 60)),
    ] {
        print!(rt; "row {row}: A, {list}")?;
        run(rt, list.bytes())?;
    }
    Ok(())
}

// The list of ten stops at its third command; the first two by themselves leave the same bytes.
fn kept(rt: &impl Print) -> io::Result<()> {
    let list = List::first(65, 60);
    let first = Command(4, 1, 1, 2, 0);
    let second = Command(6, 1, 0, 2, 0);
    let mut by_list = A.buffer();
    let mut by_commands = by_list;
    let ran = Ran(station::run(by_list.bytes_mut(), list.bytes()));
    let to_first = first.ask(by_commands.bytes_mut());
    let to_second = second.ask(by_commands.bytes_mut());
    let told = if by_list.bytes() == by_commands.bytes() {
        "equal"
    } else {
        "differ"
    };
    print!(rt;
        "row 14: A, {list}: {ran}, command {first}: {to_first}, command {second}: {to_second}"
    )?;
    println!(rt; ", bytes {told}")
}

// Log 3 goes from 2 to 1, from 1 to 0 and back to 2.
fn handed_round(rt: &impl Print) -> io::Result<()> {
    print!(rt; "row 0: A, log 3 handed from 2 to 1, to 0, to 2")?;
    run(
        rt,
        b"\x01\x00\x00\x00\x12\x05\x03\x02\x01\x03\x00\x05\x03\x01\x00\x03\x00\x05\x03\x00\x02\x03\x00",
    )
}

pub fn all(rt: &impl Print) -> io::Result<()> {
    of_ten(rt)?;
    kept(rt)?;
    handed_round(rt)
}
