// The first command of a list after which a right is held (Manual 6.3, 11.2), on station A, told by s, o, the right's code and the bytes of the
// copy. Every byte of the copy is 7 at first.
use crate::answers::compared;
use crate::asked::HeldQuestion;
use crate::buffers::Buffer;
use crate::records::{A, MOST_BYTES, output};
use std::io;

// Asks for the first command of a list on A after which a right is held.
fn ask(
    rt: &impl Print,
    row: u8,
    list: &[u8],
    question: HeldQuestion,
    mut copy: Buffer<MOST_BYTES>,
) -> io::Result<()> {
    let record = A.buffer();
    let before = copy;
    let answer = question.ask_first(record.bytes(), list, copy.bytes_mut());
    let len = list.len();
    let room = copy.bytes().len();
    let after = compared(before.bytes(), copy.bytes());
    print!(rt; "row {row}: A, list of {len} bytes, first held {question}, copy of {room} bytes")?;
    println!(rt; ": {answer}, {after}")
}

// The list 4 (2, 1, 3, 0), 8 (2, 1, 3, 0), 13 (0, 2), 13 (1, 2). On A the third is refused by 12.
const REFUSED_THIRD: &[u8] = b"\x01\x00\x00\x00\x18\
    \x05\x04\x02\x01\x03\x00\x05\x08\x02\x01\x03\x00\
    \x05\x0D\x00\x02\x00\x00\x05\x0D\x01\x02\x00\x00";

pub fn all(rt: &impl Print) -> io::Result<()> {
    ask(rt, 0, REFUSED_THIRD, HeldQuestion(1, 3, 2), output(31))?;
    ask(rt, 0, REFUSED_THIRD, HeldQuestion(2, 3, 2), output(31))?;
    ask(rt, 0, REFUSED_THIRD, HeldQuestion(1, 3, 0), output(40))?;
    ask(rt, 15, REFUSED_THIRD, HeldQuestion(1, 3, 2), output(30))?;
    ask(rt, 15, b"", HeldQuestion(1, 3, 2), output(30))?;
    ask(rt, 16, b"", HeldQuestion(1, 3, 2), output(31))?;
    ask(rt, 7, REFUSED_THIRD, HeldQuestion(1, 3, 16), output(0))?;
    // destroyed by its owner: 1 inherits log 3
    let destroyed = b"\x01\x00\x00\x00\x06\x05\x0D\x01\x02\x00\x00";
    ask(rt, 0, destroyed, HeldQuestion(1, 3, 2), output(31))
}
