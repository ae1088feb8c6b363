// Row 15 of the refusal table, and safety questions of stations A, A2 and B. Each is told by the trust mask, s, o, the right's code and the
// number of bytes in the buffer.
ghost use Rattle.std.specs.Prelude.{◌≤◌};

use crate::asked::Question;
use crate::buffers::Buffer;
use crate::records::{A, A2, B, Record};
use std::io;

// The room that a list on one of these stations takes.
const ROOM: usize = 35;

// A buffer of so many zeros.
fn zeros(room: usize) -> Buffer<ROOM>
    requires { room ≤ ROOM }
{
    Buffer::first([0; ROOM], room)
}

fn ask(
    rt: &impl Print,
    row: u8,
    record: Record,
    question: Question,
    mut out: Buffer<ROOM>,
) -> io::Result<()> {
    let answer = question.ask(record.buffer().bytes(), out.bytes_mut());
    let room = out.bytes().len();
    println!(rt; "row {row}: {record}, safety {question}, buffer of {room} bytes: {answer}")
}

pub fn all(rt: &impl Print) -> io::Result<()> {
    // 34 bytes and 35 bytes; and the first of two tests that fail, where bit 3 of the mask is set
    ask(rt, 15, A, Question(7, 1, 3, 2), zeros(ROOM - 1))?;
    ask(rt, 0, A, Question(7, 1, 3, 2), zeros(ROOM))?;
    ask(rt, 7, A, Question(8, 1, 3, 2), zeros(ROOM - 1))?;
    for (row, record, question) in [
        // subject 1 destroys 2 and so owns log 3, which is enough for itself; to 0 it grants the right
        (0, A, Question(5, 1, 3, 2)),
        (0, A, Question(5, 0, 3, 2)),
        // the owner, who is trusted, holds own and basic rights at the start; own of a subject is not control of it
        (0, A, Question(7, 2, 3, 0)),
        (0, A, Question(7, 2, 3, 2)),
        (0, A, Question(7, 2, 3, 3)),
        (0, A, Question(7, 1, 2, 1)),
        (0, A, Question(6, 0, 2, 0)),
        // nobody owns itself, also where the subject is absent
        (0, A, Question(1, 1, 1, 0)),
        (0, B, Question(0, 1, 1, 0)),
        // subject 1 is destroyed on the way to log 3 and created again
        (0, A, Question(6, 1, 3, 0)),
        // own goes to subject 2, which is below 1, only after 1 was destroyed and created again
        (0, A, Question(6, 2, 1, 0)),
        (0, B, Question(0, 1, 2, 3)),
        (0, B, Question(1, 1, 2, 3)),
        // the creator holds the right as soon as it creates log 2
        (0, B, Question(0, 0, 2, 3)),
        // basic right 14, which version 2 alone has; the codes beyond are out of bounds there too
        (7, A, Question(5, 1, 3, 30)),
        (0, A2, Question(5, 1, 3, 30)),
        (0, A2, Question(5, 0, 3, 30)),
        (0, A2, Question(7, 1, 3, 30)),
        (0, A2, Question(7, 2, 3, 31)),
        (7, A2, Question(5, 1, 3, 32)),
    ] {
        ask(rt, row, record, question, zeros(ROOM))?;
    }
    Ok(())
}
