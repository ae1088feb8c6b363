// The safety question in the program's input: a record, and as the last 11 bytes the trust mask, s, o and the right.

#![tactic(auto)]

ghost use Rattle.question.specs.Safety.{safety_of};
ghost use Rattle.asking.specs.Input.{AnswersInput};

use matrix::Refusal;

// The most bytes of the input, and the bytes of the question at its end.
pub const MOST_INPUT: usize = 65536;

const QUESTION_BYTES: usize = 11;

// The answer to the question in the input, with the list that leaks in `out`.
pub fn ask(input: &[u8], out: &mut [u8]) -> Result<Option<usize>, Refusal>
    ensures { AnswersInput input.now out.old out.new (safety_of result) }
{
    let size = input.len();
    if MOST_INPUT < size {
        return Err(Refusal::RecordLength);
    }
    if size < QUESTION_BYTES {
        return Err(Refusal::RecordShort);
    }
    let at = size - QUESTION_BYTES;
    let trust = octets::eight(input, at);
    let s = opening::byte(input, at + 8) as u64;
    let o = opening::byte(input, at + 9) as u64;
    let right = opening::byte(input, at + 10) as u64;
    station::safety(&input[..at], trust, s, o, right, out)
}
