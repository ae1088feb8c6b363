// What is asked of a record: a command, whether a right is held, and the safety question. Each is printed as its numbers.
use crate::answers::{Answered, Held, InNumbers, Told};
use std::fmt;

// A command: code, i, s, o and k.
#[derive(Clone, Copy)]
pub struct Command(pub u8, pub u8, pub u8, pub u8, pub u8);

impl Command {
    // Asks a record for the command, which changes it where it is accepted.
    pub fn ask(self, b: &mut [u8]) -> Answered {
        let Command(code, i, s, o, k) = self;
        Answered(station::command(b, code.into(), i.into(), s.into(), o.into(), k.into()))
    }

    // A list of this command alone: version, L, and the command behind its length byte.
    pub fn as_list(self) -> [u8; 11] {
        let Command(code, i, s, o, k) = self;
        [1, 0, 0, 0, 6, 5, code, i, s, o, k]
    }

    // Whether the command's s holds the right of a code over its o.
    pub fn held_question(self, right: u8) -> HeldQuestion {
        let Command(_, _, s, o, _) = self;
        HeldQuestion(s, o, right)
    }
}

impl fmt::Display for Command {
    fn fmt<W: fmt::Write>(&self, f: &mut fmt::Formatter<W>) -> fmt::Result {
        let Command(code, i, s, o, k) = *self;
        write!(f, "{code} {i} {s} {o} {k}")
    }
}

// Whether a right is held: the subject, the column and the right's code.
#[derive(Clone, Copy)]
pub struct HeldQuestion(pub u8, pub u8, pub u8);

impl HeldQuestion {
    pub fn ask(self, b: &[u8]) -> Held {
        let HeldQuestion(s, o, right) = self;
        Held(station::held(b, s.into(), o.into(), right.into()))
    }

    // Asks after which command of a list the right is first held.
    pub fn ask_first(self, b: &[u8], list: &[u8], copy: &mut [u8]) -> InNumbers {
        let HeldQuestion(s, o, right) = self;
        let answer = station::first_held(b, list, s.into(), o.into(), right.into(), copy);
        // one more than the commands before, and 0 where the right is held after none
        InNumbers(answer.map(|first| first.map_or(0, |before| before.saturating_add(1))))
    }
}

impl fmt::Display for HeldQuestion {
    fn fmt<W: fmt::Write>(&self, f: &mut fmt::Formatter<W>) -> fmt::Result {
        let HeldQuestion(s, o, right) = *self;
        write!(f, "{s} {o} {right}")
    }
}

// A safety question: the trust mask, s, o and the right's code.
#[derive(Clone, Copy)]
pub struct Question(pub u8, pub u8, pub u8, pub u8);

impl Question {
    // Asks the question of a record. A list that leaks is written into the buffer.
    pub fn ask(self, b: &[u8], out: &mut [u8]) -> Told {
        let Question(trust, s, o, right) = self;
        Told(station::safety(b, trust.into(), s.into(), o.into(), right.into(), out))
    }
}

impl fmt::Display for Question {
    fn fmt<W: fmt::Write>(&self, f: &mut fmt::Formatter<W>) -> fmt::Result {
        let Question(trust, s, o, right) = *self;
        write!(f, "{trust} {s} {o} {right}")
    }
}
