// What the calls answer, as it is printed. Every number of an answer that is printed is the answer's own.
use matrix::{Numbers, Refusal, Refused};
use std::fmt;

// Whether a record is valid.
pub fn validity(b: &[u8]) -> &'static str {
    if station::valid(b) {
        "valid"
    } else {
        "not valid"
    }
}

// Whether all bytes of a record or an output after a call are those before it.
pub fn compared(before: &[u8], after: &[u8]) -> &'static str {
    if before == after {
        "bytes unchanged"
    } else {
        "bytes changed"
    }
}

// The answer to a command, with its links.
#[derive(Drop)]
pub struct Answered(pub Result<usize, Refused>);

impl fmt::Display for Answered {
    fn fmt<W: fmt::Write>(&self, f: &mut fmt::Formatter<W>) -> fmt::Result {
        match &self.0 {
            Ok(links) => write!(f, "accepted, links {links}"),
            Err(e) => write!(f, "refused {}, links {}", e.refusal.number(), e.value),
        }
    }
}

// The answer to whether a right is held.
#[derive(Drop)]
pub struct Held(pub Result<bool, Refusal>);

impl fmt::Display for Held {
    fn fmt<W: fmt::Write>(&self, f: &mut fmt::Formatter<W>) -> fmt::Result {
        match &self.0 {
            Ok(true) => write!(f, "yes"),
            Ok(false) => write!(f, "no"),
            Err(refusal) => write!(f, "refused {}", refusal.number()),
        }
    }
}

// The answer of a list run. The refusal is 0 where the run ended with the list.
#[derive(Drop)]
pub struct Ran(pub Result<usize, Refused>);

impl fmt::Display for Ran {
    fn fmt<W: fmt::Write>(&self, f: &mut fmt::Formatter<W>) -> fmt::Result {
        let Numbers { refusal, value } = self.0.into();
        write!(f, "accepted {value}, refusal {refusal}")
    }
}

// An answer in numbers: that of a conversion, of the first command after which a right is held, and of a window. The refusal is 0 where there is
// a value, and the value 0 where there is a refusal.
#[derive(Drop)]
pub struct InNumbers(pub Result<usize, Refusal>);

impl fmt::Display for InNumbers {
    fn fmt<W: fmt::Write>(&self, f: &mut fmt::Formatter<W>) -> fmt::Result {
        let Numbers { refusal, value } = match self.0 {
            Ok(value) => Numbers::value(value as u64),
            Err(refusal) => Numbers::refused(refusal),
        };
        write!(f, "refusal {refusal}, value {value}")
    }
}

// The answer to the safety question: the commands of a list that leaks, if there is one.
#[derive(Drop)]
pub struct Told(pub Result<Option<usize>, Refusal>);

impl fmt::Display for Told {
    fn fmt<W: fmt::Write>(&self, f: &mut fmt::Formatter<W>) -> fmt::Result {
        match &self.0 {
            Ok(None) => write!(f, "safe"),
            Ok(Some(count)) => write!(f, "leaks {count}"),
            Err(refusal) => write!(f, "refused {}", refusal.number()),
        }
    }
}
