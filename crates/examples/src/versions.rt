// The two versions of a record, and the conversions into them.
use crate::answers::InNumbers;
use std::fmt;

#[derive(Clone, Copy)]
pub enum Version {
    One,
    Two,
}

impl Version {
    pub fn other(self) -> Version {
        match self {
            Version::One => Version::Two,
            Version::Two => Version::One,
        }
    }

    // Converts a record into this version.
    pub fn convert(self, b: &[u8], out: &mut [u8]) -> Converted {
        let room = out.len();
        let answer = match self {
            Version::One => station::to_version_1(b, out),
            Version::Two => station::to_version_2(b, out),
        };
        Converted {
            version: self,
            room,
            answer: InNumbers(answer),
        }
    }
}

impl fmt::Display for Version {
    fn fmt<W: fmt::Write>(&self, f: &mut fmt::Formatter<W>) -> fmt::Result {
        match self {
            Version::One => write!(f, "version 1"),
            Version::Two => write!(f, "version 2"),
        }
    }
}

// A conversion: the version that is wanted, the number of bytes in the output, and the answer.
#[derive(Drop)]
pub struct Converted {
    version: Version,
    room: usize,
    answer: InNumbers,
}

impl fmt::Display for Converted {
    fn fmt<W: fmt::Write>(&self, f: &mut fmt::Formatter<W>) -> fmt::Result {
        let version = self.version;
        let room = self.room;
        let answer = &self.answer;
        write!(f, "to {version}, output of {room} bytes: {answer}")
    }
}
