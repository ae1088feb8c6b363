// The records that are asked of: each a record of the manual, of which one byte may be replaced.
ghost use Rattle.std.specs.Prelude.{◌<◌, ◌≤◌, length};

use crate::buffers::{Buffer, Replaced};
use crate::versions::Version;
use std::fmt;

// The bytes of the longest, which is A2.
pub const MOST_BYTES: usize = 55;

// The records of the manual that are asked of.
#[derive(Clone, Copy)]
enum Original {
    A,
    AAndOneMore,
    A2,
    B,
    SixBytes,
}

impl Original {
    fn version(self) -> Version {
        match self {
            Original::A2 => Version::Two,
            _ => Version::One,
        }
    }

    fn bytes(self) -> &'static [u8]
        ensures { length result.now ≤ MOST_BYTES }
    {
        match self {
            // U owns 1, 1 owns 2 and 2 owns log 3
            Original::A => {
                b"\x01\x00\x00\x00\x1A\x03\x01\
                \x00\x02\x00\x01\x00\x00\x00\x00\
                \x00\x00\x00\x02\x00\x01\x00\x00\
                \x00\x00\x00\x00\x00\x02\x00\x01"
            }
            Original::AAndOneMore => {
                b"\x01\x00\x00\x00\x1A\x03\x01\
                \x00\x02\x00\x01\x00\x00\x00\x00\
                \x00\x00\x00\x02\x00\x01\x00\x00\
                \x00\x00\x00\x00\x00\x02\x00\x01\
                \x07"
            }
            // A in version 2
            Original::A2 => {
                b"\x02\x00\x00\x00\x32\x03\x01\
                \x00\x00\x00\x02\x00\x00\x00\x01\x00\x00\x00\x00\x00\x00\x00\x00\
                \x00\x00\x00\x00\x00\x00\x00\x02\x00\x00\x00\x01\x00\x00\x00\x00\
                \x00\x00\x00\x00\x00\x00\x00\x00\x00\x00\x00\x02\x00\x00\x00\x01"
            }
            // only U exists
            Original::B => {
                b"\x01\x00\x00\x00\x0E\x02\x01\
                \x00\x02\x00\x00\x00\x00\
                \x00\x00\x00\x00\x00\x00"
            }
            // the example of row 1
            Original::SixBytes => b"\x01\x00\x00\x00\x04\x01",
        }
    }
}

impl fmt::Display for Original {
    fn fmt<W: fmt::Write>(&self, f: &mut fmt::Formatter<W>) -> fmt::Result {
        match self {
            Original::A => write!(f, "A"),
            Original::AAndOneMore => write!(f, "A and one byte more"),
            Original::A2 => write!(f, "A2"),
            Original::B => write!(f, "B"),
            Original::SixBytes => write!(f, "01 00 00 00 04 01"),
        }
    }
}

// An original, or the record that it becomes when one of its bytes is replaced.
#[derive(Clone, Copy)]
pub struct Record {
    original: Original,
    replaced: Option<Replaced<MOST_BYTES>>,
}

pub const A: Record = Record {
    original: Original::A,
    replaced: None,
};

pub const A_AND_ONE_MORE: Record = Record {
    original: Original::AAndOneMore,
    replaced: None,
};

pub const A2: Record = Record {
    original: Original::A2,
    replaced: None,
};

pub const B: Record = Record {
    original: Original::B,
    replaced: None,
};

pub const SIX_BYTES: Record = Record {
    original: Original::SixBytes,
    replaced: None,
};

impl Record {
    // The original with another byte at a place.
    pub fn with(self, at: usize, byte: u8) -> Self
        requires { at < MOST_BYTES }
    {
        Record {
            replaced: Some(Replaced::new(at, byte)),
            ..self
        }
    }

    // The version that the original has.
    pub fn version(self) -> Version {
        self.original.version()
    }

    // Its bytes, to be lent to the calls.
    pub fn buffer(self) -> Buffer<MOST_BYTES> {
        Buffer::copy_of(self.original.bytes()).with(self.replaced)
    }
}

impl fmt::Display for Record {
    fn fmt<W: fmt::Write>(&self, f: &mut fmt::Formatter<W>) -> fmt::Result {
        let Record { original, replaced } = *self;
        write!(f, "{original}")?;
        if let Some(byte) = replaced {
            write!(f, ", {byte}")?;
        }
        Ok(())
    }
}

// An output, or a copy, of so many bytes that are 7.
pub fn output(room: usize) -> Buffer<MOST_BYTES>
    requires { room ≤ MOST_BYTES }
{
    Buffer::first([7; MOST_BYTES], room)
}
