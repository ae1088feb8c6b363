// The types that the definitions and the code share. The definitions are in specs/.

#![tactic(auto)]

ghost use Rattle.std.specs.Prelude.{◌≡◌};
ghost use Rattle.matrix.specs.Numbers.{numbers};
ghost use Rattle.matrix.specs.Refusals.{refusal_number, alone, numbers_of};

// The most subject names and plain names that a record has, and so the most columns.
pub const MOST_SUBJECTS: usize = 40;

pub const MOST_PLAIN: usize = 120;

pub const MOST_COLUMNS: usize = MOST_SUBJECTS + MOST_PLAIN;

// The bytes of a record's header: version, L, n and p.
pub const HEADER_BYTES: usize = 7;

// The bytes of a list's head, of one command in a list, and the most that may follow the head.
pub const LIST_HEAD: usize = 5;

pub const RECORD_BYTES: usize = 6;

pub const MOST_LIST_BYTES: usize = 60000;

// A command's length byte: the number of bytes that follow it.
pub const LENGTH_BYTE: u8 = 5;

// What a record's version and its bytes 5 and 6 fix: version, n and p, the bytes of a cell, the place of the first cell.
#[derive(Clone, Copy)]
pub struct Shape {
    pub version: usize,
    pub n: usize,
    pub p: usize,
    pub width: usize,
    pub first: usize,
}

// A name: subjects (logins) and plain objects (logs) are two separate kinds.
#[derive(Clone, Copy)]
pub enum Name {
    Subject(usize),
    Plain(usize),
}

// A basic right is held plain or starred; the star lets its holder pass the right on.
#[derive(Clone, Copy)]
pub enum Form {
    Plain,
    Starred,
}

// A right: own, control, or the basic right of a number, plain or starred.
#[derive(Clone, Copy)]
pub enum Right {
    Own,
    Control,
    Basic(usize, Form),
}

// What a command does. Transfer, grant and delete name the right that they act on.
#[derive(Clone, Copy)]
pub enum Act {
    Transfer(Right),
    Grant(Right),
    Delete(Right),
    CreateObject,
    DestroyObject,
    CreateSubject,
    DestroySubject,
}

// The kind that a command needs its o to be of.
#[derive(Clone, Copy)]
pub enum Kind {
    AnyName,
    SubjectName,
    PlainName,
}

// A row of the table of commands: which of the fields s, o and k it uses, the kind that o has to be of, and what it does.
#[derive(Clone, Copy)]
pub struct Rule {
    pub s: bool,
    pub o: bool,
    pub k: bool,
    pub kind: Kind,
    pub act: Act,
}

// The five fields of a command as a caller gives them.
#[derive(Clone, Copy)]
pub struct Fields {
    pub code: usize,
    pub i: usize,
    pub s: usize,
    pub o: usize,
    pub k: usize,
}

// A decoded command: the initiator, the subject, the name o, and what is done.
#[derive(Clone, Copy)]
pub struct Command {
    pub i: usize,
    pub s: usize,
    pub o: Name,
    pub act: Act,
}

// What the owner walk finds, with the number of owner links followed.
#[derive(Clone, Copy)]
pub enum Walked {
    Meets(usize),
    Root(usize),
    Lost,
}

// Why a call is turned down, under the number that callers in C get (Manual 7.1).
#[derive(Clone, Copy, Debug, PartialEq, Eq)]
pub enum Refusal {
    RecordShort = 1,
    Version = 2,
    Counts = 3,
    RecordLength = 4,
    NotValid = 5,
    Code = 6,
    Bounds = 7,
    InitiatorAbsent = 8,
    WrongKind = 9,
    NameAbsent = 10,
    NameExists = 11,
    RightLacking = 12,
    WalkMeets = 13,
    OtherController = 14,
    BufferShort = 15,
    ListForm = 16,
    WindowNumber = 17,
    HighRight = 18,
    NotSet = 19,
}

impl Refusal {
    pub fn number(self) -> u64
        ensures { result ≡ refusal_number self }
    {
        self as u64
    }
}

// A refusal with a number that is answered beside it: of a command the links of its walk, of a list the commands that were accepted before. The
// number stands first, where an answer has its own, so that both may be held in one register.
#[derive(Clone, Copy)]
pub struct Refused {
    pub value: usize,
    pub refusal: Refusal,
}

impl From<Refusal> for Refused {
    ghost from_gives = { λ r e. e ≡ alone r };

    fn from(refusal: Refusal) -> Refused {
        Refused { refusal, value: 0 }
    }
}

// An answer in numbers: the refusal, 0 where the call is answered, and the value.
#[repr(C)]
#[derive(Clone, Copy)]
pub struct Numbers {
    pub refusal: u64,
    pub value: u64,
}

impl Numbers {
    // A call that is answered, by a value.
    pub fn value(value: u64) -> Numbers
        ensures { result ≡ numbers 0 value }
    {
        Numbers { refusal: 0, value }
    }

    // A call that is refused, with nothing beside the refusal.
    pub fn refused(refusal: Refusal) -> Numbers
        ensures { result ≡ numbers (refusal_number refusal) 0 }
    {
        Numbers {
            refusal: refusal.number(),
            value: 0,
        }
    }
}

impl From<Result<usize, Refused>> for Numbers {
    ghost from_gives = { λ r n. n ≡ numbers_of r };

    fn from(answer: Result<usize, Refused>) -> Numbers {
        match answer {
            Ok(value) => Numbers::value(value as u64),
            Err(e) => Numbers {
                refusal: e.refusal.number(),
                value: e.value as u64,
            },
        }
    }
}
