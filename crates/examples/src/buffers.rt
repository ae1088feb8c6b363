// The bytes that are lent to the calls, in fixed memory: the first of an array, of which one may be replaced.
ghost use Rattle.std.specs.Prelude.{◌≡◌, ◌<◌, ◌≤◌, length, take};

use std::fmt;

// The first `len` of N bytes.
#[derive(Clone, Copy)]
pub struct Buffer<const N: usize> {
    all: [u8; N],
    len: usize,
    ghost fits: { len ≤ N },
}

impl<const N: usize> Buffer<N> {
    // The first bytes of an array.
    pub fn first(all: [u8; N], len: usize) -> Self
        requires { len ≤ N }
        ensures { take result.len result.all ≡ take len all.entry }
    {
        Buffer { all, len }
    }

    // A copy of other bytes.
    pub fn copy_of(bytes: &[u8]) -> Self
        requires { length bytes.now ≤ N }
        ensures { take result.len result.all ≡ bytes.now }
    {
        let len = bytes.len();
        let mut all = [0; N];
        all[..len].copy_from_slice(bytes);
        Buffer { all, len }
    }

    // The same bytes, but for the one that is replaced, if one is.
    pub fn with(mut self, replaced: Option<Replaced<N>>) -> Self {
        if let Some(Replaced { at, byte }) = replaced {
            self.all[at] = byte;
        }
        self
    }

    pub fn bytes(&self) -> &[u8]
        ensures { result.now ≡ take self.now.len self.now.all }
    {
        &self.all[..self.len]
    }

    pub fn bytes_mut(&mut self) -> &mut [u8] {
        let len = self.len;
        let all = &mut self.all;
        &mut all[..len]
    }
}

// A byte that stands in place of the one at a place below N.
#[derive(Clone, Copy)]
pub struct Replaced<const N: usize> {
    at: usize,
    byte: u8,
    ghost within: { at < N },
}

impl<const N: usize> Replaced<N> {
    pub fn new(at: usize, byte: u8) -> Self
        requires { at < N }
    {
        Replaced { at, byte }
    }
}

impl<const N: usize> fmt::Display for Replaced<N> {
    fn fmt<W: fmt::Write>(&self, f: &mut fmt::Formatter<W>) -> fmt::Result {
        let Replaced { at, byte } = *self;
        write!(f, "byte {at} = {byte:02x}")
    }
}
