// Row 17 of the refusal table, and what a window shows as entries go in. An entry is told as its initiator and its outcome; what is told of
// several is the answer to the last of them.
use crate::answers::InNumbers;
use history::WINDOW_BYTES;
use std::{fmt, io};

// An entry: the initiator of a command and its outcome.
#[derive(Clone, Copy)]
struct Entry(u8, u8);

impl Entry {
    fn put(self, w: &mut [u8]) -> InNumbers {
        let Entry(initiator, outcome) = self;
        InNumbers(window::put(w, initiator.into(), outcome.into()).map(|()| 0))
    }

    // The entry goes in once and so many times more.
    fn put_some(self, w: &mut [u8], more: u8) -> InNumbers {
        let mut last = self.put(w);
        for _ in 0..more {
            last = self.put(w);
        }
        last
    }
}

impl fmt::Display for Entry {
    fn fmt<W: fmt::Write>(&self, f: &mut fmt::Formatter<W>) -> fmt::Result {
        let Entry(initiator, outcome) = *self;
        write!(f, "{initiator} {outcome}")
    }
}

pub fn all(rt: &impl Print) -> io::Result<()> {
    let mut w = [7u8; WINDOW_BYTES];
    window::empty(&mut w);
    // Each row has an entry, how many times more it goes in, and the number whose count is asked for then.
    for (row, entry, more, number) in [
        // an initiator and a number of 64
        (17u8, Entry(64, 12), 0, 63u8),
        (17, Entry(63, 0), 0, 64),
        // an outcome of 17 is a refusal as any other
        (0, Entry(63, 17), 0, 63),
        // 254 refusals more, so that 256 entries stand in the window, and one more that pushes the first out
        (0, Entry(5, 12), 253, 5),
        (0, Entry(5, 12), 0, 5),
        (0, Entry(5, 12), 0, 63),
        (0, Entry(5, 12), 0, 5),
        // accepted entries push others out, and entries that are given 17 do not
        (0, Entry(9, 0), 1, 5),
        (17, Entry(255, 12), 9, 5),
    ] {
        let times = u16::from(more) + 1;
        let put = entry.put_some(&mut w, more);
        let count = InNumbers(window::count(&w, number.into()).map(usize::from));
        print!(rt; "row {row}: window, put {entry}, times {times}: {put}")?;
        println!(rt; ", count {number}: {count}")?;
    }
    Ok(())
}
