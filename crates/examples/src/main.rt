// Executes the examples of the refusals (Manual 7.1), and what else the manual says of its stations, through the public calls alone.
// A line begins with the row of the table, 0 where nothing is turned down. A command is printed as code, i, s, o and k, and a held
// question as s, o and the right's code. Among them are the first command after which a right is held (Manual 6.3), the conversions
// (Manual 2.4), the largest record (Manual 2.3) and what a window shows (Manual 9). The file stdout has what the manual says of each. It ends with
// an error only where the standard output does not take what is printed.

#![tactic(auto)]

mod answers;
mod asked;
mod buffers;
mod conversions;
mod first_held;
mod largest;
mod questions;
mod records;
mod rows;
mod runs_of_lists;
mod versions;
mod windows;

use std::io;

fn main(rt: HostRuntime) -> io::Result<()> {
    rows::all(&rt)?;
    runs_of_lists::all(&rt)?;
    first_held::all(&rt)?;
    questions::all(&rt)?;
    conversions::all(&rt)?;
    largest::all(&rt)?;
    windows::all(&rt)
}
