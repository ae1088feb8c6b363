// A list of commands: its form, and the commands in it, one after another.

#![tactic(auto)]

ghost use Rattle.std.specs.Prelude.{◌≡◌, true, false, MatchOption};
ghost use Rattle.matrix.specs.CommandList.{well_formed, commands_of};
ghost use Rattle.lists.specs.Forms.{lengths_right, commands_right};
ghost use Rattle.lists.specs.Left.{commands_left, command_at};

use matrix::{Fields, LENGTH_BYTE, LIST_HEAD, MOST_LIST_BYTES, RECORD_BYTES};

// Whether each command that follows the head begins with the right length byte.
fn lengths_right(commands: &[u8]) -> bool
    ensures { result ≡ lengths_right commands.now }
{
    for command in commands.chunks_exact(RECORD_BYTES) {
        if command[0] != LENGTH_BYTE {
            return false;
        }
    }
    true
}

// Whether the bytes after a list's head are as many as it says, within bounds, and whole commands of the right form.
#[tactic(auto, unfolding(crate::specs::Forms::commands_right))]
fn commands_right(commands: &[u8], count: usize) -> bool
    ensures { result ≡ commands_right commands.now count }
{
    commands.len() == count
        && count <= MOST_LIST_BYTES
        && count % RECORD_BYTES == 0
        && lengths_right(commands)
}

// Whether the list is of the right form.
pub fn well_formed(l: &[u8]) -> bool
    ensures { result ≡ well_formed l.now }
{
    LIST_HEAD <= l.len()
        && l[0] == 1
        && commands_right(&l[LIST_HEAD..], octets::four(l, 1) as usize)
}

// A list of the right form, lent.
#[derive(Clone, Copy)]
pub struct List<'a> {
    bytes: &'a [u8],
    ghost formed: { well_formed bytes.now ≡ true },
}

impl<'a> List<'a> {
    // The list in these bytes, or none where they are not of the right form.
    pub fn read(bytes: &'a [u8]) -> Option<List<'a>>
        ensures { MatchOption result (well_formed bytes.now ≡ false) (λ l. (well_formed bytes.now ≡ true) × (l.bytes.now ≡ bytes.now)) }
    {
        if well_formed(bytes) {
            Some(List { bytes })
        } else {
            None
        }
    }

    // Its commands in turn.
    pub fn commands(self) -> Commands<'a>
        ensures { commands_left result.list.bytes.now result.at ≡ commands_of self.entry.bytes.now }
    {
        Commands { list: self, at: 0 }
    }
}

// The decoder: the command numbered j of a list of the right form, or none after the last.
pub fn command_at(l: &[u8], j: usize) -> Option<Fields>
    requires { well_formed l.now ≡ true }
    ensures { result ≡ command_at l.now j }
{
    if (l.len() - LIST_HEAD) / RECORD_BYTES <= j {
        return None;
    }
    let at = LIST_HEAD + RECORD_BYTES * j;
    Some(Fields {
        code: usize::from(l[at + 1]),
        i: usize::from(l[at + 2]),
        s: usize::from(l[at + 3]),
        o: usize::from(l[at + 4]),
        k: usize::from(l[at + 5]),
    })
}

// A reader over a list, which yields one command after another: the list, and the number of the command that is read next.
#[derive(Clone, Copy)]
pub struct Commands<'a> {
    pub list: List<'a>,
    pub at: usize,
}

impl<'a> Iterator for Commands<'a> {
    ghost use Rattle.std.specs.Iterator.{YieldsFirst, item_count};

    type Item = Fields;

    ghost next_gives = { YieldsFirst (λ s. commands_left s.list.bytes.now s.at) };

    ghost remaining = { item_count (λ s. commands_left s.list.bytes.now s.at) };

    fn next(&mut self) -> Option<Fields> {
        let c = command_at(self.list.bytes, self.at)?;
        self.at += 1;
        Some(c)
    }
}
