// Writing a list of commands at the start of a buffer.

#![tactic(auto)]

ghost use Rattle.std.specs.Prelude.{◌≡◌};
ghost use Rattle.writing.specs.Put.{HeadRoom, Room, put_command, put_head};

use matrix::{Fields, LENGTH_BYTE, LIST_HEAD, RECORD_BYTES};

// The command numbered j of the list becomes c: its length byte, and its five fields.
pub fn put_command(out: &mut [u8], j: usize, c: Fields)
    requires { Room out.old j c }
    ensures { out.new ≡ put_command out.old j c }
{
    let at = LIST_HEAD + RECORD_BYTES * j;
    out[at] = LENGTH_BYTE;
    out[at + 1] = c.code as u8;
    out[at + 2] = c.i as u8;
    out[at + 3] = c.s as u8;
    out[at + 4] = c.o as u8;
    out[at + 5] = c.k as u8;
}

// The list's head, for so many commands: the version, and the number of bytes that follow, the highest byte first.
pub fn put_head(out: &mut [u8], count: usize)
    requires { HeadRoom out.old count }
    ensures { out.new ≡ put_head out.old count }
{
    let bytes = RECORD_BYTES * count;
    out[0] = 1;
    octets::put_four(out, 1, bytes as u32);
}
