// Numbers in bytes, the highest byte first: read, of two bytes, four or eight, and stored, of two or four.

#![tactic(auto)]

ghost use Rattle.std.specs.Prelude.{◌≡◌, ◌+◌, ◌≤◌, length};
ghost use Rattle.matrix.specs.Bytes.{number_at, set_number};

// The number in the two bytes from `at` on.
pub fn two(b: &[u8], at: usize) -> u16
    requires { at + 2 ≤ length b.now }
    ensures { result ≡ number_at b.now at 2 }
{
    u16::from_be_bytes([b[at], b[at + 1]])
}

// The number in the four bytes from `at` on.
pub fn four(b: &[u8], at: usize) -> u32
    requires { at + 4 ≤ length b.now }
    ensures { result ≡ number_at b.now at 4 }
{
    u32::from_be_bytes([b[at], b[at + 1], b[at + 2], b[at + 3]])
}

// The number in the eight bytes from `at` on.
pub fn eight(b: &[u8], at: usize) -> u64
    requires { at + 8 ≤ length b.now }
    ensures { result ≡ number_at b.now at 8 }
{
    u64::from_be_bytes(*b[at..].first_chunk().unwrap())
}

// The two bytes from `at` on become the number v.
pub fn put_two(b: &mut [u8], at: usize, v: u16)
    requires { at + 2 ≤ length b.old }
    ensures { b.new ≡ set_number b.old at 2 v }
{
    b[at..at + 2].copy_from_slice(&v.to_be_bytes());
}

// The four bytes from `at` on become the number v.
pub fn put_four(b: &mut [u8], at: usize, v: u32)
    requires { at + 4 ≤ length b.old }
    ensures { b.new ≡ set_number b.old at 4 v }
{
    b[at..at + 4].copy_from_slice(&v.to_be_bytes());
}
