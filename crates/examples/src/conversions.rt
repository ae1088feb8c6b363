// Rows 15 and 18 of the refusal table, of the two conversions, and records that are turned into the other version and back. Each is told by the
// version that is wanted and the number of bytes in the output. Every byte of the output is 7 at first.
use crate::answers::compared;
use crate::buffers::Buffer;
use crate::records::{A, A2, MOST_BYTES, Record, SIX_BYTES, output};
use crate::versions::Version;
use std::io;

// Whether an output is what the conversion has to leave there.
fn against(wanted: &[u8], out: &[u8]) -> &'static str {
    if out == wanted {
        "output equals"
    } else {
        "output differs from"
    }
}

// A record becomes another one, in the other version or in its own, and 7 stands after it.
fn becomes(
    rt: &impl Print,
    record: Record,
    new: Record,
    mut out: Buffer<MOST_BYTES>,
) -> io::Result<()> {
    let mut wanted = out;
    for (to, from) in wanted.bytes_mut().iter_mut().zip(new.buffer().bytes()) {
        *to = *from;
    }
    let converted = new
        .version()
        .convert(record.buffer().bytes(), out.bytes_mut());
    let told = against(wanted.bytes(), out.bytes());
    println!(rt; "row 0: {record}, {converted}, {told}: {new}")
}

// A conversion of a record is turned down.
fn refused(
    rt: &impl Print,
    row: u8,
    record: Record,
    wanted: Version,
    mut out: Buffer<MOST_BYTES>,
) -> io::Result<()> {
    let before = out;
    let converted = wanted.convert(record.buffer().bytes(), out.bytes_mut());
    let after = compared(before.bytes(), out.bytes());
    println!(rt; "row {row}: {record}, {converted}, {after}")
}

// A record is turned into the other version, and what comes of it is turned back.
fn there_and_back(
    rt: &impl Print,
    record: Record,
    mut other: Buffer<MOST_BYTES>,
    mut back: Buffer<MOST_BYTES>,
) -> io::Result<()> {
    let original = record.buffer();
    let version = record.version();
    let there = version.other().convert(original.bytes(), other.bytes_mut());
    let and_back = version.convert(other.bytes(), back.bytes_mut());
    let told = against(original.bytes(), back.bytes());
    println!(rt; "row 0: {record}, {there}, {and_back}, {told}: {record}")
}

pub fn all(rt: &impl Print) -> io::Result<()> {
    // A and A2, in an output that is long enough; then one byte shorter
    becomes(rt, A, A2, output(55))?;
    refused(rt, 15, A, Version::Two, output(54))?;
    becomes(rt, A2, A, output(31))?;
    refused(rt, 15, A2, Version::One, output(30))?;
    // bytes after the new record stay
    becomes(rt, A2, A, output(55))?;
    // subject 2 has r7 over log 3: 18, also where the output is too short
    refused(rt, 18, A2.with(52, 1), Version::One, output(55))?;
    refused(rt, 18, A2.with(52, 1), Version::One, output(0))?;
    // r7* and r14*, of subject 1; r6* has a place in both versions
    refused(rt, 18, A2.with(36, 0x02), Version::One, output(55))?;
    refused(rt, 18, A2.with(35, 0x80), Version::One, output(55))?;
    becomes(rt, A2.with(37, 0x80), A.with(21, 0x80), output(31))?;
    becomes(rt, A.with(21, 0x80), A2.with(37, 0x80), output(55))?;
    // in the version that it has already a record is copied, and 18 is not given
    becomes(rt, A, A, output(31))?;
    becomes(rt, A2.with(52, 1), A2.with(52, 1), output(55))?;
    refused(rt, 15, A2.with(52, 1), Version::Two, output(54))?;
    // 1 to 5 come first
    refused(rt, 1, SIX_BYTES, Version::One, output(0))?;
    refused(rt, 2, A.with(0, 0), Version::Two, output(0))?;
    refused(rt, 3, A.with(5, 0), Version::Two, output(55))?;
    refused(rt, 4, A.with(0, 2), Version::One, output(55))?;
    refused(rt, 5, A.with(8, 0), Version::Two, output(54))?;
    there_and_back(rt, A.with(21, 0x80), output(55), output(31))?;
    there_and_back(rt, A2.with(37, 0x80), output(31), output(55))
}
