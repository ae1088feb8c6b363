// The largest record, of 40 subject names and 120 plain names, in which U alone exists.
use crate::answers::{compared, validity};
use crate::asked::Question;
use crate::versions::Version;
use std::io;

// The number of its bytes.
const LARGEST: usize = 12807;

// The number of those that it has in version 2.
const LARGEST_2: usize = 25607;

// The room that a list of 42 commands takes.
const ROOM: usize = 257;

// Its header, in which L is 12802, and in U's own cell control.
fn largest() -> [u8; LARGEST] {
    let mut b = [0u8; LARGEST];
    b[0] = 1;
    b[3] = 0x32;
    b[4] = 0x02;
    b[5] = 40;
    b[6] = 120;
    b[8] = 2;
    b
}

// It is turned into version 2, and what comes of it is turned back; and an output that is one byte too short.
fn versions(rt: &impl Print) -> io::Result<()> {
    let b = largest();
    let mut two = [7u8; LARGEST_2];
    let mut back = [7u8; LARGEST];
    let mut short = [7u8; LARGEST_2 - 1];
    let there = Version::Two.convert(&b, &mut two);
    let valid = validity(&two);
    let and_back = Version::One.convert(&two, &mut back);
    let after = compared(&b, &back);
    let refused = Version::Two.convert(&b, &mut short);
    println!(rt; "row 0: the largest record, {there}: {valid}, {and_back}, {after}")?;
    println!(rt; "row 15: the largest record, {refused}")
}

// Whether login 39 can come to hold basic right 0 over log 159, the last of its names, with nobody trusted.
fn question(rt: &impl Print) -> io::Result<()> {
    let b = largest();
    let mut out = [0u8; ROOM];
    let mut short = [0u8; ROOM - 1];
    let question = Question(0, 39, 159, 2);
    let valid = validity(&b);
    let answer = question.ask(&b, &mut out);
    let refused = question.ask(&b, &mut short);
    let room = out.len();
    println!(rt;
        "row 0: the largest record: {valid}, safety {question}, buffer of {room} bytes: {answer}"
    )?;
    let room = short.len();
    println!(rt; "row 15: the largest record, safety {question}, buffer of {room} bytes: {refused}")
}

pub fn all(rt: &impl Print) -> io::Result<()> {
    question(rt)?;
    versions(rt)
}
