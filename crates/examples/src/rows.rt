// Rows 1 to 14 and 19 of the refusal table, and commands that are accepted beside them.
use crate::answers::{Answered, Ran, compared, validity};
use crate::asked::Command;
use crate::records::{A, A_AND_ONE_MORE, A2, B, Record, SIX_BYTES};
use std::io;

// A row: its number in the table, the record, a command on it, and the code of the right that the command's s may hold over its o.
#[derive(Clone, Copy)]
struct Row(u8, Record, Command, u8);

impl Row {
    // Every call: whether the record is valid, the command, by itself and then in a list of its own, and whether the right is held.
    fn ask(self, rt: &impl Print) -> io::Result<()> {
        let Row(number, record, command, right) = self;
        let question = command.held_question(right);
        let original = record.buffer();
        let mut changed = original;
        let before = original.bytes();
        let b = changed.bytes_mut();
        let valid = validity(b);
        let answer = command.ask(b);
        let after_command = compared(before, b);
        let ran = Ran(station::run(b, &command.as_list()));
        let after_run = compared(before, b);
        let held = question.ask(b);
        print!(rt;
            "row {number}: {record}: {valid}, command {command}: {answer}, {after_command}"
        )?;
        println!(rt; ", in a list: {ran}, {after_run}, held {question}: {held}")
    }
}

fn ask_each(rt: &impl Print, rows: &[Row]) -> io::Result<()> {
    for row in rows {
        row.ask(rt)?;
    }
    Ok(())
}

// Subject 1 grants itself basic right 0 over subject 2, which on A it may.
const GRANT: Command = Command(4, 1, 1, 2, 0);

fn rows_1_to_5(rt: &impl Print) -> io::Result<()> {
    let rows = [
        Row(0, A, GRANT, 2),
        Row(1, SIX_BYTES, GRANT, 2),
        Row(2, A.with(0, 0), GRANT, 2),
        Row(3, A.with(5, 0), GRANT, 2),
        Row(4, A_AND_ONE_MORE, GRANT, 2),
        Row(5, A.with(8, 0), GRANT, 2),
        // the first of two tests that fail: n and L wrong, L and the matrix wrong
        Row(3, A_AND_ONE_MORE.with(5, 0), GRANT, 2),
        Row(4, A_AND_ONE_MORE.with(8, 0), GRANT, 2),
        // the other version's number, for which L is wrong; and the number of no version
        Row(4, A.with(0, 2), GRANT, 2),
        Row(4, A2.with(0, 1), GRANT, 2),
        Row(2, A2.with(0, 3), GRANT, 2),
    ];
    ask_each(rt, &rows)
}

// One subject name, and one plain name, more than the limits allow; and as many as they allow, with an L that is wrong for them.
fn limits(rt: &impl Print) -> io::Result<()> {
    let rows = [
        Row(3, A.with(5, 41), GRANT, 2),
        Row(4, A.with(5, 40), GRANT, 2),
        Row(3, A.with(6, 121), GRANT, 2),
        Row(4, A.with(6, 120), GRANT, 2),
    ];
    ask_each(rt, &rows)
}

fn rows_6_to_14(rt: &impl Print) -> io::Result<()> {
    let rows = [
        Row(6, A, Command(14, 0, 0, 0, 0), 1),
        Row(7, A, Command(4, 0, 0, 4, 0), 0),
        Row(8, B, Command(12, 1, 1, 0, 0), 0),
        Row(9, A, Command(6, 2, 1, 3, 0), 1),
        Row(10, B, Command(11, 0, 0, 2, 0), 0),
        Row(11, A, Command(12, 0, 1, 0, 0), 1),
        Row(12, A, Command(13, 0, 2, 0, 0), 0),
        Row(13, A, Command(3, 0, 2, 1, 0), 0),
        // twice, the second time in a list; then on the record that the first leaves, whose byte 12 has control for subject 0
        Row(14, A, Command(6, 1, 0, 2, 0), 1),
        Row(14, A.with(12, 2), Command(6, 1, 0, 2, 0), 1),
    ];
    ask_each(rt, &rows)
}

fn further(rt: &impl Print) -> io::Result<()> {
    let rows = [
        // s and right out of bounds
        Row(7, A, Command(4, 1, 3, 2, 0), 2),
        Row(7, A, Command(4, 1, 1, 2, 0), 16),
        // the first of several tests that fail: code 14 with i = 255, code 3 over an absent log, an absent i creating an existing s, and
        // a walk that would meet o where i does not own o
        Row(6, A, Command(14, 255, 0, 0, 0), 0),
        Row(10, A.with(30, 0), Command(3, 1, 1, 3, 0), 0),
        Row(8, B, Command(12, 1, 0, 0, 0), 1),
        Row(12, A, Command(3, 1, 2, 1, 0), 0),
        // code 3 with s = o, and with s = i
        Row(13, A, Command(3, 0, 1, 1, 0), 0),
        Row(0, A, Command(3, 1, 1, 2, 0), 0),
        // code 3 over log 3, which 2 owns: to 1, and again, when 2 owns it no more; to 2 itself; to 1 where it owns the log already; by 0
        Row(0, A, Command(3, 2, 1, 3, 0), 0),
        Row(0, A, Command(3, 2, 2, 3, 0), 0),
        Row(0, A.with(22, 1), Command(3, 2, 1, 3, 0), 0),
        Row(12, A, Command(3, 0, 1, 3, 0), 0),
        // subject 1 has r and r* of basic right 1 over log 3: without the bit of r it holds r by r*, until r* is deleted too; in the list, the second
        // time, there is no such bit any more
        Row(0, A.with(22, 0x30), Command(8, 2, 1, 3, 1), 4),
        Row(0, A.with(22, 0x20), Command(9, 2, 1, 3, 1), 4),
        // by r it does not hold r*, and by control of itself not own; in the cell's other byte the highest basic right: by r* it holds r, by r not r*
        Row(12, A.with(22, 0x10), Command(3, 0, 1, 3, 0), 5),
        Row(12, A, Command(3, 1, 1, 1, 0), 0),
        Row(12, A.with(21, 0x80), Command(3, 0, 1, 3, 0), 14),
        Row(12, A.with(21, 0x40), Command(3, 0, 1, 3, 0), 15),
    ];
    ask_each(rt, &rows)
}

// Rights that version 2 alone has: on A out of bounds, as k and as a code; on A2 given to one who does not own o, and held by its code.
fn versions(rt: &impl Print) -> io::Result<()> {
    let rows = [
        Row(7, A, Command(4, 2, 1, 3, 0), 16),
        Row(0, A2, Command(4, 2, 1, 3, 0), 16),
        Row(7, A, Command(4, 1, 0, 2, 7), 15),
        Row(0, A2, Command(4, 1, 0, 2, 7), 16),
        Row(7, A, Command(5, 1, 0, 2, 14), 31),
        Row(0, A2, Command(5, 1, 0, 2, 14), 31),
        Row(7, A2, Command(4, 1, 0, 2, 15), 32),
        // in the cell's first byte the highest basic right: by r* it holds r, by r not r*
        Row(12, A2.with(35, 0x80), Command(3, 0, 1, 3, 0), 30),
        Row(12, A2.with(35, 0x40), Command(3, 0, 1, 3, 0), 31),
        // on A2 the walk meets o, and log 3 goes from 2 to 1
        Row(13, A2, Command(3, 0, 2, 1, 0), 0),
        Row(0, A2, Command(3, 2, 1, 3, 0), 0),
    ];
    ask_each(rt, &rows)
}

// Subject 2 owns log 3 and has no other bit over it.
fn owners(rt: &impl Print) -> io::Result<()> {
    let rows = [
        // it holds r0 and r0* over it, and on A2 r14 and r14* too; it may not transfer them, since the star is not set
        Row(12, A, Command(1, 2, 2, 3, 0), 2),
        Row(12, A, Command(2, 2, 2, 3, 0), 3),
        Row(12, A2, Command(1, 2, 2, 3, 14), 30),
        Row(12, A2, Command(2, 2, 2, 3, 14), 31),
        // own of subject 2 is not control of it, and 1, who controls itself and does not own itself, holds no basic right over itself
        Row(19, A, Command(8, 1, 1, 2, 0), 1),
        Row(12, A, Command(1, 1, 1, 1, 0), 2),
        // with the bit of r0 set beside own, r0 is still held when that bit is deleted
        Row(0, A.with(30, 5), Command(8, 2, 2, 3, 0), 2),
        // when the log goes to 1, 2 holds nothing over it, and 1 holds r0
        Row(0, A, Command(3, 2, 1, 3, 0), 2),
    ];
    ask_each(rt, &rows)
}

// Deletes of a bit that is not set, by one who may delete.
fn deletes(rt: &impl Print) -> io::Result<()> {
    let rows = [
        // 1 has no right over log 3; 2 owns log 3, and 1 controls itself: neither is a basic right
        Row(19, A, Command(8, 2, 1, 3, 0), 2),
        Row(19, A, Command(9, 2, 2, 3, 0), 3),
        Row(19, A, Command(8, 1, 1, 1, 0), 2),
        // the other form of the right is set, or another right
        Row(19, A.with(22, 0x08), Command(8, 2, 1, 3, 0), 2),
        Row(19, A.with(22, 0x04), Command(9, 2, 1, 3, 0), 2),
        Row(19, A.with(22, 0x04), Command(8, 2, 1, 3, 1), 2),
        // the tests before it: 0 neither owns log 3 nor controls 1; log 3 is absent; k is out of bounds
        Row(12, A, Command(8, 0, 1, 3, 0), 2),
        Row(10, A.with(30, 0), Command(8, 1, 1, 3, 0), 2),
        Row(7, A, Command(8, 2, 1, 3, 7), 2),
        // the bit is set: it is deleted, by an owner of log 3 and by 1, who controls itself; the second time it is not set
        Row(0, A.with(22, 0x04), Command(8, 2, 1, 3, 0), 2),
        Row(0, A.with(22, 0x08), Command(9, 1, 1, 3, 0), 3),
        // on A2 r14 and r14*
        Row(19, A2.with(35, 0x80), Command(8, 2, 1, 3, 14), 30),
        Row(0, A2.with(35, 0x80), Command(9, 2, 1, 3, 14), 31),
    ];
    ask_each(rt, &rows)
}

// A number that a byte cannot hold is not cut: with i = 0 the command would be accepted.
fn large(rt: &impl Print) -> io::Result<()> {
    let original = A.buffer();
    let mut changed = original;
    let answer = Answered(station::command(changed.bytes_mut(), 4, 256, 1, 1, 0));
    let after = compared(original.bytes(), changed.bytes());
    println!(rt; "row 7: A, command 4 256 1 1 0: {answer}, {after}")
}

pub fn all(rt: &impl Print) -> io::Result<()> {
    rows_1_to_5(rt)?;
    limits(rt)?;
    rows_6_to_14(rt)?;
    further(rt)?;
    versions(rt)?;
    owners(rt)?;
    deletes(rt)?;
    large(rt)
}
