// Runs the lines of document 01, 'The sheet B and what it gives', through pass, reason and check, and prints what each gives. The work and the slip
// are lent longer than asked for and filled before the call, so that what is left as found can be seen. Then views of arcs, sheets that are written,
// numbers with and without bytes behind them, and the store of request 2.6: slips that are put on it, and sheets that it is asked for. The lines
// with the service minutes of request 2.7 stand among those of the pass, the writer and the store.
#![tactic(auto)]

ghost use Rattle.std.specs.Prelude.{◌≡◌, ◌≤◌, length};

use sheet::Header;
use sheet_writer::Draft;
use std::io;
use store::{Putting, Store};
use store_slot::Slot;
use varint::{Bytes, Refusal};
use walks::arc::Arc;
use walks::mark::Mark;
use walks::{ARC_NUMBERS, ARCS, ITEMS, NODES};
use work::WORK_NUMBERS;

// A few more work numbers than an operation asks for, and a slip longer than asked for.
const WORK_LENT: usize = WORK_NUMBERS + 6;

const SLIP_LENT: usize = 1210;

// More bytes than the writer is lent for a sheet.
const SHEET_LENT: usize = 40;

// What a ring has: legs along it and eight more, three numbers for each of them, the items, and at most so many bytes.
const RING_ALONG: usize = NODES - 1;

const RING_LEGS: usize = RING_ALONG + 8;

const RING_NUMBERS: usize = RING_LEGS * 3;

const RING_ITEMS: usize = NODES + RING_LEGS;

const RING_BYTES: usize = 512;

// What the work and the slip hold before a call.
const FILLED_NUMBER: u32 = 2779096485;

const FILLED_BYTE: u8 = 165;

// Whether the bytes from `from` on are as they were filled.
fn is_kept(bytes: &[u8], from: usize) -> bool {
    bytes.iter().skip(from).all(|&byte| byte == FILLED_BYTE)
}

// Whether the numbers from `from` up to `to` are all `value`.
fn is_work_all(work: &[u32], from: usize, to: usize, value: u32) -> bool {
    work.iter()
        .take(to)
        .skip(from)
        .all(|&number| number == value)
}

// Prints a number in hex behind a space, in two digits where they are enough.
fn print_hex(rt: &impl Print, number: u64) -> io::Result<()> {
    print!(rt; " {number:02x}")
}

// Prints a byte in hex behind a space.
fn print_byte(rt: &impl Print, byte: u8) -> io::Result<()> {
    print_hex(rt, byte as u64)
}

// Prints the first `count` bytes in hex.
fn print_bytes(rt: &impl Print, bytes: &[u8], count: usize) -> io::Result<()> {
    for &byte in bytes.iter().take(count) {
        print_byte(rt, byte)?;
    }
    Ok(())
}

// Prints what a finished call left.
fn show_finished(rt: &impl Print, work: &[u32], slip: &[u8], length: usize) -> io::Result<()> {
    print_bytes(rt, slip, length)?;
    if is_kept(slip, length) && is_work_all(work, WORK_NUMBERS, WORK_LENT, FILLED_NUMBER) {
        rt.write_all(b"; rest untouched")?;
    }
    if is_work_all(work, 0, WORK_NUMBERS, 0) {
        rt.write_all(b", work zero")?;
    }
    Ok(())
}

// Prints that a call was refused, and why.
fn show_refusal(rt: &impl Print, why: Refusal) -> io::Result<()> {
    rt.write_all(b" refused ")?;
    let number = u32::from(why);
    print!(rt; "{number}")
}

// Prints what a refused call left.
fn show_refused(rt: &impl Print, work: &[u32], slip: &[u8], why: Refusal) -> io::Result<()> {
    show_refusal(rt, why)?;
    if is_kept(slip, 0) && is_work_all(work, 0, WORK_LENT, FILLED_NUMBER) {
        rt.write_all(b"; all untouched")?;
    }
    Ok(())
}

// Prints what a call of pass or reason gives and leaves, and the line's end.
fn show_answer(
    rt: &impl Print,
    work: &[u32],
    slip: &[u8],
    answer: Result<usize, Refusal>,
) -> io::Result<()> {
    match answer {
        Ok(length) => show_finished(rt, work, slip, length)?,
        Err(why) => show_refused(rt, work, slip, why)?,
    }
    rt.write_all(b"\n")
}

// Prints a line: the name, and what the pass gives.
fn show_pass(rt: &impl Print, name: &[u8], sheet: &[u8]) -> io::Result<()> {
    rt.write_all(name)?;
    rt.write_all(b":")?;
    let mut work = [FILLED_NUMBER; WORK_LENT];
    let mut slip = [FILLED_BYTE; SLIP_LENT];
    let answer = pass::pass(sheet, &mut work, &mut slip);
    show_answer(rt, &work, &slip, answer)
}

// Prints a line: the name, and what reason gives for the item.
fn show_reason(rt: &impl Print, name: &[u8], sheet: &[u8], item: u32) -> io::Result<()> {
    rt.write_all(name)?;
    rt.write_all(b":")?;
    let mut work = [FILLED_NUMBER; WORK_LENT];
    let mut slip = [FILLED_BYTE; SLIP_LENT];
    let answer = reason::reason(sheet, &mut work, &mut slip, item);
    show_answer(rt, &work, &slip, answer)
}

// Prints what a check says: yes, no or its refusal.
fn show_said(rt: &impl Print, answer: Result<bool, Refusal>) -> io::Result<()> {
    match answer {
        Ok(true) => rt.write_all(b": yes"),
        Ok(false) => rt.write_all(b": no"),
        Err(why) => {
            rt.write_all(b": refused ")?;
            let number = u32::from(why);
            print!(rt; "{number}")
        }
    }
}

// Prints what a check left.
fn show_work_left(rt: &impl Print, work: &[u32]) -> io::Result<()> {
    if is_work_all(work, 0, WORK_NUMBERS, 0)
        && is_work_all(work, WORK_NUMBERS, WORK_LENT, FILLED_NUMBER)
    {
        rt.write_all(b"; rest untouched, work zero")?;
    }
    rt.write_all(b"\n")
}

// Prints a line: the slip, and what check says to it on the sheet of the line before.
fn show_check(rt: &impl Print, sheet: &[u8], slip: &[u8]) -> io::Result<()> {
    rt.write_all(b"  check of")?;
    print_bytes(rt, slip, slip.len())?;
    let mut work = [FILLED_NUMBER; WORK_LENT];
    let answer = checker::check(sheet, &mut work, slip);
    show_said(rt, answer)?;
    show_work_left(rt, &work)
}

// Prints what pass gives and what check says to its slip.
fn show_checked(rt: &impl Print, name: &[u8], sheet: &[u8], slip: &[u8]) -> io::Result<()> {
    show_pass(rt, name, sheet)?;
    show_check(rt, sheet, slip)
}

// Prints what reason gives and what check says to its slip.
fn show_reason_checked(
    rt: &impl Print,
    name: &[u8],
    sheet: &[u8],
    item: u32,
    slip: &[u8],
) -> io::Result<()> {
    show_reason(rt, name, sheet, item)?;
    show_check(rt, sheet, slip)
}

// Prints a line: the name, and the bytes of the arc's view. Where in the sheet they stand no program can see; the contract of `arc_view` says it.
fn show_view(rt: &impl Print, name: &[u8], sheet: &[u8], arc: u32) -> io::Result<()> {
    rt.write_all(name)?;
    rt.write_all(b":")?;
    let part = sheet_view::arc_view(sheet, arc);
    if part.len() == 0 {
        rt.write_all(b" empty")?;
    }
    print_bytes(rt, part, part.len())?;
    rt.write_all(b"\n")
}

// A slip slice of 1,199 bytes.
fn show_short_slip(rt: &impl Print) -> io::Result<()> {
    rt.write_all(b"slip slice of 1,199:")?;
    let mut work = [FILLED_NUMBER; WORK_LENT];
    let mut slip = [FILLED_BYTE; 1199];
    let sheet =
        b"\x04\x05\x00\x03\x08\x00\x01\x04\x01\x03\x04\x00\x02\x03\x02\x03\x09\x01\x02\x01\x00\x00\x00\x00\x00\x00\x00\x00\x00";
    let answer = pass::pass(sheet, &mut work, &mut slip);
    show_answer(rt, &work, &slip, answer)
}

// The starred lines on which the round stands.
fn starred_rounds(rt: &impl Print) -> io::Result<()> {
    show_pass(
        rt,
        b"B",
        b"\x04\x05\x00\x03\x08\x00\x01\x04\x01\x03\x04\x00\x02\x03\x02\x03\x09\x01\x02\x01\x00\x00\x00\x00\x00\x00\x00\x00\x00",
    )?;
    show_pass(
        rt,
        b"K 12, item 4 shut",
        b"\x04\x05\x00\x03\x0C\x00\x01\x04\x01\x03\x04\x00\x02\x03\x02\x03\x09\x01\x02\x01\x00\x00\x00\x00\x02\x00\x00\x00\x00",
    )?;
    show_pass(
        rt,
        b"K 14, places 1 and 2 must",
        b"\x04\x05\x00\x03\x0E\x00\x01\x04\x01\x03\x04\x00\x02\x03\x02\x03\x09\x01\x02\x01\x00\x01\x01\x00\x00\x00\x00\x00\x00",
    )
}

// The starred lines on which the round is refused and nothing is shut.
fn starred_refusals(rt: &impl Print) -> io::Result<()> {
    show_checked(
        rt,
        b"B with K 7",
        b"\x04\x05\x00\x03\x07\x00\x01\x04\x01\x03\x04\x00\x02\x03\x02\x03\x09\x01\x02\x01\x00\x00\x00\x00\x00\x00\x00\x00\x00",
        b"\x01\x00\x00",
    )?;
    show_checked(
        rt,
        b"B with place 2 must",
        b"\x04\x05\x00\x03\x08\x00\x01\x04\x01\x03\x04\x00\x02\x03\x02\x03\x09\x01\x02\x01\x00\x00\x01\x00\x00\x00\x00\x00\x00",
        b"\x02\x01\x02\x00",
    )?;
    show_checked(
        rt,
        b"K 13, places 1 and 2 must",
        b"\x04\x05\x00\x03\x0D\x00\x01\x04\x01\x03\x04\x00\x02\x03\x02\x03\x09\x01\x02\x01\x00\x01\x01\x00\x00\x00\x00\x00\x00",
        b"\x03\x02\x01\x02\x00",
    )?;
    show_checked(
        rt,
        b"K 13, item 8 must",
        b"\x04\x05\x00\x03\x0D\x00\x01\x04\x01\x03\x04\x00\x02\x03\x02\x03\x09\x01\x02\x01\x00\x00\x00\x00\x00\x00\x00\x00\x01",
        b"\x02\x01\x08\x00",
    )
}

// The starred lines on which the round is refused and something is shut.
fn starred_closures(rt: &impl Print) -> io::Result<()> {
    show_checked(
        rt,
        b"K 14, places 1 and 2 must, item 8 shut",
        b"\x04\x05\x00\x03\x0E\x00\x01\x04\x01\x03\x04\x00\x02\x03\x02\x03\x09\x01\x02\x01\x00\x01\x01\x00\x00\x00\x00\x00\x02",
        b"\x03\x02\x01\x02\x01\x08",
    )?;
    show_checked(
        rt,
        b"K 8, item 1 shut",
        b"\x04\x05\x00\x03\x08\x00\x01\x04\x01\x03\x04\x00\x02\x03\x02\x03\x09\x01\x02\x01\x00\x02\x00\x00\x00\x00\x00\x00\x00",
        b"\x01\x00\x01\x01",
    )?;
    show_checked(
        rt,
        b"Items 1 and 5 shut",
        b"\x04\x05\x00\x03\x08\x00\x01\x04\x01\x03\x04\x00\x02\x03\x02\x03\x09\x01\x02\x01\x00\x02\x00\x00\x00\x02\x00\x00\x00",
        b"\x01\x00\x01\x05",
    )
}

// The starred lines of reason.
fn starred_reasons(rt: &impl Print) -> io::Result<()> {
    show_reason_checked(
        rt,
        b"B, reason for item 2",
        b"\x04\x05\x00\x03\x08\x00\x01\x04\x01\x03\x04\x00\x02\x03\x02\x03\x09\x01\x02\x01\x00\x00\x00\x00\x00\x00\x00\x00\x00",
        2,
        b"\x04\x01\x02\x00",
    )?;
    show_reason_checked(
        rt,
        b"K 12, item 4 shut, reason for item 1",
        b"\x04\x05\x00\x03\x0C\x00\x01\x04\x01\x03\x04\x00\x02\x03\x02\x03\x09\x01\x02\x01\x00\x00\x00\x00\x02\x00\x00\x00\x00",
        1,
        b"\x04\x01\x01\x01\x04",
    )
}

// Sheets that cannot be read.
fn bad_sheets(rt: &impl Print) -> io::Result<()> {
    show_pass(rt, b"Empty sheet", b"")?;
    show_pass(
        rt,
        b"B and one byte more",
        b"\x04\x05\x00\x03\x08\x00\x01\x04\x01\x03\x04\x00\x02\x03\x02\x03\x09\x01\x02\x01\x00\x00\x00\x00\x00\x00\x00\x00\x00\x00",
    )?;
    show_pass(
        rt,
        b"First number 80 00",
        b"\x80\x00\x05\x00\x03\x08\x00\x01\x04\x01\x03\x04\x00\x02\x03\x02\x03\x09\x01\x02\x01\x00\x00\x00\x00\x00\x00\x00\x00\x00",
    )
}

// Sheets with a leading 1 that cannot be read: all service minutes are 0, one of them is missing, no place count follows; and a 1 that is badly written.
fn bad_served(rt: &impl Print) -> io::Result<()> {
    show_pass(
        rt,
        b"B with services 0 0 0 0",
        b"\x01\x04\x05\x00\x03\x08\x00\x01\x04\x01\x03\x04\x00\x02\x03\x02\x03\x09\x01\x02\x01\x00\x00\x00\x00\x00\x00\x00\x00\x00\x00\x00\x00\x00",
    )?;
    show_pass(
        rt,
        b"The same without its last byte",
        b"\x01\x04\x05\x00\x03\x08\x00\x01\x04\x01\x03\x04\x00\x02\x03\x02\x03\x09\x01\x02\x01\x00\x00\x00\x00\x00\x00\x00\x00\x00\x00\x00\x00",
    )?;
    show_pass(
        rt,
        b"The same and one byte more",
        b"\x01\x04\x05\x00\x03\x08\x00\x01\x04\x01\x03\x04\x00\x02\x03\x02\x03\x09\x01\x02\x01\x00\x00\x00\x00\x00\x00\x00\x00\x00\x00\x00\x00\x00\x00",
    )?;
    show_pass(rt, b"Sheet 01", b"\x01")?;
    show_pass(rt, b"Sheet 01 01", b"\x01\x01")?;
    show_pass(rt, b"Sheet 81 00", b"\x81\x00")?;
    show_pass(rt, b"Sheet 01 84 00", b"\x01\x84\x00")
}

// Sheets with a number that is too large, or too many counted items.
fn large_sheets(rt: &impl Print) -> io::Result<()> {
    show_pass(
        rt,
        b"Limit C1 84 3D",
        b"\x04\x05\x00\x03\xC1\x84\x3D\x00\x01\x04\x01\x03\x04\x00\x02\x03\x02\x03\x09\x01\x02\x01\x00\x00\x00\x00\x00\x00\x00\x00\x00",
    )?;
    show_pass(
        rt,
        b"Minutes 80 80 04",
        b"\x04\x05\x00\x03\x08\x00\x01\x80\x80\x04\x01\x03\x04\x00\x02\x03\x02\x03\x09\x01\x02\x01\x00\x00\x00\x00\x00\x00\x00\x00\x00",
    )?;
    show_pass(
        rt,
        b"Service D9 04, K 12",
        b"\x01\x04\x05\x00\x03\x0C\x00\x01\x04\x01\x03\x04\x00\x02\x03\x02\x03\x09\x01\x02\x01\x00\x00\x00\x00\x00\x00\x00\x00\x00\x00\xD9\x04\x00\x00",
    )?;
    show_pass(
        rt,
        b"Nine counted places",
        b"\x0B\x00\x00\x0A\x08\x00\x01\x01\x01\x01\x01\x01\x01\x01\x01\x00",
    )
}

// Limits, minutes, service minutes and counted items at their bounds.
fn bounds(rt: &impl Print) -> io::Result<()> {
    show_pass(
        rt,
        b"Limit C0 84 3D",
        b"\x04\x05\x00\x03\xC0\x84\x3D\x00\x01\x04\x01\x03\x04\x00\x02\x03\x02\x03\x09\x01\x02\x01\x00\x00\x00\x00\x00\x00\x00\x00\x00",
    )?;
    show_checked(
        rt,
        b"Minutes FF FF 03",
        b"\x04\x05\x00\x03\x08\x00\x01\xFF\xFF\x03\x01\x03\x04\x00\x02\x03\x02\x03\x09\x01\x02\x01\x00\x00\x00\x00\x00\x00\x00\x00\x00",
        b"\x01\x00\x00",
    )?;
    show_pass(
        rt,
        b"Service D8 04, K 12",
        b"\x01\x04\x05\x00\x03\x0C\x00\x01\x04\x01\x03\x04\x00\x02\x03\x02\x03\x09\x01\x02\x01\x00\x00\x00\x00\x00\x00\x00\x00\x00\x00\xD8\x04\x00\x00",
    )?;
    show_checked(
        rt,
        b"Eight counted places",
        b"\x0B\x00\x00\x0A\x08\x00\x01\x01\x01\x01\x01\x01\x01\x01\x00\x00",
        b"\x01\x00\x00",
    )
}

// Must legs on B: the line that request 2.3 adds to the starred ones; the same with an end of the leg must, which is not counted; two that one walk drives.
fn must_legs(rt: &impl Print) -> io::Result<()> {
    let two =
        b"\x04\x05\x00\x03\x0E\x00\x01\x04\x01\x03\x04\x00\x02\x03\x02\x03\x09\x01\x02\x01\x00\x01\x00\x00\x00\x00\x01\x00\x00";
    show_checked(
        rt,
        b"K 14, items 1 and 6 must",
        two,
        b"\x03\x02\x01\x06\x00",
    )?;
    show_check(rt, two, b"\x03\x02\x01\x02\x00")?;
    show_check(rt, two, b"\x03\x02\x01\x04\x00")?;
    let end =
        b"\x04\x05\x00\x03\x0E\x00\x01\x04\x01\x03\x04\x00\x02\x03\x02\x03\x09\x01\x02\x01\x00\x01\x01\x00\x00\x00\x01\x00\x00";
    show_checked(
        rt,
        b"K 14, items 1, 2 and 6 must",
        end,
        b"\x03\x02\x01\x06\x00",
    )?;
    show_check(rt, end, b"\x03\x02\x01\x02\x00")?;
    show_pass(
        rt,
        b"K 14, items 4 and 8 must",
        b"\x04\x05\x00\x03\x0E\x00\x01\x04\x01\x03\x04\x00\x02\x03\x02\x03\x09\x01\x02\x01\x00\x00\x00\x00\x01\x00\x00\x00\x01",
    )
}

// Must legs from start to finish: twins without and with a way back, and nine of them.
fn twin_legs(rt: &impl Print) -> io::Result<()> {
    show_checked(
        rt,
        b"Twin must legs, no way back",
        b"\x02\x02\x00\x01\x09\x00\x01\x01\x00\x01\x01\x00\x00\x01\x01",
        b"\x03\x02\x02\x03\x00",
    )?;
    show_pass(
        rt,
        b"Twin must legs, a way back",
        b"\x02\x03\x00\x01\x09\x00\x01\x01\x00\x01\x01\x01\x00\x01\x00\x00\x01\x01\x00",
    )?;
    show_pass(
        rt,
        b"Nine must legs",
        b"\x02\x09\x00\x01\x63\x00\x01\x01\x00\x01\x01\x00\x01\x01\x00\x01\x01\x00\x01\x01\x00\x01\x01\x00\x01\x01\x00\x01\x01\x00\x01\x01\x00\x00\x01\x01\x01\x01\x01\x01\x01\x01\x01",
    )
}

// Service minutes on B, at place 1: the round stands from K 10 on. The view of a leg has its minutes as they are written.
fn served_rounds(rt: &impl Print) -> io::Result<()> {
    show_checked(
        rt,
        b"B with service 2 at place 1",
        b"\x01\x04\x05\x00\x03\x08\x00\x01\x04\x01\x03\x04\x00\x02\x03\x02\x03\x09\x01\x02\x01\x00\x00\x00\x00\x00\x00\x00\x00\x00\x00\x02\x00\x00",
        b"\x01\x00\x00",
    )?;
    let longer =
        b"\x01\x04\x05\x00\x03\x0A\x00\x01\x04\x01\x03\x04\x00\x02\x03\x02\x03\x09\x01\x02\x01\x00\x00\x00\x00\x00\x00\x00\x00\x00\x00\x02\x00\x00";
    show_pass(rt, b"The same, K 10", longer)?;
    show_view(rt, b"Leg 0 of it", longer, 0)
}

// Service minutes for each touch but a walk's first: at the start, to which the walk comes again, and at a place that it passes twice.
fn served_touches(rt: &impl Print) -> io::Result<()> {
    show_checked(
        rt,
        b"Service 2 at the start, place 2 must, K 3",
        b"\x01\x03\x03\x00\x01\x03\x00\x01\x00\x00\x02\x01\x02\x00\x01\x00\x00\x01\x00\x00\x00\x02\x00\x00",
        b"\x02\x01\x02\x00",
    )?;
    show_pass(
        rt,
        b"The same, K 4",
        b"\x01\x03\x03\x00\x01\x04\x00\x01\x00\x00\x02\x01\x02\x00\x01\x00\x00\x01\x00\x00\x00\x02\x00\x00",
    )?;
    show_pass(
        rt,
        b"Service 2 at place 1, passed twice, places 1 and 2 must, K 8",
        b"\x01\x04\x04\x00\x03\x08\x00\x01\x01\x01\x02\x01\x02\x01\x01\x01\x03\x01\x00\x01\x01\x00\x00\x00\x00\x00\x00\x02\x00\x00",
    )?;
    show_checked(
        rt,
        b"The same, K 7",
        b"\x01\x04\x04\x00\x03\x07\x00\x01\x01\x01\x02\x01\x02\x01\x01\x01\x03\x01\x00\x01\x01\x00\x00\x00\x00\x00\x00\x02\x00\x00",
        b"\x02\x01\x02\x00",
    )
}

// Where a leg of the ring starts: at 1, 2 and so on to 63, and then eight times at 0.
fn ring_tail(leg: usize) -> u32
    ensures { result ≤ 63 }
{
    if leg < RING_ALONG { leg as u32 + 1 } else { 0 }
}

// The legs of the ring, each to the next place, all of the same minutes.
fn ring_legs(minutes: u32) -> [u32; RING_NUMBERS] {
    let mut legs = [minutes; RING_NUMBERS];
    for leg in 0..RING_LEGS {
        let tail = ring_tail(leg);
        legs[3 * leg] = tail;
        legs[3 * leg + 1] = (tail + 1) % 64;
    }
    legs
}

// Its marks: the eight legs are must.
fn ring_marks() -> [u8; RING_ITEMS] {
    let mut marks = [0u8; RING_ITEMS];
    marks[RING_ITEMS - 8..].fill(1);
    marks
}

// Prints a line: the name, and what the pass gives for the ring, from place 1 to place 0.
fn show_ring(rt: &impl Print, name: &[u8], limit: u32, minutes: u32) -> io::Result<()> {
    let header = Header {
        nodes: NODES,
        arcs: RING_LEGS,
        source: 1,
        target: 0,
        limit: limit,
    };
    let legs = ring_legs(minutes);
    let marks = ring_marks();
    let services = [0u32; NODES];
    let mut sheet = [0u8; RING_BYTES];
    let draft = Draft {
        header,
        arcs: &legs,
        marks: &marks,
        services: &services,
    };
    let length = sheet_writer::write_sheet(&draft, &mut sheet).unwrap_or(0);
    if length <= RING_BYTES {
        show_pass(rt, name, &sheet[..length])?;
    }
    Ok(())
}

// The longest of all shortest walks (request 2.5): nine times along the ring and once over each of its eight must legs, 575 legs.
fn longest_walks(rt: &impl Print) -> io::Result<()> {
    show_ring(rt, b"Ring of 64 places, eight must legs, K 575", 575, 1)?;
    show_ring(rt, b"The same, K 574", 574, 1)?;
    show_ring(
        rt,
        b"The same, 65,535 minutes a leg, K 1,000,000",
        1000000,
        65535,
    )
}

// Views of arcs: with minutes of three groups, the next one, two with the same bytes.
fn views(rt: &impl Print) -> io::Result<()> {
    show_view(
        rt,
        b"Leg 1, minutes FF FF 03",
        b"\x04\x05\x00\x03\x08\x00\x01\x04\x01\x03\xFF\xFF\x03\x00\x02\x03\x02\x03\x09\x01\x02\x01\x00\x00\x00\x00\x00\x00\x00\x00\x00",
        1,
    )?;
    show_view(
        rt,
        b"Leg 2 behind it",
        b"\x04\x05\x00\x03\x08\x00\x01\x04\x01\x03\xFF\xFF\x03\x00\x02\x03\x02\x03\x09\x01\x02\x01\x00\x00\x00\x00\x00\x00\x00\x00\x00",
        2,
    )?;
    show_view(
        rt,
        b"Leg 0 of two alike",
        b"\x02\x02\x00\x01\x08\x00\x01\x04\x00\x01\x04\x00\x00\x00\x00",
        0,
    )?;
    show_view(
        rt,
        b"Leg 1 of two alike",
        b"\x02\x02\x00\x01\x08\x00\x01\x04\x00\x01\x04\x00\x00\x00\x00",
        1,
    )
}

// Views that are empty: no such arc, and a sheet that is refused.
fn empty_views(rt: &impl Print) -> io::Result<()> {
    show_view(
        rt,
        b"Leg 5 of B",
        b"\x04\x05\x00\x03\x08\x00\x01\x04\x01\x03\x04\x00\x02\x03\x02\x03\x09\x01\x02\x01\x00\x00\x00\x00\x00\x00\x00\x00\x00",
        5,
    )?;
    show_view(
        rt,
        b"Leg 0 of B and one byte more",
        b"\x04\x05\x00\x03\x08\x00\x01\x04\x01\x03\x04\x00\x02\x03\x02\x03\x09\x01\x02\x01\x00\x00\x00\x00\x00\x00\x00\x00\x00\x00",
        0,
    )
}

// Prints what a call of the writer gives and leaves, and the line's end.
fn show_written(rt: &impl Print, sheet: &[u8], answer: Result<usize, Refusal>) -> io::Result<()> {
    match answer {
        Ok(length) => {
            print_bytes(rt, sheet, length)?;
            if is_kept(sheet, length) {
                rt.write_all(b"; rest untouched")?;
            }
        }
        Err(why) => {
            show_refusal(rt, why)?;
            if is_kept(sheet, 0) {
                rt.write_all(b"; all untouched")?;
            }
        }
    }
    rt.write_all(b"\n")
}

// Prints a line: the name, and what the writer gives that is lent a slice of so many bytes. More bytes stand behind the slice.
fn show_write(
    rt: &impl Print,
    name: &[u8],
    header: Header,
    legs: &[u32],
    marks: &[u8],
    services: &[u32],
    size: usize,
) -> io::Result<()>
    requires { size ≤ 40 }
{
    rt.write_all(name)?;
    rt.write_all(b":")?;
    let mut sheet = [FILLED_BYTE; SHEET_LENT];
    let draft = Draft {
        header,
        arcs: legs,
        marks,
        services,
    };
    let answer = sheet_writer::write_sheet(&draft, &mut sheet[..size]);
    show_written(rt, &sheet, answer)
}

// The minutes of a leg: its weight less the service minutes of its head. A weight that is less than these stays.
fn minutes_of(weight: u32, head: u32, services: &[u32]) -> u32 {
    let place = head as usize;
    if place < services.len() {
        let service = services[place];
        if service <= weight {
            return weight - service;
        }
    }
    weight
}

// Three numbers for each arc, with its minutes where its weight was.
fn legs_of(arcs: &[Arc; ARCS], services: &[u32]) -> [u32; ARC_NUMBERS]
    ensures { length result ≡ 1536 }
{
    let mut legs = [0u32; ARC_NUMBERS];
    for i in 0..ARCS {
        let arc = arcs[i];
        legs[i * 3] = arc.tail;
        legs[i * 3 + 1] = arc.head;
        legs[i * 3 + 2] = minutes_of(arc.weight, arc.head, services);
    }
    legs
}

// Prints a line: the name, and what the reader stores of a sheet, written again into a slice of the sheet's length.
fn show_again(rt: &impl Print, name: &[u8], sheet: &[u8]) -> io::Result<()>
    requires { length sheet.now ≤ 40 }
{
    let mut arcs = [Arc::ZERO; ARCS];
    let mut marks = [Mark::OPEN; ITEMS];
    let mut services = [0u32; NODES];
    let header = match sheet_reader::read_page(sheet, &mut arcs, &mut marks, &mut services) {
        Ok(header) => header,
        Err(_) => return Ok(()),
    };
    let numbers = 3 * header.arcs;
    let items = header.nodes + header.arcs;
    let nodes = header.nodes;
    let legs = legs_of(&arcs, &services);
    let marks = marks.map(u8::from);
    show_write(
        rt,
        name,
        header,
        &legs[..numbers],
        &marks[..items],
        &services[..nodes],
        sheet.len(),
    )
}

// The five numbers of B with another limit.
fn header_of_b(limit: u32) -> Header {
    Header {
        nodes: 4,
        arcs: 5,
        source: 0,
        target: 3,
        limit: limit,
    }
}

// The legs of B.
fn legs_of_b() -> [u32; 15] {
    [0u32, 1, 4, 1, 3, 4, 0, 2, 3, 2, 3, 9, 1, 2, 1]
}

// Sheets made of numbers, in slices that are just long enough.
fn written_sheets(rt: &impl Print) -> io::Result<()> {
    show_again(
        rt,
        b"B, read and written again",
        b"\x04\x05\x00\x03\x08\x00\x01\x04\x01\x03\x04\x00\x02\x03\x02\x03\x09\x01\x02\x01\x00\x00\x00\x00\x00\x00\x00\x00\x00",
    )?;
    let legs = legs_of_b();
    let marks = [0u8; 9];
    let services = [0u32; 4];
    show_write(
        rt,
        b"B written, slice of 29",
        header_of_b(8),
        &legs,
        &marks,
        &services,
        29,
    )?;
    show_write(
        rt,
        b"K 1,000,000, slice of 31",
        header_of_b(1000000),
        &legs,
        &marks,
        &services,
        31,
    )?;
    let two = Header {
        nodes: 2,
        arcs: 0,
        source: 1,
        target: 0,
        limit: 0,
    };
    show_write(
        rt,
        b"Two places, slice of 7",
        two,
        &legs[..0],
        b"\x00\x02",
        &services[..2],
        7,
    )
}

// Slices that are too short, and lists of another length than the header says.
fn unwritten_sheets(rt: &impl Print) -> io::Result<()> {
    let legs = legs_of_b();
    let marks = [0u8; 9];
    let services = [0u32; 4];
    show_write(
        rt,
        b"B written, slice of 28",
        header_of_b(8),
        &legs,
        &marks,
        &services,
        28,
    )?;
    show_write(
        rt,
        b"K 1,000,000, slice of 29",
        header_of_b(1000000),
        &legs,
        &marks,
        &services,
        29,
    )?;
    show_write(
        rt,
        b"K 1,000,001, no legs",
        header_of_b(1000001),
        &legs[..0],
        &marks,
        &services,
        29,
    )?;
    let no_tail = [4u32, 1, 4, 1, 3, 4, 0, 2, 3, 2, 3, 9, 1, 2, 1];
    show_write(
        rt,
        b"Leg 0 from 4, eight marks",
        header_of_b(8),
        &no_tail,
        &marks[..8],
        &services,
        29,
    )
}

// Legs that are judged one by one, and too many counted items.
fn unwritten_legs(rt: &impl Print) -> io::Result<()> {
    let marks = [0u8; 9];
    let services = [0u32; 11];
    let slow_first = [0u32, 1, 65536, 9, 3, 4, 0, 2, 3, 2, 3, 9, 1, 2, 1];
    show_write(
        rt,
        b"Leg 0 of 65,536 minutes, leg 1 from 9",
        header_of_b(8),
        &slow_first,
        &marks,
        &services[..4],
        29,
    )?;
    let no_tail = [9u32, 1, 65536, 1, 3, 4, 0, 2, 3, 2, 3, 9, 1, 2, 1];
    show_write(
        rt,
        b"Leg 0 from 9, of 65,536 minutes",
        header_of_b(8),
        &no_tail,
        &marks,
        &services[..4],
        29,
    )?;
    let row = Header {
        nodes: 11,
        arcs: 10,
        source: 0,
        target: 10,
        limit: 99,
    };
    let in_a_row = [
        0u32, 1, 1, 1, 2, 1, 2, 3, 1, 3, 4, 1, 4, 5, 1, 5, 6, 1, 6, 7, 1, 7, 8, 1, 8, 9, 1, 9, 10,
        1,
    ];
    let must = [
        0u8, 1, 1, 1, 1, 1, 1, 1, 1, 1, 0, 0, 0, 0, 0, 0, 0, 0, 0, 0, 0,
    ];
    show_write(
        rt,
        b"Places 1 to 9 must, empty slice",
        row,
        &in_a_row,
        &must,
        &services,
        0,
    )
}

// Prints a line: the name, and what the writer gives that is lent the numbers of B, services and a slice of so many bytes.
fn show_services(rt: &impl Print, name: &[u8], services: &[u32], size: usize) -> io::Result<()>
    requires { size ≤ 40 }
{
    let legs = legs_of_b();
    let marks = [0u8; 9];
    show_write(rt, name, header_of_b(8), &legs, &marks, services, size)
}

// Service minutes: the form with them where one is not 0, and else the form without them; another count of them, and too many minutes.
fn written_services(rt: &impl Print) -> io::Result<()> {
    show_again(
        rt,
        b"Service 2 at place 1, read and written again",
        b"\x01\x04\x05\x00\x03\x08\x00\x01\x04\x01\x03\x04\x00\x02\x03\x02\x03\x09\x01\x02\x01\x00\x00\x00\x00\x00\x00\x00\x00\x00\x00\x02\x00\x00",
    )?;
    let served = [0u32, 2, 0, 0];
    let none = [0u32; 4];
    let long = [0u32, 601, 0, 0];
    show_services(rt, b"Services 0 2 0 0, slice of 34", &served, 34)?;
    show_services(rt, b"Services 0 2 0 0, slice of 33", &served, 33)?;
    show_services(rt, b"Services 0 0 0 0, slice of 34", &none, 34)?;
    show_services(rt, b"Three services", &none[..3], 34)?;
    show_services(rt, b"Service of 601", &long, 34)
}

// Prints a line: the bytes, and the value of the number at their front with the count of bytes that it took, or the refusal.
fn show_number(rt: &impl Print, bytes: &[u8]) -> io::Result<()> {
    rt.write_all(b"Number")?;
    print_bytes(rt, bytes, bytes.len())?;
    let mut cursor = Bytes { rest: bytes };
    match cursor.take_number() {
        Ok(value) => {
            let taken = bytes.len().saturating_sub(cursor.rest.len());
            print!(rt; ": {value}, {taken} bytes\n")
        }
        Err(why) => {
            let number = u32::from(why);
            print!(rt; ": refused {number}\n")
        }
    }
}

// Numbers that end: more bytes behind them alter nothing.
fn numbers(rt: &impl Print) -> io::Result<()> {
    show_number(rt, b"\x80\x01")?;
    show_number(rt, b"\x80\x01\xFF\x00\x7F")?;
    show_number(rt, b"\xFF\xFF\xFF\x7F")?;
    show_number(rt, b"\xFF\xFF\xFF\x7F\xFF\x00\x7F")
}

// Numbers that are badly written: more bytes behind them alter nothing.
fn overlong_numbers(rt: &impl Print) -> io::Result<()> {
    show_number(rt, b"\x80\x00")?;
    show_number(rt, b"\x80\x00\xFF\x00\x7F")?;
    show_number(rt, b"\x81\x00\x80\x00")?;
    show_number(rt, b"\x81\x00\x80\x00\xFF\x00\x7F")?;
    show_number(rt, b"\x80\x80\x80\x80")?;
    show_number(rt, b"\x80\x80\x80\x80\xFF\x00\x7F")
}

// Numbers of which the bytes end first: more bytes are asked for, and decide.
fn unended_numbers(rt: &impl Print) -> io::Result<()> {
    show_number(rt, b"\x80")?;
    show_number(rt, b"\x80\xFF\x00\x7F")?;
    show_number(rt, b"\x80\x80\x80")?;
    show_number(rt, b"\x80\x80\x80\xFF\x00\x7F")
}

// Prints the items.
fn print_items(rt: &impl Print, items: &[u32]) -> io::Result<()> {
    for &item in items {
        print_hex(rt, item as u64)?;
    }
    Ok(())
}

// Prints the slip that a slot holds, its numbers in a slip's order, and the limit.
fn show_slot(rt: &impl Print, slot: &Slot) -> io::Result<()> {
    print_hex(rt, slot.first as u64)?;
    print_hex(rt, slot.goals as u64)?;
    print_items(rt, slot.goals())?;
    print_hex(rt, slot.reasons as u64)?;
    print_items(rt, slot.reasons())?;
    rt.write_all(b" with K ")?;
    print!(rt; "{}", slot.limit)
}

// Prints the slips that a store holds, earliest put first.
fn show_held(rt: &impl Print, store: &Store) -> io::Result<()> {
    rt.write_all(b"; holds")?;
    if store.count == 0 {
        rt.write_all(b" nothing")?;
    }
    for (i, slot) in store.slips().iter().enumerate() {
        if i > 0 {
            rt.write_all(b", then")?;
        }
        show_slot(rt, slot)?;
    }
    Ok(())
}

// Prints a line's start: the lines that follow one another on the same slips are set in.
fn show_start(rt: &impl Print, store: &Store) -> io::Result<()> {
    if store.count == 0 {
        rt.write_all(b"Empty store, ")?;
    } else {
        rt.write_all(b"  ")?;
    }
    Ok(())
}

// Prints what put gives, what the store then holds, and whether it is in every number as it was before.
fn show_putting(rt: &impl Print, before: &Store, answer: &Putting) -> io::Result<()> {
    match answer.outcome {
        Ok(()) => rt.write_all(b" 0")?,
        Err(why) => show_refusal(rt, why)?,
    }
    show_held(rt, &answer.store)?;
    if *before == answer.store {
        rt.write_all(b"; store unchanged")?;
    }
    Ok(())
}

// Prints a line: the sheet's name, the slip, and what put gives and leaves. Returns the store for the next call.
fn show_put(
    rt: &impl Print,
    store: Store,
    name: &[u8],
    sheet: &[u8],
    slip: &[u8],
) -> io::Result<Store> {
    show_start(rt, &store)?;
    rt.write_all(b"put ")?;
    rt.write_all(name)?;
    rt.write_all(b",")?;
    print_bytes(rt, slip, slip.len())?;
    rt.write_all(b":")?;
    let mut work = [FILLED_NUMBER; WORK_LENT];
    let answer = store.put(sheet, &mut work, slip);
    show_putting(rt, &store, &answer)?;
    show_work_left(rt, &work)?;
    Ok(answer.store)
}

// Prints a line: the sheet's name, and the slip that ask finds.
fn show_ask(rt: &impl Print, store: &Store, name: &[u8], sheet: &[u8]) -> io::Result<()> {
    show_start(rt, store)?;
    rt.write_all(b"ask ")?;
    rt.write_all(name)?;
    rt.write_all(b":")?;
    match store.ask(sheet) {
        Ok(Some(slot)) => show_slot(rt, &slot)?,
        Ok(None) => rt.write_all(b" none")?,
        Err(why) => show_refusal(rt, why)?,
    }
    rt.write_all(b"\n")
}

// Sheet B with another limit and other marks.
fn sheet_of_b(limit: u32, marks: &[u8; 9]) -> [u8; 29] {
    let legs = legs_of_b();
    let services = [0u32; 4];
    let mut sheet = [0u8; 29];
    let draft = Draft {
        header: header_of_b(limit),
        arcs: &legs,
        marks,
        services: &services,
    };
    let _written = sheet_writer::write_sheet(&draft, &mut sheet);
    sheet
}

// A sheet on another map: two places and a leg that is must, in no time.
fn sheet_of_two() -> [u8; 11] {
    [2u8, 1, 0, 1, 0, 0, 1, 1, 0, 0, 1]
}

// Puts a slip of the sheet with K 8 and item 1 shut.
fn put_one_shut(rt: &impl Print, store: Store, slip: &[u8]) -> io::Result<Store> {
    let sheet = sheet_of_b(8, b"\x00\x02\x00\x00\x00\x00\x00\x00\x00");
    show_put(rt, store, b"K 8, item 1 shut", &sheet, slip)
}

// Puts a slip of the sheet with K 8 and items 1 and 5 shut.
fn put_two_shut(rt: &impl Print, store: Store, slip: &[u8]) -> io::Result<Store> {
    let sheet = sheet_of_b(8, b"\x00\x02\x00\x00\x00\x02\x00\x00\x00");
    show_put(rt, store, b"K 8, items 1 and 5 shut", &sheet, slip)
}

// Puts a slip of the sheet on another map.
fn put_two(rt: &impl Print, store: Store, slip: &[u8]) -> io::Result<Store> {
    let sheet = sheet_of_two();
    show_put(rt, store, b"K 0, two places, item 2 must", &sheet, slip)
}

// Asks with B, another limit and other marks.
fn ask_b(
    rt: &impl Print,
    store: &Store,
    name: &[u8],
    limit: u32,
    marks: &[u8; 9],
) -> io::Result<()> {
    let sheet = sheet_of_b(limit, marks);
    show_ask(rt, store, name, &sheet)
}

// A store that holds nothing still reads the sheet that it is asked for.
fn ask_empty(rt: &impl Print) -> io::Result<()> {
    let store = Store::empty();
    show_ask(rt, &store, b"an empty sheet", b"")?;
    ask_b(rt, &store, b"B", 8, b"\x00\x00\x00\x00\x00\x00\x00\x00\x00")
}

// A slip answers for its own sheet, for a lower limit and where more is shut; not where its reason is open or must, nor for a greater limit.
fn ask_one(rt: &impl Print) -> io::Result<()> {
    let store = put_one_shut(rt, Store::empty(), b"\x01\x00\x01\x01")?;
    let shut = b"\x00\x02\x00\x00\x00\x00\x00\x00\x00";
    let more = b"\x00\x02\x00\x00\x02\x00\x00\x00\x00";
    let open = b"\x00\x00\x00\x00\x00\x00\x00\x00\x00";
    let must = b"\x00\x01\x00\x00\x00\x00\x00\x00\x00";
    ask_b(rt, &store, b"K 8, item 1 shut", 8, shut)?;
    ask_b(rt, &store, b"K 7, item 1 shut", 7, shut)?;
    ask_b(rt, &store, b"K 8, items 1 and 4 shut", 8, more)?;
    ask_b(rt, &store, b"B", 8, open)?;
    ask_b(rt, &store, b"K 9, item 1 shut", 9, shut)?;
    ask_b(rt, &store, b"K 8, item 1 must", 8, must)
}

// A slip that the newcomer subsumes goes; a newcomer that a slip subsumes is not put.
fn put_subsumed(rt: &impl Print) -> io::Result<()> {
    let wide = put_two_shut(rt, Store::empty(), b"\x01\x00\x02\x01\x05")?;
    let narrow = put_two_shut(rt, wide, b"\x01\x00\x01\x05")?;
    put_two_shut(rt, narrow, b"\x01\x00\x02\x01\x05")?;
    Ok(())
}

// The slip that was put earliest is found, by the order of puts and not of rooms, although the pass writes the other.
fn ask_earliest(rt: &impl Print) -> io::Result<()> {
    let one = put_two_shut(rt, Store::empty(), b"\x01\x00\x02\x01\x05")?;
    let must = sheet_of_b(14, b"\x00\x01\x01\x00\x00\x00\x00\x00\x02");
    let name = b"K 14, places 1 and 2 must, item 8 shut";
    let two = show_put(rt, one, name, &must, b"\x03\x02\x01\x02\x01\x08")?;
    let three = put_two_shut(rt, two, b"\x01\x00\x01\x05")?;
    let later = sheet_of_b(8, b"\x00\x01\x01\x00\x00\x02\x00\x00\x02");
    let later_name = b"K 8, places 1 and 2 must, items 5 and 8 shut";
    show_ask(rt, &three, later_name, &later)?;
    show_pass(rt, b"  pass of the same sheet", &later)
}

// Slips that are refused: check says no, a reason for an item, another map.
fn put_refused(rt: &impl Print) -> io::Result<()> {
    let first = put_one_shut(rt, Store::empty(), b"\x01\x00\x00")?;
    let b = sheet_of_b(8, b"\x00\x00\x00\x00\x00\x00\x00\x00\x00");
    let second = show_put(rt, first, b"B", &b, b"\x04\x01\x02\x00")?;
    let store = put_one_shut(rt, second, b"\x01\x00\x01\x01")?;
    put_two(rt, store, b"\x02\x01\x02\x00")?;
    let other = sheet_of_two();
    show_ask(rt, &store, b"K 0, two places, item 2 must", &other)
}

// A 2 and a 3 with the same lists and limit subsume each other: the one put first stays.
fn put_alike(rt: &impl Print) -> io::Result<()> {
    let store = put_two(rt, Store::empty(), b"\x02\x01\x02\x00")?;
    put_two(rt, store, b"\x03\x01\x02\x00")?;
    Ok(())
}

// Minutes and service minutes are compared, not their sums: sheets of the same weights with other service minutes are refused.
fn ask_served(rt: &impl Print) -> io::Result<()> {
    let store = show_put(
        rt,
        Store::empty(),
        b"B with service 2 at place 1",
        b"\x01\x04\x05\x00\x03\x08\x00\x01\x04\x01\x03\x04\x00\x02\x03\x02\x03\x09\x01\x02\x01\x00\x00\x00\x00\x00\x00\x00\x00\x00\x00\x02\x00\x00",
        b"\x01\x00\x00",
    )?;
    show_ask(
        rt,
        &store,
        b"K 7, service 2 at place 1",
        b"\x01\x04\x05\x00\x03\x07\x00\x01\x04\x01\x03\x04\x00\x02\x03\x02\x03\x09\x01\x02\x01\x00\x00\x00\x00\x00\x00\x00\x00\x00\x00\x02\x00\x00",
    )?;
    show_ask(
        rt,
        &store,
        b"K 8, service 1 at place 1, leg 0 of 5 minutes",
        b"\x01\x04\x05\x00\x03\x08\x00\x01\x05\x01\x03\x04\x00\x02\x03\x02\x03\x09\x01\x02\x01\x00\x00\x00\x00\x00\x00\x00\x00\x00\x00\x01\x00\x00",
    )?;
    show_ask(
        rt,
        &store,
        b"K 8, no services, leg 0 of 6 minutes",
        b"\x04\x05\x00\x03\x08\x00\x01\x06\x01\x03\x04\x00\x02\x03\x02\x03\x09\x01\x02\x01\x00\x00\x00\x00\x00\x00\x00\x00\x00",
    )
}

fn main(rt: HostRuntime) -> io::Result<()> {
    starred_rounds(&rt)?;
    starred_refusals(&rt)?;
    starred_closures(&rt)?;
    starred_reasons(&rt)?;
    must_legs(&rt)?;
    twin_legs(&rt)?;
    longest_walks(&rt)?;
    served_rounds(&rt)?;
    served_touches(&rt)?;
    bad_sheets(&rt)?;
    large_sheets(&rt)?;
    bounds(&rt)?;
    bad_served(&rt)?;
    show_short_slip(&rt)?;
    views(&rt)?;
    empty_views(&rt)?;
    written_sheets(&rt)?;
    unwritten_sheets(&rt)?;
    unwritten_legs(&rt)?;
    written_services(&rt)?;
    numbers(&rt)?;
    overlong_numbers(&rt)?;
    unended_numbers(&rt)?;
    ask_empty(&rt)?;
    ask_one(&rt)?;
    put_subsumed(&rt)?;
    ask_earliest(&rt)?;
    put_refused(&rt)?;
    put_alike(&rt)?;
    ask_served(&rt)
}
