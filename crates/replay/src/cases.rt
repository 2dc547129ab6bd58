// The cases of a script: each is the number of a call and its fields. A function answers the position after its case; None where the script has no case there.
use crate::fields::{read_count, read_field, read_limits};
use crate::lines;
use crate::outputs::{output, report_buffer, write_batch, write_opened, write_reply};
use batch::calls::batch;
use combining::check::check_event;
use combining::combine::combine;
use event::ask::value;
use hashing::calls::{hash, hash_text};
use ontology::tables::check_table;
use opening::calls::open_dossier;
use packed::read::read_number;
use replies::limits::Limits;
use replies::reply::Refusal;
use report::calls::report;
use std::io;
use std::io::Write;

// 1, check a table: the table.
fn replay_table(writer: &mut impl Write, script: &[u8], at: usize) -> Option<io::Result<usize>> {
    let (table, end) = read_field(script, at)?;
    let written = match check_table(table) {
        Ok(()) => write!(writer, "ok"),
        Err(refusal) => lines::write_refusal(writer, refusal),
    };
    Some(written.and(Ok(end)))
}

fn write_value(writer: &mut impl Write, bytes: &[u8]) -> io::Result<()> {
    write!(writer, "value ")?;
    lines::write_hex(writer, bytes)
}

// 5, value: the table, the event, the place and the index.
fn replay_value(writer: &mut impl Write, script: &[u8], at: usize) -> Option<io::Result<usize>> {
    let (table, at) = read_field(script, at)?;
    let (event, at) = read_field(script, at)?;
    let (place, at) = read_count(script, at)?;
    let (index, end) = read_count(script, at)?;
    let written = write_value(writer, value(table, event, place, index));
    Some(written.and(Ok(end)))
}

// A call with one input, by its number.
fn call_one(call: u64, table: &[u8], input: &[u8], out: &mut [u8]) -> Result<usize, Refusal> {
    match call {
        2 => check_event(table, input, out),
        6 => hash_text(table, input, out),
        _ => hash(table, input, out),
    }
}

fn write_one(
    writer: &mut impl Write,
    call: u64,
    limits: Limits,
    table: &[u8],
    input: &[u8],
    out: &mut [u8],
) -> io::Result<()> {
    if call == 4 || call == 11 {
        let r = open_dossier(limits, table, input, out);
        return write_opened(writer, r, out);
    }
    let r = call_one(call, table, input, out);
    write_reply(writer, r, out)
}

// 2, check an event, 4, open, 6, hash text, and 7, hash: the size of the output, the table, and the event or dossier. 11, open within limits: the limits
// before these.
fn replay_one(
    writer: &mut impl Write,
    call: u64,
    script: &[u8],
    at: usize,
) -> Option<io::Result<usize>> {
    let (limits, at) = read_limits(call, script, at)?;
    let (size, at) = read_count(script, at)?;
    let (table, at) = read_field(script, at)?;
    let (input, end) = read_field(script, at)?;
    let mut out = output();
    let out = out.get_mut(..size)?;
    let written = write_one(writer, call, limits, table, input, out);
    Some(written.and(Ok(end)))
}

fn write_combine<'a>(
    writer: &mut impl Write,
    limits: Limits,
    table: &[u8],
    left: &'a [u8],
    right: &'a [u8],
    out: &mut [u8],
) -> io::Result<()> {
    let r = combine(limits, table, left, right, out);
    write_reply(writer, r, out)
}

// 3, combine: the size of the output, the table, and the two dossiers. 10, combine within limits: the limits before these.
fn replay_combine(
    writer: &mut impl Write,
    call: u64,
    script: &[u8],
    at: usize,
) -> Option<io::Result<usize>> {
    let (limits, at) = read_limits(call, script, at)?;
    let (size, at) = read_count(script, at)?;
    let (table, at) = read_field(script, at)?;
    let (left, at) = read_field(script, at)?;
    let (right, end) = read_field(script, at)?;
    let mut out = output();
    let out = out.get_mut(..size)?;
    let written = write_combine(writer, limits, table, left, right, out);
    Some(written.and(Ok(end)))
}

fn call_batch(
    writer: &mut impl Write,
    limits: Limits,
    table: &[u8],
    events: &[u8],
    out: &mut [u8],
    a: &mut [u8],
    b: &mut [u8],
    c: &mut [u8],
) -> io::Result<()> {
    let r = batch(limits, table, events, out, a, b, c);
    write_batch(writer, r, out)
}

// A batch with its scratch buffers, of these sizes. Where one would be larger than any, nothing is called.
fn replay_sized(
    writer: &mut impl Write,
    limits: Limits,
    table: &[u8],
    events: &[u8],
    out: &mut [u8],
    x: usize,
    y: usize,
    z: usize,
) -> io::Result<()> {
    let mut a = output();
    let mut b = output();
    let mut c = output();
    let (Some(a), Some(b), Some(c)) = (a.get_mut(..x), b.get_mut(..y), c.get_mut(..z)) else {
        return Ok(());
    };
    call_batch(writer, limits, table, events, out, a, b, c)
}

// 8, batch: the sizes of the output and of the three scratch buffers, the table, and the batch. 12, batch within limits: the limits before these.
fn replay_batch(
    writer: &mut impl Write,
    call: u64,
    script: &[u8],
    at: usize,
) -> Option<io::Result<usize>> {
    let (limits, at) = read_limits(call, script, at)?;
    let (size, at) = read_count(script, at)?;
    let (x, at) = read_count(script, at)?;
    let (y, at) = read_count(script, at)?;
    let (z, at) = read_count(script, at)?;
    let (table, at) = read_field(script, at)?;
    let (events, end) = read_field(script, at)?;
    let mut out = output();
    let out = out.get_mut(..size)?;
    let written = replay_sized(writer, limits, table, events, out, x, y, z);
    Some(written.and(Ok(end)))
}

fn write_report(writer: &mut impl Write, input: &[u8]) -> io::Result<()> {
    let mut out = report_buffer();
    let r = report(input, &mut out);
    write!(writer, "report ")?;
    if let Ok(n) = r {
        if let Some(text) = out.get(..n) {
            lines::write_hex(writer, text)?;
        }
    }
    Ok(())
}

// 9, merge report: the program's standard input.
fn replay_report(writer: &mut impl Write, script: &[u8], at: usize) -> Option<io::Result<usize>> {
    let (input, end) = read_field(script, at)?;
    Some(write_report(writer, input).and(Ok(end)))
}

pub fn replay_case(writer: &mut impl Write, script: &[u8], at: usize) -> io::Result<Option<usize>> {
    let Some((call, at)) = read_number(script, at) else {
        return Ok(None);
    };
    let replayed = match call {
        1 => replay_table(writer, script, at),
        3 | 10 => replay_combine(writer, call, script, at),
        5 => replay_value(writer, script, at),
        2 | 4 | 6 | 7 | 11 => replay_one(writer, call, script, at),
        8 | 12 => replay_batch(writer, call, script, at),
        9 => replay_report(writer, script, at),
        _ => None,
    };
    let end = replayed.transpose()?;
    writeln!(writer)?;
    Ok(end)
}
