// The outputs of the calls, and what is written of them.
ghost use Rattle.std.specs.Prelude.{◌≡◌, length};

use crate::lines;
use replies::reply::{BatchRefusal, Finding, Opened, Refusal};
use std::io;
use std::io::Write;

// The largest output, filled with EE. The contract says the length alone, so that no proof holds the bytes.
pub fn output() -> [u8; 40960]
    ensures { 40960 ≡ length result }
{
    [0xee; 40960]
}

// Room for any report. The contract says the length alone, as above.
pub fn report_buffer() -> [u8; 65536]
    ensures { 65536 ≡ length result }
{
    [0; 65536]
}

// Every byte of the output from a position on has its old value.
fn is_kept(out: &[u8], from: usize) -> bool {
    out.iter().skip(from).all(|byte| *byte == 0xee)
}

fn write_kept(writer: &mut impl Write, out: &[u8], from: usize) -> io::Result<()> {
    if !is_kept(out, from) {
        write!(writer, " dirty")?;
    }
    Ok(())
}

// The bytes that a call gave, and whether it left the others.
fn write_given(writer: &mut impl Write, n: usize, out: &[u8]) -> io::Result<()> {
    if let Some(given) = out.get(..n) {
        lines::write_hex(writer, given)?;
    }
    write_kept(writer, out, n)
}

fn write_ok(writer: &mut impl Write, n: usize, out: &[u8]) -> io::Result<()> {
    write!(writer, "ok ")?;
    write_given(writer, n, out)
}

fn write_refused(writer: &mut impl Write, refusal: Refusal, out: &[u8]) -> io::Result<()> {
    lines::write_refusal(writer, refusal)?;
    write_kept(writer, out, 0)
}

// `ok HEX` or `refused N`
pub fn write_reply(
    writer: &mut impl Write,
    r: Result<usize, Refusal>,
    out: &[u8],
) -> io::Result<()> {
    match r {
        Ok(n) => write_ok(writer, n, out),
        Err(refusal) => write_refused(writer, refusal, out),
    }
}

// `conflict VERSION PLACE` or `overfull PLACE`
fn write_finding(writer: &mut impl Write, f: Finding, out: &[u8]) -> io::Result<()> {
    match f {
        Finding::Conflict(version, place) => {
            let version = version.0;
            write!(writer, "conflict {version} {place}")?;
        }
        Finding::Overfull(place) => {
            write!(writer, "overfull {place}")?;
        }
    }
    write_kept(writer, out, 0)
}

// `merged HEX`, what was found, or `refused N`
pub fn write_opened(
    writer: &mut impl Write,
    r: Result<Opened, Refusal>,
    out: &[u8],
) -> io::Result<()> {
    match r {
        Ok(Opened::Merged(n)) => {
            write!(writer, "merged ")?;
            write_given(writer, n, out)
        }
        Ok(Opened::Found(f)) => write_finding(writer, f, out),
        Err(refusal) => write_refused(writer, refusal, out),
    }
}

// `ok HEX` or `refused N POSITION`
pub fn write_batch(
    writer: &mut impl Write,
    r: Result<usize, BatchRefusal>,
    out: &[u8],
) -> io::Result<()> {
    match r {
        Ok(n) => write_ok(writer, n, out),
        Err(BatchRefusal { refusal, position }) => {
            lines::write_refusal(writer, refusal)?;
            write!(writer, " {position}")?;
            write_kept(writer, out, 0)
        }
    }
}
