// Merges the events on its standard input, which is a table as a text and then a batch, and writes what they are together.
#![tactic(auto)]

ghost use Rattle.report.specs.Report.{report};
ghost use Rattle.std.specs.Io.KnownBytes.{Appends};
ghost use Rattle.std.specs.Prelude.{◌≡◌, IfSome, OnOk, length};

use input::read_full;
use report::calls::report;
use std::io;
use std::io::{Read, Write};

// One byte more than the longest input, so that a longer one shows. The contract says the length alone, so that no proof holds the bytes.
fn input_buffer() -> [u8; 65537]
    ensures { 65537 ≡ length result }
{
    [0; 65537]
}

// Room for any report. The contract says the length alone, as above.
fn report_buffer() -> [u8; 65536]
    ensures { 65536 ≡ length result }
{
    [0; 65536]
}

// Writes the report of the input, and no byte beside it.
fn print_report<W: Write>(writer: &mut W, input: &[u8]) -> io::Result<()>
    ensures { OnOk result (Appends (W.contents writer.old) (W.contents writer.new) (report input.now)) }
{
    let mut out = report_buffer();
    match report(input, &mut out) {
        Ok(n) => writer.write_all(&out[..n]),
        Err(_) => Ok(()),
    }
}

// Writes the report of all that the reader has left. Of an input that is too long, what was read is too long as well, so that both have the same report.
fn merge<R: Read, W: Write>(reader: &mut R, writer: &mut W) -> io::Result<()>
    ensures { OnOk result (IfSome (R.remaining reader.old)
        (λ input. Appends (W.contents writer.old) (W.contents writer.new) (report input))) }
{
    let mut input = input_buffer();
    let n = read_full(reader, &mut input)?;
    print_report(writer, &input[..n])
}

fn main(rt: HostRuntime) -> io::Result<()> {
    merge(&mut rt.reader(), &mut io::writer(&rt))
}
