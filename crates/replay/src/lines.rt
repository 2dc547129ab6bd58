// What the program writes.
ghost use Rattle.std.specs.Prelude.{◌≤◌, length};

use replies::reply::Refusal;
use report::lines;
use std::io;
use std::io::Write;

// `refused N`
pub fn write_refusal(writer: &mut impl Write, refusal: Refusal) -> io::Result<()> {
    let n = refusal.number();
    write!(writer, "refused {n}")
}

// Two digits a byte, of at most 512 bytes: they go by way of a buffer, so that a long answer takes few calls.
fn write_some(writer: &mut impl Write, s: &[u8]) -> io::Result<()>
    requires { length s.now ≤ 512 }
{
    let mut digits = [0u8; 1024];
    lines::write_hex(s, &mut digits, 0);
    writer.write_all(&digits[..2 * s.len()])
}

pub fn write_hex(writer: &mut impl Write, s: &[u8]) -> io::Result<()> {
    for part in s.chunks(512) {
        write_some(writer, part)?;
    }
    Ok(())
}
