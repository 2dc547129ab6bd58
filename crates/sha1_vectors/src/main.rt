// Writes the SHA-1 of published messages and of lengths about the ends of blocks, a line each, in hexadecimal. `make_stdout.sh`
// makes the file `stdout` of the same messages by coreutils' sha1sum.
#![tactic(auto)]

ghost use Rattle.std.specs.Prelude.{◌^◌, ◌<◌, length};

use std::io;
use std::io::Write;

// A line is put together first and written by one call, since the writer has no buffer: no reader meets a part of one.
fn print_sha1(out: &mut impl Write, message: &[u8]) -> io::Result<()>
    requires { length message.now < 2 ^ 61 }
{
    let mut line = [b'\n'; 41];
    let mut digits: &mut [u8] = &mut line;
    for byte in fips180::sha1(message) {
        write!(digits, "{byte:02x}")?;
    }
    out.write_all(&line)
}

// A million times 'a'. A function of its own, so that no other proof holds the bytes.
fn million() -> [u8; 1000000] {
    [b'a'; 1000000]
}

// FIPS 180's own messages, and the empty one.
fn print_published(out: &mut impl Write) -> io::Result<()> {
    print_sha1(out, b"")?;
    print_sha1(out, b"abc")?;
    print_sha1(
        out,
        b"abcdbcdecdefdefgefghfghighijhijkijkljklmklmnlmnomnopnopq",
    )?;
    print_sha1(
        out,
        b"abcdefghbcdefghicdefghijdefghijkefghijklfghijklmghijklmnhijklmnoijklmnopjklmnopqklmnopqrlmnopqrsmnopqrstnopqrstu",
    )?;
    let m = million();
    print_sha1(out, &m)
}

// The digits 0 to 9 over and over, 8,192 bytes.
fn digits() -> [u8; 8192] {
    let mut s = [b'0'; 8192];
    for i in 0..8192 {
        s[i] = b'0' + (i % 10) as u8;
    }
    s
}

// Lengths about the ends of blocks, and one of many blocks.
fn print_lengths(out: &mut impl Write) -> io::Result<()> {
    let s = digits();
    for n in [55, 56, 63, 64, 65, 119, 120, 8192] {
        print_sha1(out, &s[..n])?;
    }
    Ok(())
}

fn main(rt: HostRuntime) -> io::Result<()> {
    let mut out = io::writer(&rt);
    print_published(&mut out)?;
    print_lengths(&mut out)
}
