// Replays scripts of calls, whose names are its arguments, and writes a line for each case: what the call replied, and the bytes that it gave in hexadecimal.
// A script is a run of cases to its end. Each output is filled with EE before its call, and a line ends with ` dirty` where a byte that must keep its old
// value lost it.
#![tactic(auto)]

mod cases;
mod fields;
mod lines;
mod outputs;

ghost use Rattle.std.specs.Prelude.{◌≡◌, length};

use input::read_full;
use std::io::{BufWriter, Read, Write};
use std::{env, fs, io};

// The longest script. The contract says the length alone, so that no proof holds the bytes.
fn script_buffer() -> [u8; 524288]
    ensures { 524288 ≡ length result }
{
    [0; 524288]
}

fn replay(writer: &mut impl Write, script: &[u8]) -> io::Result<()> {
    let mut at: usize = 0;
    while at < script.len() {
        match cases::replay_case(writer, script, at)? {
            Some(end) if at < end => at = end,
            _ => return writeln!(writer, "the script has no case here"),
        }
    }
    Ok(())
}

fn replay_file(writer: &mut impl Write, file: &mut impl Read) -> io::Result<()> {
    let mut script = script_buffer();
    let n = read_full(file, &mut script)?;
    replay(writer, &script[..n])
}

// A file that cannot be opened is named on standard error, and the next is replayed.
fn replay_argument(rt: &HostRuntime, writer: &mut impl Write, name: &str) -> io::Result<()> {
    match fs::open(rt, name) {
        Ok(mut file) => replay_file(writer, &mut file),
        Err(error) => eprintln!(rt; "{name}: {error}"),
    }
}

fn main(rt: HostRuntime) -> io::Result<()> {
    let mut writer = BufWriter::new(rt.alloc(), io::writer(&rt))?;
    for name in env::args(&rt)?.skip(1) {
        replay_argument(&rt, &mut writer, name.as_str())?;
    }
    writer.flush()
}
