// The fields of a case: numbers and texts. Each reader answers what it read and the position after it.
use packed::read::{part_of, read_number, read_text};
use replies::limits::{Limits, standard_limits};

// A text of the script.
pub fn read_field(script: &[u8], at: usize) -> Option<(&[u8], usize)> {
    let x = read_text(script, at)?;
    Some((part_of(script, x.start, x.end), x.end))
}

// A number of the script that counts something.
pub fn read_count(script: &[u8], at: usize) -> Option<(usize, usize)> {
    let (n, end) = read_number(script, at)?;
    Some((n as usize, end))
}

// The limits of a call: calls 10 to 12 begin with event versions, parents and objects; 3, 4 and 8 have the same fields after them, and document 01's limits.
pub fn read_limits(call: u64, script: &[u8], at: usize) -> Option<(Limits, usize)> {
    if call < 10 {
        return Some((standard_limits(), at));
    }
    let (versions, at) = read_count(script, at)?;
    let (parents, at) = read_count(script, at)?;
    let (objects, end) = read_count(script, at)?;
    let limits = Limits {
        versions,
        parents,
        objects,
    };
    Some((limits, end))
}
