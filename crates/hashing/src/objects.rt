ghost use Rattle.std.specs.Prelude.{◌+◌, ◌≤◌, ◌≡◌, ◌++◌, length};
ghost use Rattle.packed.specs.code.Strings.{string_of, strings_of, StringFits, strings_in, StringsFit};
ghost use Rattle.packed.specs.code.Written.{Wrote};
ghost use Rattle.hashing.specs.HashText.{separator, separated};

use packed::strings::{StringAt, string_at};
use packed::write::{copy, copy_part};

// Writes the string of an object of a match property: its name stands in the table, its value in the event.
fn write_object(table: &[u8], event: &[u8], x: StringAt, out: &mut [u8], at: usize) -> usize
    requires { StringFits table.now event.now x × (at + length (string_of table.now event.now x) ≤ length out.old) }
    ensures { Wrote out.old at (string_of table.now event.now x) out.new result }
{
    let after_name = copy_part(table, x.first, x.colon, out, at);
    let after_colon = copy(b":", out, after_name);
    copy_part(event, x.second, x.end, out, after_colon)
}

// Four bytes FF, and then an object's string.
fn write_next(table: &[u8], event: &[u8], x: StringAt, out: &mut [u8], at: usize) -> usize
    requires { StringFits table.now event.now x × (at + length (separator ++ string_of table.now event.now x) ≤ length out.old) }
    ensures { Wrote out.old at (separator ++ string_of table.now event.now x) out.new result }
{
    let after_separator = copy(b"\xff\xff\xff\xff", out, at);
    write_object(table, event, x, out, after_separator)
}

// The strings of the first `count` objects, with four bytes FF between.
pub fn write_objects(
    table: &[u8],
    event: &[u8],
    objects: &[usize],
    count: usize,
    out: &mut [u8],
    at: usize,
) -> usize
    requires { StringsFit table.now event.now (strings_in objects.now) count
        × (at + length (separated (strings_of table.now event.now (strings_in objects.now) count)) ≤ length out.old)
        × (length objects.now ≡ 128) }
    ensures { Wrote out.old at (separated (strings_of table.now event.now (strings_in objects.now) count))
        out.new result }
{
    if count == 0 {
        return at;
    }
    let first = string_at(objects, 0);
    let mut next = write_object(table, event, first, out, at);
    for i in 1..count {
        let x = string_at(objects, i);
        next = write_next(table, event, x, out, next);
    }
    next
}
