ghost use Rattle.std.specs.Prelude.{ℕ, ◌+◌, ◌-◌, ◌≤◌, ◌≡◌, List, ◌++◌, length};
ghost use Rattle.std.proofs.lemmas.List.Edits.{sets};
ghost use Rattle.packed.specs.Packed.{number, part};
ghost use Rattle.packed.specs.code.Written.{Wrote};

use packed::write::{number_size, write_number};

// Moves the bytes from `from` up to `to` so many places up, the last one first. `copy_within` would call memmove, which who links the archive for C need not
// have.
fn move_up(out: &mut [u8], from: usize, to: usize, by: usize)
    requires { (from ≤ to) × (to + by ≤ length out.old) }
    ensures { out.new ≡ sets out.old (from + by) (part out.old from to) }
{
    for i in (from..to).rev() {
        out[i + by] = out[i];
    }
}

// A set's count stands before its values, and is known when these are written. Writes n at position `at`, before the bytes that stand from at + 1
// up to `end`, which move up where n takes more than a byte, and returns the position after them.
pub fn write_before(out: &mut [u8], at: usize, end: usize, n: u64) -> usize
    requires { (at + 1 ≤ end) × (end + (length (number n) - 1) ≤ length out.old) }
    ensures { (l bytes : List ℕ) → Wrote l (at + 1) bytes out.old end → Wrote l at (number n ++ bytes) out.new result }
{
    let more = number_size(n) - 1;
    if 0 < more {
        move_up(out, at + 1, end, more);
    }
    write_number(out, at, n);
    end + more
}
