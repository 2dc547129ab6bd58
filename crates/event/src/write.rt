ghost use Rattle.std.specs.Prelude.{◌+◌, ◌-◌, ◌≤◌, ◌≡◌, List, ◌++◌, length};
ghost use Rattle.model.specs.Order.{Text};
ghost use Rattle.packed.specs.code.Written.{Wrote, ToGo};
ghost use Rattle.event.specs.EventLayout.{set_bytes};
ghost use Rattle.event.specs.code.EventIndex.{count_size, SetIs, SetsAre};
ghost use Rattle.event.specs.code.SetWriting.{SetRoom, present_bytes, PresentRoom, run_bytes, RunIs, RunRoom};

use crate::sets::{SetAt, set_at};
use packed::write::{copy_part, number_size};

// Sets that stand one after the other, from where the first begins with its count up to where the last ends; and where they are to be copied.
#[derive(Clone, Copy)]
pub struct Run {
    pub start: usize,
    pub end: usize,
    pub to: usize,
}

// Where a set begins with its count. An empty one has none.
fn set_start(x: SetAt) -> usize
    requires { count_size x.count ≤ x.start }
    ensures { result ≡ x.start - count_size x.count }
{
    if x.count == 0 {
        return x.start;
    }
    x.start - number_size(x.count as u64)
}

// A set from where it stands, with its count; nothing of an empty one.
pub fn write_set(s: &[u8], x: SetAt, out: &mut [u8], at: usize) -> usize
    requires { SetRoom s.now x at (length out.old) }
    ensures { (vs : List Text) → SetIs s.now vs x → Wrote out.old at (set_bytes vs) out.new result }
{
    copy_part(s, set_start(x), x.end, out, at)
}

// The run with a set more. One that stands elsewhere begins a run of its own, and the run before it is copied.
fn with_set(s: &[u8], run: Run, x: SetAt, out: &mut [u8]) -> Run
    requires { RunRoom s.now run x (length out.old) }
    ensures { RunIs s.now result × ((vs : List Text) → SetIs s.now vs x
        → ToGo out.old run.to (run_bytes s.now run ++ set_bytes vs)
        out.new result.to (run_bytes s.now result)) }
{
    let start = set_start(x);
    if start == run.end {
        return Run { end: x.end, ..run };
    }
    let to = copy_part(s, run.start, run.end, out, run.to);
    Run {
        start,
        end: x.end,
        to,
    }
}

// The sets of a presence number, each from where it stands: what an event or a snapshot has after its numbers. Those that stand one after the other, as all
// of an event or a snapshot do, are copied as one run.
pub fn write_sets(s: &[u8], sets: &[usize], presence: u64, out: &mut [u8], at: usize) -> usize
    requires { (length sets.now ≡ 96) × PresentRoom s.now sets.now presence at (length out.old) }
    ensures { (xs : List (List Text)) → SetsAre s.now xs sets.now
        → Wrote out.old at (present_bytes presence xs) out.new result }
{
    let mut run = Run {
        start: 0,
        end: 0,
        to: at,
    };
    let mut bits = presence;
    let mut k = 0;
    while k < 32 && 0 < bits {
        if bits % 2 == 1 {
            run = with_set(s, run, set_at(sets, k), out);
        }
        bits /= 2;
        k += 1;
    }
    copy_part(s, run.start, run.end, out, run.to)
}
