ghost use Rattle.std.specs.Prelude.{ℕ, ◌≤◌, ◌<◌, ◌≡◌, List, [], length, drop, get_or};
ghost use Rattle.packed.specs.Parse.{times, whole};
ghost use Rattle.packed.specs.Packed.{read_text};
ghost use Rattle.batch.specs.Batch.{batch_of};
ghost use Rattle.batch.specs.code.BatchIndex.{BatchIs, BatchReads};

use packed::read::{TextAt, part_of, read_text, read_within};

// Where the events of a batch stand.
#[derive(Clone, Copy)]
pub struct BatchIndex {
    pub count: usize,
    pub events: [TextAt; 16],
}

// The texts of a batch, `count` of them from `at` on, up to its exact end.
fn read_texts(batch: &[u8], at: usize, count: usize) -> Option<BatchIndex>
    requires { (at ≤ length batch.now) × (1 ≤ count) × (count ≤ 16) }
    ensures { BatchReads (whole (times read_text count (drop at batch.now))) batch.now result }
{
    let mut events = [TextAt { start: 0, end: 0 }; 16];
    let mut next = at;
    for i in 0..count {
        let event = read_text(batch, next)?;
        events[i] = event;
        next = event.end;
    }
    if next == batch.len() {
        Some(BatchIndex { count, events })
    } else {
        None
    }
}

// A batch read to its exact end: a count 1 to 16, then each event as a text.
pub fn read_batch(batch: &[u8]) -> Option<BatchIndex>
    ensures { BatchReads (batch_of batch.now) batch.now result }
{
    let (count, after_count) = read_within(batch, 0, 1, 16)?;
    read_texts(batch, after_count, count as usize)
}

// The bytes of the i-th event; nothing where the index is not of these bytes.
pub fn event_part(batch: &[u8], x: BatchIndex, i: usize) -> &[u8]
    requires { i < 16 }
    ensures { (ss : List (List ℕ)) → BatchIs batch.now ss x → i < length ss → result.now ≡ get_or ss i [] }
{
    let event = x.events[i];
    part_of(batch, event.start, event.end)
}
