ghost use Rattle.std.specs.Prelude.{◌≡◌, length};
ghost use Rattle.event.specs.EventLayout.{event_of};
ghost use Rattle.event.specs.code.EventIndex.{EventReads, counts_of};

use crate::head::{HeadAt, read_head};
use crate::sets::{SetsRead, read_sets};
use packed::read::read_number;

// Where each thing of an event stands. Where its sets stand is lent beside it, as 96 numbers.
#[derive(Clone, Copy)]
pub struct EventIndex {
    pub head: HeadAt,
    pub presence: u64,
    pub after_presence: usize,
    pub objects: usize,
}

// The counts that an event is read within: its own, or the wider ones of a merged event.
#[derive(Clone, Copy)]
pub enum EventCounts {
    Narrow,
    Wide,
}

fn most_parents(counts: EventCounts) -> usize
    ensures { result ≡ (counts_of counts).parents }
{
    match counts {
        EventCounts::Narrow => 8,
        EventCounts::Wide => 32,
    }
}

fn most_objects(counts: EventCounts) -> usize
    ensures { result ≡ (counts_of counts).objects }
{
    match counts {
        EventCounts::Narrow => 32,
        EventCounts::Wide => 256,
    }
}

// The index of an event that the bytes are, to their exact end.
pub fn read_event(s: &[u8], counts: EventCounts, sets: &mut [usize]) -> Option<EventIndex>
    requires { length sets.old ≡ 96 }
    ensures { EventReads (event_of (counts_of counts) s.now) s.now sets.new result }
{
    let head = read_head(s, most_parents(counts))?;
    let (presence, after_presence) = read_number(s, head.parents.end)?;
    if 4294967296 <= presence {
        return None;
    }
    let SetsRead { next, objects } = read_sets(s, after_presence, presence, false, sets)?;
    if next != s.len() || most_objects(counts) < objects {
        return None;
    }
    Some(EventIndex {
        head,
        presence,
        after_presence,
        objects,
    })
}
