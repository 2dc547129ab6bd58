ghost use Rattle.std.specs.Prelude.{◌%◌, ◌^◌, ◌<◌, ◌≡◌, length};
ghost use Rattle.std.specs.Int.Count.{ones};
ghost use Rattle.event.specs.Event.{Event};
ghost use Rattle.event.specs.code.EventIndex.{EventIs, TextsSkipped, SetsSkipped, ValueFound};

use crate::read::EventIndex;
use crate::sets::set_at;
use packed::read::{TextAt, read_number, read_text};

// The position after `count` texts.
fn skip_texts(s: &[u8], at: usize, count: usize) -> usize
    ensures { TextsSkipped s.now at count result }
{
    let mut pos = at;
    for _ in 0..count {
        let Some(TextAt { end, .. }) = read_text(s, pos) else {
            return pos;
        };
        pos = end;
    }
    pos
}

// The position after the sets of `count` places with objects.
pub fn skip_sets(s: &[u8], at: usize, count: u32) -> usize
    ensures { SetsSkipped s.now at count result }
{
    let mut pos = at;
    for _ in 0..count {
        let Some((values, after_count)) = read_number(s, pos) else {
            return pos;
        };
        pos = skip_texts(s, after_count, values as usize);
    }
    pos
}

// How many places below `place` have objects, each of which has a set before the place's own.
fn sets_below(presence: u64, place: usize) -> u32
    requires { place < 32 }
    ensures { result ≡ ones (presence % 2 ^ place) }
{
    u32::count_ones((presence % (1u64 << place)) as u32)
}

// The value at a place and an index of an event.
pub fn find_value(
    event: &[u8],
    x: EventIndex,
    sets: &[usize],
    place: usize,
    index: usize,
) -> Option<TextAt>
    requires { length sets.now ≡ 96 }
    ensures { (e : Event) → EventIs event.now e x sets.now → ValueFound event.now e place index result }
{
    if 31 < place {
        return None;
    }
    let set = set_at(sets, place);
    if set.count <= index {
        return None;
    }
    let at = skip_sets(event, x.after_presence, sets_below(x.presence, place));
    let (_, after_count) = read_number(event, at)?;
    let to = skip_texts(event, after_count, index);
    read_text(event, to)
}
