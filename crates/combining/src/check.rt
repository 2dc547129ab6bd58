ghost use Rattle.std.specs.Prelude.{◌-◌, ◌≤◌, ◌≡◌, length};
ghost use Rattle.packed.specs.code.Written.{Wrote};
ghost use Rattle.replies.specs.Capacities.{dossier_capacity};
ghost use Rattle.replies.specs.Replies.{replies};
ghost use Rattle.event.specs.Event.{Event, version_of};
ghost use Rattle.event.specs.code.EventIndex.{EventIs};
ghost use Rattle.combining.specs.CheckCall.{check_call, event_dossier};
ghost use Rattle.combining.specs.code.AddIndex.{Measured};
ghost use Rattle.combining.specs.code.CheckIndex.{Checkable, KnownEvent, AloneRoom, LoneRoom, alone_bytes, lone_bytes};

use crate::measures::{Measure, measure_one};
use event::ask::accept;
use event::read::{EventCounts, EventIndex, read_event};
use event::sets::{set_at, set_part, value_in};
use event::write::write_sets;
use ontology::types::TypeIndex;
use packed::write::{copy_part, number_size, write_number};
use replies::capacities::DOSSIER_CAPACITY;
use replies::reply::Refusal;
use values::numerals::numeral_of;
use values::versions::EventVersion;

// An event's version: the number in its marked property, or 0 where its type has none.
pub fn version_of(event: &[u8], t: TypeIndex, sets: &[usize]) -> EventVersion
    requires { (length sets.now ≡ 96) × Checkable event.now t sets.now }
    ensures { (h : Checkable event.now t sets.now) → result.0 ≡ version_of h.type h.event }
{
    let mark = t.mark;
    if mark == 0 {
        return EventVersion(0);
    }
    let x = set_at(sets, mark - 1);
    EventVersion(numeral_of(value_in(set_part(event, x), 0)))
}

// Where the only snapshot of a dossier stands in its bytes, of which it is the end.
#[derive(Clone, Copy)]
struct LoneAt {
    start: usize,
    end: usize,
}

// Writes the snapshot of an event: its version, its presence and differ numbers, and all its sets.
pub fn write_alone(
    event: &[u8],
    e: EventIndex,
    sets: &[usize],
    version: EventVersion,
    out: &mut [u8],
    at: usize,
) -> usize
    requires { (length sets.now ≡ 96) × AloneRoom event.now e sets.now version.0 at (length out.old) }
    ensures { (h : Event) → EventIs event.now h e sets.now
        → Wrote out.old at (alone_bytes h version.0) out.new result }
{
    let after_version = write_number(out, at, version.0);
    let after_presence = write_number(out, after_version, e.presence);
    let after_differ = write_number(out, after_presence, 0);
    write_sets(event, sets, e.presence, out, after_differ)
}

// Writes the dossier of one event at the front of `out`: its head, and its snapshot.
fn write_lone(
    event: &[u8],
    e: EventIndex,
    sets: &[usize],
    version: EventVersion,
    out: &mut [u8],
) -> LoneAt
    requires { (length sets.now ≡ 96) × LoneRoom event.now e sets.now version.0 (length out.old) }
    ensures wrote { (h : Event) → EventIs event.now h e sets.now
        → Wrote out.old 0 (lone_bytes h version.0) out.new result.end }
    ensures size { (h : Event) → EventIs event.now h e sets.now
        → (result.start ≤ result.end) × (length (alone_bytes h version.0) ≡ result.end - result.start) }
{
    // the heads of an event and of its dossier have the same bytes
    let size = e.after_presence - number_size(e.presence);
    let after_head = copy_part(event, 0, size, out, 0);
    let start = write_number(out, after_head, 1);
    let end = write_alone(event, e, sets, version, out, start);
    LoneAt { start, end }
}

// The dossier of an event, written at the front of `out`.
pub fn check_event(table: &[u8], event: &[u8], out: &mut [u8]) -> Result<usize, Refusal>
    ensures { replies result out.new ≡ check_call table.now event.now out.old }
{
    if out.len() < DOSSIER_CAPACITY {
        return Err(Refusal::SmallBuffer);
    }
    let mut properties = [0usize; 96];
    let mut sets = [0usize; 96];
    let (t, e) = accept(
        table,
        event,
        EventCounts::Narrow,
        &mut properties,
        &mut sets,
    )?;
    let version = version_of(event, t, &sets);
    let lone = write_lone(event, e, &sets, version, out);
    Ok(lone.end)
}

// The same of an event that is known to be accepted, with the type t; and the measures of its dossier.
pub fn check_known(
    table: &[u8],
    event: &[u8],
    t: TypeIndex,
    measures: &mut [usize],
    out: &mut [u8],
) -> Result<usize, Refusal>
    requires { KnownEvent table.now event.now t × (length measures.old ≡ 17) × (dossier_capacity ≤ length out.old) }
    ensures out_after { replies result out.new ≡ check_call table.now event.now out.old }
    ensures measured { (k : KnownEvent table.now event.now t)
        → Measured (event_dossier k.event).snapshots measures.new }
{
    let mut sets = [0usize; 96];
    let known = read_event(event, EventCounts::Narrow, &mut sets).unwrap();
    let version = version_of(event, t, &sets);
    let lone = write_lone(event, known, &sets, version, out);
    let size = lone.end - lone.start;
    measure_one(measures, Measure { version, size });
    Ok(lone.end)
}
