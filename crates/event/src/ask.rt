ghost use Rattle.std.specs.Prelude.{ℕ, ◌≡◌, List, length};
ghost use Rattle.std.proofs.Math.Option.{some};
ghost use Rattle.model.specs.Order.{Text};
ghost use Rattle.replies.specs.Replies.{asked_of};
ghost use Rattle.ontology.specs.Table.{EventType};
ghost use Rattle.ontology.specs.TableLayout.{table_of};
ghost use Rattle.ontology.specs.code.TypeIndex.{TypeIs, TableSays};
ghost use Rattle.event.specs.Event.{Event};
ghost use Rattle.event.specs.EventLayout.{Counts, event_of};
ghost use Rattle.event.specs.Value.{lent_from, value_call};
ghost use Rattle.event.specs.code.EventIndex.{EventIs, EventReads, KindsAre, counts_of, event_questions, places_asked, EventAnswers, ValueTold};

use crate::head::type_name;
use crate::lookup::find_value;
use crate::read::{EventCounts, EventIndex, read_event};
use crate::shape::shape_ok;
use crate::spaces::sets_in_space;
use ontology::tables::read_table;
use ontology::types::TypeIndex;
use packed::read::TextAt;
use replies::reply::Refusal;

// Questions 5 and 6 of an event, whose index is e, and whose type is t.
pub fn ask_places(
    event: &[u8],
    e: EventIndex,
    sets: &[usize],
    t: TypeIndex,
    properties: &[usize],
) -> Result<(), Refusal>
    requires { (length sets.now ≡ 96) × (length properties.now ≡ 96) }
    ensures { (table : List ℕ) (ty : EventType) (x : Event) → TypeIs table ty t properties.now → KindsAre ty
        → EventIs event.now x e sets.now → asked_of result ≡ places_asked ty x }
{
    if !shape_ok(t.count, properties, e.objects, sets) {
        return Err(Refusal::BadShape);
    }
    if !sets_in_space(event, sets, t.count, properties) {
        return Err(Refusal::BadValue);
    }
    Ok(())
}

// Questions 2 to 6 of an event, where the table was read for the name of its type, and the event was read: the type and the event's index. A table is read once
// for all events of a type.
pub fn ask_event(
    event: &[u8],
    e: Option<EventIndex>,
    sets: &[usize],
    table: Option<Option<TypeIndex>>,
    properties: &[usize],
) -> Result<(TypeIndex, EventIndex), Refusal>
    requires { (length sets.now ≡ 96) × (length properties.now ≡ 96) }
    ensures { (bytes : List ℕ) (name : Text) (counts : Counts) → TableSays (table_of bytes) bytes name properties.now table
        → ((x : Event) → event_of counts event.now ≡ some x → name ≡ x.head.type)
        → EventReads (event_of counts event.now) event.now sets.now e
        → EventAnswers (event_questions counts bytes event.now) bytes event.now properties.now sets.now result }
{
    let found = table.ok_or(Refusal::BadTable)?;
    let e = e.ok_or(Refusal::BadInput)?;
    let t = found.ok_or(Refusal::UnknownType)?;
    ask_places(event, e, sets, t, properties)?;
    Ok((t, e))
}

// A table and an event that are read and asked questions 2 to 6: the type, whose properties are lent, and the event's index, whose sets are.
pub fn accept(
    table: &[u8],
    event: &[u8],
    counts: EventCounts,
    properties: &mut [usize],
    sets: &mut [usize],
) -> Result<(TypeIndex, EventIndex), Refusal>
    requires { (length properties.old ≡ 96) × (length sets.old ≡ 96) }
    ensures { EventAnswers (event_questions (counts_of counts) table.now event.now) table.now event.now
        properties.new sets.new result }
{
    let found = read_table(table, type_name(event), properties);
    let e = read_event(event, counts, sets);
    ask_event(event, e, sets, found, properties)
}

// Where the value at a place and an index stands in the event; nothing of a refused table or event, or where there is no value.
pub fn value_at(table: &[u8], event: &[u8], place: usize, index: usize) -> Option<TextAt>
    ensures { ValueTold table.now event.now place index result }
{
    let mut properties = [0usize; 96];
    let mut sets = [0usize; 96];
    let (_, e) = accept(table, event, EventCounts::Wide, &mut properties, &mut sets).ok()?;
    find_value(event, e, &sets, place, index)
}

// The value at a place and an index: its own bytes in the event. A refused table or event, or no value there, gives a part of 0 bytes.
pub fn value<'a>(table: &[u8], event: &'a [u8], place: usize, index: usize) -> &'a [u8]
    ensures { (result.now, result.ref_ptr) ≡ lent_from event.entry.ref_ptr (value_call table.now event.now place index) }
{
    match value_at(table, event, place, index) {
        Some(x) => &event[x.start..x.end],
        None => &event[0..0],
    }
}
