ghost use Rattle.std.specs.Prelude.{ℕ, ◌≤◌, ◌≡◌, List, length, Some};
ghost use Rattle.std.proofs.Math.Option.{some};
ghost use Rattle.ontology.specs.Table.{EventType, Table};
ghost use Rattle.ontology.specs.TableLayout.{table_of};
ghost use Rattle.ontology.specs.code.TypeIndex.{PropertiesAre, TableSays};
ghost use Rattle.event.specs.Event.{Event};
ghost use Rattle.event.specs.EventLayout.{narrow, event_of};
ghost use Rattle.event.specs.code.EventIndex.{EventIs, EventReads, event_questions};
ghost use Rattle.batch.specs.Batch.{events_agree};
ghost use Rattle.batch.specs.code.BatchIndex.{BatchIs, events_together, FirstNamed, OneAnswers, AllAnswers};

use crate::frame::{BatchIndex, event_part};
use event::agree::is_match_same;
use event::ask::ask_event;
use event::head::{heads_agree, type_name};
use event::read::{EventCounts, EventIndex, read_event};
use ontology::tables::read_table;
use ontology::types::TypeIndex;
use packed::order::same;
use replies::reply::{BatchRefusal, Refusal};

// Question 7 of two events.
fn events_agree(
    a: &[u8],
    d: EventIndex,
    left: &[usize],
    b: &[u8],
    e: EventIndex,
    right: &[usize],
    count: usize,
    properties: &[usize],
) -> bool
    requires { (count ≤ 32) × (length properties.now ≡ 96) × (length left.now ≡ 96) × (length right.now ≡ 96) }
    ensures { (u : List ℕ) (ty tz : EventType) (f g : Event) → PropertiesAre u ty.properties count properties.now
        → EventIs a.now f d left.now → EventIs b.now g e right.now
        → (f.head.type ≡ g.head.type → ty ≡ tz) → result ≡ events_agree (record { type = ty; event = f }) (record { type = tz; event = g }) }
{
    heads_agree(a, d.head, b, e.head) && is_match_same(count, properties, a, left, b, right)
}

// The questions of an event: its type and its index. The table was read for a name, and is read again only where the event's type has another one.
fn ask_one(
    table: &[u8],
    name: &[u8],
    found: Option<TypeIndex>,
    properties: &[usize],
    event: &[u8],
    sets: &mut [usize],
) -> Result<(TypeIndex, EventIndex), Refusal>
    requires { TableSays (table_of table.now) table.now name.now properties.now (Some found) × (length properties.now ≡ 96)
        × (length sets.old ≡ 96) }
    ensures { OneAnswers (event_questions narrow table.now event.now) table.now event.now sets.new result }
{
    let e = read_event(event, EventCounts::Narrow, sets);
    let other = type_name(event);
    if same(name, other) {
        return ask_event(event, e, sets, Some(found), properties);
    }
    let mut others = [0usize; 96];
    let again = read_table(table, other, &mut others);
    ask_event(event, e, sets, again, &others)
}

// Question 2, then 3 to 6 of each event in turn, then 7 of each against the first, whose type is answered. Each event is read once, and the table was read for
// the name of the first one's type.
pub fn ask_events(
    table: &[u8],
    batch: &[u8],
    x: BatchIndex,
    name: &[u8],
    read: Option<Option<TypeIndex>>,
    properties: &[usize],
) -> Result<TypeIndex, BatchRefusal>
    requires { FirstNamed table.now batch.now x name.now read properties.now × (length properties.now ≡ 96) }
    ensures { (ts : Table) (ss : List (List ℕ)) → table_of table.now ≡ some ts → BatchIs batch.now ss x
        → AllAnswers (events_together ts ss) table.now ts ss properties.now result }
{
    let found = read.ok_or(Refusal::BadTable)?;
    let head = event_part(batch, x, 0);
    let mut left = [0usize; 96];
    let mut right = [0usize; 96];
    let (t, d) = ask_one(table, name, found, properties, head, &mut left)?;
    let mut apart = None;
    for i in 1..x.count {
        let event = event_part(batch, x, i);
        let (_, e) = match ask_one(table, name, found, properties, event, &mut right) {
            Ok(asked) => asked,
            Err(refusal) => return Err(BatchRefusal {
                refusal,
                position: i,
            }),
        };
        if apart.is_none() && !events_agree(head, d, &left, event, e, &right, t.count, properties) {
            apart = Some(i);
        }
    }
    match apart {
        Some(position) => Err(BatchRefusal {
            refusal: Refusal::Disagreement,
            position,
        }),
        None => Ok(t),
    }
}
