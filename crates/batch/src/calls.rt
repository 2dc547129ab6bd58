ghost use Rattle.std.specs.Prelude.{ℕ, ◌≤◌, ◌≡◌, List, length, Some};
ghost use Rattle.model.specs.Limits.{Permitted};
ghost use Rattle.replies.specs.Answers.{outcome};
ghost use Rattle.replies.specs.Replies.{replies, batch_replies};
ghost use Rattle.replies.specs.Capacities.{dossier_capacity};
ghost use Rattle.replies.specs.ChosenLimits.{limits_of};
ghost use Rattle.ontology.specs.Table.{Table};
ghost use Rattle.batch.specs.Batch.{have_room, batch_call};
ghost use Rattle.batch.specs.code.BatchIndex.{FirstName, Agreed, combined_answer, FirstOf, CombinedFirst};
ghost use Rattle.batch.specs.declared.frame.BatchIndex.{BatchIndex};

use crate::asked::ask_events;
use crate::frame::{BatchIndex, event_part, read_batch};
use combining::add::add_event;
use combining::check::check_known;
use event::head::type_name;
use ontology::tables::read_table;
use ontology::types::TypeIndex;
use replies::capacities::DOSSIER_CAPACITY;
use replies::limits::{Limits, is_permitted};
use replies::reply::{BatchRefusal, Refusal};

// The dossier of the first n events, in the first of three buffers, and its measures: all but the last are combined first, then the last is added. The buffers
// change roles. Of the events, which were accepted, and of the dossiers, which the batch made itself, no question before the last need be asked again.
fn combine_first(
    limits: Limits,
    table: &[u8],
    batch: &[u8],
    x: BatchIndex,
    t: TypeIndex,
    properties: &[usize],
    n: usize,
    measures: &mut [usize],
    a: &mut [u8],
    b: &mut [u8],
    c: &mut [u8],
) -> Result<usize, Refusal>
    requires permitted { Permitted (limits_of limits) × (1 ≤ n) × (n ≤ 16) × (length properties.now ≡ 96) × (length measures.old ≡ 17) }
    requires dossier_capacity_in_bounds { (dossier_capacity ≤ length a.old) × (dossier_capacity ≤ length b.old) × (dossier_capacity ≤ length c.old) }
    requires first_of { FirstOf table.now batch.now x t properties.now n }
    ensures { CombinedFirst (limits_of limits) table.now batch.now x n result measures.new a.new
        a.old }
{
    if n <= 1 {
        return check_known(table, event_part(batch, x, 0), t, measures, a);
    }
    let size = combine_first(
        limits,
        table,
        batch,
        x,
        t,
        properties,
        n - 1,
        measures,
        b,
        c,
        a,
    )?;
    let event = event_part(batch, x, n - 1);
    add_event(
        limits,
        table,
        &b[..size],
        measures,
        event,
        t,
        properties,
        c,
        a,
    )
}

// The dossier of all events of a batch that was asked its questions but the last.
fn combine_all(
    limits: Limits,
    table: &[u8],
    batch: &[u8],
    x: BatchIndex,
    t: TypeIndex,
    properties: &[usize],
    out: &mut [u8],
    a: &mut [u8],
    b: &mut [u8],
    c: &mut [u8],
) -> Result<usize, Refusal>
    requires permitted { Permitted (limits_of limits) × (x.count ≤ 16) × (dossier_capacity ≤ length out.old) × (length properties.now ≡ 96) }
    requires dossier_capacity_in_bounds { (dossier_capacity ≤ length a.old) × (dossier_capacity ≤ length b.old) × (dossier_capacity ≤ length c.old) }
    requires first_of { FirstOf table.now batch.now x t properties.now x.count }
    ensures { (ts : Table) (ss : List (List ℕ)) → Agreed table.now batch.now x ts ss
        → replies result out.new ≡ outcome (combined_answer (limits_of limits) ts ss) out.old }
{
    let mut measures = [0usize; 17];
    let n = x.count;
    if n <= 1 {
        return check_known(table, event_part(batch, x, 0), t, &mut measures, out);
    }
    let size = combine_first(
        limits,
        table,
        batch,
        x,
        t,
        properties,
        n - 1,
        &mut measures,
        a,
        b,
        c,
    )?;
    let event = event_part(batch, x, n - 1);
    add_event(
        limits,
        table,
        &a[..size],
        &mut measures,
        event,
        t,
        properties,
        b,
        out,
    )
}

// Question 1 of the sizes of the output and of three scratch buffers.
fn have_room(out: usize, a: usize, b: usize, c: usize) -> bool
    ensures { result ≡ have_room (record { output = out; first = a; second = b; third = c }) }
{
    DOSSIER_CAPACITY <= out
        && DOSSIER_CAPACITY <= a
        && DOSSIER_CAPACITY <= b
        && DOSSIER_CAPACITY <= c
}

// The name of the first event's type, for which the table is read; where the frame is bad, any name, as question 2 asks for none.
fn first_name(batch: &[u8], frame: Option<BatchIndex>) -> &[u8]
    ensures { (x : BatchIndex) → frame ≡ Some x → FirstName batch.now x result.now }
{
    match frame {
        Some(x) => type_name(event_part(batch, x, 0)),
        None => &batch[0..0],
    }
}

// The dossier of a batch, written at the front of `out`; a, b and c are scratch.
pub fn batch(
    limits: Limits,
    table: &[u8],
    batch: &[u8],
    out: &mut [u8],
    a: &mut [u8],
    b: &mut [u8],
    c: &mut [u8],
) -> Result<usize, BatchRefusal>
    ensures { batch_replies result out.new ≡ batch_call (limits_of limits)
        (record { output = length out.old; first = length a.old; second = length b.old; third = length c.old })
        table.now batch.now out.old }
{
    if !is_permitted(limits) {
        return Err(BatchRefusal::from(Refusal::BadLimits));
    }
    if !have_room(out.len(), a.len(), b.len(), c.len()) {
        return Err(BatchRefusal::from(Refusal::SmallBuffer));
    }
    let frame = read_batch(batch);
    let name = first_name(batch, frame);
    let mut properties = [0usize; 96];
    let found = read_table(table, name, &mut properties).ok_or(Refusal::BadTable)?;
    let x = frame.ok_or(Refusal::BadBatch)?;
    let t = ask_events(table, batch, x, name, Some(found), &properties)?;
    let n = combine_all(limits, table, batch, x, t, &properties, out, a, b, c)?;
    Ok(n)
}
