ghost use Rattle.std.specs.Prelude.{◌≤◌, ◌≡◌, length};
ghost use Rattle.std.proofs.Math.Option.{some};
ghost use Rattle.model.specs.Limits.{standard};
ghost use Rattle.packed.specs.code.Written.{Wrote};
ghost use Rattle.replies.specs.Questions.{accepted};
ghost use Rattle.replies.specs.Replies.{replies};
ghost use Rattle.replies.specs.Capacities.{dossier_capacity, report_capacity};
ghost use Rattle.ontology.specs.Table.{EventType, Table};
ghost use Rattle.ontology.specs.TableLayout.{table_of};
ghost use Rattle.event.specs.Event.{Event};
ghost use Rattle.dossier.specs.DossierQuestions.{TypedDossier, dossier_asked};
ghost use Rattle.batch.specs.Batch.{batch_asked};
ghost use Rattle.report.specs.Report.{merged_lines, opened_lines, asked_lines, report_call};
ghost use Rattle.report.specs.code.ReportIndex.{NumbersOf, MergedAsked, opens, DossierOpens};

use crate::lines::{write_finding, write_merged, write_refused};
use batch::calls::batch;
use event::head::type_name;
use event::read::{EventCounts, read_event};
use hashing::calls::hash;
use ontology::tables::read_table;
use opening::calls::open_dossier;
use packed::read::read_text;
use replies::capacities::{DOSSIER_CAPACITY, HASH_CAPACITY, REPORT_CAPACITY};
use replies::limits::standard_limits;
use replies::reply::{Opened, Refusal};

// The longest input that is read, as specs/Report has it.
const MOST_INPUT: usize = 65536;

// The bytes of a dossier or of a merged event. The contract says the length alone, so that no proof holds the bytes.
fn room() -> [u8; DOSSIER_CAPACITY]
    ensures { dossier_capacity ≡ length result }
{
    [0; DOSSIER_CAPACITY]
}

// The lines of a merged event with its hash.
fn report_merged(table: &[u8], event: &[u8], out: &mut [u8]) -> usize
    requires { (t : EventType) × (e : Event) × MergedAsked table.now event.now t e (length out.old) }
    ensures { (t : EventType) (e : Event) → MergedAsked table.now event.now t e (length out.old)
        → Wrote out.old 0 (merged_lines t e) out.new result }
{
    let mut digest = [0u8; HASH_CAPACITY];
    let mut properties = [0usize; 96];
    let mut sets = [0usize; 96];
    hash(table, event, &mut digest).unwrap();
    // that the event is accepted is known, so that its questions are not asked once more
    let t = read_table(table, type_name(event), &mut properties)
        .flatten()
        .unwrap();
    let e = read_event(event, EventCounts::Wide, &mut sets).unwrap();
    write_merged(table, t.count, &properties, event, e, &sets, &digest, out)
}

// The properties of a dossier's type.
fn properties_of(table: &[u8], dossier: &[u8], properties: &mut [usize])
    requires { length properties.old ≡ 96 }
    ensures { (types : Table) (d : TypedDossier) → table_of table.now ≡ some types
        → dossier_asked standard types dossier.now ≡ accepted d
        → NumbersOf table.now d.type properties.new }
{
    read_table(table, type_name(dossier), properties);
}

// What a dossier opens as.
fn report_opened(table: &[u8], dossier: &[u8], opened: &mut [u8], out: &mut [u8]) -> usize
    requires { (d : TypedDossier) × DossierOpens table.now dossier.now d (length out.old) × (dossier_capacity ≤ length opened.old) }
    ensures { (d : TypedDossier) → DossierOpens table.now dossier.now d (length out.old)
        → Wrote out.old 0 (opened_lines d.type d.headed (opens d)) out.new result }
{
    match open_dossier(standard_limits(), table, dossier, opened) {
        Ok(Opened::Merged(n)) => report_merged(table, &opened[..n], out),
        Ok(Opened::Found(f)) => {
            let mut properties = [0usize; 96];
            properties_of(table, dossier, &mut properties);
            write_finding(table, &properties, f, out)
        }
        Err(refusal) => write_refused(refusal.number(), 0, out),
    }
}

// What a table and a batch come to.
fn report_batch(table: &[u8], events: &[u8], out: &mut [u8]) -> usize
    requires { report_capacity ≤ length out.old }
    ensures { Wrote out.old 0 (asked_lines (batch_asked standard table.now events.now)) out.new result }
{
    let mut dossier = room();
    let mut a = room();
    let mut b = room();
    let mut c = room();
    match batch(
        standard_limits(),
        table,
        events,
        &mut dossier,
        &mut a,
        &mut b,
        &mut c,
    ) {
        Ok(n) => report_opened(table, &dossier[..n], &mut a, out),
        Err(b) => write_refused(b.refusal.number(), b.position, out),
    }
}

// What the merge program prints for its input, written at the front of `out`.
pub fn report(input: &[u8], out: &mut [u8]) -> Result<usize, Refusal>
    ensures { replies result out.new ≡ report_call input.now out.old }
{
    if out.len() < REPORT_CAPACITY {
        return Err(Refusal::SmallBuffer);
    }
    if MOST_INPUT < input.len() {
        return Ok(write_refused(Refusal::BadBatch.number(), 0, out));
    }
    let Some(table) = read_text(input, 0) else {
        return Ok(write_refused(Refusal::BadBatch.number(), 0, out));
    };
    Ok(report_batch(&input[table.start..table.end], &input[table.end..], out))
}
