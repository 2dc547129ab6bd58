// Each call as C sees it. What it asks and answers is said in include/merger.h.
ghost use Rattle.std.specs.Prelude.{◌≡◌, length};
ghost use Rattle.replies.specs.Replies.{finding_of, open_replied};
ghost use Rattle.ontology.specs.TableCall.{table_call};
ghost use Rattle.event.specs.Value.{value_call};
ghost use Rattle.hashing.specs.HashCalls.{hash_text_call, hash_call};
ghost use Rattle.combining.specs.CheckCall.{check_call};
ghost use Rattle.combining.specs.CombineCall.{combine_call};
ghost use Rattle.opening.specs.OpenCall.{open_call};
ghost use Rattle.batch.specs.Batch.{batch_call};
ghost use Rattle.report.specs.Report.{report_call};
ghost use Rattle.interface.specs.Packing.{chosen, packed, packed_opened, version_or, version_after, packed_part};

use crate::pack::{pack_batch, pack_opened, pack_reply};
use batch::calls::batch;
use combining::check::check_event;
use combining::combine::combine;
use event::ask::value_at;
use hashing::calls::{hash, hash_text};
use ontology::tables::check_table;
use opening::calls::open_dossier;
use replies::limits::Limits;
use replies::reply::{Finding, Opened, Refusal};
use report::calls::report;

#[unsafe(no_mangle)]
pub extern "C" fn merger_check_table(table: &[u8]) -> u64
    ensures { result ≡ packed (table_call table.now) }
{
    match check_table(table) {
        Ok(()) => pack_reply(Ok(0)),
        Err(refusal) => pack_reply(Err(refusal)),
    }
}

#[unsafe(no_mangle)]
pub extern "C" fn merger_check_event(table: &[u8], event: &[u8], out: &mut [u8]) -> u64
    ensures value { result ≡ packed (check_call table.now event.now out.old).reply }
    ensures out_after { out.new ≡ (check_call table.now event.now out.old).bytes }
{
    pack_reply(check_event(table, event, out))
}

#[unsafe(no_mangle)]
pub extern "C" fn merger_combine<'a>(
    versions: usize,
    parents: usize,
    objects: usize,
    table: &[u8],
    left: &'a [u8],
    right: &'a [u8],
    out: &mut [u8],
) -> u64
    ensures value { result ≡ packed (combine_call (chosen versions parents objects)
        table.now left.now right.now out.old).reply }
    ensures out_after { out.new ≡ (combine_call (chosen versions parents objects)
        table.now left.now right.now out.old).bytes }
{
    pack_reply(combine(
        Limits {
            versions,
            parents,
            objects,
        },
        table,
        left,
        right,
        out,
    ))
}

// The event version of what opening finds, or what was there before.
fn finding_version(f: Finding, old: u64) -> u64
    ensures { result ≡ version_or (finding_of f) old }
{
    match f {
        Finding::Conflict(version, _) => version.0,
        Finding::Overfull(_) => old,
    }
}

// The event version of a conflict, or what was there before.
fn conflict_version(r: Result<Opened, Refusal>, old: u64) -> u64
    ensures { result ≡ version_after (open_replied r) old }
{
    match r {
        Ok(Opened::Merged(_)) => old,
        Ok(Opened::Found(f)) => finding_version(f, old),
        Err(_) => old,
    }
}

#[unsafe(no_mangle)]
pub extern "C" fn merger_open(
    versions: usize,
    parents: usize,
    objects: usize,
    table: &[u8],
    dossier: &[u8],
    out: &mut [u8],
    version: &mut u64,
) -> u64
    ensures value { result ≡ packed_opened (open_call (chosen versions parents objects)
        table.now dossier.now out.old).reply }
    ensures out_after { out.new ≡ (open_call (chosen versions parents objects)
        table.now dossier.now out.old).bytes }
    ensures version_after { version.new ≡ version_after (open_call (chosen versions parents objects)
        table.now dossier.now out.old).reply version.old }
{
    let limits = Limits {
        versions,
        parents,
        objects,
    };
    let r = open_dossier(limits, table, dossier, out);
    *version = conflict_version(r, *version);
    pack_opened(r)
}

// The start and the length that C reads from the number are a part of the event that has the value's bytes (`Told` of specs/Unpacking, proved in
// proofs/UnpackingLaws).
#[unsafe(no_mangle)]
pub extern "C" fn merger_value(table: &[u8], event: &[u8], place: usize, index: usize) -> u64
    ensures { result ≡ packed_part (value_call table.now event.now place index) }
{
    match value_at(table, event, place, index) {
        Some(x) => (x.end - x.start) as u64 % 268435456 + x.start as u64 % 268435456 * 268435456,
        None => 0,
    }
}

#[unsafe(no_mangle)]
pub extern "C" fn merger_hash_text(table: &[u8], event: &[u8], out: &mut [u8]) -> u64
    ensures value { result ≡ packed (hash_text_call table.now event.now out.old).reply }
    ensures out_after { out.new ≡ (hash_text_call table.now event.now out.old).bytes }
{
    pack_reply(hash_text(table, event, out))
}

#[unsafe(no_mangle)]
pub extern "C" fn merger_hash(table: &[u8], event: &[u8], out: &mut [u8]) -> u64
    ensures value { result ≡ packed (hash_call table.now event.now out.old).reply }
    ensures out_after { out.new ≡ (hash_call table.now event.now out.old).bytes }
{
    pack_reply(hash(table, event, out))
}

#[unsafe(no_mangle)]
pub extern "C" fn merger_batch(
    versions: usize,
    parents: usize,
    objects: usize,
    table: &[u8],
    events: &[u8],
    out: &mut [u8],
    a: &mut [u8],
    b: &mut [u8],
    c: &mut [u8],
) -> u64
    ensures value { result ≡ packed (batch_call (chosen versions parents objects)
        (record { output = length out.old; first = length a.old; second = length b.old; third = length c.old })
        table.now events.now out.old).reply }
    ensures out_after { out.new ≡ (batch_call (chosen versions parents objects)
        (record { output = length out.old; first = length a.old; second = length b.old; third = length c.old })
        table.now events.now out.old).bytes }
{
    pack_batch(batch(
        Limits {
            versions,
            parents,
            objects,
        },
        table,
        events,
        out,
        a,
        b,
        c,
    ))
}

#[unsafe(no_mangle)]
pub extern "C" fn merger_report(input: &[u8], out: &mut [u8]) -> u64
    ensures value { result ≡ packed (report_call input.now out.old).reply }
    ensures out_after { out.new ≡ (report_call input.now out.old).bytes }
{
    pack_reply(report(input, out))
}
