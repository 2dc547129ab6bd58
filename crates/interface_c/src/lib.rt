// The static library that programs in C and Rust link: each call of the crate interface under its name for C. What it asks and answers is said in
// include/merger.h.
#![tactic(auto)]

ghost use Rattle.std.specs.Prelude.{◌≡◌, length};
ghost use Rattle.ontology.specs.TableCall.{table_call};
ghost use Rattle.event.specs.Value.{value_call};
ghost use Rattle.hashing.specs.HashCalls.{hash_text_call, hash_call};
ghost use Rattle.combining.specs.CheckCall.{check_call};
ghost use Rattle.combining.specs.CombineCall.{combine_call};
ghost use Rattle.opening.specs.OpenCall.{open_call};
ghost use Rattle.batch.specs.Batch.{batch_call};
ghost use Rattle.report.specs.Report.{report_call};
ghost use Rattle.interface.specs.Packing.{chosen, packed, packed_opened, version_after, packed_part};

use interface::calls;

#[unsafe(no_mangle)]
pub extern "C" fn merger_check_table(table: &[u8]) -> u64
    ensures { result ≡ packed (table_call table.now) }
{
    calls::merger_check_table(table)
}

#[unsafe(no_mangle)]
pub extern "C" fn merger_check_event(table: &[u8], event: &[u8], out: &mut [u8]) -> u64
    ensures value { result ≡ packed (check_call table.now event.now out.old).reply }
    ensures out_after { out.new ≡ (check_call table.now event.now out.old).bytes }
{
    calls::merger_check_event(table, event, out)
}

#[unsafe(no_mangle)]
pub extern "C" fn merger_combine<'a>(
    versions: usize,
    parents: usize,
    objects: usize,
    table: &[u8],
    left: &'a [u8],
    right: &'a [u8],
    out: &mut [u8],
) -> u64
    ensures value { result ≡ packed (combine_call (chosen versions parents objects)
        table.now left.now right.now out.old).reply }
    ensures out_after { out.new ≡ (combine_call (chosen versions parents objects)
        table.now left.now right.now out.old).bytes }
{
    calls::merger_combine(versions, parents, objects, table, left, right, out)
}

#[unsafe(no_mangle)]
pub extern "C" fn merger_open(
    versions: usize,
    parents: usize,
    objects: usize,
    table: &[u8],
    dossier: &[u8],
    out: &mut [u8],
    version: &mut u64,
) -> u64
    ensures value { result ≡ packed_opened (open_call (chosen versions parents objects)
        table.now dossier.now out.old).reply }
    ensures out_after { out.new ≡ (open_call (chosen versions parents objects)
        table.now dossier.now out.old).bytes }
    ensures version_after { version.new ≡ version_after (open_call (chosen versions parents objects)
        table.now dossier.now out.old).reply version.old }
{
    calls::merger_open(versions, parents, objects, table, dossier, out, version)
}

#[unsafe(no_mangle)]
pub extern "C" fn merger_value(table: &[u8], event: &[u8], place: usize, index: usize) -> u64
    ensures { result ≡ packed_part (value_call table.now event.now place index) }
{
    calls::merger_value(table, event, place, index)
}

#[unsafe(no_mangle)]
pub extern "C" fn merger_hash_text(table: &[u8], event: &[u8], out: &mut [u8]) -> u64
    ensures value { result ≡ packed (hash_text_call table.now event.now out.old).reply }
    ensures out_after { out.new ≡ (hash_text_call table.now event.now out.old).bytes }
{
    calls::merger_hash_text(table, event, out)
}

#[unsafe(no_mangle)]
pub extern "C" fn merger_hash(table: &[u8], event: &[u8], out: &mut [u8]) -> u64
    ensures value { result ≡ packed (hash_call table.now event.now out.old).reply }
    ensures out_after { out.new ≡ (hash_call table.now event.now out.old).bytes }
{
    calls::merger_hash(table, event, out)
}

#[unsafe(no_mangle)]
pub extern "C" fn merger_batch(
    versions: usize,
    parents: usize,
    objects: usize,
    table: &[u8],
    events: &[u8],
    out: &mut [u8],
    a: &mut [u8],
    b: &mut [u8],
    c: &mut [u8],
) -> u64
    ensures value { result ≡ packed (batch_call (chosen versions parents objects)
        (record { output = length out.old; first = length a.old; second = length b.old; third = length c.old })
        table.now events.now out.old).reply }
    ensures out_after { out.new ≡ (batch_call (chosen versions parents objects)
        (record { output = length out.old; first = length a.old; second = length b.old; third = length c.old })
        table.now events.now out.old).bytes }
{
    calls::merger_batch(versions, parents, objects, table, events, out, a, b, c)
}

#[unsafe(no_mangle)]
pub extern "C" fn merger_report(input: &[u8], out: &mut [u8]) -> u64
    ensures value { result ≡ packed (report_call input.now out.old).reply }
    ensures out_after { out.new ≡ (report_call input.now out.old).bytes }
{
    calls::merger_report(input, out)
}
