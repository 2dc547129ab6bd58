ghost use Rattle.std.specs.Prelude.{◌*◌, ◌≤◌, ◌≡◌, length, Ok};
ghost use Rattle.model.specs.Limits.{Permitted};
ghost use Rattle.model.specs.Sets.{up_to};
ghost use Rattle.model.specs.Opening.{no_conflict, conflict, opening};
ghost use Rattle.replies.specs.Answers.{outcome};
ghost use Rattle.replies.specs.Capacities.{dossier_capacity};
ghost use Rattle.replies.specs.ChosenLimits.{limits_of};
ghost use Rattle.replies.specs.Replies.{open_replies};
ghost use Rattle.event.specs.Event.{type_view};
ghost use Rattle.dossier.specs.DossierLayout.{model_of};
ghost use Rattle.dossier.specs.code.DossierIndex.{HasRows};
ghost use Rattle.opening.specs.OpenCall.{opened_answer, open_call};
ghost use Rattle.opening.specs.code.OpenIndex.{Openable};

use crate::conflict::find_conflict;
use crate::merge::{find_overfull, plan_sets};
use crate::write::write_event;
use dossier::dossiers::{DossierIndex, snapshot_count};
use dossier::questions::accept;
use ontology::types::TypeIndex;
use replies::capacities::DOSSIER_CAPACITY;
use replies::limits::{Limits, is_permitted};
use replies::reply::{Finding, Opened, Refusal};

// Without a conflict. Which place is overfull is known before the first byte is written.
fn open_merged(
    s: &[u8],
    d: DossierIndex,
    rows: &[usize],
    t: TypeIndex,
    properties: &[usize],
    out: &mut [u8],
) -> Opened
    requires count_in_bounds { (96 * d.count ≤ length rows.now) × (length properties.now ≡ 96) × (dossier_capacity ≤ length out.old) }
    requires openable { Openable s.now d rows.now t properties.now }
    ensures { (o : Openable s.now d rows.now t properties.now)
        → conflict (up_to 32) o.headed.snapshots ≡ no_conflict
        → open_replies (Ok result) out.new
        ≡ outcome (opened_answer o.headed (opening (type_view o.type) (model_of o.headed))) out.old }
{
    let mut plan = [0usize; 128];
    plan_sets(s, rows, d.count, t.count, t.mark, properties, &mut plan);
    match find_overfull(t.count, properties, &plan) {
        Some(place) => Opened::Found(Finding::Overfull(place)),
        None => Opened::Merged(write_event(s, d, rows, t.count, &plan, out)),
    }
}

// A dossier that was asked its questions.
fn open_asked(
    s: &[u8],
    d: DossierIndex,
    rows: &[usize],
    t: TypeIndex,
    properties: &[usize],
    out: &mut [u8],
) -> Opened
    requires count_in_bounds { (96 * d.count ≤ length rows.now) × (length properties.now ≡ 96) × (dossier_capacity ≤ length out.old) }
    requires openable { Openable s.now d rows.now t properties.now }
    ensures { (o : Openable s.now d rows.now t properties.now)
        → open_replies (Ok result) out.new
        ≡ outcome (opened_answer o.headed (opening (type_view o.type) (model_of o.headed))) out.old }
{
    match find_conflict(d) {
        Some((version, place)) => Opened::Found(Finding::Conflict(version, place)),
        None => open_merged(s, d, rows, t, properties, out),
    }
}

// Questions 2 to 6 of a dossier whose rows are lent, and what it opens as.
fn open_with(
    limits: Limits,
    table: &[u8],
    dossier: &[u8],
    rows: &mut [usize],
    out: &mut [u8],
) -> Result<Opened, Refusal>
    requires { Permitted (limits_of limits) × HasRows (limits_of limits) dossier.now (length rows.old) × (dossier_capacity ≤ length out.old) }
    ensures { open_replies result out.new ≡ open_call (limits_of limits) table.now dossier.now out.old }
{
    let mut properties = [0usize; 96];
    let (t, d) = accept(table, dossier, limits, &mut properties, rows)?;
    Ok(open_asked(dossier, d, rows, t, &properties, out))
}

// The merged event of a dossier, written at the front of `out`. The rows of one snapshot are lent, or of as many as there can be, since clearing them all takes
// longer than reading the count.
pub fn open_dossier(
    limits: Limits,
    table: &[u8],
    dossier: &[u8],
    out: &mut [u8],
) -> Result<Opened, Refusal>
    ensures { open_replies result out.new ≡ open_call (limits_of limits) table.now dossier.now out.old }
{
    if !is_permitted(limits) {
        return Err(Refusal::BadLimits);
    }
    if out.len() < DOSSIER_CAPACITY {
        return Err(Refusal::SmallBuffer);
    }
    if snapshot_count(dossier, limits) <= 1 {
        let mut one = [0usize; 96];
        return open_with(limits, table, dossier, &mut one, out);
    }
    let mut all = [0usize; 768];
    open_with(limits, table, dossier, &mut all, out)
}
