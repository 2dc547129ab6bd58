ghost use Rattle.std.specs.Prelude.{◌*◌, ◌≤◌, ◌≡◌, length, Some, IfOk};
ghost use Rattle.std.proofs.Math.Option.{some};
ghost use Rattle.model.specs.Limits.{Permitted};
ghost use Rattle.replies.specs.Capacities.{dossier_capacity};
ghost use Rattle.replies.specs.ChosenLimits.{limits_of};
ghost use Rattle.replies.specs.Replies.{replies};
ghost use Rattle.ontology.specs.Table.{Table};
ghost use Rattle.ontology.specs.TableLayout.{table_of};
ghost use Rattle.ontology.specs.code.TypeIndex.{TableSays};
ghost use Rattle.dossier.specs.DossierQuestions.{dossier_asked};
ghost use Rattle.dossier.specs.code.DossierIndex.{HasRows};
ghost use Rattle.combining.specs.CombineCall.{combine_call};
ghost use Rattle.combining.specs.code.CombineIndex.{OtherAnswers, CombinableUnder};

use crate::limits::limits_fit;
use crate::write::write_combined;
use dossier::dossiers::{DossierIndex, read_dossier, snapshot_count};
use dossier::questions::{accept, ask_snapshots, dossiers_agree};
use event::head::type_name;
use ontology::tables::read_table;
use ontology::types::TypeIndex;
use packed::order::same;
use replies::capacities::DOSSIER_CAPACITY;
use replies::limits::{Limits, is_permitted};
use replies::reply::Refusal;

// Question 8, and two dossiers of which the others are answered yes, written together at the front of `out`.
fn combine_read<'a>(
    limits: Limits,
    table: &[u8],
    a: &'a [u8],
    d: DossierIndex,
    left: &[usize],
    b: &'a [u8],
    e: DossierIndex,
    right: &[usize],
    t: TypeIndex,
    properties: &[usize],
    out: &mut [u8],
) -> Result<usize, Refusal>
    requires count_in_bounds { (96 * d.count ≤ length left.now) × (96 * e.count ≤ length right.now) × (length properties.now ≡ 96)
        × (dossier_capacity ≤ length out.old) }
    requires combinable_under { CombinableUnder (limits_of limits) table.now a.now d left.now b.now e right.now t properties.now }
    ensures { replies result out.new
        ≡ combine_call (limits_of limits) table.now a.now b.now out.old }
{
    if !limits_fit(limits, a, d, left, b, e, right, t, properties) {
        return Err(Refusal::OverLimits);
    }
    Ok(write_combined(a, d, left, b, e, right, t, properties, out))
}

// Questions 3 to 6 of a dossier. The table was read for a name, and is read again only where the dossier's type has another one.
fn ask_other(
    limits: Limits,
    table: &[u8],
    name: &[u8],
    s: &[u8],
    rows: &mut [usize],
    t: TypeIndex,
    properties: &[usize],
) -> Result<DossierIndex, Refusal>
    requires permitted { Permitted (limits_of limits) × HasRows (limits_of limits) s.now (length rows.old) × (length properties.now ≡ 96) }
    requires says { TableSays (table_of table.now) table.now name.now properties.now (Some (Some t)) }
    ensures answers { (ts : Table) → table_of table.now ≡ some ts → OtherAnswers (dossier_asked (limits_of limits) ts s.now) s.now rows.new result }
    ensures within { IfOk result (λ (e : DossierIndex). 96 * e.count ≤ length rows.old) }
{
    let e = read_dossier(s, limits, rows).ok_or(Refusal::BadInput)?;
    let other = type_name(s);
    if same(name, other) {
        ask_snapshots(s, limits, e, rows, t, properties)?;
        return Ok(e);
    }
    let mut others = [0usize; 96];
    let found = read_table(table, other, &mut others).flatten();
    let u = found.ok_or(Refusal::UnknownType)?;
    ask_snapshots(s, limits, e, rows, u, &others)?;
    Ok(e)
}

// Questions 2 to 8 of two dossiers whose rows are lent, and what they are together, written at the front of `out`.
fn combine_with<'a>(
    limits: Limits,
    table: &[u8],
    a: &'a [u8],
    left: &mut [usize],
    b: &'a [u8],
    right: &mut [usize],
    out: &mut [u8],
) -> Result<usize, Refusal>
    requires permitted { Permitted (limits_of limits) × (dossier_capacity ≤ length out.old) }
    requires has_rows { HasRows (limits_of limits) a.now (length left.old) × HasRows (limits_of limits) b.now (length right.old) }
    ensures { replies result out.new
        ≡ combine_call (limits_of limits) table.now a.now b.now out.old }
{
    let mut properties = [0usize; 96];
    let (t, d) = accept(table, a, limits, &mut properties, left)?;
    let e = ask_other(limits, table, type_name(a), b, right, t, &properties)?;
    if !dossiers_agree(a, d, left, b, e, right, t.count, &properties) {
        return Err(Refusal::Disagreement);
    }
    combine_read(limits, table, a, d, left, b, e, right, t, &properties, out)
}

// The rows of the right dossier are lent: those of one snapshot, or of as many as there can be, since clearing them all takes longer than reading the count.
fn combine_left<'a>(
    limits: Limits,
    table: &[u8],
    a: &'a [u8],
    left: &mut [usize],
    b: &'a [u8],
    out: &mut [u8],
) -> Result<usize, Refusal>
    requires { Permitted (limits_of limits) × HasRows (limits_of limits) a.now (length left.old) × (dossier_capacity ≤ length out.old) }
    ensures { replies result out.new
        ≡ combine_call (limits_of limits) table.now a.now b.now out.old }
{
    if snapshot_count(b, limits) <= 1 {
        let mut one = [0usize; 96];
        return combine_with(limits, table, a, left, b, &mut one, out);
    }
    let mut all = [0usize; 768];
    combine_with(limits, table, a, left, b, &mut all, out)
}

// Two dossiers together, written at the front of `out`. The rows of the left one are lent as those of the right one are.
pub fn combine<'a>(
    limits: Limits,
    table: &[u8],
    a: &'a [u8],
    b: &'a [u8],
    out: &mut [u8],
) -> Result<usize, Refusal>
    ensures { replies result out.new
        ≡ combine_call (limits_of limits) table.now a.now b.now out.old }
{
    if !is_permitted(limits) {
        return Err(Refusal::BadLimits);
    }
    if out.len() < DOSSIER_CAPACITY {
        return Err(Refusal::SmallBuffer);
    }
    if snapshot_count(a, limits) <= 1 {
        let mut one = [0usize; 96];
        return combine_left(limits, table, a, &mut one, b, out);
    }
    let mut all = [0usize; 768];
    combine_left(limits, table, a, &mut all, b, out)
}
