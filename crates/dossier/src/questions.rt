ghost use Rattle.std.specs.Prelude.{ℕ, ◌*◌, ◌≤◌, ◌≡◌, cond, ◌&&◌, ◌||◌, List, length, ltb, eqb, IfSome, IfOk, Some};
ghost use Rattle.std.proofs.Math.Option.{some};
ghost use Rattle.model.specs.Limits.{Permitted};
ghost use Rattle.model.specs.Order.{Text, sets, lists, equal};
ghost use Rattle.model.specs.Rule.{Snapshot};
ghost use Rattle.replies.specs.ChosenLimits.{limits_of};
ghost use Rattle.replies.specs.Replies.{asked_of};
ghost use Rattle.ontology.specs.Table.{EventType, Table, is_versioned, type_named};
ghost use Rattle.ontology.specs.TableLayout.{table_of};
ghost use Rattle.ontology.specs.code.TypeIndex.{PropertiesAre, TypeIs, TypeSays};
ghost use Rattle.event.specs.code.EventIndex.{SetsAre, KindsAre};
ghost use Rattle.event.specs.Agreement.{match_sets};
ghost use Rattle.dossier.specs.DossierLayout.{Headed, dossier_of};
ghost use Rattle.dossier.specs.DossierQuestions.{snapshot_match, dossier_shape, each_snapshot, snapshot_values, dossier_asked, dossiers_agree};
ghost use Rattle.dossier.specs.code.DossierIndex.{SnapshotIs, RowsAre, MasksAre, snapshot_fits, shape_asked, DossierIs, HasRows, DossierReads};
ghost use Rattle.dossier.specs.code.DossierIndex.{dossier_questions, DossierAnswers};

use crate::dossiers::{DossierIndex, read_dossier};
use crate::shape::{ShapeMasks, masks_of, snapshot_fits};
use crate::snapshots::SnapshotNumbers;
use event::agree::is_match_same;
use event::head::{heads_agree, type_name};
use event::spaces::sets_in_space;
use ontology::tables::read_table;
use ontology::types::TypeIndex;
use replies::limits::Limits;
use replies::reply::Refusal;

// Questions 5 and 6 of a snapshot. All snapshots have the match sets of the first.
fn ask_snapshot(
    s: &[u8],
    first: &[usize],
    row: &[usize],
    x: SnapshotNumbers,
    m: ShapeMasks,
    mark: usize,
    limits: Limits,
    count: usize,
    properties: &[usize],
) -> Result<(), Refusal>
    requires { (count ≤ 32) × (length first.now ≡ 96) × (length row.now ≡ 96) × (length properties.now ≡ 96) }
    ensures { (u : List ℕ) (ty : EventType) (xs : List (List Text)) (y : Snapshot) → mark ≡ ty.mark
        → PropertiesAre u ty.properties count properties.now → MasksAre (is_versioned ty) ty.properties m → KindsAre ty
        → SetsAre s.now xs first.now → SnapshotIs s.now y x row.now
        → asked_of result ≡ shape_asked (snapshot_fits (limits_of limits) ty y && equal (lists sets) (match_sets ty.properties xs) (snapshot_match ty y))
        (snapshot_values ty y) }
{
    if !snapshot_fits(s, row, x, m, mark, limits, count, properties) {
        return Err(Refusal::BadShape);
    }
    if !is_match_same(count, properties, s, first, s, row) {
        return Err(Refusal::BadShape);
    }
    if !sets_in_space(s, row, count, properties) {
        return Err(Refusal::BadValue);
    }
    Ok(())
}

// An unversioned dossier has a single snapshot.
fn is_lone(mark: usize, count: usize) -> bool
    ensures { result ≡ (ltb 0 mark || eqb count 1) }
{
    0 < mark || count == 1
}

// Questions 5 and 6 of the dossier s, whose index is d, and whose type is t. Question 6 is asked of a snapshot only where 5 is answered yes of it, but is
// answered after 5 of all.
pub fn ask_snapshots(
    s: &[u8],
    limits: Limits,
    d: DossierIndex,
    rows: &[usize],
    t: TypeIndex,
    properties: &[usize],
) -> Result<(), Refusal>
    requires { (t.count ≤ 32) × (d.count ≤ 8) × (96 * d.count ≤ length rows.now) × (length properties.now ≡ 96) }
    ensures { (u : List ℕ) (ty : EventType) (h : Headed) → TypeIs u ty t properties.now → KindsAre ty
        → DossierIs s.now h d → RowsAre s.now h.snapshots rows.now
        → asked_of result ≡ shape_asked (dossier_shape (limits_of limits) ty h.snapshots) (each_snapshot (snapshot_values ty) h.snapshots) }
{
    if !is_lone(t.mark, d.count) {
        return Err(Refusal::BadShape);
    }
    let m = masks_of(0 < t.mark, t.count, properties);
    let mut answer = Ok(());
    for j in 0..d.count {
        let x = SnapshotNumbers {
            version: d.versions[j],
            differ: d.differs[j],
            objects: d.objects[j],
        };
        let row = &rows[96 * j..96 * j + 96];
        if let Err(refusal) = ask_snapshot(
            s,
            &rows[0..96],
            row,
            x,
            m,
            t.mark,
            limits,
            t.count,
            properties,
        ) {
            if refusal == Refusal::BadShape {
                return Err(refusal);
            }
            answer = Err(refusal);
        }
    }
    answer
}

// Questions 3 to 6 of the dossier s, where it and its type in the table were read: the type and the dossier's index. The table was read for the name of its
// type, and is read once for all dossiers of that type.
pub fn ask_dossier(
    s: &[u8],
    limits: Limits,
    d: Option<DossierIndex>,
    rows: &[usize],
    found: Option<TypeIndex>,
    properties: &[usize],
) -> Result<(TypeIndex, DossierIndex), Refusal>
    requires count_in_bounds { IfSome d (λ (i : DossierIndex). 96 * i.count ≤ length rows.now) × (length properties.now ≡ 96) }
    requires dossier_reads { DossierReads (dossier_of (limits_of limits) s.now) s.now rows.now d × IfSome found (λ (t : TypeIndex). t.count ≤ 32) }
    ensures answers { (table : List ℕ) (ts : Table) → table_of table ≡ some ts
        → ((h : Headed) → dossier_of (limits_of limits) s.now ≡ some h → TypeSays (type_named h.head.type ts) table properties.now found)
        → DossierAnswers (dossier_asked (limits_of limits) ts s.now) table s.now properties.now rows.now result }
    ensures given { IfOk result (λ (x : TypeIndex × DossierIndex). (found ≡ Some x.0) × (d ≡ Some x.1)) }
{
    let index = d.ok_or(Refusal::BadInput)?;
    let t = found.ok_or(Refusal::UnknownType)?;
    ask_snapshots(s, limits, index, rows, t, properties)?;
    Ok((t, index))
}

// A table and a dossier that are read and asked questions 2 to 6: the type, whose properties are lent, and the dossier's index, whose rows are.
pub fn accept(
    table: &[u8],
    s: &[u8],
    limits: Limits,
    properties: &mut [usize],
    rows: &mut [usize],
) -> Result<(TypeIndex, DossierIndex), Refusal>
    requires { Permitted (limits_of limits) × HasRows (limits_of limits) s.now (length rows.old) × (length properties.old ≡ 96) }
    ensures answers { DossierAnswers (dossier_questions (limits_of limits) table.now s.now) table.now s.now
        properties.new rows.new result }
    ensures within { IfOk result (λ (x : TypeIndex × DossierIndex). 96 * x.1.count ≤ length rows.old) }
{
    let found = read_table(table, type_name(s), properties).ok_or(Refusal::BadTable)?;
    let d = read_dossier(s, limits, rows);
    // taken apart, so that the index is copied once
    let (t, index) = ask_dossier(s, limits, d, rows, found, properties)?;
    Ok((t, index))
}

// Question 7: whether two dossiers agree in type, source and match sets. The match sets of a dossier are those of its first snapshot.
pub fn dossiers_agree(
    a: &[u8],
    d: DossierIndex,
    left: &[usize],
    b: &[u8],
    e: DossierIndex,
    right: &[usize],
    count: usize,
    properties: &[usize],
) -> bool
    requires { (count ≤ 32) × (96 ≤ length left.now) × (96 ≤ length right.now) × (length properties.now ≡ 96) }
    ensures { (u : List ℕ) (ty tz : EventType) (h g : Headed) → PropertiesAre u ty.properties count properties.now
        → DossierIs a.now h d → DossierIs b.now g e
        → RowsAre a.now h.snapshots left.now → RowsAre b.now g.snapshots right.now
        → (h.head.type ≡ g.head.type → ty ≡ tz)
        → result ≡ dossiers_agree (record { type = ty; headed = h }) (record { type = tz; headed = g }) }
{
    heads_agree(a, d.head, b, e.head)
        && is_match_same(count, properties, a, &left[0..96], b, &right[0..96])
}
