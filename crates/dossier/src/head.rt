// The head of a dossier. What a dossier begins with is known here alone.
ghost use Rattle.std.specs.Prelude.{length};
ghost use Rattle.model.specs.Limits.{Permitted};
ghost use Rattle.replies.specs.ChosenLimits.{limits_of};
ghost use Rattle.packed.specs.code.Written.{Wrote};
ghost use Rattle.event.specs.Head.{Head};
ghost use Rattle.event.specs.code.EventIndex.{HeadParts};
ghost use Rattle.dossier.specs.DossierHead.{read_dossier_head, dossier_head_bytes};
ghost use Rattle.dossier.specs.code.DossierIndex.{DossierHeadReads, HeadEnds, DossierHeadRoom};

use event::head::{HeadAt, read_head, write_head};
use packed::read::{read_text, read_within};
use replies::limits::Limits;

// Where the head's parts stand, and the position after it.
pub fn read_dossier_head(s: &[u8], limits: Limits) -> Option<(HeadAt, usize)>
    ensures { DossierHeadReads (read_dossier_head (limits_of limits) s.now) s.now result }
{
    let head = read_head(s, limits.parents)?;
    Some((head, head.parents.end))
}

// Where a dossier's head ends; some position where there is none. Only what tells this is read, since all is read and checked with the dossier.
pub fn dossier_head_end(s: &[u8], limits: Limits) -> usize
    requires { Permitted (limits_of limits) }
    ensures { HeadEnds (limits_of limits) s.now result }
{
    let Some(name) = read_text(s, 0) else {
        return 0;
    };
    let Some(source) = read_text(s, name.end) else {
        return 0;
    };
    let Some((number, after_count)) = read_within(s, source.end, 0, limits.parents as u64) else {
        return 0;
    };
    let size = 20 * number as usize;
    if s.len() - after_count < size {
        return 0;
    }
    after_count + size
}

// Writes a dossier's head at the front of `out`: the type name, the source, and the hashes of the parents, which stand one after the other.
pub fn write_dossier_head(name: &[u8], source: &[u8], hashes: &[u8], out: &mut [u8]) -> usize
    requires { DossierHeadRoom name.now source.now hashes.now (length out.old) }
    ensures { (h : Head) → HeadParts name.now source.now hashes.now h
        → Wrote out.old 0 (dossier_head_bytes h) out.new result }
{
    write_head(name, source, hashes, out, 0)
}
