// The numbers that replies are packed into.
ghost use Rattle.std.specs.Prelude.{◌≡◌};
ghost use Rattle.replies.specs.Replies.{replied, finding_of, open_replied, batch_replied};
ghost use Rattle.interface.specs.Packing.{low, packed_refusal, packed_finding, packed, packed_opened};

use replies::reply::{BatchRefusal, Finding, Opened, Refusal};

// The lowest 32 bits.
fn low_bits(n: u64) -> u64
    ensures { result ≡ low n }
{
    n % 4294967296
}

// A refusal by a number: the kind 4, the number of the question, and the position of the event that was asked.
pub fn pack_refusal(number: u8, position: usize) -> u64
    ensures { result ≡ packed_refusal number position }
{
    288230376151711744 + (position as u64 % 16777216 * 256 + number as u64)
}

// A call that is done or refused.
pub fn pack_reply(r: Result<usize, Refusal>) -> u64
    ensures { result ≡ packed (replied r) }
{
    match r {
        Ok(n) => low_bits(n as u64),
        Err(refusal) => pack_refusal(refusal.number(), 0),
    }
}

// A batch that is done or refused.
pub fn pack_batch(r: Result<usize, BatchRefusal>) -> u64
    ensures { result ≡ packed (batch_replied r) }
{
    match r {
        Ok(n) => low_bits(n as u64),
        Err(b) => pack_refusal(b.refusal.number(), b.position),
    }
}

// What opening finds in place of a merged event: the kinds 2 conflict, 3 overfull.
fn pack_finding(f: Finding) -> u64
    ensures { result ≡ packed_finding (finding_of f) }
{
    match f {
        Finding::Conflict(_, place) => 144115188075855872 + low_bits(place as u64),
        Finding::Overfull(place) => 216172782113783808 + low_bits(place as u64),
    }
}

// What a dossier opens as: the kinds 1 merged, 2 and 3 what is found, 4 refused.
pub fn pack_opened(r: Result<Opened, Refusal>) -> u64
    ensures { result ≡ packed_opened (open_replied r) }
{
    match r {
        Ok(Opened::Merged(n)) => 72057594037927936 + low_bits(n as u64),
        Ok(Opened::Found(f)) => pack_finding(f),
        Err(refusal) => pack_refusal(refusal.number(), 0),
    }
}
