ghost use Rattle.std.specs.Prelude.{◌≡◌};
ghost use Rattle.replies.specs.Replies.{replies};
ghost use Rattle.hashing.specs.HashCalls.{hash_text_call, hash_call};

use crate::text::write_hash_text;
use event::ask::accept;
use event::read::EventCounts;
use fips180::write_digest;
use replies::capacities::{HASH_CAPACITY, HASH_TEXT_CAPACITY};
use replies::reply::Refusal;

// The hash text of an event, written at the front of `out`.
pub fn hash_text(table: &[u8], event: &[u8], out: &mut [u8]) -> Result<usize, Refusal>
    ensures { replies result out.new ≡ hash_text_call table.now event.now out.old }
{
    if out.len() < HASH_TEXT_CAPACITY {
        return Err(Refusal::SmallBuffer);
    }
    let mut properties = [0usize; 96];
    let mut sets = [0usize; 96];
    let (t, e) = accept(table, event, EventCounts::Wide, &mut properties, &mut sets)?;
    Ok(write_hash_text(table, event, t, &properties, e, &sets, out))
}

// The hash of an event, SHA-1 of its hash text, written at the front of `out`.
pub fn hash(table: &[u8], event: &[u8], out: &mut [u8]) -> Result<usize, Refusal>
    ensures { replies result out.new ≡ hash_call table.now event.now out.old }
{
    if out.len() < HASH_CAPACITY {
        return Err(Refusal::SmallBuffer);
    }
    let mut text = [0u8; HASH_TEXT_CAPACITY];
    let n = hash_text(table, event, &mut text)?;
    write_digest(&text[..n], out, 0);
    Ok(HASH_CAPACITY)
}
