// SHA-1 (FIPS 180-4) of a byte slice. Each function computes the definition of `specs/Fips.antt` that its contract cites.
#![tactic(auto)]

ghost use Rattle.std.specs.Prelude.{◌≡◌, ℕ, ◌+◌, ◌*◌, ◌^◌, ◌<◌, ◌≤◌, List, length, take};
ghost use Rattle.std.proofs.lemmas.List.Edits.{sets};
ghost use Rattle.fips180.specs.Fips.{HashValue, f, K, padded, block, schedule, round, rounds, sum, compressed, digest, sha1_of};
ghost use Rattle.fips180.specs.code.StateWords.{words_of};

// Five words: the hash value, and the working variables.
#[derive(Clone, Copy)]
pub struct State {
    pub a: u32,
    pub b: u32,
    pub c: u32,
    pub d: u32,
    pub e: u32,
}

// The function f of round `t`: Ch in the first twenty rounds, Maj in the third, Parity in the others. Ch is written with three
// operations in place of four, for speed.
#[tactic(auto, using(crate::proofs::Laws::Ch_chosen), unfolding(crate::specs::Fips::f, crate::specs::Fips::Parity, crate::specs::Fips::Maj))]
fn mix(t: usize, x: u32, y: u32, z: u32) -> u32
    ensures { result ≡ f t x y z }
{
    match t {
        0..20 => z ^ (x & (y ^ z)),
        40..60 => (x & y) ^ (x & z) ^ (y & z),
        _ => x ^ y ^ z,
    }
}

// The constant K of round `t`.
#[tactic(auto, unfolding(crate::specs::Fips::K))]
fn constant(t: usize) -> u32
    ensures { result ≡ K t }
{
    match t {
        0..20 => 0x5a82_7999,
        20..40 => 0x6ed9_eba1,
        40..60 => 0x8f1b_bcdc,
        _ => 0xca62_c1d6,
    }
}

// Round `t` with the word `w`. The rotated `a`, which the round before makes last, is added last.
#[tactic(auto, using(crate::proofs::Laws::sum_order), unfolding(crate::specs::Fips::round, crate::specs::Fips::plus, crate::specs::Fips::ROTL))]
fn round_of(t: usize, w: u32, s: State) -> State
    ensures { words_of result ≡ round t w (words_of s) }
{
    State {
        a: s.e
            .wrapping_add(constant(t))
            .wrapping_add(w)
            .wrapping_add(mix(t, s.b, s.c, s.d))
            .wrapping_add(s.a.rotate_left(5)),
        b: s.a,
        c: s.b.rotate_left(30),
        d: s.c,
        e: s.d,
    }
}

// Block `i` of the padded message, which ends past the message: what is left of the message, the byte 0x80 after it, and in the
// last block the length in bits.
fn padded_block(message: &[u8], i: usize) -> [u8; 64]
    requires { (length message.now < 2 ^ 61) × (64 * i + 64 ≤ length (padded message.now)) × (length message.now < 64 * i + 64) }
    ensures { result ≡ block (padded message.now) i }
{
    let n = message.len();
    let start = 64 * i;
    let mut m = [0u8; 64];
    if start <= n {
        m[..n - start].copy_from_slice(&message[start..]);
        m[n - start] = 0x80;
    }
    if n < start + 56 {
        m[56..].copy_from_slice(&(8 * n as u64).to_be_bytes());
    }
    m
}

// Writes the first 16 words of the message schedule of the block `m`, which are the block's own.
fn block_words(m: &[u8], w: &mut [u32; 80])
    requires { length m.now ≡ 64 }
    ensures { take 16 w.new ≡ schedule m.now 16 }
{
    for t in 0..16 {
        w[t] = u32::from_be_bytes([m[4 * t], m[4 * t + 1], m[4 * t + 2], m[4 * t + 3]]);
    }
}

// Continues the message schedule from word `from` to word `to`: what held its words below `from` now holds those below `to`.
#[tactic(auto, using(crate::proofs::Laws::schedule_high), unfolding(crate::specs::Fips::ROTL))]
fn extend(w: &mut [u32; 80], from: usize, to: usize)
    requires { (16 ≤ from) × (from ≤ to) × (to ≤ 80) }
    ensures { (m : List ℕ) → take from w.old ≡ schedule m from → take to w.new ≡ schedule m to }
{
    for t in from..to {
        w[t] = (w[t - 3] ^ w[t - 8] ^ w[t - 14] ^ w[t - 16]).rotate_left(1);
    }
}

// Twenty rounds, from round `from` on, with the words of the message schedule `ws` of which `w` holds those below `from + 20`:
// what was the state after the rounds below `from` becomes that after the rounds below `from + 20`. Each call has a constant
// `from`, so that the compiler knows which function its rounds take.
fn twenty(w: &[u32; 80], from: usize, s: State) -> State
    requires { from + 20 ≤ 80 }
    ensures { (ws : List ℕ) (h : HashValue) → take (from + 20) w.now ≡ take (from + 20) ws
        → words_of s ≡ rounds ws from h → words_of result ≡ rounds ws (from + 20) h }
{
    let mut r = s;
    for t in from..from + 20 {
        r = round_of(t, w[t], r);
    }
    r
}

// The hash value `s` before a block and the working variables `r` after its rounds, added.
#[tactic(auto, unfolding(crate::specs::Fips::sum, crate::specs::Fips::plus))]
fn sum_of(s: State, r: State) -> State
    ensures { words_of result ≡ sum (words_of s) (words_of r) }
{
    State {
        a: r.a.wrapping_add(s.a),
        b: r.b.wrapping_add(s.b),
        c: r.c.wrapping_add(s.c),
        d: r.d.wrapping_add(s.d),
        e: r.e.wrapping_add(s.e),
    }
}

// The hash value after the block `m`, from the hash value `s` before it. The schedule is written in parts between the
// rounds: the processor then works on both at once.
fn compress(m: &[u8], s: State) -> State
    requires { length m.now ≡ 64 }
    ensures { words_of result ≡ compressed m.now (words_of s) }
{
    let mut w = [0u32; 80];
    block_words(m, &mut w);
    extend(&mut w, 16, 20);
    let r = twenty(&w, 0, s);
    extend(&mut w, 20, 40);
    let r = twenty(&w, 20, r);
    extend(&mut w, 40, 60);
    let r = twenty(&w, 40, r);
    extend(&mut w, 60, 80);
    let r = twenty(&w, 60, r);
    sum_of(s, r)
}

// The hash value after block `i` of the padded message, from the hash value `s` before it. A block that lies in the message is
// read there.
fn add_block(message: &[u8], i: usize, s: State) -> State
    requires { (length message.now < 2 ^ 61) × (64 * i + 64 ≤ length (padded message.now)) }
    ensures { words_of result ≡ compressed (block (padded message.now) i) (words_of s) }
{
    let start = 64 * i;
    let end = start + 64;
    if end <= message.len() {
        compress(&message[start..end], s)
    } else {
        compress(&padded_block(message, i), s)
    }
}

// The hash value as bytes.
fn digest_of(s: State) -> [u8; 20]
    ensures { result ≡ digest (words_of s) }
{
    let mut d = [0u8; 20];
    d[..4].copy_from_slice(&s.a.to_be_bytes());
    d[4..8].copy_from_slice(&s.b.to_be_bytes());
    d[8..12].copy_from_slice(&s.c.to_be_bytes());
    d[12..16].copy_from_slice(&s.d.to_be_bytes());
    d[16..].copy_from_slice(&s.e.to_be_bytes());
    d
}

// SHA-1 of `message`.
pub fn sha1(message: &[u8]) -> [u8; 20]
    requires { length message.now < 2 ^ 61 }
    ensures { result ≡ sha1_of message.now }
{
    // the message, the byte 0x80 and eight bytes of length, up to whole blocks
    let blocks = (message.len() + 9).div_ceil(64);
    let mut s = State {
        a: 0x6745_2301,
        b: 0xefcd_ab89,
        c: 0x98ba_dcfe,
        d: 0x1032_5476,
        e: 0xc3d2_e1f0,
    };
    for i in 0..blocks {
        s = add_block(message, i, s);
    }
    digest_of(s)
}

// Writes SHA-1 of `message` to the 20 bytes of `out` from `at` on.
pub fn write_digest(message: &[u8], out: &mut [u8], at: usize)
    requires { (length message.now < 2 ^ 61) × (at + 20 ≤ length out.old) }
    ensures { out.new ≡ sets out.old at (sha1_of message.now) }
{
    out[at..at + 20].copy_from_slice(&sha1(message));
}
