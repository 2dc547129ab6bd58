ghost use Rattle.std.specs.Prelude.{◌≡◌, map};
ghost use Rattle.event.specs.EventLayout.{bit_number};
ghost use Rattle.event.specs.code.EventIndex.{bit_of};

// A presence or differ number, from its highest bit on.
pub fn number_of(bits: [bool; 32]) -> u64
    ensures { result ≡ bit_number (map bit_of bits) }
{
    let mut n = 0;
    for k in (0..32).rev() {
        n = 2 * n + u64::from(bits[k]);
    }
    n
}
