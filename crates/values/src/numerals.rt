// Numbers in decimal digits: read, compared and written.
ghost use Rattle.std.specs.Prelude.{◌+◌, ◌^◌, ◌≤◌, ◌<◌, ◌≡◌, true, length};
ghost use Rattle.model.specs.Order.{texts, equal};
ghost use Rattle.packed.specs.code.Written.{Wrote};
ghost use Rattle.values.specs.Decimal.{are_digits, numeral, in_decimal};

// The number that digits write.
pub fn numeral_of(v: &[u8]) -> u64
    requires { (are_digits v.now ≡ true) × (numeral v.now < 2 ^ 64) }
    ensures { result ≡ numeral v.now }
{
    let mut n = 0;
    for b in v {
        n = 10 * n + (u64::from(*b) - 48);
    }
    n
}

// Whether v is n in decimal, from the last digit back.
pub fn is_in_decimal(v: &[u8], n: u64) -> bool
    ensures { result ≡ equal texts v.now (in_decimal n) }
{
    if v.is_empty() {
        return false;
    }
    let mut m = n;
    for i in (1..v.len()).rev() {
        if m < 10 || u64::from(v[i]) != 48 + m % 10 {
            return false;
        }
        m /= 10;
    }
    m < 10 && u64::from(v[0]) == 48 + m
}

// A number in decimal: the digits before the last are those of a tenth.
pub fn write_decimal(n: u64, out: &mut [u8], at: usize) -> usize
    requires { at + length (in_decimal n) ≤ length out.old }
    ensures { Wrote out.old at (in_decimal n) out.new result }
{
    if n < 10 {
        out[at] = 48 + n as u8;
        return at + 1;
    }
    let after_tenth = write_decimal(n / 10, out, at);
    out[after_tenth] = 48 + (n % 10) as u8;
    after_tenth + 1
}
