ghost use Rattle.std.specs.Prelude.{◌≡◌, ◌+◌, ◌*◌, ◌^◌, ◌<◌, ◌≤◌, length};
ghost use Rattle.table.specs.Bits.{bit_at, field};

// Bit `at` of the bytes, the most significant bit of each byte first.
fn bit_at(bytes: &[u8], at: usize) -> u8
    requires { at < 8 * length bytes.now }
    ensures is { result ≡ bit_at bytes.now at }
    ensures bit { result < 2 }
{
    (bytes[at / 8] >> (7 - at % 8)) % 2
}

// The number in the `width` bits of the bytes from bit `at` on, which a type of so many bits holds.
pub(crate) fn read_field(bytes: &[u8], at: usize, width: usize) -> u32
    requires near { at < 65536 }
    requires narrow { width ≤ 28 }
    requires within { at + width ≤ 8 * length bytes.now }
    ensures is { result ≡ field bytes.now at width }
    ensures fits { result < 2 ^ width }
{
    (at..at + width).fold(0, |value, i| value << 1 | u32::from(bit_at(bytes, i)))
}
