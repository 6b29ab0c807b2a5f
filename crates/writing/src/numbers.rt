// A number in decimal, put into a lent buffer.
ghost use Rattle.std.specs.Prelude.{◌≡◌, ◌≤◌, length};
ghost use Rattle.writing.specs.Written.{put, decimal};

use crate::pieces::write_bytes;

// Puts a number in decimal at the start of a buffer, and answers how many digits it has.
pub fn write_decimal(out: &mut [u8], n: u64) -> usize
    requires { length (decimal n) ≤ length out.old }
    ensures { (result ≡ length (decimal n)) × (out.new ≡ put (decimal n) out.old) }
{
    let mut digits = [0u8; 20];
    let count = io::decimal(n, &mut digits);
    write_bytes(out, &digits[..count])
}
