// A piece of text that is given as bytes, put into a lent buffer.
ghost use Rattle.std.specs.Prelude.{◌≡◌, ◌≤◌, length};
ghost use Rattle.writing.specs.Written.{put};

// Puts bytes at the start of a buffer, and answers how many there are.
pub fn write_bytes(out: &mut [u8], part: &[u8]) -> usize
    requires { length part.now ≤ length out.old }
    ensures { (result ≡ length part.now) × (out.new ≡ put part.now out.old) }
{
    let length = part.len();
    out[..length].copy_from_slice(part);
    length
}
