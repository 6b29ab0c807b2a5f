// Files and arguments put into lent buffers.
#![tactic(auto)]

ghost use Rattle.std.specs.Prelude.{IfOk, IfSome};
ghost use Rattle.io.specs.Counts.{IsPrefixLen};

use std::fs::File;
use std::io;
use std::io::Read;
use std::rt::{Env, Files};

// Reads from an open file up to its end or the buffer's, and answers how many bytes of it stand at the start of the buffer. It goes by what
// each read says.
fn load_open(file: &mut impl Read, buffer: &mut [u8]) -> io::Result<usize>
    ensures { IfOk result (λ count. IsPrefixLen count buffer.new) }
{
    let end = buffer.len();
    let mut count = 0;
    while count < end {
        match file.read(&mut buffer[count..])? {
            0 => break,
            more => count += more,
        }
    }
    Ok(count)
}

// Reads the file of a name, up to its end or the buffer's, and answers how many bytes of it stand at the start of the buffer; none
// where it can't be read. A name that is not UTF-8 is that of no file that can be read.
pub fn load(rt: &impl Files, name: &[u8], buffer: &mut [u8]) -> Option<usize>
    ensures { IfSome result (λ count. IsPrefixLen count buffer.new) }
{
    let path = str::from_utf8(name).ok()?;
    let mut file = File::open(rt, path).ok()?;
    load_open(&mut file, buffer).ok()
}

// Puts an argument into the buffer, and answers how many bytes there are. One that is missing, or longer than the buffer, is the empty
// word to every program here, so it has 0.
pub fn argument(rt: &impl Env, place: usize, buffer: &mut [u8]) -> usize
    ensures { IsPrefixLen result buffer.new }
{
    rt.arg(place, buffer).unwrap_or(0)
}

// Puts the file that an argument names into the buffer, and answers how many bytes there are. One that can't be read is the empty text
// to every program that asks, so it has 0.
pub fn load_argument(rt: &(impl Env + Files), place: usize, buffer: &mut [u8]) -> usize
    ensures { IsPrefixLen result buffer.new }
{
    let mut name = [0u8; 64];
    let length = argument(rt, place, &mut name);
    load(rt, &name[..length], buffer).unwrap_or(0)
}
