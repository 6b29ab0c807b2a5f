// A line made field after field at the start of a buffer, and shown in a lent buffer.
#![tactic(auto)]

ghost use Rattle.std.specs.Prelude.{◌++◌, ◌+◌, ◌*◌, ◌≤◌, length};
ghost use Rattle.text.specs.Forms.{bytes};
ghost use Rattle.writing.specs.Written.{spelled, decimal};
ghost use Rattle.showing.specs.Fields.{field, fields_on};
ghost use Rattle.showing.specs.Steps.{Goes, GoesOn, Line};
ghost use Rattle.showing.specs.Showing.{Shows};

use tables::Name;
use writing::names::write_name;
use writing::numbers::write_decimal;
use writing::pieces::write_bytes;

// Writes a number's field from a place on, and answers the place past it.
pub fn number_field(out: &mut [u8], at: usize, number: u64) -> usize
    requires { at + 21 ≤ length out.old }
    ensures { Goes (field (decimal number)) 21 at out.old result out.new }
{
    out[at] = b'\t';
    let from = at + 1;
    from + write_decimal(&mut out[from..], number)
}

// Writes a name's field from a place on, in the room that it takes, and answers the place past it.
pub fn name_field(out: &mut [u8], at: usize, name: Name) -> usize
    requires { at + length (field (spelled name)) ≤ length out.old }
    ensures { Goes (field (spelled name)) (length (field (spelled name))) at out.old result out.new }
{
    out[at] = b'\t';
    let from = at + 1;
    from + write_name(&mut out[from..], name)
}

// Writes the field of a word from a place on, and answers the place past it.
pub fn word_field(out: &mut [u8], at: usize, word: &[u8]) -> usize
    requires { (length word.now ≤ 20) × (at + 21 ≤ length out.old) }
    ensures { Goes (field word.now) 21 at out.old result out.new }
{
    out[at] = b'\t';
    let from = at + 1;
    from + write_bytes(&mut out[from..], word)
}

// Writes the field of each number from a place on, and answers the place past them.
fn number_fields(out: &mut [u8], at: usize, numbers: &[u64]) -> usize
    requires { at + 21 * length numbers.now ≤ length out.old }
    ensures { GoesOn numbers.now (21 * length numbers.now) at out.old result out.new }
{
    let mut to = at;
    for number in numbers {
        to = number_field(out, to, *number);
    }
    to
}

// Writes a word and the field of each number at the start of a buffer, and answers the place past them.
pub fn begin_line(out: &mut [u8], word: &[u8], numbers: &[u64]) -> usize
    requires { (length word.now ≤ 20) × (20 + 21 * length numbers.now ≤ length out.old) }
    ensures { Line (fields_on word.now numbers.now) (20 + 21 * length numbers.now) out.old result out.new }
{
    let at = write_bytes(out, word);
    number_fields(out, at, numbers)
}

// Writes the LF, and answers the line's length.
pub fn end_line(out: &mut [u8], at: usize) -> usize
    requires { at + 1 ≤ length out.old }
    ensures { Goes (bytes "\n") 1 at out.old result out.new }
{
    out[at] = b'\n';
    at + 1
}

// Writes the line of a word and numbers at the start of a buffer, and answers its length.
pub fn number_line(out: &mut [u8], word: &[u8], numbers: &[u64]) -> usize
    requires { (length word.now ≤ 20) × (20 + 21 * length numbers.now + 1 ≤ length out.old) }
    ensures { Line (fields_on word.now numbers.now ++ bytes "\n") (20 + 21 * length numbers.now + 1) out.old result out.new }
{
    let at = begin_line(out, word, numbers);
    end_line(out, at)
}

// Puts a line at the start of the buffer, and answers its length; 0 where the buffer is too short.
pub fn show_line(line: &[u8], out: &mut [u8]) -> usize
    ensures { Shows line.now out.old result out.new }
{
    if out.len() < line.len() {
        return 0;
    }
    write_bytes(out, line)
}
