// What a line of `sum` or `merge` speaks of: a text or a judging, by its words; and the line shown with it.
#![tactic(auto)]

ghost use Rattle.std.specs.Prelude.{◌++◌, ◌+◌, ◌≤◌, length, map};
ghost use Rattle.std.specs.List.{All};
ghost use Rattle.text.specs.Forms.{bytes};
ghost use Rattle.writing.specs.Written.{decimal};
ghost use Rattle.showing.specs.Fields.{field, fields_on};
ghost use Rattle.showing.specs.Showing.{Shows};
ghost use Rattle.showing.specs.Steps.{Goes};
ghost use Rattle.printing.specs.Line.{part_text};
ghost use Rattle.wording.specs.declared.Mention.{Mention};
ghost use Rattle.wording.specs.Mentions.{nth_field, mention_field};

use judging::Part;
use printing::begin_unproved;
use showing::{begin_line, end_line, show_line, word_field};

// What a line speaks of: a text of a sum, a text of a merge, or a judging of a merge.
#[derive(Clone, Copy)]
pub enum Mention {
    SumText,
    MergeText,
    Judging,
}

// Writes the field of one of some words by its number from 1, and answers the place past it; none for another number. A number stays one
// with 0 for none, and no option: it is what the answers of `sum` and `merge` carry.
fn nth_field(out: &mut [u8], at: usize, which: usize, words: &[&[u8]]) -> usize
    requires short { All (λ word. length word ≤ 20) (map (λ word. word.now) words.now) }
    requires room { at + 21 ≤ length out.old }
    ensures { Goes (nth_field which (map (λ word. word.now) words.now)) 21 at out.old result out.new }
{
    let Some(place) = which.checked_sub(1) else {
        return at;
    };
    match words.get(place) {
        Some(word) => word_field(out, at, word),
        None => at,
    }
}

// Writes the field of what a line speaks of, and answers the place past it.
fn mention_field(out: &mut [u8], at: usize, mention: Mention, which: usize) -> usize
    requires { at + 21 ≤ length out.old }
    ensures { Goes (mention_field mention which) 21 at out.old result out.new }
{
    let words: [&[u8]; 4] = match mention {
        Mention::SumText => [b"policy", b"typing_1", b"typing_2", b""],
        Mention::MergeText => [b"policy_1", b"typing_1", b"policy_2", b"typing_2"],
        Mention::Judging => [
            b"typing_1\tpolicy_1",
            b"typing_2\tpolicy_2",
            b"typing_1\trules_2",
            b"typing_2\trules_1",
        ],
    };
    nth_field(out, at, which, &words)
}

// Ends a line with the field of what it speaks of, and answers the line's length.
fn end_with(out: &mut [u8], at: usize, mention: Mention, which: usize) -> usize
    requires { at + 22 ≤ length out.old }
    ensures { Goes (mention_field mention which ++ bytes "\n") 22 at out.old result out.new }
{
    let last = mention_field(out, at, mention, which);
    end_line(out, last)
}

// Shows the line of a word, numbers and what it speaks of, and answers its length; 0 where the buffer is too short.
pub fn show(line: &mut [u8], word: &[u8], numbers: &[u64], mention: Mention, which: usize) -> usize
    requires { (length word.now ≤ 20) × (length numbers.now ≤ 6) }
    ensures { Shows (fields_on word.now numbers.now ++ mention_field mention which ++ bytes "\n") line.old result line.new }
{
    let mut made = [0u8; 192];
    let at = begin_line(&mut made, word, numbers);
    let length = end_with(&mut made, at, mention, which);
    show_line(&made[..length], line)
}

// Shows the line of a judging that fails, and answers its length; 0 where the buffer is too short.
pub fn show_unproved(line: &mut [u8], which: usize, part: Part, number: usize) -> usize
    ensures { Shows (bytes "UNPROVED" ++ field (part_text part) ++ field (decimal number) ++ mention_field Mention.Judging which ++ bytes "\n") line.old result line.new }
{
    let mut made = [0u8; 192];
    let at = begin_unproved(&mut made, part, number);
    let length = end_with(&mut made, at, Mention::Judging, which);
    show_line(&made[..length], line)
}
