// The bytes of a name: how many there are, and putting them into a lent buffer.
ghost use Rattle.std.specs.Prelude.{◌≡◌, ◌≤◌, length};
ghost use Rattle.writing.specs.Written.{put, letters, spelled};

use tables::Name;

// How many bytes a word of a name holds. The loop goes by what is left of the word, as `letters` does; a walk over its eight bytes would have to stop at the last that is not 0.
fn word_length(word: u64) -> usize
    ensures { result ≡ length (letters 8 word) }
{
    let mut rest = word;
    let mut count = 0;
    while 0 < rest {
        rest /= 256;
        count += 1;
    }
    count
}

// How many bytes a name has.
pub fn name_length(name: Name) -> usize
    ensures { result ≡ length (spelled name) }
{
    word_length(name.first)
        + word_length(name.second)
        + word_length(name.third)
        + word_length(name.fourth)
}

// Puts the bytes of a word at the start of a buffer, and answers how many there are. It goes by what is left of the word, as `word_length` does.
fn write_word(out: &mut [u8], word: u64) -> usize
    requires { length (letters 8 word) ≤ length out.old }
    ensures { (result ≡ length (letters 8 word)) × (out.new ≡ put (letters 8 word) out.old) }
{
    let mut rest = word;
    let mut at = 0;
    while 0 < rest {
        out[at] = (rest % 256) as u8;
        rest /= 256;
        at += 1;
    }
    at
}

// Puts a name at the start of a buffer, and answers how many bytes it has.
pub fn write_name(out: &mut [u8], name: Name) -> usize
    requires { length (spelled name) ≤ length out.old }
    ensures { (result ≡ length (spelled name)) × (out.new ≡ put (spelled name) out.old) }
{
    let second = write_word(out, name.first);
    let third = second + write_word(&mut out[second..], name.second);
    let fourth = third + write_word(&mut out[third..], name.third);
    fourth + write_word(&mut out[fourth..], name.fourth)
}
