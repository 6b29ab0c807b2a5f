// A typing written where its text fits, and nothing where it does not.
ghost use Rattle.std.specs.Prelude.{◌≤◌, length};
ghost use Rattle.tables.specs.Listed.{rows_of};
ghost use Rattle.spelling.specs.TypingText.{typing_text};
ghost use Rattle.summing.specs.Outcome.{Meets, fitting};

use model::Typing;
use spelling::{text_length, write_typing};
use tables::Names;

// The length of the typing's text, which stands in the buffer then; none where the text is longer than the buffer or than
// 32,768 bytes, and nothing is written.
pub fn write_fitting(out: &mut [u8], roles: Names, t: Typing) -> Option<usize>
    requires { roles.count ≤ 128 }
    ensures { Meets (fitting (length out.old) (typing_text (rows_of roles.entry) t)) out.old result out.new }
{
    let length = text_length(roles, t);
    if out.len() < length {
        return None;
    }
    if 32768 < length {
        return None;
    }
    Some(write_typing(out, roles, t))
}
