//! Lines that are continued: a comma stands in column 1 of the next line that is no comment.

ghost use Rattle.std.specs.Prelude.{◌≡◌, ◌&&◌, ◌∷◌, []};
ghost use Rattle.s66_line.specs.{lines_from};
ghost use Rattle.s66_source.specs.{is_continued};

use crate::lines::cut_line;
use s66_line::{body_of, is_comment_line, is_continuation};

/// Whether the first line of a text that is no comment has a comma in column 1.
fn begins_continued(text: &[u8]) -> bool
    ensures { result ≡ is_continued (lines_from [] text.now) }
{
    let mut rest = text;
    while let Some((line, more)) = cut_line(rest) {
        if !is_comment_line(body_of(line)) {
            return is_continuation(line);
        }
        rest = more;
    }
    false
}

/// Whether a line is continued by the text after it, if `here` tells this of the line before: what follows a comment is told from what
/// it stands between, so that each comment is passed once. It is asked with `--cut` alone.
pub fn is_continued(cut: bool, here: bool, line: &[u8], more: &[u8]) -> bool
    requires { (cut && here) ≡ (cut && is_continued (line.now ∷ lines_from [] more.now)) }
    ensures { (cut && result) ≡ (cut && is_continued (lines_from [] more.now)) }
{
    if !cut || is_comment_line(body_of(line)) {
        here
    } else {
        begins_continued(more)
    }
}

/// Whether the lines of a text begin with one that continues another, before which a comment may stand.
pub fn is_continued_at_first(cut: bool, text: &[u8]) -> bool
    ensures { (cut && result) ≡ (cut && is_continued (lines_from [] text.now)) }
{
    cut && begins_continued(text)
}
