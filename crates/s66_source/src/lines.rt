//! The first line of a text cut off at its newline (`cut_line`), by which all readers of sources go on.

ghost use Rattle.std.specs.Prelude.{◌≡◌, ◌<◌, [], ◌∷◌, IfSome, IfNone, length};
ghost use Rattle.s66_line.specs.{lines_from};

use memchr::memchr;

/// The first line of a text, without its newline, and the text after it; None if the text is empty. The last line may lack its newline.
pub fn cut_line(text: &[u8]) -> Option<(&[u8], &[u8])>
    ensures line { IfSome result (λ cut. lines_from [] text.now ≡ cut.0.now ∷ lines_from [] cut.1.now) }
    ensures shorter { IfSome result (λ cut. length cut.1.now < length text.now) }
    ensures none { IfNone result (lines_from [] text.now ≡ []) }
{
    if let Some(end) = memchr(b'\n', text) {
        return Some((&text[..end], &text[end + 1..]));
    }
    if text.is_empty() {
        None
    } else {
        Some((text, &[]))
    }
}
