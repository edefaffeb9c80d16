//! Bytes of a source in a text that tells of it.

ghost use Rattle.std.specs.Prelude.{◌≡◌, ◌++◌, [], ◌∷◌, OnOk, codes};
ghost use Rattle.s66_device.specs.{is_control, printable, printable_byte};

use std::alloc::AllocError;

/// Whether a byte is a control character, of ASCII or of Latin 1: below 32, or from 127 to 159.
fn is_control(byte: u8) -> bool
    ensures { result ≡ is_control byte }
{
    byte < 32 || (127 <= byte && byte <= 159)
}

fn printable_byte(byte: u8) -> u8
    ensures { result ≡ printable_byte byte }
{
    if is_control(byte) { b'?' } else { byte }
}

/// Appends bytes of a source, each control character as `?`, so that a terminal that shows the text obeys nothing of the source. `Err`
/// is out of memory.
pub fn push_printable(out: &mut Vec<u8>, bytes: &[u8]) -> Result<(), AllocError>
    ensures { OnOk result (out.new.items ≡ out.old.items ++ printable bytes.now) }
{
    for byte in bytes {
        out.push(printable_byte(*byte))?;
    }
    Ok(())
}

/// A blank, a bell, the sequence that clears a screen, DEL, and bytes of Latin 1 on both sides of its first printed one, by the
/// definition.
pub fn printable_examples()
    ensures clear { printable (codes "A B" ++ 7 ∷ 27 ∷ codes "[2J") ≡ codes "A B??[2J" }
    ensures high { printable (126 ∷ 127 ∷ 159 ∷ 160 ∷ 255 ∷ []) ≡ 126 ∷ 63 ∷ 63 ∷ 160 ∷ 255 ∷ [] }
{}
