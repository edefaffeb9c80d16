//! The two sources of an input of `compare`, with a line `*S66 NEW` between them.

ghost use Rattle.std.specs.Prelude.{◌≡◌};
ghost use Rattle.s66_source.specs.{halves_of, is_new_mark};

use crate::standing::is_switch;
use memchr::memchr;
use s66_line::body_of;
use std::marker::Model;

/// The two sources of a text.
#[derive(Drop)]
pub struct Halves<'a> {
    pub old: &'a [u8],
    pub new: &'a [u8],
}

impl<'a> Model for Halves<'a> {
    ghost use Rattle.s66_source.specs.Halves.{Halves};

    ghost Value = { Halves };

    ghost view = { λ h. record { old = h.old.now; new = h.new.now } };
}

/// Whether a line marks that the new source begins after it.
fn is_new_mark(line: &[u8]) -> bool
    ensures { result ≡ is_new_mark line.now }
{
    is_switch(body_of(line), b"NEW")
}

/// The two sources of a text, between which stands the first line `*S66 NEW`; None if there is no such line.
pub fn halves_of(text: &[u8]) -> Option<Halves<'_>>
    ensures { result ≡ halves_of text.now }
{
    let mut begin = 0;
    while let Some(length) = memchr(b'\n', &text[begin..]) {
        let end = begin + length;
        if is_new_mark(&text[begin..end]) {
            return Some(Halves {
                old: &text[..begin],
                new: &text[end + 1..],
            });
        }
        begin = end + 1;
    }
    if is_new_mark(&text[begin..]) {
        return Some(Halves {
            old: &text[..begin],
            new: &[],
        });
    }
    None
}
