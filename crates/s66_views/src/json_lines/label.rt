//! The label of a block as a member, if it has one.

ghost use Rattle.std.specs.Prelude.{◌≡◌, ◌++◌, OnOk};
ghost use Rattle.s66_views.specs.{without_blank, label_text};

use crate::json_lines::string::push_string;
use crate::json_lines::text::push_text;
use std::alloc::AllocError;

/// A location field without the blank before it.
fn without_blank(label: &[u8]) -> &[u8]
    ensures { result.now ≡ without_blank label.now }
{
    if let [b' ', rest @ ..] = label {
        rest
    } else {
        label
    }
}

/// The label of a block, if it has one.
#[tactic(auto, unfolding(crate::specs::Pieces::label_text, crate::specs::Pieces::string_text))]
pub(crate) fn push_label(out: &mut Vec<u8>, label: &[u8]) -> Result<(), AllocError>
    ensures { OnOk result (out.new.items ≡ out.old.items ++ label_text label.now) }
{
    if label.is_empty() {
        push_text(out, b"null")
    } else {
        push_string(out, without_blank(label))
    }
}
