//! The second line of a refusal, which names the way out.

ghost use Rattle.std.specs.Prelude.{◌≡◌};
ghost use Rattle.s66_program.specs.{source_way_out, way_out};

use crate::fault::Fault;
use s66_cert::CertError;
use s66_line::LINE_BYTES_LIMIT;
use s66_source::{SOURCE_LINES_LIMIT, SourceError};

// the limits that are told
const _: () = prove!(LINE_BYTES_LIMIT == 200 && SOURCE_LINES_LIMIT == 20_000);

/// The second line of the refusal of a source, with its newline.
fn source_way_out(refusal: SourceError) -> &'static [u8]
    ensures { result.now ≡ source_way_out refusal }
{
    match refusal {
        SourceError::BadOperand { .. } => {
            b"s66 lint lists all such lines, --cut leaves them alone\n"
        }
        SourceError::LineTooLong { .. } => {
            b"a line has at most 200 bytes; s66 lint lists all that have more\n"
        }
        SourceError::TooLarge => b"a source has at most 20000 lines; s66 order --quiet adds none\n",
        SourceError::OutOfMemory => &[],
    }
}

/// The second line of a refusal, which names the way out, with its newline; empty if there is none.
pub(crate) fn way_out(fault: Fault) -> &'static [u8]
    ensures { result.now ≡ way_out fault }
{
    match fault {
        Fault::Source(refusal) | Fault::NewSource(refusal) => source_way_out(refusal),
        Fault::NoNewSource => {
            b"s66 compare reads the old source, a line *S66 NEW, and the new source\n"
        }
        Fault::Document(CertError::BadLine { .. } | CertError::Truncated) => {
            b"s66 check reads what s66 prove prints\n"
        }
        _ => &[],
    }
}
