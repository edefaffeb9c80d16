//! What `prove` writes: the document of the answer to each block.

ghost use Rattle.std.specs.Prelude.{IfOk};
ghost use Rattle.s66_program.specs.ProveText.{IsProveOutput, document_part};

use s66_answer::{BlockAnswer, Keep, Observer, Output, text_of_answers};
use s66_cert::push_document;
use s66_command::Strategy;
use s66_isa::Profile;
use s66_source::Source;
use std::alloc::AllocError;
use std::sync::Wait;
use std::thread::Threads;

/// The texts of documents.
#[derive(Drop)]
struct Documents;

impl Keep<u8> for Documents {
    ghost part = { λ documents. document_part };

    fn prints_documents(&self) -> bool {
        true
    }

    fn keep(&self, parts: &mut Vec<u8>, answer: BlockAnswer) -> Result<(), AllocError> {
        let BlockAnswer {
            alloc,
            block,
            profile,
            strategy,
            found,
            ..
        } = answer;
        let document = found.into_document(alloc, block, profile, strategy)?;
        push_document(parts, &document)?;
        Ok(())
    }
}

/// A document for each block of a source, or for the only one that is printed, by what a search finds under a profile.
pub(crate) fn prove_output<R: AllocGlobal + Threads + Wait + Sync, O: Observer>(
    rt: &R,
    source: &Source,
    only: Option<u32>,
    profile: &Profile,
    strategy: Strategy,
    observer: &mut O,
) -> Result<Output, AllocError>
    ensures { IfOk result (λ output.
        IsProveOutput strategy profile.now only source.now output.text.items output.status) }
{
    text_of_answers(rt, &Documents, source, only, profile, strategy, observer)
}
