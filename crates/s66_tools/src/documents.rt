//! Calls for `tools/refused.py` that search by workers, make the document of an answer, read documents, and run `sum`.
ghost use Rattle.std.specs.Prelude.{◌+◌, ◌<◌, None};

use crate::calls::Answered;
use crate::sources::{block_of, source_of};
use s66_cert::{CertError, read};
use s66_device::{Failed, OverRead, Sink};
use s66_isa::Profile;
use s66_model::{Options, Rule};
use s66_pool::{FIRST_SPLITS, Free, run};
use s66_program::{Asked, Command, Fault, Silent, Strategy, SumStyle, document_of, run_command};
use s66_test_search::{MULTIPLIES, SEVEN_MULTIPLIES};
use std::alloc::{AllocError, Global};
use std::sync::Wait;
use std::thread::Threads;

/// Two workers, and a few more splits than those that the calling thread does before they start.
const OPTIONS: Options = Options {
    workers: 2,
    nodes: FIRST_SPLITS + 52,
    rule: Rule::NoneNamed,
};

/// Two documents of one load.
const DOCUMENTS: &str =
    "S66 CERTIFICATE 1\nPROFILE 3 3 4 4 3 10 29 8 3 8 1 1 1 1 2 1 2\nBLOCK 3\nI SA1 A1+B1\nI BX6 X1\nI BX7 X2\nTIME 12\nBOUND 12\nORDER 1 3 2\nC 1 2\nEND\nS66 CERTIFICATE 1\nPROFILE 3 3 4 4 3 10 29 8 3 8 1 1 1 1 2 1 2\nBLOCK 3\nI SA1 A1+B1\nI BX6 X1\nI BX7 X2\nTIME 12\nBOUND 12\nORDER 1 3 2\nC 1 2\nEND\n";

/// The time, the bound and the splits of the answer of two workers.
pub(crate) fn searched<R: AllocGlobal + Threads + Wait + Sync>(
    rt: &R,
) -> Result<Answered, AllocError> {
    let source = source_of(rt.alloc(), SEVEN_MULTIPLIES)?;
    let block = block_of(&source)?;
    let answer = run(rt, block, &Profile::standard(), OPTIONS, &Free)?;
    Ok([
        answer.time() as usize,
        answer.bound() as usize,
        answer.splits() as usize,
        0,
    ])
}

/// The time and the bound of their answer's document, and how many numbers its order and its block have.
pub(crate) fn documented<R: AllocGlobal + Threads + Wait + Sync>(
    rt: &R,
) -> Result<Answered, AllocError> {
    let alloc = rt.alloc();
    let source = source_of(alloc, SEVEN_MULTIPLIES)?;
    let block = block_of(&source)?;
    let profile = Profile::standard();
    let answer = run(rt, block, &profile, OPTIONS, &Free)?;
    let document = document_of(alloc, block, &profile, &answer)?;
    Ok([
        document.time() as usize,
        document.bound() as usize,
        document.order().len(),
        document.block().len(),
    ])
}

/// How many documents a text has; none if it is refused.
pub(crate) fn read_again(alloc: Global) -> Result<Answered, AllocError> {
    match read(alloc, DOCUMENTS.as_bytes()) {
        Ok(documents) => Ok([documents.len(), 0, 0, 0]),
        Err(CertError::OutOfMemory) => Err(AllocError),
        Err(_) => Ok([0; 4]),
    }
}

/// A writer that counts what it is given, and allocates nothing.
#[derive(Drop)]
struct Counts {
    bytes: usize,
}

impl Sink for Counts {
    ghost seen = { λ _. record { bytes = None; failures = 0 } };

    fn sink(&mut self, text: &[u8]) -> Result<usize, Failed> {
        self.bytes = self.bytes.saturating_add(text.len());
        Ok(text.len())
    }
}

/// How many bytes `sum` writes of three multiplies; a refusal has written none.
pub(crate) fn summed<R: AllocGlobal + Threads + Wait + Sync>(
    rt: &R,
) -> Result<Answered, AllocError> {
    let strategy = Strategy {
        search: OPTIONS,
        deep: false,
    };
    let command = Command {
        cut: false,
        block: None,
        profile: None,
        strict: false,
        some: false,
        asked: Asked::Sum {
            strategy,
            style: SumStyle {
                trace: false,
                words: false,
            },
        },
    };
    let mut reader = OverRead::new(MULTIPLIES.as_bytes());
    let mut writer = Counts { bytes: 0 };
    match run_command(rt, command, &mut reader, &mut writer, &mut Silent) {
        Err(Fault::Memory) if writer.bytes == 0 => Err(AllocError),
        ended => Ok([writer.bytes, ended.is_ok() as usize, 0, 0]),
    }
}
