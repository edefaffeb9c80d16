//! Whether a definition or an `ECHO` holds an instruction, kept on the pass from the last line on.

/// What is known of parts of a source that nest, as definitions do, by the lines from one on: after the last line, nothing.
#[derive(Clone, Copy, Default)]
pub(crate) struct Bodies {
    /// This many parts end before an instruction comes.
    ends: usize,
    /// An instruction comes then.
    has_code: bool,
}

impl Bodies {
    /// Whether a part that begins directly before these lines holds an instruction.
    pub(crate) fn has_body(&self) -> bool {
        self.ends == 0 && self.has_code
    }

    /// With an instruction before them.
    pub(crate) fn after_instruction(&self) -> Bodies {
        Bodies {
            ends: 0,
            has_code: true,
        }
    }

    /// With the beginning of a part before them.
    pub(crate) fn after_beginning(&self) -> Bodies {
        Bodies {
            ends: self.ends.saturating_sub(1),
            has_code: self.has_code,
        }
    }

    /// With the end of a part before them.
    pub(crate) fn after_end(&self) -> Bodies {
        Bodies {
            ends: self.ends.saturating_add(1),
            has_code: self.has_code,
        }
    }
}
