//! What is called as long work goes on, so that a terminal can show how far it is.

/// What is called as long work goes on.
pub trait Observer {
    /// A block, or a document, is begun, before which `count` of the `of` were begun, so never all. Where one is done before the next
    /// is begun, it is called for each, and those before are done. Where workers take them side by side, it is called for those alone
    /// that the calling thread takes, and some of those before may not be done.
    fn done(&mut self, count: usize, of: usize);

    /// The work has ended, be it with a text that is then written or with a refusal. It isn't called if the input wasn't read.
    fn ended(&mut self);
}

/// The observer that says nothing.
#[derive(Clone, Copy)]
pub struct Silent;

impl Observer for Silent {
    fn done(&mut self, _count: usize, _of: usize) {}

    fn ended(&mut self) {}
}
