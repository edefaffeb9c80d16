//! How statements fill words (`layout.rt`), and which words near one are meant (`extent.rt`).

mod extent;
mod layout;

pub(crate) use extent::Extent;
pub(crate) use layout::{Layout, Span};
