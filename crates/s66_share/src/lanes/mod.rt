//! Lanes of tickets: the owner of a lane puts tickets in and takes them out, and others steal from it, each with a pass.
//!
//! A lane is a work-stealing deque (D. Chase and Y. Lev, Dynamic circular work-stealing deque, SPAA 2005). Its owner takes at the
//! end at which others steal: nodes are claimed in order of their floors, and the first is the most promising.

mod make;
mod owner;
mod pass;
mod protocol;
mod thief;

pub use make::lane;
pub use owner::Lane;
pub use pass::Pass;
pub use thief::Thief;
