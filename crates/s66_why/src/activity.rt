//! The letters of a chart, and from when to when an instruction has which.

ghost use Rattle.std.specs.Prelude.{◌≡◌, ◌<◌, length};
ghost use Rattle.s66_time.specs.{point_at};
ghost use Rattle.s66_why.specs.{activity, filler_activity, IsInOrder};

use s66_time::Timed;

/// The letter of the minor cycle in which an instruction issues.
pub(crate) const ISSUES: u8 = b'I';

/// The letter of a unit that waits for operands or for memory.
pub(crate) const WAITS: u8 = b'W';

/// The letter of a unit that works.
pub(crate) const WORKS: u8 = b'=';

/// The letter of a result that waits until the earlier readers of its register have started.
pub(crate) const WAITS_FOR_READERS: u8 = b'H';

/// The letter of anything else.
pub(crate) const IDLE: u8 = b'.';

/// What a row shows, in minor cycles: when an instruction issues, when its unit starts and has worked, and when its last result is
/// done.
#[derive(Clone, Copy)]
pub(crate) struct Activity {
    pub(crate) issue: usize,
    pub(crate) start: usize,
    pub(crate) finish: usize,
    pub(crate) done: usize,
}

impl Activity {
    /// Of the instruction at a position.
    pub(crate) fn of_instruction(timed: &Timed, position: usize) -> Activity
        requires { position < length timed.now.numbers }
        ensures value { result ≡ activity (point_at timed.now position) }
        ensures in_order { IsInOrder result }
    {
        let times = timed.at(position);
        Activity {
            issue: times.issue as usize,
            start: times.start as usize,
            finish: times.start as usize + timed.latency(position) as usize,
            done: times.done as usize,
        }
    }

    /// Of the `NO` after the instruction at a position: it is done as it issues.
    pub(crate) fn of_filler(timed: &Timed, position: usize) -> Activity
        requires { position < length timed.now.numbers }
        ensures value { result ≡ filler_activity (point_at timed.now position) }
        ensures in_order { IsInOrder result }
    {
        let issue = timed.at(position).issue as usize + timed.parcels(position) as usize;
        Activity {
            issue,
            start: issue,
            finish: issue,
            done: issue,
        }
    }
}
