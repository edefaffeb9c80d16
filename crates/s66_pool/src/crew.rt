//! The threads (`work`): starts a worker for each seat, waits for all of them, and gives back what is left in their lanes.

ghost use Rattle.std.specs.Prelude.{◌≡◌, ◌<◌, ◌≤◌, ℕ, [], All, length, slice_index_or, vec_capacity, vec_len};
ghost use Rattle.s66_line.specs.{instrs_of};
ghost use Rattle.s66_share.specs.{LaneId};
ghost use Rattle.s66_pool.specs.Workers.{AreSameSeats, VictimsMatchLanes, IsSameMember, IsSameSeat, lanes_of, locals_of, seats_of, victims_of};

use crate::gate::Gate;
use crate::hub::Hub;
use crate::locals::{lanes_for, locals_for};
use crate::member::{Local, Member};
use crate::seat::Seat;
use crate::shared_marks::SharedMarks;
use crate::victim::Victim;
use crate::worker::{Site, work_at};
use s66_isa::Profile;
use s66_line::Block;
use s66_model::{Rule, WORKERS_LIMIT};
use s66_node::MarkTable;
use s66_share::Hint;
use std::alloc::AllocError;
use std::sync::Wait;
use std::sync::atomic::AtomicUsize;
use std::thread;
use std::thread::Threads;

/// Starts a worker for each seat, each in a thread of its own if one can be made, and else one after the other. Waits for all of
/// them; then each seat is in its place. A worker that runs out of memory ends.
///
/// The workers share a hint of the best time and the marks of what they have grafted, and each has a lane of nodes from which the
/// others may steal. They know the nodes of a table at first; if any node may be named, that is empty afterwards. `Err` is out of
/// memory for what they share, and comes before a worker has started.
pub fn work<'a, R: AllocGlobal + Threads + Wait + Sync, G: Gate + Sync>(
    rt: &R,
    hub: &Hub<'a>,
    seats: &mut Vec<Seat<'a>>,
    block: &Block,
    profile: &Profile,
    rule: Rule,
    gate: &G,
    grafted: &mut MarkTable<'_>,
) -> Result<(), AllocError>
    requires here { All (λ s. s.hub ≡ hub.now.id) seats.old.items }
    requires marks { grafted.old.problem ≡ record { block = instrs_of block.now; profile = profile.now } }
    ensures same { AreSameSeats seats.old.items seats.new.items }
    ensures here { All (λ s. s.hub ≡ hub.now.id) seats.new.items }
    ensures marks { grafted.new.problem ≡ grafted.old.problem }
{
    if seats.is_empty() {
        return Ok(());
    }
    let alloc = rt.alloc();
    let workers = seats.len();
    let marks = SharedMarks::new(alloc, block, profile, rule)?;
    marks.take_in(rt, grafted, rule);
    let best = best_at_first(rt, hub, seats);
    let (hint, hint_seats) = Hint::new(alloc, best, workers)?;
    let (lanes, thieves) = lanes_for(alloc, workers)?;
    let locals = locals_for(alloc, &hint, hint_seats, lanes, thieves.as_slice())?;
    work_with(rt, hub, seats, locals, &marks, rule, gate)
}

/// Lets a worker work for each seat, with the local of its place. `Err` comes before a worker has started.
fn work_with<'a, R: AllocGlobal + Threads + Wait + Sync, G: Gate + Sync>(
    rt: &R,
    hub: &Hub<'a>,
    seats: &mut Vec<Seat<'a>>,
    locals: Vec<Local<'_>>,
    marks: &SharedMarks<'_>,
    rule: Rule,
    gate: &G,
) -> Result<(), AllocError>
    requires here { All (λ s. s.hub ≡ hub.now.id) seats.old.items }
    requires count { length locals.items ≡ length seats.old.items }
    requires placed { VictimsMatchLanes locals.items }
    ensures same { AreSameSeats seats.old.items seats.new.items }
    ensures here { All (λ s. s.hub ≡ hub.now.id) seats.new.items }
{
    let mut members = Vec::with_capacity(rt.alloc(), seats.len())?;
    seat_members(&mut members, seats, locals);
    let places = members.as_mut_slice();
    work_at_each(rt, hub, places, marks, rule, gate);
    settle(rt, hub, places);
    take_seats(seats, members);
    Ok(())
}

/// The best time, which the first seat then knows.
fn best_at_first<'a, R: Wait>(rt: &R, hub: &Hub<'a>, seats: &mut Vec<Seat<'a>>) -> u32
    requires some { 0 < vec_len seats.old }
    requires here { All (λ s. s.hub ≡ hub.now.id) seats.old.items }
    ensures same { AreSameSeats seats.old.items seats.new.items }
    ensures here { All (λ s. s.hub ≡ hub.now.id) seats.new.items }
{
    hub.best(rt, &mut seats[0])
}

/// A member for each seat, in the order of the seats. Each has the local of its place.
fn seat_members<'t, 'a>(
    members: &mut Vec<Member<'t, 'a>>,
    seats: &mut Vec<Seat<'a>>,
    mut locals: Vec<Local<'t>>,
)
    requires empty { members.old.items ≡ [] }
    requires room { length seats.old.items ≤ vec_capacity members.old }
    requires count { length locals.items ≡ length seats.old.items }
    ensures seats { seats_of members.new.items ≡ seats.old.items }
    ensures locals { locals_of members.new.items ≡ locals.entry.items }
    ensures left { (seats.new.items ≡ []) × (vec_capacity seats.new ≡ vec_capacity seats.old) }
{
    while !seats.is_empty() {
        members.push_reserved(Member {
            seat: seats.remove(0),
            local: locals.remove(0),
        });
    }
}

/// The members' seats, in the order of the members.
fn take_seats<'t, 'a>(seats: &mut Vec<Seat<'a>>, mut members: Vec<Member<'t, 'a>>)
    requires empty { seats.old.items ≡ [] }
    requires room { length members.items ≤ vec_capacity seats.old }
    ensures { seats.new.items ≡ seats_of members.entry.items }
{
    while !members.is_empty() {
        let Member { seat, .. } = members.remove(0);
        seats.push_reserved(seat);
    }
}

/// Runs a worker for each member, and waits for all of them.
fn work_at_each<'a, R: AllocGlobal + Threads + Wait + Sync, G: Gate + Sync>(
    rt: &R,
    hub: &Hub<'a>,
    members: &mut [Member<'_, 'a>],
    marks: &SharedMarks<'_>,
    rule: Rule,
    gate: &G,
)
    requires here { All (λ m. m.seat.hub ≡ hub.now.id) members.old }
    requires placed { VictimsMatchLanes (locals_of members.old) }
    ensures same { AreSameSeats (seats_of members.old) (seats_of members.new) }
    ensures here { All (λ s. s.hub ≡ hub.now.id) (seats_of members.new) }
    ensures placed { VictimsMatchLanes (locals_of members.new) }
{
    let task = MemberWork {
        site: Site {
            rt,
            hub,
            marks,
            gate,
            rule,
            searching: AtomicUsize::new(members.len()),
        },
    };
    run_at_each(rt, &task, members);
}

/// Gives each pass back to its lane, and each node that is left in a lane back to the hub.
fn settle<'a, R: Wait>(rt: &R, hub: &Hub<'a>, members: &mut [Member<'_, 'a>])
    requires here { All (λ s. s.hub ≡ hub.now.id) (seats_of members.old) }
    requires placed { VictimsMatchLanes (locals_of members.old) }
    ensures { AreSameSeats (seats_of members.old) (seats_of members.new) }
{
    for worker in 0..members.len() {
        leave_victims(members, worker);
    }
    for worker in 0..members.len() {
        give_left_back(rt, hub, &mut members[worker]);
    }
}

/// Gives each pass of a worker back to its lane.
fn leave_victims<'a>(members: &mut [Member<'_, 'a>], worker: usize)
    requires within { worker < length members.old }
    requires placed { VictimsMatchLanes (locals_of members.old) }
    ensures seats { seats_of members.new ≡ seats_of members.old }
    ensures placed { VictimsMatchLanes (locals_of members.new) }
{
    while let Some(victim) = members[worker].local.victims.pop() {
        leave_lane(members, victim);
    }
}

/// Gives a pass back to its lane.
fn leave_lane<'a>(members: &mut [Member<'_, 'a>], victim: Victim<'_>)
    requires within { victim.place < length members.old }
    requires here { (d : LaneId) → slice_index_or (lanes_of (locals_of members.old)) victim.place d ≡ victim.lane }
    ensures seats { seats_of members.new ≡ seats_of members.old }
    ensures lanes { lanes_of (locals_of members.new) ≡ lanes_of (locals_of members.old) }
    ensures victims { victims_of (locals_of members.new) ≡ victims_of (locals_of members.old) }
{
    let place = victim.place();
    victim.leave(&mut members[place].local.lane);
}

/// Gives each node that is left in a worker's lane back to the hub. If out of memory, a node stays out until the ledger is finished.
fn give_left_back<'a, R: Wait>(rt: &R, hub: &Hub<'a>, member: &mut Member<'_, 'a>)
    requires { member.old.seat.hub ≡ hub.now.id }
    ensures { IsSameSeat member.old.seat member.new.seat }
{
    let Some(left) = member.local.lane.left() else {
        return;
    };
    for _ in 0..left {
        if let Some(ticket) = member.local.lane.take() {
            let _ = hub.back(rt, &mut member.seat, ticket);
        }
    }
}

/// What is done at each place of a slice. It is between `work_at` and the threads since the borrow checker doesn't cover a closure
/// over `&mut Member<'_, 'a>`, whose lifetime is invariant; over a `&mut` to a type parameter it does.
trait Task<T> {
    ghost accepts: { Self → T → Type 0 };

    ghost changes: { Self → T → T → Type 0 };

    fn run(&self, at: &mut T)
        requires { accepts self.now at.old }
        ensures { changes self.now at.old at.new };
}

/// A worker's steps.
#[derive(Drop)]
struct MemberWork<'s, 'a, 'b, R, G> {
    site: Site<'s, 'a, 'b, R, G>,
}

impl<'s, 't, 'a, 'b, R: AllocGlobal + Wait, G: Gate> Task<Member<'t, 'a>>
    for MemberWork<'s, 'a, 'b, R, G> {
    ghost accepts = { λ t m. m.seat.hub ≡ t.site.hub.now.id };

    ghost changes = { λ t m r. IsSameMember m r };

    fn run(&self, at: &mut Member<'t, 'a>) {
        work_at(&self.site, at);
    }
}

/// Runs a task at each place, in at most `WORKERS_LIMIT` threads.
fn run_at_each<R: Threads + Sync, T: Send, W: Task<T> + Sync>(rt: &R, task: &W, places: &mut [T])
    requires { All (λ p. W.accepts task.now p) places.old }
    ensures len { length places.new ≡ length places.old }
    ensures each { (i : ℕ) (d : T) → i < length places.old →
        W.changes task.now (slice_index_or places.old i d) (slice_index_or places.new i d) }
{
    thread::for_each_mut(
        rt,
        places,
        WORKERS_LIMIT as usize,
        &|_, at| { task.run(at) },
    );
}
