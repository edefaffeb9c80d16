//! What each worker needs beside its seat, made and dealt before any starts: lanes with a pass at each, and seats at the hint.

ghost use Rattle.std.specs.Prelude.{◌≡◌, ◌≤◌, ◌<◌, All, IfOk, [], length, slice_index_or};
ghost use Rattle.s66_share.specs.{LaneId, LaneOf};
ghost use Rattle.s66_pool.specs.{AllMatchLanes, VictimsMatchLanes, ids_of};

use crate::incumbent::Incumbent;
use crate::member::Local;
use crate::victim::Victim;
use s66_model::WORKERS_LIMIT;
use s66_share::{CAPACITY_LIMIT, Hint, HintSeat, Lane, Thief, lane};
use std::alloc::{AllocError, Global};

/// A lane for each worker, and what the others steal with from each.
pub(crate) fn lanes_for(
    alloc: Global,
    workers: usize,
) -> Result<(Vec<Lane>, Vec<Thief>), AllocError>
    ensures count { IfOk result (λ r. length r.0.items ≡ workers) }
    ensures thieves { IfOk result (λ r. r.1.items ≡ ids_of r.0.items) }
    ensures new { IfOk result (λ r. All (λ (l : LaneOf). (l.passes ≡ 0) × (l.put ≡ [])) r.0.items) }
{
    let mut lanes = Vec::with_capacity(alloc, workers)?;
    let mut thieves = Vec::with_capacity(alloc, workers)?;
    for _ in 0..workers {
        let (own, thief) = lane(alloc, CAPACITY_LIMIT)?;
        lanes.push_reserved(own);
        thieves.push_reserved(thief);
    }
    Ok((lanes, thieves))
}

/// How many passes a lane has: one for each other worker. Of more than `WORKERS_LIMIT` workers none steals.
fn passes_for(workers: usize) -> usize
    ensures { result ≤ 15 }
{
    if workers <= WORKERS_LIMIT as usize {
        workers.saturating_sub(1)
    } else {
        0
    }
}

/// Deals a pass of the lane at this place to each other worker.
fn deal<'t>(
    lane: &mut Lane,
    thieves: &'t [Thief],
    place: usize,
    victims: &mut [Vec<Victim<'t>>],
) -> Result<(), AllocError>
    requires new { (lane.old.passes ≡ 0) × (lane.old.put ≡ []) }
    requires within { place < length thieves.now }
    requires here { (d : LaneId) → slice_index_or thieves.now place d ≡ lane.old.id }
    requires placed { AllMatchLanes thieves.now victims.old }
    ensures lane { lane.new.id ≡ lane.old.id }
    ensures count { length victims.new ≡ length victims.old }
    ensures placed { AllMatchLanes thieves.now victims.new }
{
    let mut passes = lane.passes(passes_for(victims.len()))?;
    for worker in 0..victims.len() {
        if worker == place {
            continue;
        }
        let Some(pass) = passes.pop() else {
            return Ok(());
        };
        let victim = Victim::new(&thieves[place], pass, place);
        victims[worker].push(victim)?;
    }
    Ok(())
}

/// Of each worker the lanes from which it may steal: those of all others.
fn victims_for<'t>(
    alloc: Global,
    lanes: &mut [Lane],
    thieves: &'t [Thief],
) -> Result<Vec<Vec<Victim<'t>>>, AllocError>
    requires thieves { thieves.now ≡ ids_of lanes.old }
    requires new { All (λ (l : LaneOf). (l.passes ≡ 0) × (l.put ≡ [])) lanes.old }
    ensures lanes { ids_of lanes.new ≡ ids_of lanes.old }
    ensures count { IfOk result (λ r. length r.items ≡ length lanes.old) }
    ensures placed { IfOk result (λ r. AllMatchLanes thieves.now r.items) }
{
    let workers = lanes.len();
    let mut victims = Vec::with_capacity(alloc, workers)?;
    for _ in 0..workers {
        victims.push_reserved(Vec::with_capacity(alloc, passes_for(workers))?);
    }
    for place in 0..workers {
        deal(&mut lanes[place], thieves, place, victims.as_mut_slice())?;
    }
    Ok(victims)
}

/// What each worker needs beside its seat. The lanes are given to their workers in order.
pub(crate) fn locals_for<'t>(
    alloc: Global,
    hint: &'t Hint,
    mut seats: Vec<HintSeat>,
    mut lanes: Vec<Lane>,
    thieves: &'t [Thief],
) -> Result<Vec<Local<'t>>, AllocError>
    requires seats { All (λ s. s.hint ≡ hint.now) seats.items }
    requires count { length seats.items ≡ length lanes.items }
    requires thieves { thieves.now ≡ ids_of lanes.items }
    requires new { All (λ (l : LaneOf). (l.passes ≡ 0) × (l.put ≡ [])) lanes.items }
    ensures count { IfOk result (λ locals. length locals.items ≡ length lanes.items) }
    ensures placed { IfOk result (λ locals. VictimsMatchLanes locals.items) }
{
    let workers = lanes.len();
    let mut victims = victims_for(alloc, lanes.as_mut_slice(), thieves)?;
    let mut locals = Vec::with_capacity(alloc, workers)?;
    for _ in 0..workers {
        let seat = seats.remove(0);
        let own = lanes.remove(0);
        let others = victims.remove(0);
        locals.push_reserved(Local {
            incumbent: Incumbent::new(hint, seat),
            lane: own,
            victims: others,
        });
    }
    Ok(locals)
}
