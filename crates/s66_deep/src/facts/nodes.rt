//! What longest paths go through: the origin, the stages of each instruction, and the end.

use s66_isa::{BLOCK_LIMIT, Set};

/// How many there are: five of each number, and two in the places of number 0.
pub(crate) const NODE_COUNT: usize = 5 * (BLOCK_LIMIT + 1);

/// The origin.
pub(crate) const ORIGIN: usize = 0;

/// The end.
pub(crate) const END: usize = 1;

/// How long the longest path is to each of them or from it, in minor cycles; `None` if there is none.
pub(crate) type Times = [Option<u32>; NODE_COUNT];

/// The issue of a number.
pub(crate) fn issue(n: u8) -> usize {
    5 * n as usize
}

/// Its start.
pub(crate) fn start(n: u8) -> usize {
    5 * n as usize + 1
}

/// Its first result, in the order of its row.
pub(crate) fn first(n: u8) -> usize {
    5 * n as usize + 2
}

/// Its second.
pub(crate) fn second(n: u8) -> usize {
    5 * n as usize + 3
}

/// The free of its unit.
pub(crate) fn free(n: u8) -> usize {
    5 * n as usize + 4
}

/// How long the path is at a place.
pub(crate) fn time_at(times: &[Option<u32>], place: usize) -> Option<u32> {
    match times.get(place) {
        None => None,
        Some(time) => *time,
    }
}

/// Makes the path at a place so long at least, and returns whether it grew.
pub(crate) fn raise(times: &mut [Option<u32>], place: usize, time: u32) -> bool {
    if place >= times.len() {
        return false;
    }
    match times[place] {
        Some(own) if time <= own => false,
        _ => {
            times[place] = Some(time);
            true
        }
    }
}

/// These numbers, and that of a node, if it has one.
pub(crate) fn number_at(numbers: Set, node: usize) -> Set {
    let number = node / 5;
    if number == 0 || number > BLOCK_LIMIT {
        return numbers;
    }
    numbers.with(number as u8)
}
