//! Words of the numbers of a set: the greatest or the least of them. The word of n is at place n - 1.

ghost use Rattle.std.specs.Prelude.{◌≡◌, ◌-◌, ◌<◌, ◌≤◌, get_or, length};
ghost use Rattle.s66_isa.specs.{least, BLOCK_LIMIT, numbers_in};
ghost use Rattle.s66_bound.specs.{AreEnds};

use s66_isa::{BLOCK_LIMIT, Set};

/// The least word of these numbers.
pub(crate) fn least_of(words: &[u32; BLOCK_LIMIT], numbers: &Set) -> u32
    requires { 0 < length (numbers_in numbers.now) }
    ensures { result ≡ least (λ n. get_or words.now (n - 1) 0) (numbers_in numbers.now) }
{
    let mut rest = *numbers;
    let mut low = u32::MAX;
    while let Some(number) = rest.pop_first() {
        low = low.min(words[number as usize - 1]);
    }
    low
}

/// Of the numbers up to a count, those of the least word.
pub(crate) fn ends_of(words: &[u32; BLOCK_LIMIT], count: usize) -> Set
    requires { count ≤ BLOCK_LIMIT }
    ensures { AreEnds words.now count result }
{
    let mut least = u32::MAX;
    for place in 0..count {
        least = least.min(words[place]);
    }
    let mut ends = Set::empty();
    for position in 0..count {
        if words[position] == least {
            ends = ends.with((position + 1) as u8);
        }
    }
    ends
}
