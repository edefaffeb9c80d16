//! How far an order is from the source order: how many pairs of it stand in reverse (its inversions).

ghost use Rattle.std.specs.Prelude.{◌≡◌, ◌+◌, ◌<◌, ◌≤◌, length, drop, get_or};
ghost use Rattle.s66_isa.specs.{BLOCK_LIMIT};
ghost use Rattle.s66_node.specs.{below, reversed};

/// How many numbers after a place are below the one there.
fn below_after(numbers: &[u8], place: usize) -> u32
    requires place { place < length numbers.now }
    requires few { length numbers.now ≤ BLOCK_LIMIT }
    ensures value { result ≡ below (get_or numbers.now place 0) (drop (place + 1) numbers.now) }
    ensures few { result ≤ BLOCK_LIMIT }
{
    let number = numbers[place];
    let mut count = 0u32;
    for later in place + 1..numbers.len() {
        if numbers[later] < number {
            count += 1;
        }
    }
    count
}

/// How many pairs of these stand in reverse, the greater number first.
pub(crate) fn pairs_in_reverse(numbers: &[u8]) -> u32
    requires { length numbers.now ≤ BLOCK_LIMIT }
    ensures { result ≡ reversed numbers.now }
{
    let mut pairs = 0u32;
    let mut place = numbers.len();
    while 0 < place {
        place -= 1;
        pairs += below_after(numbers, place);
    }
    pairs
}

/// Exchanges the numbers at a place and the next; returns how many pairs stand in reverse then, if so many did before.
pub(crate) fn exchange(numbers: &mut [u8], place: usize, pairs: u32) -> u32
    requires place { place + 1 < length numbers.old }
    requires few { length numbers.old ≤ BLOCK_LIMIT }
    ensures length { length numbers.new ≡ length numbers.old }
    ensures pairs { pairs ≡ reversed numbers.old → result ≡ reversed numbers.new }
{
    let (first, second) = (numbers[place], numbers[place + 1]);
    numbers.swap(place, place + 1);
    if second < first {
        pairs.saturating_sub(1)
    } else if first < second {
        pairs.saturating_add(1)
    } else {
        pairs
    }
}
