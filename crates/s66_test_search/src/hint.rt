//! A test of the hint: its word goes down, and never up.

use s66_pool::Hint;

#[test]
fn word_goes_down(rt: HostRuntime) {
    let (hint, mut seats) = Hint::new(rt.alloc(), 22, 2).expect(&rt, "memory");
    let mut second = seats.pop().expect(&rt, "a seat");
    let mut first = seats.pop().expect(&rt, "a seat");
    assert!(rt; seats.is_empty());
    let words = [
        hint.load(&mut first),
        hint.lower(&mut first, 12),
        hint.load(&mut second),
        hint.lower(&mut second, 16),
        hint.load(&mut first),
    ];
    assert_eq!(rt; words, [22, 22, 12, 12, 12]);
}
