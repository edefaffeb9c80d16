//! A set of a block's instruction numbers, as two words of 64 bits.

ghost use Rattle.std.specs.Prelude.{ℕ, ◌≡◌, ◌≤◌, ◌==◌, ◌||◌, ◌&&◌, not, ◌↔◌, IsTrue, true, [], ◌∷◌, IfSome, IfNone, length};
ghost use Rattle.s66_isa.specs.{BLOCK_LIMIT, has, rising, numbers_in};

use crate::limits::BLOCK_LIMIT;
use arrayvec::ArrayVec;

// two words have a bit for each number of a block
const _: () = prove!(BLOCK_LIMIT == 2 * u64::BITS as usize);

/// A set of instruction numbers of a block, in two words.
/// A block of up to 64 instructions has nothing in the high one, and costs little more than one word does.
#[derive(Clone, Copy, Default, PartialEq, Eq)]
pub struct Set {
    /// Bit n - 1 is set if n is there, from 1 to 64.
    low: u64,
    /// Bit n - 65 is set if n is there, from 65 on.
    high: u64,
}

impl Set {
    /// No number.
    pub fn empty() -> Set
        ensures { numbers_in result ≡ [] }
    {
        Set { low: 0, high: 0 }
    }

    /// The numbers from 1 to a count; the time is linear in the count.
    pub fn up_to(count: usize) -> Set
        requires { count ≤ BLOCK_LIMIT }
        ensures { numbers_in result ≡ rising count 1 }
    {
        let mut set = Set::empty();
        for position in 0..count {
            set = set.with((position + 1) as u8);
        }
        set
    }

    /// The numbers of this set, and n.
    pub fn with(self, n: u8) -> Set
        requires { (1 ≤ n) × (n ≤ BLOCK_LIMIT) }
        ensures { (m : ℕ) → has m (numbers_in result) ≡ (m == n || has m (numbers_in self)) }
    {
        if n <= 64 {
            Set {
                low: self.low | (1 << (n - 1)),
                high: self.high,
            }
        } else {
            Set {
                low: self.low,
                high: self.high | (1 << (n - 65)),
            }
        }
    }

    /// Whether n is there.
    pub fn has(&self, n: u8) -> bool
        ensures { result ≡ has n (numbers_in self.now) }
    {
        if n <= 64 {
            1 <= n && (self.low >> (n - 1)) & 1 == 1
        } else {
            n as usize <= BLOCK_LIMIT && (self.high >> (n - 65)) & 1 == 1
        }
    }

    /// Whether each number of this set is in the other.
    pub fn is_within(&self, other: &Set) -> bool
        ensures { IsTrue result ↔ ((m : ℕ) → has m (numbers_in self.now) ≡ true → has m (numbers_in other.now) ≡ true) }
    {
        self.low & other.low == self.low && self.high & other.high == self.high
    }

    /// Whether both sets have the same numbers.
    pub fn is_same(&self, other: &Set) -> bool
        ensures { IsTrue result ↔ ((m : ℕ) → has m (numbers_in self.now) ≡ has m (numbers_in other.now)) }
    {
        self.low == other.low && self.high == other.high
    }

    /// The numbers of this set that aren't in the other.
    pub fn without(&self, other: &Set) -> Set
        ensures { (m : ℕ) → has m (numbers_in result) ≡
            (has m (numbers_in self.now) && not (has m (numbers_in other.now))) }
    {
        Set {
            low: self.low & !other.low,
            high: self.high & !other.high,
        }
    }

    /// The numbers that are in either set.
    pub fn with_all(&self, other: &Set) -> Set
        ensures { (m : ℕ) → has m (numbers_in result) ≡ (has m (numbers_in self.now) || has m (numbers_in other.now)) }
    {
        Set {
            low: self.low | other.low,
            high: self.high | other.high,
        }
    }

    /// The numbers that are in both sets.
    pub fn both(&self, other: &Set) -> Set
        ensures { (m : ℕ) → has m (numbers_in result) ≡ (has m (numbers_in self.now) && has m (numbers_in other.now)) }
    {
        Set {
            low: self.low & other.low,
            high: self.high & other.high,
        }
    }

    /// Takes the lowest number out, if there is one.
    pub fn pop_first(&mut self) -> Option<u8>
        ensures some { IfSome result (λ n. numbers_in self.old ≡ n ∷ numbers_in self.new) }
        ensures none { IfNone result (numbers_in self.old ≡ []) }
        ensures range { IfSome result (λ n. (1 ≤ n) × (n ≤ BLOCK_LIMIT)) }
        ensures same { IfNone result (self.new ≡ self.old) }
    {
        // n & (n - 1) is n without the lowest bit that is set
        if self.low != 0 {
            let lowest = self.low.trailing_zeros();
            self.low &= self.low - 1;
            Some(lowest as u8 + 1)
        } else if self.high != 0 {
            let lowest = self.high.trailing_zeros();
            self.high &= self.high - 1;
            Some(lowest as u8 + 65)
        } else {
            None
        }
    }

    /// A hash: equal sets have the same, and sets that differ mostly don't.
    pub fn hash(&self) -> u64 {
        let mixed = self.low.wrapping_mul(0x9E37_79B9_7F4A_7C15)
            ^ self.high.wrapping_mul(0xC2B2_AE3D_27D4_EB4F);
        mixed ^ (mixed >> 32)
    }

    /// The numbers, rising.
    pub fn numbers(&self) -> ArrayVec<u8, BLOCK_LIMIT>
        ensures { result.items ≡ numbers_in self.now }
    {
        let mut rest = *self;
        let mut numbers = ArrayVec::new();
        while let Some(number) = rest.pop_first() {
            numbers.push(number);
        }
        numbers
    }

    /// How many numbers are there.
    pub fn count(&self) -> u32
        ensures { result ≡ length (numbers_in self.now) }
    {
        self.low.count_ones() + self.high.count_ones()
    }
}
