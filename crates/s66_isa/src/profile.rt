//! A timing profile: the execution times of the functional units, and how many units there are of each kind. How one is read from a
//! text is in `s66_command`.

ghost use Rattle.std.specs.Prelude.{◌≡◌, ◌≤◌, ◌↔◌, [], ◌∷◌, IfNone, IfSome, IsTrue};

use crate::instr::Kind;
use crate::limits::{PROFILE_LENGTH, PROFILE_LIMIT};

/// A timing profile: execution times in minor cycles of 100 ns, and how many units there are of each kind; each 1 to 100.
///
/// `normalise` is for 0o24 and 0o25, `population` for 0o47, `load` for the X result of a load; every other time is that
/// of its kind.
#[derive(Clone, Copy, PartialEq, Eq)]
pub struct Profile {
    pub boolean: u32,
    pub shift: u32,
    pub normalise: u32,
    pub add: u32,
    pub longadd: u32,
    pub multiply: u32,
    pub divide: u32,
    pub population: u32,
    pub increment: u32,
    pub load: u32,
    pub units_boolean: u32,
    pub units_shift: u32,
    pub units_add: u32,
    pub units_longadd: u32,
    pub units_multiply: u32,
    pub units_divide: u32,
    pub units_increment: u32,
    ghost least: { (1 ≤ boolean) × (1 ≤ shift) × (1 ≤ normalise) × (1 ≤ add) × (1 ≤ longadd) × (1 ≤ multiply) × (1 ≤ divide) × (1 ≤ population) × (1 ≤ increment) × (1 ≤ load) },
    ghost greatest: { (boolean ≤ 100) × (shift ≤ 100) × (normalise ≤ 100) × (add ≤ 100) × (longadd ≤ 100) × (multiply ≤ 100) × (divide ≤ 100) × (population ≤ 100) × (increment ≤ 100) × (load ≤ 100) },
    ghost units: { (1 ≤ units_boolean) × (1 ≤ units_shift) × (1 ≤ units_add) × (1 ≤ units_longadd) × (1 ≤ units_multiply) × (1 ≤ units_divide) × (1 ≤ units_increment) },
    ghost few: { (units_boolean ≤ 100) × (units_shift ≤ 100) × (units_add ≤ 100) × (units_longadd ≤ 100) × (units_multiply ≤ 100) × (units_divide ≤ 100) × (units_increment ≤ 100) },
}

impl Profile {
    ghost use Rattle.s66_isa.specs.{copies_of, entries, standard, IsProfile, profile_of};

    /// The standard profile: the copies are those of the 6600, the times are this project's.
    pub fn standard() -> Profile
        ensures value { result ≡ standard }
        ensures numbers { entries standard ≡ 3 ∷ 3 ∷ 4 ∷ 4 ∷ 3 ∷ 10 ∷ 29 ∷ 8 ∷ 3 ∷ 8 ∷ 1 ∷ 1 ∷ 1 ∷ 1 ∷ 2 ∷ 1 ∷ 2 ∷ [] }
    {
        Profile {
            boolean: 3,
            shift: 3,
            normalise: 4,
            add: 4,
            longadd: 3,
            multiply: 10,
            divide: 29,
            population: 8,
            increment: 3,
            load: 8,
            units_boolean: 1,
            units_shift: 1,
            units_add: 1,
            units_longadd: 1,
            units_multiply: 2,
            units_divide: 1,
            units_increment: 2,
        }
    }

    /// The profile of seventeen numbers, each 1 to 100: the ten times in the order of the fields, then the copies of the
    /// seven kinds.
    ///
    /// # Errors
    ///
    /// `None` if a number is not 1 to 100.
    pub fn of(numbers: &[u8; PROFILE_LENGTH]) -> Option<Profile>
        ensures some { IfSome result (λ p. (p ≡ profile_of numbers.now) × (entries p ≡ numbers.now)) }
        ensures none { IfNone result (¬ IsProfile numbers.now) }
    {
        if !Profile::are_in_range(numbers) {
            return None;
        }
        let [
            boolean,
            shift,
            normalise,
            add,
            longadd,
            multiply,
            divide,
            population,
            increment,
            load,
            units_boolean,
            units_shift,
            units_add,
            units_longadd,
            units_multiply,
            units_divide,
            units_increment,
        ] = *numbers;
        Some(Profile {
            boolean: u32::from(boolean),
            shift: u32::from(shift),
            normalise: u32::from(normalise),
            add: u32::from(add),
            longadd: u32::from(longadd),
            multiply: u32::from(multiply),
            divide: u32::from(divide),
            population: u32::from(population),
            increment: u32::from(increment),
            load: u32::from(load),
            units_boolean: u32::from(units_boolean),
            units_shift: u32::from(units_shift),
            units_add: u32::from(units_add),
            units_longadd: u32::from(units_longadd),
            units_multiply: u32::from(units_multiply),
            units_divide: u32::from(units_divide),
            units_increment: u32::from(units_increment),
        })
    }

    /// Its seventeen numbers, as `of` takes them.
    pub fn entries(&self) -> [u8; PROFILE_LENGTH]
        ensures value { result ≡ entries self.now }
        ensures range { IsProfile result }
    {
        [
            self.boolean as u8,
            self.shift as u8,
            self.normalise as u8,
            self.add as u8,
            self.longadd as u8,
            self.multiply as u8,
            self.divide as u8,
            self.population as u8,
            self.increment as u8,
            self.load as u8,
            self.units_boolean as u8,
            self.units_shift as u8,
            self.units_add as u8,
            self.units_longadd as u8,
            self.units_multiply as u8,
            self.units_divide as u8,
            self.units_increment as u8,
        ]
    }

    /// Whether each is a number of a profile.
    fn are_in_range(numbers: &[u8; PROFILE_LENGTH]) -> bool
        ensures { IsTrue result ↔ IsProfile numbers.now }
    {
        numbers
            .iter()
            .all(|n| 1 <= *n && u32::from(*n) <= PROFILE_LIMIT)
    }

    /// How many units there are of a kind.
    pub fn copies(&self, kind: Kind) -> u32
        ensures value { result ≡ copies_of self.now kind }
        ensures at_least { 1 ≤ result }
        ensures at_most { result ≤ 100 }
    {
        match kind {
            Kind::Boolean => self.units_boolean,
            Kind::Shift => self.units_shift,
            Kind::Add => self.units_add,
            Kind::LongAdd => self.units_longadd,
            Kind::Multiply => self.units_multiply,
            Kind::Divide => self.units_divide,
            Kind::Increment => self.units_increment,
        }
    }
}

/// Whether the two are one profile.
pub fn is_same_profile(a: &Profile, b: &Profile) -> bool
    ensures { IsTrue result ↔ (a.now ≡ b.now) }
{
    *a == *b
}
