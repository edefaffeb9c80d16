//! What is true of all that is written: contracts of functions that do nothing.

ghost use Rattle.std.specs.Prelude.{ℕ, List, ◌≡◌, ◌≤◌, length, nat_lt};
ghost use Rattle.s66_isa.specs.{Among, BLOCK_LIMIT};
ghost use Rattle.s66_isa.specs.Table.{Instr};
ghost use Rattle.s66_model.specs.{conflict, Problem, points_of, point_of};
ghost use Rattle.s66_why.specs.{AreFromOne, IsForbidden, hazards, AddsUp, AreEachOnce, stretches_at, Stretch as StretchOf};

/// Each stretch of an instruction that comes after others ends because of an earlier instruction, for which a rule forbids a minor
/// cycle less.
pub fn cause_law()
    ensures { (b : Problem) (ns : List ℕ) (n : ℕ) (x : StretchOf) → length ns ≤ BLOCK_LIMIT → AreFromOne ns →
        Among x (stretches_at (points_of b ns) (point_of b (points_of b ns) n)) →
        IsForbidden b (points_of b ns) (point_of b (points_of b ns) n) x }
{}

/// The steps of an order, whose numbers are printed, are those of a path: it begins at minor cycle 0 and ends at the order's time. On
/// each of its instructions the next one waits by a rule, or stands in line behind it, and what the steps add is that time.
pub fn path_law()
    ensures { (b : Problem) (ns : List ℕ) → 1 ≤ length ns → AreFromOne ns → AreEachOnce ns → AddsUp b (points_of b ns) }
{}

/// Two instructions must keep their order exactly when a hazard is told between them.
pub fn hazard_law()
    ensures { (m n : Instr) → nat_lt 0 (length (hazards m n)) ≡ conflict m n }
{}
