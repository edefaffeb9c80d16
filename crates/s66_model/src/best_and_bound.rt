//! Examples of bounds and bests: which times are lower bounds of all legal orders of a block, and which is the best.

ghost use Rattle.s66_model.specs.{IsBound, IsBest, load_problem};

/// What is a bound of a block, and what is its best time.
pub fn bound_examples()
    ensures bound_12 { IsBound load_problem 12 }
    ensures bound_11 { IsBound load_problem 11 }
    ensures no_bound_13 { ¬ IsBound load_problem 13 }
    ensures best_12 { IsBest load_problem 12 }
    ensures no_best_13 { ¬ IsBest load_problem 13 }
    ensures no_best_11 { ¬ IsBest load_problem 11 }
{}
