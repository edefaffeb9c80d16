//! Laws and examples of packing: in which parcel of a word of 60 bits each instruction of an order begins.

ghost use Rattle.std.specs.Prelude.{ℕ, List, map, reverse, ◌≡◌, [], ◌∷◌};
ghost use Rattle.s66_model.specs.{parcels_from, len_at, Problem, Point, points_of, total_of, next, standard_problem, times_of, parcels_in, fillers_in, packing_gap, two_gaps};

/// The parcels of an order's points are those of its packing.
pub fn packing_law()
    ensures { (b : Problem) (order : List ℕ) →
        map (λ (p : Point). p.parcel) (reverse (points_of b order)) ≡ parcels_from 0 (map (len_at b.block) order) }
{}

/// In which parcel each instruction of an order begins, which parcels a NO fills, and what that costs.
pub fn packing_examples()
    ensures packing_gap_parcels { parcels_in packing_gap (1 ∷ 2 ∷ 3 ∷ 4 ∷ []) ≡ 0 ∷ 1 ∷ 2 ∷ 4 ∷ [] }
    ensures packing_gap_fillers { fillers_in packing_gap (1 ∷ 2 ∷ 3 ∷ 4 ∷ []) ≡ 3 ∷ [] }
    ensures packing_gap_times { times_of packing_gap (1 ∷ 2 ∷ 3 ∷ 4 ∷ []) ≡ (0, 0, 3, 4) ∷ (1, 1, 4, 5) ∷ (2, 2, 5, 6) ∷
        (4, 4, 12, 8) ∷ [] }
    ensures packing_gap_total_1_2_3_4 { total_of (standard_problem packing_gap) (1 ∷ 2 ∷ 3 ∷ 4 ∷ []) ≡ 12 }
    ensures packing_gap_next { next (points_of (standard_problem packing_gap) (1 ∷ 2 ∷ 3 ∷ 4 ∷ [])) ≡ 6 }
    ensures packing_gap_closed { fillers_in packing_gap (4 ∷ 1 ∷ 2 ∷ 3 ∷ []) ≡ [] }
    ensures packing_gap_total_4_1_2_3 { total_of (standard_problem packing_gap) (4 ∷ 1 ∷ 2 ∷ 3 ∷ []) ≡ 8 }
    ensures two_gaps_parcels { parcels_in two_gaps (1 ∷ 2 ∷ 3 ∷ 4 ∷ 5 ∷ 6 ∷ []) ≡ 0 ∷ 1 ∷ 2 ∷ 4 ∷ 6 ∷ 8 ∷ [] }
    ensures two_gaps_fillers { fillers_in two_gaps (1 ∷ 2 ∷ 3 ∷ 4 ∷ 5 ∷ 6 ∷ []) ≡ 3 ∷ 7 ∷ [] }
    ensures two_gaps_total { total_of (standard_problem two_gaps) (1 ∷ 2 ∷ 3 ∷ 4 ∷ 5 ∷ 6 ∷ []) ≡ 16 }
{}
