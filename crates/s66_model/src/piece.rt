//! Examples of pieces: what one expansion makes, a tree over a prefix with leaves and a frontier of prefixes that are still open.

ghost use Rattle.std.specs.Prelude.{[], ◌∷◌};
ghost use Rattle.s66_isa.specs.{Multiply};
ghost use Rattle.s66_model.specs.{NoneNamed, Load, Parcels, Alone, Carries, Frontier, IsPiece, load_problem, multiply_problem, load_piece, one_split, child_omitted};

/// What pieces of a prefix are.
pub fn piece_examples()
    ensures piece_of_one_split { IsPiece NoneNamed multiply_problem [] (one_split Frontier) }
    ensures piece_of_three_splits { IsPiece NoneNamed load_problem [] load_piece }
    ensures piece_of_a_floor { IsPiece NoneNamed multiply_problem [] (Alone (Carries (Load Multiply))) }
    ensures no_piece_of_another_leaf { ¬ IsPiece NoneNamed multiply_problem [] (Alone (Carries Parcels)) }
    ensures no_piece_without_a_child { ¬ IsPiece NoneNamed multiply_problem [] (child_omitted Frontier) }
    ensures no_piece_with_a_whole_order_to_go_on { ¬ IsPiece NoneNamed multiply_problem (1 ∷ 2 ∷ 3 ∷ [])
        (Alone Frontier) }
{}
