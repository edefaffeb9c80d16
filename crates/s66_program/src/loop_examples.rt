//! Worked examples: what lines are for a loop, and by what name blocks are entered. The functions do nothing.

ghost use Rattle.std.specs.Prelude.{[], ◌∷◌, ◌≡◌, true, false, codes};
ghost use Rattle.s66_program.specs.{entries_from, step_of, target_in, Branch, End, Jump, Nothing, Word};

/// What lines are, and where they go.
pub fn statement_examples()
    ensures branch { step_of (codes "  nz X1,LOOP") ≡ Branch }
    ensures compares { step_of (codes "  EQ B1,B2,LOOP") ≡ Branch }
    ensures jumps { step_of (codes "  EQ LOOP") ≡ Jump }
    ensures computed { step_of (codes "L JP B1+LOOP") ≡ Jump }
    ensures reserves { step_of (codes "LOOP BSS 0") ≡ Word }
    ensures room { step_of (codes "LOOP BSS 1") ≡ End }
    ensures called { step_of (codes "  RJ SUB") ≡ End }
    ensures comment { step_of (codes "* NZ X1,LOOP") ≡ Nothing }
    ensures third { target_in (codes "B1,B2,LOOP") ≡ codes "LOOP" }
    ensures alone { target_in (codes "LOOP") ≡ codes "LOOP" }
{}

/// A name before a block, past a comment; a block's own name; a `+`, before which stands a name; and a block behind a block.
pub fn entry_examples()
    ensures { entries_from [] (record { line = 1; is_block = false; bytes = codes "SUB PS" } ∷
        record { line = 2; is_block = false; bytes = codes "*S66 ON" } ∷ record { line = 3; is_block = true; bytes = [] } ∷
        record { line = 9; is_block = true; bytes = codes "L" } ∷ record { line = 10; is_block = false; bytes = codes "M ZR X1,L" } ∷
        record { line = 11; is_block = true; bytes = codes "+" } ∷ record { line = 12; is_block = true; bytes = codes "-" } ∷ []) ≡
        codes "SUB" ∷ codes "L" ∷ codes "M" ∷ [] ∷ [] }
{}
