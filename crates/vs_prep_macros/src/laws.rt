//! Laws of pieces.
ghost use Rattle.std.specs.Prelude.{ℕ, ◌≡◌, ◌∷◌, ◌++◌, ◌-◌, List, length, take};
ghost use Rattle.vs_prep_macros.specs.Pieces.{Pieces, cut_of};
ghost use Rattle.vs_prep_macros.specs.declared.piece.Form.{Form};

/// Bytes are cut into pieces in one way.
pub fn one_cutting()
    ensures { (bytes : List ℕ) (pieces others : List (Form × List ℕ)) →
        Pieces bytes pieces → Pieces bytes others → pieces ≡ others }
{}

/// Bytes are the piece at their front, and what stands behind it.
pub fn front_and_rest()
    ensures { (first : ℕ) (after : List ℕ) → let bytes = first ∷ after in let rest = (cut_of bytes).1 in
        bytes ≡ take (length bytes - length rest) bytes ++ rest }
{}
