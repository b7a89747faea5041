//! What holds of texts that are cut. The functions here have no body.
ghost use Rattle.std.specs.Prelude.{◌≡◌, List, ℕ, true};
ghost use Rattle.function_texts.specs.Cuts.{ArePieces, pieces, none_empty};

/// The pieces of `split`, and those that `replace` joins, are what the cuts of the text leave, each
/// at the first place where a delimiter begins; no other texts are.
pub fn pieces_are_between_cuts()
    ensures are { (ds : List (List ℕ)) (s : List ℕ) → none_empty ds ≡ true → ArePieces ds s (pieces ds s) }
    ensures no_others { (ds : List (List ℕ)) (s : List ℕ) (ps : List (List ℕ))
        → none_empty ds ≡ true → ArePieces ds s ps → ps ≡ pieces ds s }
{}
