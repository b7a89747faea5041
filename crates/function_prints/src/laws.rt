//! What holds of the functions beyond each one's own definition. The functions here have no body, but
//! for one, which is about values of the code: its body collects what their type says.
ghost use Rattle.std.specs.Prelude.{◌≡◌, ◌∷◌, [], List, ℕ, Some, chars, encode_utf8_all, IfOk};
ghost use Rattle.serde_json.specs.Written.{compact_text};
ghost use Rattle.arm_value.specs.Fault.{Gives};
ghost use Rattle.arm_value.specs.Json.{Json, text, array, row};
ghost use Rattle.arm_value.specs.Reading.{data_of, reading};
ghost use Rattle.arm_value.specs.View.{json};
ghost use Rattle.function_prints.specs.Format.{format};
ghost use Rattle.function_prints.specs.Pieces.{Piece, spelled, pieces_value};
ghost use Rattle.function_prints.specs.Printed.{join};
ghost use Rattle.function_prints.specs.Stated.{read_json};
ghost use Rattle.function_texts.specs.Cuts.{split};

use crate::whole::has_whole_numbers;
use arm_value::{OutOfMemory, Value};
use std::alloc::Global;

/// A format text is spelled by its pieces alone: characters, with each brace twice, and digits in
/// braces. `format` gives what the pieces become, and has a value of no other text.
pub fn format_fills_pieces()
    ensures pieces { (args : List Json) (ps : List Piece) (t : List ℕ)
        → pieces_value args ps ≡ Some t → format (text (spelled ps) ∷ args) ≡ Some (text t) }
    ensures no_others { (args : List Json) (s t : List ℕ) → format (text s ∷ args) ≡ Some (text t)
        → (ps : List Piece) × (spelled ps ≡ s) × (pieces_value args ps ≡ Some t) }
{}

/// The pieces of a text between the places of a delimiter, joined with it, are the text again.
pub fn split_and_join_recombine()
    ensures { (s delimiter : List ℕ) (js : List Json)
        → split (text s ∷ text delimiter ∷ []) ≡ Some (array (row js))
        → join (array (row js) ∷ text delimiter ∷ []) ≡ Some (text s) }
{}

/// Where the bytes of a text give a value, `json` of the text is that value.
pub fn json_is_what_bytes_give()
    ensures { (s : List ℕ) (j : Json) → Gives (reading (encode_utf8_all s)) j
        → read_json (text s ∷ []) ≡ Some j }
{}

/// For every value, `json` of its compact JSON text is that value. Of an array and of an object this
/// text is its printed form, so `json` of `string` gives it again.
///
/// # Errors
///
/// `OutOfMemory` where the text cannot be made.
pub fn json_reads_printed_values(alloc: Global, value: &Value) -> Result<(), OutOfMemory>
    ensures { IfOk result (λ _. read_json (text (chars (compact_text (data_of (json value.now)))) ∷ [])
        ≡ Some (json value.now)) }
{
    let _printed = value.to_json(alloc)?;
    let _nesting = value.nesting();
    has_whole_numbers(value);
    Ok(())
}
