//! What holds of the functions beyond each one's own definition. The functions here have no body.
ghost use Rattle.std.specs.Prelude.{◌≡◌, ◌<◌, ◌∷◌, [], Some, List, ℕ, true, codes, length, map, option_and_then};
ghost use Rattle.std.specs.Prelude.{slice_index};
ghost use Rattle.std.specs.Str.{all_scalars};
ghost use Rattle.arm_value.specs.Json.{Json, text};
ghost use Rattle.function_identities.specs.Base32.{base32, symbol_of};
ghost use Rattle.function_identities.specs.Encodings.{to_base64, base64_to_string};
ghost use Rattle.function_identities.specs.Identities.{unique_string};

/// `base64ToString` of the `base64` of a text is the text, and it has a value of nothing else: what
/// it gives is a text whose `base64` it was given. The characters of texts are Unicode scalar
/// values.
pub fn decoding_undoes_encoding()
    ensures back { (t : List ℕ) → all_scalars t ≡ true
        → option_and_then (λ s. base64_to_string (s ∷ [])) (to_base64 (text t ∷ []))
        ≡ Some (text t) }
    ensures alone { (s : List ℕ) (j : Json) → all_scalars s ≡ true
        → base64_to_string (text s ∷ []) ≡ Some j
        → (t : List ℕ) × (all_scalars t ≡ true) × (j ≡ text t)
        × (to_base64 (text t ∷ []) ≡ Some (text s)) }
{}

/// What `uniqueString` gives is 13 of the symbols of base32.
pub fn unique_strings_have_13_symbols()
    ensures length { (args : List Json) (s : List ℕ) → unique_string args ≡ Some (text s)
        → length s ≡ 13 }
    ensures symbols { (args : List Json) (s : List ℕ) → unique_string args ≡ Some (text s)
        → (i : ℕ) → i < 13 → (k : ℕ) × (k < 32) × (slice_index s i ≡ symbol_of k) }
{}

/// The examples of RFC 4648, section 10, in small letters and without padding.
pub fn base32_has_the_examples_of_its_standard()
    ensures { map base32 (codes "" ∷ codes "f" ∷ codes "fo" ∷ codes "foo" ∷ codes "foob"
        ∷ codes "fooba" ∷ codes "foobar" ∷ []) ≡ codes "" ∷ codes "my" ∷ codes "mzxq"
        ∷ codes "mzxw6" ∷ codes "mzxw6yq" ∷ codes "mzxw6ytb" ∷ codes "mzxw6ytboi" ∷ [] }
{}
