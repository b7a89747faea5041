// The compact texts of values in a set, by which equal values are found.
ghost use Rattle.std.specs.Prelude.{◌≡◌, ◌++◌, ◌∷◌, [], List, map, not, IfOk, OnOk};
ghost use Rattle.arm_value.specs.Json.{Json};
ghost use Rattle.arm_value.specs.View.{json};
ghost use Rattle.function_lists.specs.Items.{is_among};
ghost use Rattle.function_lists.specs.Index.{text_of, ReadsBack, IsIndexOf};

use arm_value::{OutOfMemory, Value};
use std::alloc::Global;
use std::collections::BTreeSet;

// The compact text of the value.
fn text_of(alloc: Global, value: &Value) -> Result<Vec<u8>, OutOfMemory>
    ensures text { IfOk result (λ text. text.items ≡ text_of (json value.now)) }
    ensures reads_back { OnOk result (ReadsBack (json value.now)) }
{
    Ok(value.to_json(alloc)?.into_vec())
}

/// Adds the value to the texts of values, and answers whether no equal one was among them.
///
/// It takes time in the order of log n comparisons of texts, for n values.
pub fn add(alloc: Global, texts: &mut BTreeSet<Vec<u8>>, value: &Value) -> Result<bool, OutOfMemory>
    ensures is_new { (js : List Json) → IsIndexOf texts.old js
        → IfOk result (λ is_new. is_new ≡ not (is_among js (json value.now))) }
    ensures added { (js : List Json) → IsIndexOf texts.old js
        → OnOk result (IsIndexOf texts.new (js ++ json value.now ∷ [])) }
{
    let text = text_of(alloc, value)?;
    let is_new = texts.insert(text)?;
    Ok(is_new)
}

/// Whether an equal value is among those whose texts these are.
///
/// It takes time in the order of log n comparisons of texts, for n values.
pub fn has(alloc: Global, texts: &BTreeSet<Vec<u8>>, value: &Value) -> Result<bool, OutOfMemory>
    ensures { (js : List Json) → IsIndexOf texts.now js
        → IfOk result (λ found. found ≡ is_among js (json value.now)) }
{
    let text = text_of(alloc, value)?;
    Ok(texts.contains(&text))
}

/// The compact texts of the values.
///
/// It takes time in the order of n log n comparisons of texts, for n values.
pub fn texts_of(alloc: Global, values: &[Value]) -> Result<BTreeSet<Vec<u8>>, OutOfMemory>
    ensures { IfOk result (λ texts. IsIndexOf texts (map json values.now)) }
{
    let mut texts = BTreeSet::new(alloc);
    for value in values {
        add(alloc, &mut texts, value)?;
    }
    Ok(texts)
}
