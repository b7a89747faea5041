// The ids that functions make.
ghost use Rattle.std.specs.Prelude.{◌≡◌, ◌==◌, suc, length, ◌∷◌, ◌++◌, [], chars, codes};
ghost use Rattle.std.specs.Prelude.{string_bytes, map, option_map, IfOk, OnOk};
ghost use Rattle.std.specs.List.{list_any};
ghost use Rattle.arm_value.specs.Json.{text};
ghost use Rattle.arm_value.specs.View.{json};
ghost use Rattle.arm_ids.specs.Segments.{segments, slashed, by_turns, has_slash};
ghost use Rattle.arm_ids.specs.Id.{path};
ghost use Rattle.arm_env.specs.Id.{are_paired, id_in_group, id_in_subscription, with_both};
ghost use Rattle.arm_env.specs.Id.{with_group, resource_id, with_subscription, subscription_id};

use crate::stop::let_go;
use arm_ids::{Place, has_empty_segment};
use arm_value::{OutOfMemory, Text, Texts, Value};
use std::alloc::Global;

/// Adds a slash and the segment.
pub(crate) fn push_segment(text: &mut String, segment: &str) -> Result<(), OutOfMemory>
    ensures { OnOk result (chars (string_bytes text.new)
        ≡ chars (string_bytes text.old) ++ 47 ∷ chars segment.now) }
{
    text.push('/')?;
    text.push_str(segment)?;
    Ok(())
}

// Adds a type and a name by turns.
fn push_turns(text: &mut String, types: &[Text], names: &[Text]) -> Result<(), OutOfMemory>
    ensures { OnOk result (chars (string_bytes text.new)
        ≡ chars (string_bytes text.old) ++ slashed (by_turns types.now names.now)) }
{
    for (kind, name) in types.iter().zip(names) {
        push_segment(text, kind.as_str())?;
        push_segment(text, name.as_str())?;
    }
    Ok(())
}

// Adds the provider's name, and then a type and a name by turns.
fn push_path(text: &mut String, types: &[Text], names: &[Text]) -> Result<(), OutOfMemory>
    ensures { OnOk result (chars (string_bytes text.new)
        ≡ chars (string_bytes text.old) ++ slashed (path types.now names.now)) }
{
    if let [provider, types @ ..] = types {
        push_segment(text, provider.as_str())?;
        push_turns(text, types, names)?;
    }
    Ok(())
}

/// `/subscriptions/s`
pub(crate) fn subscription_text(alloc: Global, subscription: &Text) -> Result<String, OutOfMemory>
    ensures { IfOk result (λ s. chars (string_bytes s)
        ≡ slashed (codes "subscriptions" ∷ subscription.now ∷ [])) }
{
    let mut text = String::new(alloc);
    push_segment(&mut text, "subscriptions")?;
    push_segment(&mut text, subscription.as_str())?;
    Ok(text)
}

/// `/subscriptions/s/resourceGroups/g`
pub(crate) fn group_text(
    alloc: Global,
    subscription: &Text,
    group: &Text,
) -> Result<String, OutOfMemory>
    ensures { IfOk result (λ s. chars (string_bytes s) ≡ slashed (codes "subscriptions"
        ∷ subscription.now ∷ codes "resourceGroups" ∷ group.now ∷ [])) }
{
    let mut text = subscription_text(alloc, subscription)?;
    push_segment(&mut text, "resourceGroups")?;
    push_segment(&mut text, group.as_str())?;
    Ok(text)
}

// The parts of a text between its slashes, borrowed from it.
fn parts(alloc: Global, text: &str) -> Result<Vec<&str>, OutOfMemory>
    ensures { IfOk result (λ v. map (λ x. chars x.now) v.items ≡ segments (chars text.now)) }
{
    text.split('/').collect(alloc)
}

// Texts of these characters.
fn texts_of(alloc: Global, parts: &[&str]) -> Result<Texts, OutOfMemory>
    ensures { IfOk result (λ ts. ts ≡ map (λ x. chars x.now) parts.now) }
{
    let mut texts = Texts::new(alloc);
    for part in parts {
        texts.push(Text::of(alloc, part)?)?;
    }
    Ok(texts)
}

// The parts of a text between its slashes.
fn segments(alloc: Global, text: &Text) -> Result<Texts, OutOfMemory>
    ensures { IfOk result (λ ss. ss ≡ segments text.now) }
{
    let parts = parts(alloc, text.as_str())?;
    let segments = texts_of(alloc, parts.as_slice());
    let_go(parts);
    segments
}

fn has_slash(text: &str) -> bool
    ensures { result ≡ has_slash (chars text.now) }
{
    for c in text.chars() {
        if c == '/' {
            return true;
        }
    }
    false
}

fn have_slash(texts: &[Text]) -> bool
    ensures { result ≡ list_any has_slash texts.now }
{
    for text in texts {
        if has_slash(text.as_str()) {
            return true;
        }
    }
    false
}

// Whether there is one more of the first than of the second.
fn is_one_more(types: &[Text], names: &[Text]) -> bool
    ensures { result ≡ (length types.now == suc (length names.now)) }
{
    types.len() > 0 && types.len() - 1 == names.len()
}

// Whether there is a name for each segment of the type after the first, none is empty, and no name
// has a slash.
fn are_paired(types: &[Text], names: &[Text]) -> bool
    ensures { result ≡ are_paired types.now names.now }
{
    is_one_more(types, names)
        && !has_empty_segment(types)
        && !has_empty_segment(names)
        && !have_slash(names)
}

// The text of an id in a group.
fn group_path(
    alloc: Global,
    subscription: &Text,
    group: &Text,
    types: &[Text],
    names: &[Text],
) -> Result<Text, OutOfMemory>
    ensures { IfOk result (λ t. t ≡ slashed (codes "subscriptions" ∷ subscription.now
        ∷ codes "resourceGroups" ∷ group.now ∷ codes "providers" ∷ path types.now names.now)) }
{
    let mut text = group_text(alloc, subscription, group)?;
    push_segment(&mut text, "providers")?;
    push_path(&mut text, types, names)?;
    Ok(Text::from_string(text))
}

#[tactic(auto, unfolding(arm_ids::specs::Id::text_of))]
fn id_in_group(
    alloc: Global,
    subscription: &Text,
    group: &Text,
    kind: &Text,
    names: &[Text],
) -> Result<Option<Value>, OutOfMemory>
    ensures { IfOk result (λ v. option_map json v
        ≡ option_map text (id_in_group (record { subscription = subscription.now; name = group.now })
        kind.now names.now)) }
{
    let types = segments(alloc, kind)?;
    if subscription.is_empty() || group.is_empty() || !are_paired(types.as_slice(), names) {
        return Ok(None);
    }
    let id = group_path(alloc, subscription, group, types.as_slice(), names)?;
    Ok(Some(Value::Text(id)))
}

// The text of an id in a subscription.
fn subscription_path(
    alloc: Global,
    subscription: &Text,
    types: &[Text],
    names: &[Text],
) -> Result<Text, OutOfMemory>
    ensures { IfOk result (λ t. t ≡ slashed (codes "subscriptions" ∷ subscription.now
        ∷ codes "providers" ∷ path types.now names.now)) }
{
    let mut text = subscription_text(alloc, subscription)?;
    push_segment(&mut text, "providers")?;
    push_path(&mut text, types, names)?;
    Ok(Text::from_string(text))
}

fn id_in_subscription(
    alloc: Global,
    subscription: &Text,
    kind: &Text,
    names: &[Text],
) -> Result<Option<Value>, OutOfMemory>
    ensures { IfOk result (λ v. option_map json v
        ≡ option_map text (id_in_subscription subscription.now kind.now names.now)) }
{
    let types = segments(alloc, kind)?;
    if subscription.is_empty() || !are_paired(types.as_slice(), names) {
        return Ok(None);
    }
    let id = subscription_path(alloc, subscription, types.as_slice(), names)?;
    Ok(Some(Value::Text(id)))
}

fn with_both(
    alloc: Global,
    subscription: &Text,
    group: &Text,
    texts: &[Text],
) -> Result<Option<Value>, OutOfMemory>
    ensures { IfOk result (λ v. option_map json v
        ≡ option_map text (with_both (record { subscription = subscription.now; name = group.now }) texts.now)) }
{
    match texts {
        [kind, names @ ..] => if has_slash(kind.as_str()) {
            id_in_group(alloc, subscription, group, kind, names)
        } else {
            Ok(None)
        },
        [] => Ok(None),
    }
}

fn with_group(
    alloc: Global,
    subscription: &Text,
    group: &Text,
    texts: &[Text],
) -> Result<Option<Value>, OutOfMemory>
    ensures { IfOk result (λ v. option_map json v
        ≡ option_map text (with_group subscription.now group.now texts.now)) }
{
    match texts {
        [first, others @ ..] => if has_slash(first.as_str()) {
            id_in_group(alloc, subscription, group, first, others)
        } else {
            with_both(alloc, group, first, others)
        },
        [] => Ok(None),
    }
}

/// `resourceId`: the id of a type and names, in the place's group, in another group, or in another
/// subscription's group.
pub fn resource_id(
    alloc: Global,
    place: &Place,
    texts: &[Text],
) -> Result<Option<Value>, OutOfMemory>
    ensures { IfOk result (λ v. option_map json v
        ≡ option_map text (resource_id place.now texts.now)) }
{
    match texts {
        [first, others @ ..] => if has_slash(first.as_str()) {
            id_in_group(alloc, &place.subscription, &place.group, first, others)
        } else {
            with_group(alloc, &place.subscription, first, others)
        },
        [] => Ok(None),
    }
}

fn with_subscription(
    alloc: Global,
    subscription: &Text,
    texts: &[Text],
) -> Result<Option<Value>, OutOfMemory>
    ensures { IfOk result (λ v. option_map json v
        ≡ option_map text (with_subscription subscription.now texts.now)) }
{
    match texts {
        [kind, names @ ..] => if has_slash(kind.as_str()) {
            id_in_subscription(alloc, subscription, kind, names)
        } else {
            Ok(None)
        },
        [] => Ok(None),
    }
}

/// `subscriptionResourceId`: the id of a type and names in the place's subscription or another.
pub fn subscription_id(
    alloc: Global,
    place: &Place,
    texts: &[Text],
) -> Result<Option<Value>, OutOfMemory>
    ensures { IfOk result (λ v. option_map json v
        ≡ option_map text (subscription_id place.now texts.now)) }
{
    match texts {
        [first, others @ ..] => if has_slash(first.as_str()) {
            id_in_subscription(alloc, &place.subscription, first, others)
        } else {
            with_subscription(alloc, first, others)
        },
        [] => Ok(None),
    }
}
