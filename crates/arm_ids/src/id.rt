// Resource ids: their parts, their texts, and how both are made of each other.
ghost use Rattle.std.specs.Prelude.{◌≡◌, ◌==◌, ◌∷◌, ◌++◌, suc, ◌↔◌, length, chars, Some, string_bytes};
ghost use Rattle.std.specs.Prelude.{true, false, IsTrue, IfOk, IfErr, IfSome, IfNone, OnOk};
ghost use Rattle.arm_ids.specs.Segments.{slashed, joined, by_turns, firsts, seconds};
ghost use Rattle.arm_ids.specs.Id.{path, are_words, reading_of, resource_at, folded, text_of, if_whole};
ghost use Rattle.arm_ids.specs.Id.{folded_text, start_of};
ghost use Rattle.arm_value.specs.Look.{fold};
ghost use Rattle.arm_ids.specs.Id.{IsPlain, IsIdOf, Refuses};

use crate::fault::IdFault;
use crate::segment::{
    all_folded, copy_pair, folded, has_empty_segment, is_front, names_of, push_segment, same_texts,
    segments, slashed, types_of,
};
use arm_value::{OutOfMemory, Text, Texts, copy_texts};
use std::alloc::Global;

/// Where a deployment is made. The names are as they were given, in letters of any case.
#[derive(Debug, Drop)]
pub struct Place {
    /// The subscription's id.
    pub subscription: Text,
    /// The name of the resource group.
    pub group: Text,
    /// The location of the group, as `westeurope`.
    pub location: Text,
    /// The name of the deployment.
    pub deployment: Text,
}

impl Place {
    /// An equal place.
    pub fn copy(&self, alloc: Global) -> Result<Place, OutOfMemory>
        ensures { IfOk result (λ place. place ≡ self.now) }
    {
        let (subscription, group) = copy_pair(alloc, &self.subscription, &self.group)?;
        let (location, deployment) = copy_pair(alloc, &self.location, &self.deployment)?;
        Ok(Place {
            subscription,
            group,
            location,
            deployment,
        })
    }
}

/// The parts of a resource id, with their letters as they were spelled.
///
/// `types` begins with the provider's name (the namespace, as `Microsoft.Storage`) and has one
/// segment more than `names`.
#[derive(Debug, Drop)]
pub struct ResourceId {
    pub subscription: Text,
    pub group: Text,
    pub types: Texts,
    pub names: Texts,
}

impl ResourceId {
    ghost use Rattle.arm_ids.specs.Id.{resource_at, folded, text_of, has_empty_segment, is_whole, IsResourceId};
    ghost use Rattle.arm_ids.specs.Id.{IsPlain, reading, Refuses, IsNoId};
    ghost use Rattle.arm_ids.specs.Parent.{begins};

    /// The id of a resource in the subscription and group of a place, by its full type and its full name.
    ///
    /// # Errors
    ///
    /// `EmptySegment` exactly where the subscription, the group, or a segment of type or name is empty; else
    /// `SegmentsDiffer` exactly where the type has not one segment more than the name.
    pub fn of(alloc: Global, place: &Place, kind: &str, name: &str) -> Result<ResourceId, IdFault>
        ensures ok { IfOk result (λ i. i ≡ resource_at place.now kind.now name.now) }
        ensures is_id { IfOk result IsResourceId }
        ensures fault { IfErr result (Refuses (resource_at place.now kind.now name.now)) }
    {
        let id = resource_at(alloc, place, kind, name)?;
        match id.fault() {
            Some(fault) => Err(fault),
            None => Ok(id),
        }
    }

    /// The id that a text is, with its letters as the text has them. The fixed words may have
    /// letters of any case.
    ///
    /// # Errors
    ///
    /// `NotAnId` exactly where the text is no resource id.
    pub fn read(alloc: Global, id: &str) -> Result<ResourceId, IdFault>
        ensures ok { IfOk result (λ i. reading (chars id.now) ≡ Some i) }
        ensures is_id { IfOk result IsResourceId }
        ensures fault { IfErr result (IsNoId (chars id.now)) }
    {
        let segments = segments(alloc, id)?;
        match spelled(alloc, segments.as_slice())? {
            Some(id) => Ok(id),
            None => Err(IdFault::NotAnId),
        }
    }

    /// The text of the id, `/subscriptions/s/resourceGroups/g/providers/N/t1/n1/..`.
    pub fn text(&self, alloc: Global) -> Result<Text, OutOfMemory>
        ensures text { IfOk result (λ t. t ≡ text_of self.now) }
        ensures reads_back { IfOk result (λ t. IsResourceId self.now → IsPlain self.now
            → reading t ≡ Some self.now) }
    {
        let mut text = self.start(alloc)?;
        push_path(&mut text, &self.types, &self.names)?;
        Ok(Text::from_string(text))
    }

    // The text up to the provider's name.
    fn start(&self, alloc: Global) -> Result<String, OutOfMemory>
        ensures { IfOk result (λ s. chars (string_bytes s) ≡ slashed (start_of self.now)) }
    {
        slashed(
            alloc,
            &[
                "subscriptions",
                self.subscription.as_str(),
                "resourceGroups",
                self.group.as_str(),
                "providers",
            ],
        )
    }

    /// The full type, as `Microsoft.Storage/storageAccounts`.
    pub fn full_type(&self, alloc: Global) -> Result<Text, OutOfMemory>
        ensures { IfOk result (λ t. t ≡ joined self.now.types) }
    {
        joined(alloc, &self.types)
    }

    /// The full name: the names from the outermost resource inwards, with a slash between each two.
    pub fn full_name(&self, alloc: Global) -> Result<Text, OutOfMemory>
        ensures { IfOk result (λ t. t ≡ joined self.now.names) }
    {
        joined(alloc, &self.names)
    }

    /// The same id in small ASCII letters.
    pub(crate) fn folded(&self, alloc: Global) -> Result<ResourceId, OutOfMemory>
        ensures { IfOk result (λ i. i ≡ folded self.now) }
    {
        let types = all_folded(alloc, &self.types)?;
        let names = all_folded(alloc, &self.names)?;
        folded_in(alloc, &self.subscription, &self.group, types, names)
    }

    // The text of the id in small ASCII letters.
    pub(crate) fn folded_text(&self, alloc: Global) -> Result<Text, OutOfMemory>
        ensures { IfOk result (λ t. t ≡ folded_text self.now) }
    {
        let text = self.text(alloc)?;
        folded(alloc, text.as_str())
    }

    /// An equal id, with its letters as they were spelled.
    pub fn copy(&self, alloc: Global) -> Result<ResourceId, OutOfMemory>
        ensures { IfOk result (λ i. i ≡ self.now) }
    {
        let types = copy_texts(alloc, &self.types)?;
        let names = copy_texts(alloc, &self.names)?;
        id_in(alloc, &self.subscription, &self.group, types, names)
    }

    // Whether both have the same parts, with the same letters.
    pub(crate) fn same(&self, other: &ResourceId) -> bool
        ensures { IsTrue result ↔ (self.now ≡ other.now) }
    {
        self.subscription.same(&other.subscription)
            && self.group.same(&other.group)
            && same_texts(&self.types, &other.types)
            && same_texts(&self.names, &other.names)
    }

    // Whether the other's types and names begin with these, in the same group.
    pub(crate) fn begins(&self, other: &ResourceId) -> bool
        ensures { result ≡ begins self.now other.now }
    {
        self.subscription.same(&other.subscription)
            && self.group.same(&other.group)
            && is_front(&self.types, &other.types)
            && is_front(&self.names, &other.names)
    }

    // Why the parts are no id.
    fn fault(&self) -> Option<IdFault>
        ensures some { IfSome result (λ fault. Refuses self.now fault) }
        ensures none { IfNone result ((has_empty_segment self.now ≡ false)
            × (length self.now.types ≡ suc (length self.now.names))) }
    {
        if self.has_empty_segment() {
            return Some(IdFault::EmptySegment);
        }
        if !self.is_paired() {
            return Some(IdFault::SegmentsDiffer);
        }
        None
    }

    fn has_empty_segment(&self) -> bool
        ensures { result ≡ has_empty_segment self.now }
    {
        self.subscription.is_empty()
            || self.group.is_empty()
            || has_empty_segment(self.types.as_slice())
            || has_empty_segment(self.names.as_slice())
    }

    // Whether there is one type segment more than names.
    fn is_paired(&self) -> bool
        ensures { result ≡ (length self.now.types == suc (length self.now.names)) }
    {
        self.types.len() > 0 && self.types.len() - 1 == self.names.len()
    }

    fn is_whole(&self) -> bool
        ensures { result ≡ is_whole self.now }
    {
        !self.has_empty_segment() && self.is_paired() && self.names.len() > 0
    }
}

/// The id of a resource in the subscription and group of a place, by its full type and its full name, with the letters
/// as they are spelled.
///
/// # Errors
///
/// `EmptySegment` exactly where the subscription, the group, or a segment of type or name is empty; else
/// `SegmentsDiffer` exactly where the type has not one segment more than the name.
pub fn id_text(alloc: Global, place: &Place, kind: &str, name: &str) -> Result<Text, IdFault>
    ensures ok { IfOk result (λ t. t ≡ text_of (resource_at place.now kind.now name.now)) }
    ensures reads_back { IfOk result (λ t. IsPlain (resource_at place.now kind.now name.now)
        → IsIdOf t (folded (resource_at place.now kind.now name.now))) }
    ensures fault { IfErr result (Refuses (resource_at place.now kind.now name.now)) }
{
    let id = ResourceId::of(alloc, place, kind, name)?;
    Ok(id.text(alloc)?)
}

// The parts of the id of a type and a name in a place, whether or not they fit.
fn resource_at(
    alloc: Global,
    place: &Place,
    kind: &str,
    name: &str,
) -> Result<ResourceId, OutOfMemory>
    ensures { IfOk result (λ i. i ≡ resource_at place.now kind.now name.now) }
{
    let types = segments(alloc, kind)?;
    let names = segments(alloc, name)?;
    id_in(alloc, &place.subscription, &place.group, types, names)
}

// The id of these types and names in a group of a subscription.
fn id_in(
    alloc: Global,
    subscription: &Text,
    group: &Text,
    types: Texts,
    names: Texts,
) -> Result<ResourceId, OutOfMemory>
    ensures { IfOk result (λ i. i ≡ record {
      subscription = subscription.now;
      group = group.now;
      types = types;
      names = names;
    }) }
{
    let (subscription, group) = copy_pair(alloc, subscription, group)?;
    Ok(ResourceId {
        subscription,
        group,
        types,
        names,
    })
}

// The id of these folded types and names in a group of a subscription, which are folded here.
fn folded_in(
    alloc: Global,
    subscription: &Text,
    group: &Text,
    types: Texts,
    names: Texts,
) -> Result<ResourceId, OutOfMemory>
    ensures { IfOk result (λ i. i ≡ record {
      subscription = fold subscription.now;
      group = fold group.now;
      types = types;
      names = names;
    }) }
{
    let subscription = folded(alloc, subscription.as_str())?;
    let group = folded(alloc, group.as_str())?;
    Ok(ResourceId {
        subscription,
        group,
        types,
        names,
    })
}

// The id whose text has these segments, where there is one.
fn spelled(alloc: Global, segments: &[Text]) -> Result<Option<ResourceId>, OutOfMemory>
    ensures { IfOk result (λ i. i ≡ reading_of segments.now) }
{
    let [
        root,
        subscriptions,
        subscription,
        groups,
        group,
        providers,
        provider,
        path @ ..,
    ] = segments
    else {
        return Ok(None);
    };
    if !root.is_empty() || !are_words(subscriptions, groups, providers) {
        return Ok(None);
    }
    let id = read_parts(alloc, subscription, group, provider, path)?;
    Ok(id)
}

// The id of these segments, where it is whole.
fn read_parts(
    alloc: Global,
    subscription: &Text,
    group: &Text,
    provider: &Text,
    path: &[Text],
) -> Result<Option<ResourceId>, OutOfMemory>
    ensures { IfOk result (λ i. i ≡ if_whole true (record {
      subscription = subscription.now;
      group = group.now;
      types = provider.now ∷ firsts path.now;
      names = seconds path.now;
    })) }
{
    let types = types_of(alloc, provider, path)?;
    let names = names_of(alloc, path)?;
    let id = id_in(alloc, subscription, group, types, names)?;
    Ok(if_whole(id))
}

// The id, where it is whole.
fn if_whole(id: ResourceId) -> Option<ResourceId>
    ensures { result ≡ if_whole true id }
{
    if id.is_whole() { Some(id) } else { None }
}

// Whether these are the fixed words of an id.
fn are_words(subscriptions: &Text, groups: &Text, providers: &Text) -> bool
    ensures { result ≡ are_words subscriptions.now groups.now providers.now }
{
    if !subscriptions.equals_ignore_case("subscriptions") {
        return false;
    }
    if !groups.equals_ignore_case("resourceGroups") {
        return false;
    }
    providers.equals_ignore_case("providers")
}

// The segments as one text, with a slash between each two.
fn joined(alloc: Global, segments: &Texts) -> Result<Text, OutOfMemory>
    ensures { IfOk result (λ t. t ≡ joined segments.now) }
{
    let [first, others @ ..] = segments.as_slice() else {
        return Text::of(alloc, "");
    };
    let mut text = String::from_str(alloc, first.as_str())?;
    push_segments(&mut text, others)?;
    Ok(Text::from_string(text))
}

// Adds a slash and the segment, for each of these.
fn push_segments(text: &mut String, segments: &[Text]) -> Result<(), OutOfMemory>
    ensures { OnOk result (chars (string_bytes text.new)
        ≡ chars (string_bytes text.old) ++ slashed segments.now) }
{
    for segment in segments {
        push_segment(text, segment.as_str())?;
    }
    Ok(())
}

// Adds the provider's name, and then a type and a name by turns.
fn push_path(text: &mut String, types: &Texts, names: &Texts) -> Result<(), OutOfMemory>
    ensures { OnOk result (chars (string_bytes text.new)
        ≡ chars (string_bytes text.old) ++ slashed (path types.now names.now)) }
{
    if let [provider, types @ ..] = types.as_slice() {
        push_segment(text, provider.as_str())?;
        push_turns(text, types, names.as_slice())?;
    }
    Ok(())
}

// Adds a type and a name by turns.
fn push_turns(text: &mut String, types: &[Text], names: &[Text]) -> Result<(), OutOfMemory>
    ensures { OnOk result (chars (string_bytes text.new)
        ≡ chars (string_bytes text.old) ++ slashed (by_turns types.now names.now)) }
{
    for (kind, name) in types.iter().zip(names) {
        push_segment(text, kind.as_str())?;
        push_segment(text, name.as_str())?;
    }
    Ok(())
}
