// Which instance has a name, by the value that lists the nested deployments of a scope.
ghost use Rattle.std.specs.Prelude.{◌≡◌, ◌&&◌, ◌||◌, map, chars};
ghost use Rattle.std.specs.List.{list_any};
ghost use Rattle.arm_value.specs.Json.{array, row};
ghost use Rattle.arm_value.specs.View.{json};
ghost use Rattle.deploy_cells.specs.Listing.{first_index, sought, named_of, instances_of};
ghost use Rattle.plan_listing.specs.Hits.{is_wanted, entry_of, named_by_parts, IsHit, index_in, is_left, IsSoughtIn};
ghost use Rattle.plan_listing.specs.Hits.{sought_of};

use arm_value::{Items, Text, Value};
use function_numbers::kinds::{items_of, text_of, truth_of};

/// What is sought among the nested deployments of a scope.
#[derive(Clone, Copy)]
pub enum Sought {
    /// An instance that is included: which of the nested deployments has it, and at which index.
    Found(usize, usize),
    /// There are only instances that their conditions leave away.
    LeftAway,
    /// There is none.
    NotHere,
}

/// What is sought among the instances of a nested deployment.
#[derive(Clone, Copy)]
enum Hit {
    /// The index of an instance that is included.
    At(usize),
    /// There are only instances that their conditions leave away.
    LeftAway,
    /// There is none.
    NotHere,
}

/// An instance of a nested deployment: its name, and whether it is included.
#[derive(Clone, Copy, Drop)]
pub struct Entry<'a> {
    /// Its name.
    pub name: &'a str,
    /// Whether it is included.
    pub included: bool,
}

// Whether the name is the one that is wanted.
fn is_wanted(wanted: &Option<Text>, name: &str) -> bool
    ensures { result ≡ is_wanted wanted.now (chars name.now) }
{
    match wanted {
        Some(wanted) => wanted.equals_ignore_case(name),
        None => false,
    }
}

// The entry of a name and a truth value.
fn entry_by<'a>(first: &'a Value, second: &Value) -> Entry<'a>
    ensures { entry_of result ≡ named_by_parts (json first.now) (json second.now) }
{
    match text_of(first) {
        Some(name) => match truth_of(second) {
            Some(included) => Entry {
                name: name.as_str(),
                included,
            },
            None => Entry {
                name: "",
                included: false,
            },
        },
        None => Entry {
            name: "",
            included: false,
        },
    }
}

// The entry of an array.
fn entry_of_items<'a>(items: &'a Items) -> Entry<'a>
    ensures { entry_of result ≡ named_of (array (row items.now)) }
{
    let parts = items.as_slice();
    if parts.len() == 2 {
        entry_by(&parts[0], &parts[1])
    } else {
        Entry {
            name: "",
            included: false,
        }
    }
}

/// The instance that an item lists. An item that lists none has an empty name and is not included.
pub fn entry_of<'a>(item: &'a Value) -> Entry<'a>
    ensures { entry_of result ≡ named_of (json item.now) }
{
    match item {
        Value::Array(items) => entry_of_items(items),
        _ => Entry {
            name: "",
            included: false,
        },
    }
}

// Whether both are true.
fn is_both(first: bool, second: bool) -> bool
    ensures { result ≡ (first && second) }
{
    first && second
}

// Whether one of these is true.
fn is_either(first: bool, second: bool) -> bool
    ensures { result ≡ (first || second) }
{
    first || second
}

// The index of the instance that was found.
fn index_in(hit: Hit) -> Option<usize>
    ensures { result ≡ index_in hit }
{
    match hit {
        Hit::At(index) => Some(index),
        Hit::LeftAway => None,
        Hit::NotHere => None,
    }
}

// Whether there are only instances that their conditions leave away.
fn is_left(hit: Hit) -> bool
    ensures { result ≡ is_left hit }
{
    match hit {
        Hit::At(_) => false,
        Hit::LeftAway => true,
        Hit::NotHere => false,
    }
}

// The first of these instances that has the name and is included.
fn first_of(instances: &[Value], wanted: &Option<Text>) -> Hit
    ensures { IsHit result (first_index (is_wanted wanted.now) (map named_of (map json instances.now)))
        (list_any (λ n. is_wanted wanted.now n.name) (map named_of (map json instances.now))) }
{
    let mut left = false;
    for index in 0..instances.len() {
        let entry = entry_of(&instances[index]);
        let named = is_wanted(wanted, entry.name);
        if is_both(entry.included, named) {
            return Hit::At(index);
        }
        left = is_either(left, named);
    }
    if left { Hit::LeftAway } else { Hit::NotHere }
}

// The first instance of a nested deployment that has the name and is included.
fn first_in(instances: &Value, wanted: &Option<Text>) -> Hit
    ensures { IsHit result (first_index (is_wanted wanted.now) (instances_of (json instances.now)))
        (list_any (λ n. is_wanted wanted.now n.name) (instances_of (json instances.now))) }
{
    match items_of(instances) {
        Some(items) => first_of(items.as_slice(), wanted),
        None => Hit::NotHere,
    }
}

// The first of these nested deployments with an instance that has the name and is included.
fn first_among(deployments: &[Value], wanted: &Option<Text>) -> Sought
    ensures { IsSoughtIn (is_wanted wanted.now) (map instances_of (map json deployments.now)) result }
{
    let mut left = false;
    for number in 0..deployments.len() {
        let hit = first_in(&deployments[number], wanted);
        match index_in(hit) {
            Some(index) => return Sought::Found(number, index),
            None => {}
        }
        left = is_either(left, is_left(hit));
    }
    if left {
        Sought::LeftAway
    } else {
        Sought::NotHere
    }
}

/// What is sought by a name in the value that lists the nested deployments of a scope.
pub fn seek_listed(listing: &Value, wanted: &Option<Text>) -> Sought
    ensures { sought_of result ≡ sought (is_wanted wanted.now) (json listing.now) }
{
    match items_of(listing) {
        Some(items) => first_among(items.as_slice(), wanted),
        None => Sought::NotHere,
    }
}
