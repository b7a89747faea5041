// What the words after a command gave: its file, and the values of its options.

ghost use Rattle.std.specs.Prelude.{◌≡◌, option_map};
ghost use Rattle.command_words.specs.Reading as spec;

/// What a value is for.
#[derive(Clone, Copy)]
pub(crate) enum Place {
    File,
    Group,
    Name,
    Mode,
    Parameters,
    Subscription,
    Language,
}

/// The values that were given, each at most once.
#[derive(Clone, Copy)]
pub(crate) struct Given<'a> {
    pub file: Option<&'a str>,
    pub group: Option<&'a str>,
    pub name: Option<&'a str>,
    pub mode: Option<&'a str>,
    pub parameters: Option<&'a str>,
    pub subscription: Option<&'a str>,
    pub language: Option<&'a str>,
}

/// Before any word was read.
pub(crate) fn nothing<'a>() -> Given<'a>
    ensures { spec.values_of result ≡ spec.nothing }
{
    Given {
        file: None,
        group: None,
        name: None,
        mode: None,
        parameters: None,
        subscription: None,
        language: None,
    }
}

/// The place of an option's value, by the option's name.
#[tactic(auto, unfolding(crate::specs::Reading::place_of))]
pub(crate) fn place_of(option: &str) -> Option<Place>
    ensures { result ≡ spec.place_of option.now }
{
    if option == "group" {
        Some(Place::Group)
    } else if option == "name" {
        Some(Place::Name)
    } else if option == "mode" {
        Some(Place::Mode)
    } else {
        later_place(option)
    }
}

#[tactic(auto, unfolding(crate::specs::Reading::later_place))]
fn later_place(option: &str) -> Option<Place>
    ensures { result ≡ spec.later_place option.now }
{
    if option == "parameters" {
        Some(Place::Parameters)
    } else if option == "subscription" {
        Some(Place::Subscription)
    } else if option == "language" {
        Some(Place::Language)
    } else {
        None
    }
}

/// What was given with one value more, unless its place has a value.
pub(crate) fn put<'a>(given: Given<'a>, place: Place, value: &'a str) -> Option<Given<'a>>
    ensures { option_map spec.values_of result ≡ spec.put (spec.values_of given.entry) place value.now }
{
    if held(given, place).is_some() {
        return None;
    }
    Some(with(given, place, value))
}

// The value that was given for a place.
fn held<'a>(given: Given<'a>, place: Place) -> Option<&'a str>
    ensures { option_map (λ v. v.now) result ≡ spec.held (spec.values_of given.entry) place }
{
    match place {
        Place::File => given.file,
        Place::Group => given.group,
        Place::Name => given.name,
        Place::Mode => given.mode,
        Place::Parameters => given.parameters,
        Place::Subscription => given.subscription,
        Place::Language => given.language,
    }
}

// What was given, with this value for a place.
fn with<'a>(given: Given<'a>, place: Place, value: &'a str) -> Given<'a>
    ensures { spec.values_of result ≡ spec.with (spec.values_of given.entry) place value.now }
{
    let mut given = given;
    match place {
        Place::File => given.file = Some(value),
        Place::Group => given.group = Some(value),
        Place::Name => given.name = Some(value),
        Place::Mode => given.mode = Some(value),
        Place::Parameters => given.parameters = Some(value),
        Place::Subscription => given.subscription = Some(value),
        Place::Language => given.language = Some(value),
    }
    given
}
