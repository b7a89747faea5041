// The commands.

ghost use Rattle.std.specs.Prelude.{◌≡◌, map, string_bytes, option_map, Some};
ghost use Rattle.command_words.specs.Reading.{values_of, text_of};
ghost use Rattle.command_words.specs.Commands as spec;

use crate::given::Given;
use crate::reading::read;
use template_parts::{Form, Mode};

/// `build FILE [--language VERSION]`: the template of a Bicep file is printed.
#[derive(Clone, Copy, Debug, PartialEq, Eq)]
pub struct Build<'a> {
    /// The name of the file.
    pub file: &'a str,
    /// The form of the template: `1.0` is `One`, `2.0` is `Two`.
    pub form: Form,
}

/// `deploy FILE --group GROUP --name NAME [--mode MODE] [--parameters FILE] [--subscription ID] [--language VERSION]`:
/// a Bicep file is deployed into a group.
#[derive(Clone, Copy, Debug, PartialEq, Eq)]
pub struct Deploy<'a> {
    /// The name of the file.
    pub file: &'a str,
    /// The name of the group.
    pub group: &'a str,
    /// The name of the deployment.
    pub name: &'a str,
    /// The mode; `Incremental` where none is given.
    pub mode: Mode,
    /// The name of the parameter file.
    pub parameters: Option<&'a str>,
    /// The id of the subscription; zeros where none is given.
    pub subscription: &'a str,
    /// The form of the template: `1.0` is `One`, `2.0` is `Two`.
    pub form: Form,
}

/// What the program is asked to do.
#[derive(Clone, Copy, Debug, PartialEq, Eq)]
pub enum Command<'a> {
    /// The template of a Bicep file is printed.
    Build(Build<'a>),
    /// A Bicep file is deployed.
    Deploy(Deploy<'a>),
}

/// The command that these words are, where they are one.
pub fn command_of<'a>(words: &'a [String]) -> Option<Command<'a>>
    ensures { option_map spec.request_of result ≡ spec.command_of (map string_bytes words.now) }
{
    let [command, words @ ..] = words else {
        return None;
    };
    command_by(command.as_str(), read(words))
}

// A command by its first word and what the others give.
#[tactic(auto, unfolding(crate::specs::Commands::command_by))]
fn command_by<'a>(command: &str, given: Option<Given<'a>>) -> Option<Command<'a>>
    ensures { option_map spec.request_of result ≡ spec.command_by command.now (option_map values_of given.entry) }
{
    if command == "build" {
        built(given)
    } else if command == "deploy" {
        deployed(given)
    } else {
        None
    }
}

fn built<'a>(given: Option<Given<'a>>) -> Option<Command<'a>>
    ensures { option_map spec.request_of result ≡ spec.built (option_map values_of given.entry) }
{
    match given {
        None => None,
        Some(given) => build_of(given),
    }
}

fn deployed<'a>(given: Option<Given<'a>>) -> Option<Command<'a>>
    ensures { option_map spec.request_of result ≡ spec.deployed (option_map values_of given.entry) }
{
    match given {
        None => None,
        Some(given) => deploy_of(given),
    }
}

// The command `build` of these values.
fn build_of<'a>(given: Given<'a>) -> Option<Command<'a>>
    ensures { option_map spec.request_of result ≡ spec.build (values_of given.entry) }
{
    if has_others(given) {
        return None;
    }
    match (given.file, form_of(given.language)) {
        (Some(file), Some(form)) => Some(Command::Build(Build { file, form })),
        _ => None,
    }
}

// Whether a value is given that `build` has no place for.
#[tactic(auto, unfolding(crate::specs::Commands::has_others))]
fn has_others<'a>(given: Given<'a>) -> bool
    ensures { result ≡ spec.has_others (values_of given.entry) }
{
    given.group.is_some()
        || given.name.is_some()
        || given.mode.is_some()
        || given.parameters.is_some()
        || given.subscription.is_some()
}

// The command `deploy` of these values.
fn deploy_of<'a>(given: Given<'a>) -> Option<Command<'a>>
    ensures { option_map spec.request_of result ≡ spec.deploy (values_of given.entry) }
{
    match (mode_of(given.mode), form_of(given.language)) {
        (Some(mode), Some(form)) => named_deploy(given, mode, form),
        _ => None,
    }
}

fn named_deploy<'a>(given: Given<'a>, mode: Mode, form: Form) -> Option<Command<'a>>
    ensures { option_map spec.request_of result ≡ spec.deploy_in (values_of given.entry) mode form }
{
    match (given.file, given.group, given.name) {
        (Some(file), Some(group), Some(name)) => Some(Command::Deploy(Deploy {
            file,
            group,
            name,
            mode,
            parameters: given.parameters,
            subscription: subscription_of(given.subscription),
            form,
        })),
        _ => None,
    }
}

// The mode of a word in letters of any case; `Incremental` where none is given.
fn mode_of(word: Option<&str>) -> Option<Mode>
    ensures { result ≡ spec.mode_of (text_of word.entry) }
{
    match word {
        None => Some(Mode::Incremental),
        Some(word) => named_mode(word),
    }
}

#[tactic(auto, unfolding(crate::specs::Commands::named_mode))]
fn named_mode(word: &str) -> Option<Mode>
    ensures { result ≡ spec.named_mode word.now }
{
    if word.eq_ignore_ascii_case("incremental") {
        Some(Mode::Incremental)
    } else if word.eq_ignore_ascii_case("complete") {
        Some(Mode::Complete)
    } else {
        None
    }
}

// The form of a version of the template language; `One` where none is given.
fn form_of(word: Option<&str>) -> Option<Form>
    ensures { result ≡ spec.form_of (text_of word.entry) }
{
    match word {
        None => Some(Form::One),
        Some(word) => named_form(word),
    }
}

#[tactic(auto, unfolding(crate::specs::Commands::named_form))]
fn named_form(word: &str) -> Option<Form>
    ensures { result ≡ spec.named_form word.now }
{
    if word == "1.0" {
        Some(Form::One)
    } else if word == "2.0" {
        Some(Form::Two)
    } else {
        None
    }
}

fn subscription_of<'a>(word: Option<&'a str>) -> &'a str
    ensures { result.now ≡ spec.subscription_of (text_of word.entry) }
{
    match word {
        None => "00000000-0000-0000-0000-000000000000",
        Some(word) => word,
    }
}
