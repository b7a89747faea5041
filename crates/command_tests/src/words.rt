// Words, and the command that they are.

use command_words::{Build, Command, Deploy, command_of};
use std::alloc::{AllocError, Global};
use std::rt::HostRuntime;
use std::test::Fail;
use template_parts::{Form, Mode};

// A line: words with one space between, ` -> `, and the command; `usage` where they are none.
const COMMANDS: &str = "\
build main.bicep -> build main.bicep 1.0
build main.bicep --language 2.0 -> build main.bicep 2.0
build --language=1.0 main.bicep -> build main.bicep 1.0
deploy main.bicep --group g --name first -> deploy main.bicep g first Incremental none zeros 1.0
deploy --name first --group g main.bicep -> deploy main.bicep g first Incremental none zeros 1.0
deploy --group=g main.bicep --name=first -> deploy main.bicep g first Incremental none zeros 1.0
deploy m --group=-g --name=-n -> deploy m -g -n Incremental none zeros 1.0
deploy m --group=a=b --name n -> deploy m a=b n Incremental none zeros 1.0
deploy m --group g --name n --mode Complete -> deploy m g n Complete none zeros 1.0
deploy m --group g --name n --mode=INCREMENTAL -> deploy m g n Incremental none zeros 1.0
deploy m --group g --name n --parameters p.json -> deploy m g n Incremental p.json zeros 1.0
deploy m --group g --name n --subscription s --language 2.0 -> deploy m g n Incremental none s 2.0
deploy m --mode complete --subscription=s --name n --group g --parameters=p -> deploy m g n Complete p s 1.0
";

// Words that are no command.
const USAGES: &str = "\

build
build a b
build -a
build --
build --help
build a --help
build a --language
build a --language=
build a --language 3.0
build a --language 2
build a --language 1.0 --language 1.0
build a --group g
Build a
--language 1.0 build a
deploy m --group g
deploy --group g --name n
deploy m --group g --group g --name n
deploy m --group g --group=h --name n
deploy m --group --name n
deploy m --group -g --name n
deploy m --group= --name n
deploy m --Group g --name n
deploy m -group g --name n
deploy m --group g --name n --mode Full
deploy m --group g --name n --force
deploy m --group g --name n --
deploy m --group g --name n m
deploy  --group g --name n
deploy m  --group g --name n
run m
";

// The words of a text, which spaces separate.
fn apart(alloc: Global, text: &str) -> Result<Vec<String>, AllocError> {
    let mut words = Vec::new(alloc);
    for word in text.split(' ') {
        words.push(String::from_str(alloc, word)?)?;
    }
    Ok(words)
}

fn version(form: Form) -> &'static str {
    match form {
        Form::One => "1.0",
        Form::Two => "2.0",
    }
}

fn word_of(mode: Mode) -> &'static str {
    match mode {
        Mode::Incremental => "Incremental",
        Mode::Complete => "Complete",
    }
}

// A subscription, or that its id is of zeros.
fn subscription(id: &str) -> &str {
    if id == "00000000-0000-0000-0000-000000000000" {
        "zeros"
    } else {
        id
    }
}

fn built(alloc: Global, build: Build<'_>) -> Result<String, AllocError> {
    format!(in alloc; "build {} {}", build.file, version(build.form))
}

fn deployed(alloc: Global, deploy: Deploy<'_>) -> Result<String, AllocError> {
    let asked = format!(in alloc; "deploy {} {} {}", deploy.file, deploy.group, deploy.name)?;
    let parameters = deploy.parameters.unwrap_or("none");
    let id = subscription(deploy.subscription);
    format!(in alloc;
        "{asked} {} {parameters} {id} {}",
        word_of(deploy.mode),
        version(deploy.form)
    )
}

// What the words of a line are.
fn shown(alloc: Global, line: &str) -> Result<String, AllocError> {
    let words = apart(alloc, line)?;
    match command_of(words.as_slice()) {
        Some(Command::Build(build)) => built(alloc, build),
        Some(Command::Deploy(deploy)) => deployed(alloc, deploy),
        None => String::from_str(alloc, "usage"),
    }
}

// Fails where the words are something else than wanted.
fn check(alloc: Global, words: &str, wanted: &str) -> Result<(), Fail> {
    let found = shown(alloc, words)?;
    if found.as_str() == wanted {
        return Ok(());
    }
    Err(Fail::new(format_args!("{words}: {wanted} but {}", found.as_str())))
}

#[test]
fn commands(rt: HostRuntime) -> Result<(), Fail> {
    let alloc = rt.alloc();
    for line in COMMANDS.lines() {
        let Some((words, wanted)) = line.split_once(" -> ") else {
            return Err(Fail::from("no command in a line"));
        };
        check(alloc, words, wanted)?;
    }
    Ok(())
}

#[test]
fn words_that_are_no_command(rt: HostRuntime) -> Result<(), Fail> {
    let alloc = rt.alloc();
    for line in USAGES.lines() {
        check(alloc, line, "usage")?;
    }
    Ok(())
}
