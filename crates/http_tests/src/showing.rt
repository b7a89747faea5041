// What a request asks, in words.
use crate::writing::{compare, letting_go, say, text_of};
use arm_edges::MemSource;
use arm_ids::Scope;
use arm_value::{Bytes, Text, Value};
use deploy_http::{Ask, HttpFault, Request, Routes, next_request, read_request};
use http_routes::{DeploymentAt, GroupAt, LockAt};
use lock_rules::Level;
use std::alloc::{AllocError, Global};
use std::test::Fail;
use template_parts::Mode;

/// A source of these bytes, which come by those cuts. The reads of these numbers fail.
pub(crate) fn source_of(
    alloc: Global,
    bytes: &[u8],
    cuts: &[usize],
    fails: &[u64],
) -> Result<MemSource, AllocError> {
    let bytes = Vec::from_slice(alloc, bytes)?;
    let cuts = Vec::from_slice(alloc, cuts)?;
    Ok(MemSource::new(bytes, cuts, Vec::from_slice(alloc, fails)?))
}

/// Adds what is read next, in words.
pub(crate) fn say_next(
    out: &mut String,
    alloc: Global,
    source: &mut MemSource,
    rest: &mut Bytes,
) -> Result<(), AllocError> {
    let answer = read_request(alloc, source, rest);
    letting_go(say_answer(out, alloc, &answer), answer)
}

/// The same, by these routes.
pub(crate) fn say_next_by(
    out: &mut String,
    alloc: Global,
    routes: &Routes,
    source: &mut MemSource,
    rest: &mut Bytes,
) -> Result<(), AllocError> {
    let answer = next_request(alloc, routes, source, rest);
    letting_go(say_answer(out, alloc, &answer), answer)
}

// Adds what is read of the source, in words.
fn say_first(out: &mut String, alloc: Global, source: MemSource) -> Result<(), AllocError> {
    let (mut source, mut rest) = (source, Bytes::from_vec(Vec::new(alloc)));
    say_next(out, alloc, &mut source, &mut rest)
}

/// Fails unless this is read of the bytes, which come by those cuts and those reads fail. What is asked names the case.
pub(crate) fn check_read(
    alloc: Global,
    asked: &str,
    (bytes, cuts, fails): (&[u8], &[usize], &[u64]),
    wanted: &str,
) -> Result<(), Fail> {
    let source = source_of(alloc, bytes, cuts, fails)?;
    let mut found = String::new(alloc);
    say_first(&mut found, alloc, source)?;
    compare(asked, found.as_str(), wanted)
}

// Adds an answer in words.
fn say_answer(
    out: &mut String,
    alloc: Global,
    answer: &Result<Option<Request>, HttpFault>,
) -> Result<(), AllocError> {
    match answer {
        Ok(Some(request)) => {
            say_asked(out, alloc, &request.ask)?;
            out.push_str(if request.close { ", close" } else { "" })
        }
        Ok(None) => out.push_str("the end"),
        Err(fault) => out.push_str(word(*fault)),
    }
}

fn word(fault: HttpFault) -> &'static str {
    match fault {
        HttpFault::BadRequest => "BadRequest",
        HttpFault::HeadTooLarge => "HeadTooLarge",
        HttpFault::BodyTooLarge => "BodyTooLarge",
        HttpFault::NotFound => "NotFound",
        HttpFault::MethodNotAllowed => "MethodNotAllowed",
        HttpFault::MissingApiVersion => "MissingApiVersion",
        HttpFault::LengthRequired => "LengthRequired",
        HttpFault::ReadFault => "ReadFault",
        HttpFault::OutOfMemory => "OutOfMemory",
    }
}

// Adds what is asked, in words.
fn say_asked(out: &mut String, alloc: Global, ask: &Ask) -> Result<(), AllocError> {
    match ask {
        Ask::ListGroups(s) => say(out, &["ListGroups", s.as_str()]),
        Ask::PutGroup(at, location) => say_put_group(out, at, location),
        Ask::GetGroup(at) => say_group(out, "GetGroup", at),
        Ask::DeleteGroup(at) => say_group(out, "DeleteGroup", at),
        Ask::ListResources(at) => say_group(out, "ListResources", at),
        Ask::Deploy { .. } => say_deployed(out, alloc, ask),
        other => say_more(out, other),
    }
}

// Adds what is asked of a deployment that is there, of a resource or of a lock.
fn say_more(out: &mut String, ask: &Ask) -> Result<(), AllocError> {
    match ask {
        Ask::GetDeployment(at) => say_deployment(out, "GetDeployment", at),
        Ask::Resume(at) => say_maybe(out, "Resume", at),
        Ask::Abandon(at) => say_maybe(out, "Abandon", at),
        Ask::GetResource(at) => say(out, &["GetResource", at.id.as_str()]),
        Ask::DeleteResource(at) => say(out, &["DeleteResource", at.id.as_str()]),
        other => say_of_lock(out, other),
    }
}

// Adds what is asked of a lock.
fn say_of_lock(out: &mut String, ask: &Ask) -> Result<(), AllocError> {
    match ask {
        Ask::PutLock { at, level, notes } => say_put_lock(out, at, *level, notes),
        Ask::GetLock(at) => say_lock(out, "GetLock", at),
        Ask::DeleteLock(at) => say_lock(out, "DeleteLock", at),
        _ => say(out, &["something else"]),
    }
}

fn say_group(out: &mut String, word: &str, at: &GroupAt) -> Result<(), AllocError> {
    say(out, &[word, at.subscription.as_str(), at.group.as_str()])
}

fn say_put_group(out: &mut String, at: &GroupAt, location: &Text) -> Result<(), AllocError> {
    say_group(out, "PutGroup", at)?;
    say(out, &["", location.as_str()])
}

fn say_deployment(out: &mut String, word: &str, at: &DeploymentAt) -> Result<(), AllocError> {
    let (s, g, n) = (&at.subscription, &at.group, &at.name);
    say(out, &[word, s.as_str(), g.as_str(), n.as_str()])
}

fn say_maybe(out: &mut String, word: &str, at: &Option<DeploymentAt>) -> Result<(), AllocError> {
    match at {
        Some(at) => say_deployment(out, word, at),
        None => say(out, &[word]),
    }
}

fn say_lock(out: &mut String, word: &str, at: &LockAt) -> Result<(), AllocError> {
    let kind = match &at.scope {
        Scope::Subscription(_) => "subscription",
        Scope::Group(_, _) => "group",
        Scope::Resource(_) => "resource",
    };
    say(out, &[word, kind, at.id.as_str(), at.name.as_str()])
}

fn say_put_lock(
    out: &mut String,
    at: &LockAt,
    level: Level,
    notes: &Text,
) -> Result<(), AllocError> {
    say_lock(out, "PutLock", at)?;
    say(out, &["", level.as_str(), "'"])?;
    out.push_str(notes.as_str())?;
    out.push_str("'")
}

fn mode_word(mode: Mode) -> &'static str {
    match mode {
        Mode::Incremental => "Incremental",
        Mode::Complete => "Complete",
    }
}

fn say_deployed(out: &mut String, alloc: Global, ask: &Ask) -> Result<(), AllocError> {
    let Ask::Deploy {
        subscription,
        group,
        name,
        mode,
        template,
        parameters,
    } = ask
    else {
        return say(out, &["no deployment"]);
    };
    let (s, g, n) = (subscription.as_str(), group.as_str(), name.as_str());
    write!(out, "Deploy {s} {g} {n} {} ", mode_word(*mode))?;
    say(out, &[text_of(template.as_slice()), ""])?;
    say_given(out, alloc, parameters)
}

// Adds the parameters as JSON text, or `none`.
fn say_given(
    out: &mut String,
    alloc: Global,
    parameters: &Option<Value>,
) -> Result<(), AllocError> {
    match parameters {
        Some(parameters) => {
            let bytes = parameters.to_json(alloc)?;
            out.push_str(text_of(bytes.as_slice()))
        }
        None => out.push_str("none"),
    }
}
