// Near misses: a file with one mistake, and the place from which no file continues.

use crate::hosts::{CLUSTER, CONTAINERS, FUNCTIONS, MACHINE, QUEUES, SITE};
use crate::networks::{ENDPOINTS, NETWORK, PEERINGS, RECORDS, RULES};
use crate::plain::{SETTINGS, SUMS, TEXTS};
use crate::reading::{compare, letting_go};
use crate::stored::{COSMOS, SQL, STORAGE, VAULT};
use crate::wholes::{GUARD, MODULES, ROLES};
use bicep_lexer::{Token, tokens};
use bicep_parser::{ParseFault, parse};
use bicep_tree::File;
use std::alloc::{AllocError, Global};
use std::test::Fail;

// A file, what is right in it, and the mistake that replaces it: `^` marks the token with which no
// file continues.
type Miss = (&'static str, &'static str, &'static str);

const STORED: [Miss; 8] = [
    (STORAGE, "kind: 'StorageV2'", "kind ^'StorageV2'"),
    (STORAGE, "@minLength(3)\n", "@minLength(3\n^"),
    (
        STORAGE,
        "= [for name in containers: {",
        "= [for name in containers ^{",
    ),
    (VAULT, "[ 'get', 'list' ]", "[ 'get' ^'list' ]"),
    (VAULT, "enabled: true\n", "enabled: true ^exp\n"),
    (
        COSMOS,
        "[for (region, i) in regions",
        "[for (region, i) ^of regions",
    ),
    (COSMOS, "5 * 60", "5 * ^* 60"),
    (
        SQL,
        "'ElasticPool' }\n      : {",
        "'ElasticPool' }\n      ^{",
    ),
];

const NETWORKS: [Miss; 7] = [
    (
        NETWORK,
        "output id string = network.id",
        "output id ^= network.id",
    ),
    (NETWORK, "addressPrefix string", "addressPrefix ^text"),
    (
        NETWORK,
        "subnet.delegation }\n          }\n        ]",
        "subnet.delegation\n          }\n        ^]",
    ),
    (
        ENDPOINTS,
        "existing = {\n  name: 'stshop'",
        "= ^existing {\n  name: 'stshop'",
    ),
    (RULES, "if (!isOpen) {", "if ^!isOpen {"),
    (PEERINGS, "hub::out[i]\n  ]\n}]\n", "hub::out[i]\n  ]\n}^\n"),
    (
        RECORDS,
        "= zone.properties.nameServers[?0] ?? 'none'\n",
        "=^",
    ),
];

const HOSTS: [Miss; 6] = [
    (SITE, "name: skuName, capacity:", "name: skuName ^capacity:"),
    (FUNCTIONS, "az.resourceId('", "app.resourceId^('"),
    (CONTAINERS, "scale: {", "scale ^= {"),
    (
        MACHINE,
        "[for (size, i) in diskSizes: {",
        "[\n        for (size, i) ^in diskSizes: {",
    ),
    (
        CLUSTER,
        "hourSlots: [ 1, 2, 3 ] } ]",
        "hourSlots: [ 1, 2, 3 ^} ]",
    ),
    (
        QUEUES,
        "bus::events::readers[0].name",
        "bus::events::^[0].name",
    ),
];

const WHOLES: [Miss; 7] = [
    (MODULES, "'modules/network.bicep'", "^modules/network.bicep"),
    (MODULES, "@batchSize(3)\n", "@batchSize(3) ^"),
    (ROLES, "roles['secrets'])}'\n", "roles['secrets'],^)}'\n"),
    (GUARD, "metadata name = ", "metadata ^= "),
    (SETTINGS, ".?zones[?0]", ".?^[0]"),
    (SUMS, "count +\n  price", "count\n  ^+ price"),
    (
        TEXTS,
        "'https://${user}@${host}:${port}/'",
        "'https://${user}@${host ^port}/'",
    ),
];

// The source with the mistake in the place of what is right, which is there once, and the offset that
// is marked.
fn mistaken(alloc: Global, miss: &Miss) -> Result<(String, usize), Fail> {
    let Some((front, back)) = miss.0.split_once(miss.1) else {
        return Err(Fail::from("no such text"));
    };
    if back.find(miss.1).is_some() {
        return Err(Fail::from("a text that stands twice"));
    }
    let Some((before, after)) = miss.2.split_once('^') else {
        return Err(Fail::from("no mark"));
    };
    let mut source = String::from_str(alloc, front)?;
    source.push_str(before)?;
    let offset = source.len();
    source.push_str(after)?;
    source.push_str(back)?;
    Ok((source, offset))
}

fn said(alloc: Global, answer: &Result<File, ParseFault>) -> Result<String, AllocError> {
    match answer {
        Ok(_) => String::from_str(alloc, "a file"),
        Err(fault) => format!(in alloc; "{fault}"),
    }
}

// What is answered of these tokens.
fn parsed(alloc: Global, tokens: &[Token]) -> Result<String, Fail> {
    let answer = parse(alloc, tokens);
    Ok(letting_go(said(alloc, &answer), answer)?)
}

// What is answered of a source.
fn answered(alloc: Global, source: &str) -> Result<String, Fail> {
    match tokens(alloc, source) {
        Ok(found) => letting_go(parsed(alloc, found.as_slice()), found),
        Err(fault) => Ok(format!(in alloc; "{fault}")?),
    }
}

fn compare_answer(alloc: Global, source: &str, offset: usize, mistake: &str) -> Result<(), Fail> {
    let wanted = format!(in alloc; "not a file at {offset}")?;
    let found = answered(alloc, source)?;
    compare(mistake, found.as_str(), wanted.as_str())
}

// Compares where each mistake is refused.
fn compare_all(alloc: Global, misses: &[Miss]) -> Result<(), Fail> {
    for miss in misses {
        let (source, offset) = mistaken(alloc, miss)?;
        compare_answer(alloc, source.as_str(), offset, miss.2)?;
    }
    Ok(())
}

#[test]
fn mistakes_in_stored_files_are_refused_where_they_stand(rt: HostRuntime) -> Result<(), Fail> {
    compare_all(rt.alloc(), &STORED)
}

#[test]
fn mistakes_in_networks_are_refused_where_they_stand(rt: HostRuntime) -> Result<(), Fail> {
    compare_all(rt.alloc(), &NETWORKS)
}

#[test]
fn mistakes_in_hosts_are_refused_where_they_stand(rt: HostRuntime) -> Result<(), Fail> {
    compare_all(rt.alloc(), &HOSTS)
}

#[test]
fn mistakes_in_wholes_are_refused_where_they_stand(rt: HostRuntime) -> Result<(), Fail> {
    compare_all(rt.alloc(), &WHOLES)
}
