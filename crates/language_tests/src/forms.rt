// References in templates of both forms, and the titles of symbolic names.

use crate::answers::Question;
use crate::environment::{add_loop, push};
use crate::table::{check, letting_go};
use crate::told::say_found;
use arm_env::entries::Around;
use arm_env::env::{Env, Looping, Symbol};
use arm_eval::symbols::Listed;
use arm_eval::{Titles, titled_value};
use arm_value::{Text, Value};
use std::alloc::{AllocError, Global};
use std::test::Fail;

// After the arrow is the answer in the first form, and after a bar that in the second; one alone is
// the answer in both.
const REFERENCES: &str = r#"reference('st1').p.q -> [7] | none
reference('ST1').p.q -> [7] | none
reference('A/b/st1').p.q -> [7] | none
reference('a/B/St1', '2024-01-01').p.q -> [7] | none
reference('st1', 'x', 'Full').tier -> "hot" | none
reference(resourceId('A/b', 'st1')).p.q -> [7]
reference(resourceId('a/B', 'ST1')).p.q -> [7]
reference('/subscriptions/s1/resourceGroups/g/providers/A/b/st1').p.q -> [7]
reference(resourceId('A/b', 'st1'), 'x', 'Full').tier -> "hot"
reference('one').p.q -> none | [7]
reference('one', '2024-01-01').p.q -> none | [7]
reference('one', 'x', 'full').tier -> none | "hot"
reference('one', 'x', 'half') -> none
reference('One').p.q -> none
reference('one ') -> none
reference('one[0]') -> none
reference('one[1]') -> none
reference('n[1]').p.q -> none | [7]
reference('n[1]', 'x', 'Full').tier -> none | "hot"
reference('n[10]').p.q -> none | [10]
reference(concat('n[', add(4, 6), ']')).p.q -> none | [10]
reference('n[0]') -> none
reference('n[01]') -> none
reference('n[010]') -> none
reference('n[+1]') -> none
reference('n[1') -> none
reference('n[]') -> none
reference('n') -> none
reference('N[1]') -> none
reference('soon') -> needs /subscriptions/s1/resourcegroups/g/providers/a/b/soon | none
reference('waits') -> none | needs /subscriptions/s1/resourcegroups/g/providers/a/b/soon
reference(resourceId('A/b', 'soon')) -> needs /subscriptions/s1/resourcegroups/g/providers/a/b/soon
reference('late') -> none | late
reference('gone') -> none
reference('number') -> none
reference('longer') -> none
reference('through') -> none
reference('by_id').p.q -> none | [7]
reference('elsewhere') -> none
reference('whole').outputs.x.value -> "hello" | none
reference('deployed').outputs.x.value -> none | "hello"
reference('deployed').outputs.y -> none | {"type":"int","value":5}
reference(resourceId('Microsoft.Resources/deployments', 'whole')).outputs.x.value -> "hello"
reference('twin') -> none
reference('nobody') -> none
reference('') -> none"#;

// Inside the name of a resource a text is an id alone.
const INSIDE: &str = r#"reference('one') -> none
reference('n[1]') -> none
reference('st1') -> none
reference('whole') -> none
reference(resourceId('A/b', 'st1')).p.q -> [7]"#;

// A name, a type and a title in each line.
const SYMBOLS: &str = "one A/b st1
n A/b [concat('st', copyIndex())]
waits A/b soon
late A/b [parameters('soon')]
gone A/b [parameters('gone')]
number A/b [length(parameters('list'))]
longer A/b st1/st1
through A/b [reference('one').p.name]
by_id A/b [reference(resourceId('A/b', 'namer')).name]
elsewhere A/b [concat('st', sub(copyIndex('vms'), 4))]
deployed Microsoft.Resources/deployments whole";

fn symbol(alloc: Global, line: &str) -> Result<Symbol, AllocError> {
    let (name, rest) = line.split_once(' ').unwrap_or((line, ""));
    let (kind, title) = rest.split_once(' ').unwrap_or((rest, ""));
    Ok(Symbol {
        name: Text::of(alloc, name)?,
        kind: Text::of(alloc, kind)?,
        title: Text::of(alloc, title)?,
        looped: name == "n",
    })
}

// Adds the symbols of the lines, of which `n` has a loop.
fn add_symbols(alloc: Global, list: &mut Vec<Symbol>, table: &str) -> Result<(), AllocError> {
    for line in table.lines() {
        push(list, symbol(alloc, line)?)?;
    }
    Ok(())
}

/// Adds the entries of a template of the second form, at a place inside a name or not.
pub fn fill(alloc: Global, env: &mut Env, inside_name: bool) -> Result<(), Fail> {
    env.inside_name = inside_name;
    add_symbols(alloc, &mut env.symbols, SYMBOLS)?;
    crate::environment::fill(alloc, env)
}

#[test]
fn references_mean_what_the_first_form_says(rt: HostRuntime) -> Result<(), Fail> {
    check(rt.alloc(), Question::Expression, REFERENCES)
}

#[test]
fn references_mean_what_the_second_form_says(rt: HostRuntime) -> Result<(), Fail> {
    check(rt.alloc(), Question::InFormTwo, REFERENCES)
}

#[test]
fn inside_a_name_a_text_is_an_id(rt: HostRuntime) -> Result<(), Fail> {
    check(rt.alloc(), Question::InsideName, INSIDE)
}

// A name, a type and a title in each line. The loop of `n` is named `each`, and a loop named
// `group`, of index 10, is around the template; `vms` is a loop of the expressions.
const LOOPED: &str = "n A/b [concat('st', copyIndex('EACH'))]
around A/b [concat('st', copyIndex('group'))]
elsewhere A/b [concat('st', sub(copyIndex('vms'), 4))]";

const TITLES: &str = r#"reference('n[1]').p.q -> [7]
reference('n[10]').p.q -> [10]
reference('around').p.q -> [10]
reference('elsewhere') -> none
copyIndex('vms') -> 5"#;

fn say_by(
    out: &mut String,
    alloc: Global,
    env: &Env,
    titles: &Titles,
    asked: &str,
) -> Result<(), AllocError> {
    let spelled = Value::Text(Text::from_string(format!(in alloc; "[{asked}]")?));
    let around = Around {
        loops: env.loops.as_slice(),
        place: env.place,
    };
    let found = titled_value(alloc, env, titles, &around, &spelled);
    letting_go(say_found(out, alloc, &found), (found, spelled))
}

// The symbols, with the name of the loop of those that have one.
fn listed<'a>(
    alloc: Global,
    symbols: &'a [Symbol],
    each: &'a Text,
) -> Result<Vec<Listed<'a>>, AllocError> {
    let mut list = Vec::new(alloc);
    for symbol in symbols {
        let copy = if symbol.looped { Some(each) } else { None };
        push(&mut list, Listed { symbol, copy })?;
    }
    Ok(list)
}

// Adds what is answered by the symbols, whose loop has the name, in the loops around the template.
fn say_listed(
    out: &mut String,
    alloc: Global,
    env: &Env,
    (symbols, each, loops): (&[Symbol], &Text, &[Looping]),
    asked: &str,
) -> Result<(), AllocError> {
    let listed = listed(alloc, symbols, each)?;
    let titles = Titles {
        symbols: listed.as_slice(),
        loops,
    };
    say_by(out, alloc, env, &titles, asked)
}

/// Adds the value of the expression as a title of a symbol.
pub fn say_titled(
    out: &mut String,
    alloc: Global,
    env: &Env,
    asked: &str,
) -> Result<(), AllocError> {
    let (mut symbols, mut loops) = (Vec::new(alloc), Vec::new(alloc));
    add_symbols(alloc, &mut symbols, LOOPED)?;
    add_loop(alloc, &mut loops, "group", 10, true)?;
    let each = Text::of(alloc, "each")?;
    say_listed(out, alloc, env, (&symbols, &each, &loops), asked)
}

#[test]
fn a_title_is_read_in_its_own_loop_and_those_around_the_template(
    rt: HostRuntime,
) -> Result<(), Fail> {
    check(rt.alloc(), Question::InTitle, TITLES)
}
