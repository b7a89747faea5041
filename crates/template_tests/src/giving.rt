// Which values give parameters.

use crate::fixtures::{compare, value_of};
use std::alloc::Global;
use std::test::Fail;
use template_parameters::read_given;
use template_parts::{Given, TemplateFault};

const GIVEN: &str = r#"{} -> 
{"a":{"value":1}} -> a 
{"b":{"VALUE":[]},"a":{"value":null}} -> a b 
[] -> WrongForm 
7 -> WrongForm 
{"a":1} -> WrongForm /a
{"a":{}} -> WrongForm /a
{"a":{"value":1,"b":2}} -> WrongForm /a
{"a":{"values":1}} -> WrongForm /a
{"A":{"value":1},"a":{"value":1}} -> WrongForm /a
{"A":{"value":1},"B":{"value":1},"a":{"value":1},"b":{}} -> WrongForm /a
{"a/b":1} -> WrongForm /a~1b"#;

// The names that are given, with a space after each.
fn names_of(alloc: Global, given: &Given) -> Result<String, Fail> {
    let mut names = String::new(alloc);
    for one in given.as_slice() {
        names.push_str(one.name.as_str())?;
        names.push(' ')?;
    }
    Ok(names)
}

fn compare_given(
    alloc: Global,
    asked: &str,
    found: &Result<Given, TemplateFault>,
    wanted: &str,
) -> Result<(), Fail> {
    match found {
        Ok(given) => compare(asked, names_of(alloc, given)?.as_str(), wanted),
        Err(TemplateFault::WrongForm(path)) => {
            let wanted = wanted
                .strip_prefix("WrongForm ")
                .unwrap_or("another answer");
            compare(asked, path.as_str(), wanted)
        }
        Err(_) => compare(asked, "another fault", wanted),
    }
}

#[test]
fn an_object_of_values_gives_them(rt: HostRuntime) -> Result<(), Fail> {
    for line in GIVEN.lines() {
        let (asked, wanted) = line.split_once(" -> ").unwrap_or((line, "a wanted answer"));
        let value = value_of(rt.alloc(), asked)?;
        compare_given(rt.alloc(), asked, &read_given(rt.alloc(), &value), wanted)?;
    }
    Ok(())
}
