// Sources of literal resources.

use std::alloc::{AllocError, Global};

/// How many resources the sources have that are timed.
pub const COUNTS: [u32; 4] = [100, 200, 400, 800];

// How many items each resource has, so that the longest source has about 4,190,000 bytes.
const ITEMS: u32 = 48;

const ITEM: &str =
    "      { name: 'part', size: 1024, isOn: true, tags: [ 'red', 'blue' ], words: 'as many as fit \
    on a line' }\n";

fn add_items(text: &mut String) -> Result<(), AllocError> {
    for _item in 0..ITEMS {
        text.push_str(ITEM)?;
    }
    Ok(())
}

fn add_resource(text: &mut String, number: u32) -> Result<(), AllocError> {
    write!(
        text,
        "resource r{number} 'Demo.Lab/things@2024-01-01' = {{\n  name: 'r{number}'\n  properties: {{\n    items: [\n"
    )?;
    add_items(text)?;
    text.push_str("    ]\n  }\n}\n")
}

/// A source with so many resources.
pub fn source(alloc: Global, count: u32) -> Result<String, AllocError> {
    let mut text = String::new(alloc);
    for number in 0..count {
        add_resource(&mut text, number)?;
    }
    Ok(text)
}
