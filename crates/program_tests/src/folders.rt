// Folders in memory, from one text each.

use arm_edges::{MemFile, MemTree};
use arm_value::Bytes;
use std::alloc::{AllocError, Global};

fn file_of(alloc: Global, name: &str, text: &str) -> Result<MemFile, AllocError> {
    Ok(MemFile {
        name: String::from_str(alloc, name)?,
        bytes: Bytes::from_vec(Vec::from_slice(alloc, text.as_bytes())?),
    })
}

/// The folder of a text, in which a line `# NAME` begins each file.
pub fn folder(alloc: Global, text: &str) -> Result<MemTree, AllocError> {
    let mut files = Vec::new(alloc);
    let mut begun = false;
    let mut name = String::new(alloc);
    let mut held = String::new(alloc);
    for line in text.lines() {
        if let Some(next) = line.strip_prefix("# ") {
            if begun {
                files.push(file_of(alloc, name.as_str(), held.as_str())?)?;
            }
            begun = true;
            name = String::from_str(alloc, next)?;
            held = String::new(alloc);
        } else {
            held.push_str(line)?;
            held.push_str("\n")?;
        }
    }
    files.push(file_of(alloc, name.as_str(), held.as_str())?)?;
    Ok(MemTree::new(alloc, files, Vec::new(alloc)))
}
