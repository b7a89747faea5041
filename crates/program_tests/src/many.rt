// Programs of many files.

use crate::answers::loaded;
use std::alloc::{AllocError, Global};
use std::test::Fail;

// Files in a row, each of which names the next, from `f0.bicep` on; the last names none where `ends`, and else one
// that is missing.
fn chain(alloc: Global, count: u32, ends: bool) -> Result<String, AllocError> {
    let mut text = String::new(alloc);
    for number in 0..count {
        let next = number.saturating_add(1);
        let file = if ends && next == count {
            format!(in alloc; "# f{number}.bicep\n")?
        } else {
            format!(in alloc; "# f{number}.bicep\nmodule m 'f{next}.bicep' = {{}}\n")?
        };
        text.push_str(file.as_str())?;
    }
    Ok(text)
}

// What is loaded from such a chain.
fn loaded_chain(alloc: Global, count: u32, ends: bool) -> Result<String, AllocError> {
    let text = chain(alloc, count, ends)?;
    loaded(alloc, text.as_str(), "f0.bicep")
}

#[test]
fn sixty_five_files_are_a_program(rt: HostRuntime) -> Result<(), Fail> {
    let line = loaded_chain(rt.alloc(), 65, true)?;
    assert!(rt; line.as_str().starts_with("f0.bicep 1;f1.bicep 2;"));
    assert!(rt; line.as_str().ends_with("f63.bicep 64;f64.bicep;"));
    Ok(())
}

#[test]
fn sixty_six_files_are_too_many(rt: HostRuntime) -> Result<(), Fail> {
    let alloc = rt.alloc();
    let many = loaded_chain(alloc, 66, true)?;
    assert_eq!(rt; many.as_str(), "TooManyFiles");
    let missing = loaded_chain(alloc, 65, false)?;
    assert_eq!(rt; missing.as_str(), "ModuleMissing f64.bicep f65.bicep");
    Ok(())
}
