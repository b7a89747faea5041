// Which file a path names.

use module_links::file_at;
use std::alloc::{AllocError, Global};
use std::test::Fail;

// In each row a file, a path that is written in it, and the file that it names, or `-`.
const ROWS: &str = "main.bicep x.bicep x.bicep
main.bicep ./x.bicep x.bicep
main.bicep a/b/x.bicep a/b/x.bicep
main.bicep a/../x.bicep x.bicep
main.bicep ../x.bicep -
main.bicep a/../../x.bicep -
a/main.bicep x.bicep a/x.bicep
a/main.bicep ../x.bicep x.bicep
a/b/main.bicep ../../x.bicep x.bicep
a/b/main.bicep ../../../x.bicep -
a/main.bicep ../a/./x.bicep a/x.bicep
main.bicep /x.bicep -
main.bicep a//x.bicep -
main.bicep a/ -
main.bicep . -
main.bicep .. -
main.bicep a/.. -
main.bicep a\\x.bicep a\\x.bicep
main.bicep ... ...
";

fn answer(alloc: Global, file: &str, path: &str) -> Result<String, AllocError> {
    match file_at(alloc, file, path)? {
        Some(name) => Ok(name.into_string()),
        None => String::from_str(alloc, "-"),
    }
}

// The rows that are answered otherwise.
fn wrong(alloc: Global, rows: &str) -> Result<String, AllocError> {
    let mut out = String::new(alloc);
    for row in rows.lines() {
        let mut words = row.split(' ');
        if let (Some(file), Some(path), Some(named)) = (words.next(), words.next(), words.next()) {
            let line = answer(alloc, file, path)?;
            if line.as_str() != named {
                out.push_str(row)?;
                out.push_str("\n")?;
            }
        }
    }
    Ok(out)
}

#[test]
fn a_path_names_a_file_from_the_folder_of_its_own_file(rt: HostRuntime) -> Result<(), Fail> {
    let wrong = wrong(rt.alloc(), ROWS)?;
    assert_eq!(rt; wrong.as_str(), "");
    Ok(())
}
