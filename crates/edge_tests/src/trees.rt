// Trees of files in memory.
use arm_edges::{MemFile, MemTree, Tree, TreeFault};
use arm_value::Bytes;
use std::alloc::Global;
use std::test::Fail;

fn file_of(alloc: Global, name: &str, bytes: &[u8]) -> Result<MemFile, Fail> {
    Ok(MemFile {
        name: String::from_str(alloc, name)?,
        bytes: Bytes::from_vec(bytes.to_vec(alloc)?),
    })
}

// Two files of one name, one that is too large by a byte, and the largest. The second call fails.
fn sample(alloc: Global) -> Result<MemTree, Fail> {
    let large = vec![in alloc; 7u8; 4_194_305]?;
    let mut files = Vec::new(alloc);
    files.push(file_of(alloc, "a", b"one")?)?;
    files.push(file_of(alloc, "a", b"two")?)?;
    files.push(file_of(alloc, "large", &large)?)?;
    files.push(file_of(alloc, "largest", &large[1..])?)?;
    Ok(MemTree::new(alloc, files, [1].to_vec(alloc)?))
}

// How many bytes the tree answers with.
fn size_in<T: Tree>(alloc: Global, tree: &mut T, name: &str) -> Result<Option<usize>, TreeFault> {
    match tree.read_file(alloc, name)? {
        Some(bytes) => Ok(Some(bytes.as_slice().len())),
        None => Ok(None),
    }
}

#[test]
fn trees_in_memory_answer_by_name(rt: HostRuntime) -> Result<(), Fail> {
    let alloc = rt.alloc();
    let mut tree = sample(alloc)?;
    let two = (
        size_in(alloc, &mut tree, "a"),
        size_in(alloc, &mut tree, "a"),
    );
    let missing = size_in(alloc, &mut tree, "b");
    let large = (
        size_in(alloc, &mut tree, "large"),
        size_in(alloc, &mut tree, "largest"),
    );
    assert!(rt; two == (Ok(Some(3)), Err(TreeFault::Fault)) && missing == Ok(None));
    assert!(rt; large == (Err(TreeFault::TooLarge), Ok(Some(4_194_304))) && tree.calls.faults == 1);
    Ok(())
}

// Whether the file of that name has these bytes.
fn is_in<T: Tree>(
    alloc: Global,
    tree: &mut T,
    name: &str,
    bytes: &[u8],
) -> Result<bool, TreeFault> {
    match tree.read_file(alloc, name)? {
        Some(found) => Ok(found.as_slice() == bytes),
        None => Ok(false),
    }
}

#[test]
fn of_two_files_of_one_name_the_first_is_read(rt: HostRuntime) -> Result<(), Fail> {
    let mut tree = sample(rt.alloc())?;
    assert!(rt; is_in(rt.alloc(), &mut tree, "a", b"one") == Ok(true));
    Ok(())
}
