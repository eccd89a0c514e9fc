//! Fetches of a file that the test makes.
use super::*;
use crate::folder::SystemFolder;
use std::test::Fail;
use std::{env, process};

#[test]
fn fetches_files(rt: HostRuntime) -> Result<(), Fail> {
    let alloc = rt.alloc();
    let folder = env::temp_dir(&rt)?;
    let folder = folder.as_str();
    let number = process::id(rt.process());
    let name = format!(in alloc; "{folder}/iguana-{number}")?;
    std::fs::write(&rt, name.as_str(), "text")?;
    let folder = SystemFolder { files: &rt };
    let mut shelf = FileShelf::new(&folder);
    let table: [(u64, Result<&[u8], FetchFault>); 4] = [
        (4, Ok(b"text")),
        (3, Err(FetchFault::Long)),
        (0, Err(FetchFault::Long)),
        (u64::MAX, Ok(b"text")),
    ];
    for (most, want) in table {
        match shelf.fetch(alloc, name.as_str(), most) {
            Ok(content) => assert_eq!(rt; Ok(content.as_slice()), want),
            Err(fault) => assert_eq!(rt; Err(fault), want),
        }
    }
    std::fs::remove_file(&rt, name.as_str())?;
    assert_eq!(rt; shelf.faults, 0);
    assert!(rt;
        matches!(
            shelf.fetch(alloc, name.as_str(), 4),
            Err(FetchFault::Failed)
        )
    );
    assert_eq!(rt; shelf.faults, 1);
    assert_eq!(rt; shelf.fetches, 5);
    Ok(())
}
