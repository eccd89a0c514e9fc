//! Texts of lists of jobs, right and wrong.
use ig_turns::{ListFault, read_list};
use std::alloc::{AllocError, Global};
use std::test::Fail;

/// How many jobs the text has, or the number of its first wrong line.
fn read(alloc: Global, text: &[u8]) -> Result<Result<usize, u32>, AllocError> {
    match read_list(alloc, text) {
        Ok(jobs) => Ok(Ok(jobs.len())),
        Err(ListFault::Wrong { line }) => Ok(Err(line)),
        Err(ListFault::Memory) => Err(AllocError),
    }
}

/// A text of so many bytes of each of two names, so many times.
fn lines(alloc: Global, count: usize, name: usize) -> Result<Vec<u8>, AllocError> {
    let mut text = Vec::new(alloc);
    for _ in 0..count {
        for _ in 0..name {
            text.push(b'g')?;
        }
        text.push(b' ')?;
        for _ in 0..name {
            text.push(b'i')?;
        }
        text.push(b'\n')?;
    }
    Ok(text)
}

#[test]
fn texts_are_lists_or_have_a_first_wrong_line(rt: HostRuntime) -> Result<(), Fail> {
    let table: [(&[u8], Result<usize, u32>); 23] = [
        (b"g i\n", Ok(1)),
        (b"g i\ng j\n", Ok(2)),
        (b"g.ig --i\n", Err(1)),
        (b"", Err(1)),
        (b"\n", Err(1)),
        (b"g i", Err(1)),
        (b"g i\ng j", Err(2)),
        (b"g i\n\ng j\n", Err(2)),
        (b"g i\n\n", Err(2)),
        (b"g  i\n", Err(1)),
        (b" g i\n", Err(1)),
        (b"g i \n", Err(1)),
        (b"g i j\n", Err(1)),
        (b"g \n", Err(1)),
        (b" i\n", Err(1)),
        (b"g\n", Err(1)),
        (b"g i\n-g i\n", Err(2)),
        (b"g -i\ng  i\n", Err(1)),
        (b"g i-\n", Ok(1)),
        (b"\xc3\xa4 i\n", Ok(1)),
        (b"g i\ng i\ng \xff\ng i\n", Err(3)),
        (b"g i\ng i\ng \xe2\x82\n", Err(3)),
        (b"g\ti i\r\n", Ok(1)),
    ];
    for (text, want) in table {
        let found = read(rt.alloc(), text)?;
        assert_eq!(rt; found, want);
    }
    Ok(())
}

#[test]
fn lists_have_64_lines_at_most(rt: HostRuntime) -> Result<(), Fail> {
    let mut text = lines(rt.alloc(), 64, 1)?;
    assert_eq!(rt; read(rt.alloc(), &text)?, Ok(64));
    text.push(b'g')?;
    assert_eq!(rt; read(rt.alloc(), &text)?, Err(65));
    let text = lines(rt.alloc(), 65, 1)?;
    assert_eq!(rt; read(rt.alloc(), &text)?, Err(65));
    Ok(())
}

/// 64 lines of 1,024 bytes each have 65,536, as many as are fetched.
#[test]
fn a_long_list_is_read(rt: HostRuntime) -> Result<(), Fail> {
    let text = lines(rt.alloc(), 64, 511)?;
    assert_eq!(rt; text.len(), 65_536);
    assert_eq!(rt; read(rt.alloc(), &text)?, Ok(64));
    Ok(())
}

#[test]
fn names_are_kept(rt: HostRuntime) -> Result<(), Fail> {
    let Ok(jobs) = read_list(rt.alloc(), b"g.ig a.txt\n") else {
        return Err(Fail::from(AllocError));
    };
    for job in &jobs {
        assert_eq!(rt; job.grammar.as_str(), "g.ig");
        assert_eq!(rt; job.input.as_str(), "a.txt");
    }
    Ok(())
}
