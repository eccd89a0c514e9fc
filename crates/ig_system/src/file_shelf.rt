//! A shelf over files.
ghost use Rattle.std.specs.Prelude.{◌≡◌, ◌<◌, [], IfOk, IfErr, length};
ghost use Rattle.ig_outside.specs.Fetch.{AnswersFetch};
ghost use Rattle.ig_system.specs.Reading.{told_by, shelf_state, Piece, IsReadFault};

#[cfg(test)]
mod tests;

use crate::folder::Folder;
use ig_outside::{FetchFault, Record, Shelf};
use std::alloc::Global;
use std::io::Read;

/// How many bytes one read asks for at most.
const PIECE: usize = 65536;

/// A shelf that fetches files by their names, and tells what its folder tells. What each fetch gave
/// is recorded for proofs, of files of which nothing is known too.
#[derive(Drop)]
pub struct FileShelf<'a, D> {
    folder: &'a D,
    faults: u64,
    fetches: u64,
    record: Record<u64, Result<Vec<u8>, FetchFault>>,
}

impl<'a, D: Folder> FileShelf<'a, D> {
    /// A shelf with the counts 0, which gave nothing yet. Takes no memory.
    pub fn new(folder: &'a D) -> FileShelf<'a, D>
        ensures { ⟦<FileShelf<'a, D> as Shelf>⟧.state result
            ≡ shelf_state (D.content folder.now) 0 0 [] }
    {
        FileShelf {
            folder,
            faults: 0,
            fetches: 0,
            record: Record::new(),
        }
    }
}

impl<D: Folder> Shelf for FileShelf<'_, D> {
    ghost state = { λ s. shelf_state (D.content s.folder.now) s.faults s.fetches
        s.record.entries };

    /// Fetches as every shelf does. It is `Failed` where the file can't be opened, as where there
    /// is none, or a read fails; the contracts of both don't say when that may be.
    fn fetch(&mut self, alloc: Global, name: &str, most: u64) -> Result<Vec<u8>, FetchFault> {
        let faults = self.faults;
        self.fetches = self.fetches.saturating_add(1);
        let answer = read_file(alloc, self.folder, name, most);
        self.record = self.record.and(name, &most, &answer);
        match answer {
            Ok(content) => Ok(content),
            Err(FetchFault::Failed) => {
                self.faults = faults.saturating_add(1);
                Err(FetchFault::Failed)
            }
            Err(fault) => Err(fault),
        }
    }
}

/// The bytes of the file of that name.
fn read_file<D: Folder>(
    alloc: Global,
    folder: &D,
    name: &str,
    most: u64,
) -> Result<Vec<u8>, FetchFault>
    ensures { AnswersFetch (told_by (D.content folder.now name.now)) most result }
{
    match folder.open(name) {
        Some(mut file) => read_all(alloc, &mut file, most),
        None => Err(FetchFault::Failed),
    }
}

/// All that the reader has left, which is to be at most `most` bytes. Reads at most one byte more.
///
/// Refused with `Failed` where a read fails, `Long` exactly where there are more than `most` bytes,
/// and `Memory` for want of memory.
fn read_all<F: Read>(alloc: Global, reader: &mut F, most: u64) -> Result<Vec<u8>, FetchFault>
    ensures { AnswersFetch (told_by (F.remaining reader.old)) most result }
{
    let mut piece = [0; PIECE];
    let mut content = Vec::new(alloc);
    while content.len() as u64 <= most {
        let left = most - content.len() as u64;
        let room = left.min(PIECE as u64 - 1) as usize + 1;
        match read_piece(reader, &mut piece[..room], &mut content) {
            Ok(0) => return Ok(content),
            Ok(_) => {}
            Err(fault) => return Err(fault),
        }
    }
    Err(FetchFault::Long)
}

/// Reads once, appends what was read to the content, and answers how many bytes that were: none
/// only at the end, where there is room.
fn read_piece<F: Read>(
    reader: &mut F,
    room: &mut [u8],
    content: &mut Vec<u8>,
) -> Result<usize, FetchFault>
    requires { 0 < length room.old }
    ensures ok { IfOk result (Piece (F.remaining reader.old) (F.remaining reader.new)
        content.old.items content.new.items (length room.old)) }
    ensures refused { IfErr result IsReadFault }
{
    let Ok(count) = reader.read(room) else {
        return Err(FetchFault::Failed);
    };
    content.extend_from_slice(&room[..count])?;
    Ok(count)
}
