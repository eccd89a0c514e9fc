//! What files are opened from.
ghost use Rattle.std.specs.Prelude.{ℕ, List, Option, None, IfSome};
ghost use Rattle.ig_system.specs.Reading.{Begins};

use std::fs;
use std::io::Read;
use std::rt::Files;

/// What files are opened from, by their names.
pub trait Folder {
    type File: Read + Drop;

    /// What the file of each name has, where that is known. A name is given by its bytes.
    ghost content: { Self → List ℕ → Option (List ℕ) };

    /// The file of that name, to be read from its begin; `None` where it can't be opened, as where
    /// there is none.
    fn open(&self, name: &str) -> Option<Self::File>
        ensures { IfSome result (λ file.
            Begins (content self.now name.now) (Self.File.remaining file)) };
}

/// The files of the system, of which nothing is known.
#[derive(Clone, Copy)]
pub struct SystemFolder<'a, R> {
    pub files: &'a R,
}

impl<R: Files> Folder for SystemFolder<'_, R> {
    type File = R::File;

    ghost content = { λ _ _. None };

    fn open(&self, name: &str) -> Option<R::File> {
        match fs::open(self.files, name) {
            Ok(file) => Some(file),
            Err(_) => None,
        }
    }
}
