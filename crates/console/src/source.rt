//! What files are read from.
ghost use Rattle.std.specs.Prelude.{◌≡◌, ℕ, List, IfSome, MatchResult, take};
ghost use Rattle.std.specs.declared.io.ErrorKind.{ErrorKind as SpecKind};

use std::fs::File;
use std::io::{ErrorKind, Read};
use std::rt::HostRuntime;

/// What reads files. It may tell what they hold, and why one can't be read; what is proved over all is proved of those
/// that tell, and no code can know one from another.
pub trait FileSource {
    /// A file.
    type File: Read + Drop;

    // such a file is opened at the path, and read
    ghost opens: { Self → List ℕ → Self.File → Type 0 } = { λ _ _ _. Unit {0} };

    // none is opened, or read to where that was asked for, by an error of that kind
    ghost refuses: { Self → List ℕ → SpecKind → Type 0 } = { λ _ _ _. Unit {0} };

    /// So many octets of the file at a path, all where it has fewer.
    fn read(&self, path: &str, most: u64) -> Result<Vec<u8>, ErrorKind>
        ensures { MatchResult result (λ octets. (file : Self.File) × (opens self.now path.now file
            × IfSome (Self.File.remaining file) (λ all. octets.items ≡ take most all)))
            (refuses self.now path.now) };
}

/// It tells nothing: no contract says what a file of the machine holds.
impl FileSource for HostRuntime {
    type File = File;

    fn read(&self, path: &str, most: u64) -> Result<Vec<u8>, ErrorKind> {
        let file = match File::open(self, path) {
            Ok(file) => file,
            Err(error) => return Err(error.kind()),
        };
        let mut octets = Vec::new(self.alloc());
        match file.take(most).read_to_end(&mut octets) {
            Ok(_) => Ok(octets),
            Err(error) => Err(error.kind()),
        }
    }
}
