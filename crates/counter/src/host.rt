//! The machine that the program runs on.
ghost use Rattle.std.specs.Prelude.{◌≡◌};

use operations::{Database, HostFiles, Start, Unknown};

/// The machine that the program runs on.
#[derive(Drop)]
pub struct Host<'a, F, S> {
    /// Its system.
    pub rt: &'a HostRuntime,
    /// What opens the files that the arguments name, but for the database's, and sees what stands at a new one's path.
    pub files: &'a S,
    /// What is supposed of the files of the database that the arguments name.
    pub start: F,
}

impl<'a, F: Start + Drop, S> Host<'a, F, S> {
    /// Another database at a path of it, of whose files nothing is supposed.
    pub fn another(&self, path: &'a str) -> Database<'a, HostFiles<'a, Unknown, S>>
        ensures path { result.path.now ≡ path.now }
        ensures paths { result.files.paths.now ≡ self.now.files.now }
    {
        let files = HostFiles {
            paths: self.files,
            start: Unknown,
        };
        Database { path, files }
    }

    /// The database at a path of it.
    pub fn database(self, path: &'a str) -> Database<'a, HostFiles<'a, F, HostRuntime>>
        ensures path { result.path.now ≡ path.now }
        ensures start { result.files.start ≡ self.entry.start }
    {
        Database {
            path,
            files: HostFiles {
                paths: self.rt,
                start: self.start,
            },
        }
    }
}
