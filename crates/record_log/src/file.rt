// The file that records are appended to.
ghost use Rattle.std.specs.Prelude.{◌≡◌, true, false, is_some};
ghost use Rattle.record_log.specs.Appending.{is_open, Begins, Waits, Appends};

use super::appended::Appended;
use std::fs::File;
use std::io::Stderr;

// A log and its records that wait in a buffer to be appended.
#[derive(Drop)]
pub struct Log {
    // Where records are appended, none where the log is not open.
    file: Option<File>,
    // The bytes of records that wait.
    pub waiting: usize,
    // What was handed to it.
    appended: Appended,
}

impl Log {
    // The log in this file, if there is one; nothing was appended.
    fn begun(file: Option<File>) -> Log
        ensures { Begins (is_some file) result }
    {
        Log {
            file,
            waiting: 0,
            appended: Appended::new(),
        }
    }

    // No log: nothing is appended.
    pub fn none() -> Log
        ensures { Begins false result }
    {
        Log::begun(None)
    }

    // The log in this file, which is open for appending, and to which nothing was appended.
    pub fn on(file: File) -> Log
        ensures { Begins true result }
    {
        Log::begun(Some(file))
    }

    // Whether records are appended to it.
    pub fn is_open(&self) -> bool
        ensures { result ≡ is_open self.now }
    {
        self.file.is_some()
    }

    // The same log with so many bytes that wait.
    pub fn with_waiting(self, waiting: usize) -> Log
        ensures { Waits waiting self result }
    {
        Log { waiting, ..self }
    }

    // Appends the records that wait. After a write that fails or takes only a part, which is told, nothing is appended any
    // more.
    pub fn append(self, errors: Stderr, name: &[u8], records: &[u8]) -> Log
        ensures { Appends records.now self result }
    {
        let file = self.file;
        let before = self.appended;
        let appended = before.append(file.as_ref(), errors, name, records, self.waiting);
        let is_whole = appended.is_whole();
        Log {
            file: if is_whole { file } else { None },
            waiting: 0,
            appended,
        }
    }
}
