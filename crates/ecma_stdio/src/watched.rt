//! Readers and writers that remember why they failed.
ghost use Rattle.std.specs.Prelude.{◌≡◌, None};

use std::io;
use std::io::{Read, Write};

/// A reader or a writer, with its last failure.
#[derive(Drop)]
pub struct Watched<T> {
    inner: T,
    failure: Option<io::Error>,
}

impl<T> Watched<T> {
    /// One that has not failed.
    pub fn new(inner: T) -> Watched<T>
        ensures inner { result.inner ≡ inner }
        ensures none { result.failure ≡ None }
    {
        Watched {
            inner,
            failure: None,
        }
    }

    /// The last failure, where there was one.
    pub fn failure(&self) -> Option<io::Error>
        ensures { result ≡ self.now.failure }
    {
        self.failure
    }
}

impl<T: Read> Read for Watched<T> {
    ghost remaining = { λ w. T.remaining w.inner };

    fn read(&mut self, buffer: &mut [u8]) -> io::Result<usize> {
        let count = self.inner.read(buffer);
        if let Err(error) = &count {
            self.failure = Some(*error);
        }
        count
    }
}

impl<T: Write> Write for Watched<T> {
    ghost contents = { λ w. T.contents w.inner };

    fn write(&mut self, bytes: &[u8]) -> io::Result<usize> {
        let count = self.inner.write(bytes);
        if let Err(error) = &count {
            self.failure = Some(*error);
        }
        count
    }

    fn flush(&mut self) -> io::Result<()> {
        self.inner.flush()
    }
}
