//! A reader and a writer of std that fail behind some bytes.
use std::io;
use std::io::{ErrorKind, Read, Write};

/// Moves one byte at a time, and fails behind the last.
#[derive(Drop)]
pub struct Broken {
    pub left: u64,
}

impl Read for Broken {
    fn read(&mut self, buf: &mut [u8]) -> io::Result<usize> {
        let Some(first) = buf.first_mut() else {
            return Ok(0);
        };
        if self.left == 0 {
            return Err(ErrorKind::Other.into());
        }
        self.left -= 1;
        *first = b'a';
        Ok(1)
    }
}

impl Write for Broken {
    fn write(&mut self, buf: &[u8]) -> io::Result<usize> {
        if buf.is_empty() {
            return Ok(0);
        }
        if self.left == 0 {
            return Err(ErrorKind::Other.into());
        }
        self.left -= 1;
        Ok(1)
    }

    fn flush(&mut self) -> io::Result<()> {
        Ok(())
    }
}
