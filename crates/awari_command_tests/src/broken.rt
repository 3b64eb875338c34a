//! A stream that fails.

use awari_answers::Remarks;
use std::io::{self, ErrorKind, Read, Write};

/// A stream of which each read and each write is a fault.
#[derive(Clone, Copy)]
pub(crate) struct Broken;

impl Read for Broken {
    fn read(&mut self, _buf: &mut [u8]) -> io::Result<usize> {
        Err(io::Error::from(ErrorKind::Other))
    }
}

impl Write for Broken {
    fn write(&mut self, _buf: &[u8]) -> io::Result<usize> {
        Err(io::Error::from(ErrorKind::Other))
    }

    fn flush(&mut self) -> io::Result<()> {
        Ok(())
    }
}

impl Remarks for Broken {}
