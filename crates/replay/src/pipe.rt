// An input that gives a few bytes a read, as a pipe may.
use std::io;
use std::io::Read;

#[derive(Clone, Copy)]
pub struct Pipe<'a> {
    rest: &'a [u8],
    most: usize,
}

impl<'a> Pipe<'a> {
    pub fn new(bytes: &'a [u8], most: usize) -> Pipe<'a> {
        Pipe { rest: bytes, most }
    }
}

impl Read for Pipe<'_> {
    fn read(&mut self, buf: &mut [u8]) -> io::Result<usize> {
        let all = self.rest;
        let count = self.most.min(all.len());
        let mut front = &all[..count];
        let got = front.read(buf)?;
        self.rest = &all[got.min(count)..];
        Ok(got)
    }
}
