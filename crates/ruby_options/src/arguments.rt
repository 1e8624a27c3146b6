// The words of a command line.
use std::alloc::Global;
use std::env::{self, Env, FillError};
use std::io;

// The arguments after the program's name, which isn't read.
#[derive(Drop)]
struct AfterName<'a, R> {
    rt: &'a R,
}

impl<'a, R: Env> Env for AfterName<'a, R> {
    fn arg(&self, i: usize, buf: &mut [u8]) -> Result<usize, FillError> {
        match i.checked_add(1) {
            Some(next) => self.rt.arg(next, buf),
            None => Err(FillError::NotPresent),
        }
    }

    fn var(&self, name: &str, buf: &mut [u8]) -> Result<usize, FillError> {
        self.rt.var(name, buf)
    }

    fn var_at(&self, i: usize, buf: &mut [u8]) -> Result<usize, FillError> {
        self.rt.var_at(i, buf)
    }
}

/// The words of a command line, which are those after the program's name, in their order. The name may be any bytes. A word that isn't
/// UTF-8 is an error, `InvalidData`, and so is lack of memory, `OutOfMemory`. Std says nothing of what the arguments of a program are, so no
/// clause says more.
pub fn words<R: Env>(rt: &R, alloc: Global) -> io::Result<Vec<String>> {
    let mut words = Vec::new(alloc);
    for word in env::args(&(AfterName { rt }, alloc))? {
        words.push(word)?;
    }
    Ok(words)
}
