//! The words that the program is called with.

use pgas_top::Status;
use std::alloc::Global;
use std::env;
use std::env::FillError;
use std::io::ErrorKind;
use std::rt::Env;

/// The words behind the program's name, as if there were no others. So a name that is no text makes no
/// word bad.
#[derive(Drop)]
struct BehindName<'a, R> {
    rt: &'a R,
}

impl<R: Env> Env for BehindName<'_, R> {
    fn arg(&self, i: usize, buf: &mut [u8]) -> Result<usize, FillError> {
        match i.checked_add(1) {
            Some(next) => self.rt.arg(next, buf),
            None => Err(FillError::NotPresent),
        }
    }

    fn var(&self, name: &str, buf: &mut [u8]) -> Result<usize, FillError> {
        self.rt.var(name, buf)
    }

    fn var_at(&self, i: usize, buf: &mut [u8]) -> Result<usize, FillError> {
        self.rt.var_at(i, buf)
    }
}

/// The words behind the program's name. Words that are no text are no words of a command.
pub fn words<R: Env>(rt: &R, alloc: Global) -> Result<Vec<String>, Status> {
    match env::args(&(BehindName { rt }, alloc)) {
        Ok(words) => Ok(words.collect(alloc)?),
        Err(error) if error.kind() == ErrorKind::OutOfMemory => Err(Status::OutOfMemory),
        Err(_) => Err(Status::BadWords),
    }
}
