//! The words that the program was started by, with its own name before them.
use std::env::{Env, FillError};
use std::{env, io};

/// The program's own name, as the first word of its command line.
const NAME: &str = "farm";

/// The environment, in which the program has its own name: the one that it was started by is not looked at, and need
/// not be text.
#[derive(Clone, Copy)]
struct OwnName<'a> {
    rt: &'a HostRuntime,
}

impl Env for OwnName<'_> {
    fn arg(&self, i: usize, buf: &mut [u8]) -> Result<usize, FillError> {
        if i > 0 {
            return self.rt.arg(i, buf);
        }
        if buf.len() < NAME.len() {
            return Err(FillError::TooLong);
        }
        buf[..NAME.len()].copy_from_slice(NAME.as_bytes());
        Ok(NAME.len())
    }

    fn var(&self, name: &str, buf: &mut [u8]) -> Result<usize, FillError> {
        self.rt.var(name, buf)
    }

    fn var_at(&self, i: usize, buf: &mut [u8]) -> Result<usize, FillError> {
        self.rt.var_at(i, buf)
    }
}

/// The words of the command line. An error where no memory was left for them, or one is no UTF-8.
pub(crate) fn own_words(rt: &HostRuntime) -> io::Result<Vec<String>> {
    let words = env::args(&(OwnName { rt }, rt.alloc()))?;
    Ok(words.collect::<Vec<String>>(rt.alloc())?)
}
