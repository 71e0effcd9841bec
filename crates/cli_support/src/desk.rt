// What the program reaches outside itself: the words of its command line, files, standard output and standard error,
// and random bytes for the name of a new file.
use std::io;
use std::random::RandomSource;
use std::rt::{Env, Files, HostRuntime};

pub trait Desk: Env + Files + Print + Eprint + RandomSource {
    // All of the bytes, which need not be text, on standard error.
    fn write_error(&self, bytes: &[u8]) -> io::Result<()>;
}

impl Desk for HostRuntime {
    fn write_error(&self, bytes: &[u8]) -> io::Result<()> {
        self.stderr().write_all(bytes)
    }
}
