// Who speaks to the user: the runtime, and the program's name, which stands before what is said.
use crate::system;
use crate::system::EprintBytes;
use std::fmt::Display;
use std::io::Error;

#[derive_where(Clone, Copy)]
pub struct Console<'a, R> {
    pub rt: &'a R,
    pub program: &'a [u8],
}

// What cannot be said is lost, since there is nowhere else to say so.
impl<R: EprintBytes> Console<'_, R> {
    pub fn say<D: Display + Drop>(&self, words: D) {
        let _ = self.rt.eprint(words);
    }

    // With the program's name before it.
    pub fn tell<D: Display + Drop>(&self, words: D) {
        let _ = self.rt.eprint_bytes(self.program);
        let _ = eprint!(self.rt; ": {words}");
    }

    // A name or an option, which need not be text, with more around it.
    pub fn tell_of(&self, before: &str, name: &[u8], after: &str) {
        self.tell(before);
        let _ = self.rt.eprint_bytes(name);
        self.say(after);
    }

    // What failed, and why.
    pub fn fail(&self, before: &str, what: &[u8], error: &Error) {
        self.tell(before);
        system::fail(self.rt, what, error);
    }
}
