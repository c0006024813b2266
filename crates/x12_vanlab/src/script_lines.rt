//! The lines of a script, one after the other.

ghost use Rattle.std.specs.Prelude.{◌<◌, length, IfSome};

use crate::script_word::cut_at;

/// The lines of a script that are left. Each ends with LF, which the last may lack.
#[derive(Clone, Copy)]
pub(crate) struct Lines<'a> {
    rest: &'a [u8],
    taken: u64,
}

impl<'a> Lines<'a> {
    /// All lines of a script.
    pub(crate) fn new(script: &'a [u8]) -> Lines<'a> {
        Lines {
            rest: script,
            taken: 0,
        }
    }

    /// Takes the next line, without its LF.
    pub(crate) fn take(&mut self) -> Option<&'a [u8]>
        ensures { IfSome result (λ _. length self.new.rest.now < length self.old.rest.now) }
    {
        if self.rest.is_empty() {
            return None;
        }
        self.taken = self.taken.saturating_add(1);
        match cut_at(b'\n', self.rest) {
            Some((line, rest)) => {
                self.rest = rest;
                Some(line)
            }
            None => {
                let line = self.rest;
                self.rest = &[];
                Some(line)
            }
        }
    }

    /// The number of the next line, from 1.
    pub(crate) fn number(&self) -> u64 {
        self.taken.saturating_add(1)
    }
}
