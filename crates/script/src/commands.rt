// A command, run on the set. Keys and windows are made here, of a command's fields: the grammar names
// those one by one.
ghost use Rattle.script.specs.Replies.{Obeyed};

use crate::session::Session;
use lines::Command;
use plain::{Key, Window};
use std::alloc::AllocError;

impl Session {
    pub fn obey(&mut self, command: Command) -> Result<(), AllocError>
        ensures { Obeyed command self.old result self.new }
    {
        match command {
            Command::Insert {
                epoch,
                number,
                pattern,
            } => self.insert(Key { at: epoch, number }, pattern),
            Command::Change {
                epoch,
                number,
                pattern,
            } => self.change(Key { at: epoch, number }, pattern),
            Command::Delete { epoch, number } => self.delete(Key { at: epoch, number }),
            Command::Sum { lo, hi } => self.sum(Window::new(lo, hi)),
            Command::First { lo, hi, places } => self.first(Window::new(lo, hi), places),
            Command::Range { lo, hi, threshold } => self.range(Window::new(lo, hi), threshold),
        }
    }
}
