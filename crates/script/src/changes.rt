// Commands that change the set, each with its reply. The two arms of a reply are a line each: one
// function for them would need a definition of its own.
ghost use Rattle.script.specs.Replies.{Obeyed};

use crate::session::Session;
use kinds::{Kind, Small};
use lines::Command;
use plain::{Key, Point};
use std::alloc::AllocError;
use store::Failure;

impl Session {
    pub fn insert(&mut self, key: Key<u64>, pattern: u32) -> Result<(), AllocError>
        ensures { Obeyed (Command.Insert key.at key.number pattern) self.old result self.new }
    {
        let weight = Small::recall(pattern);
        match self.set.insert(Point { key, weight }) {
            Ok(()) => self.out.push_str("ok\n"),
            Err(Failure::Refused(refusal)) => self.refuse(refusal),
            Err(Failure::Memory(failed)) => Err(failed),
        }
    }

    pub fn change(&mut self, key: Key<u64>, pattern: u32) -> Result<(), AllocError>
        ensures { Obeyed (Command.Change key.at key.number pattern) self.old result self.new }
    {
        match self.set.change(key, Small::recall(pattern)) {
            Ok(()) => self.out.push_str("ok\n"),
            Err(refusal) => self.refuse(refusal),
        }
    }

    pub fn delete(&mut self, key: Key<u64>) -> Result<(), AllocError>
        ensures { Obeyed (Command.Delete key.at key.number) self.old result self.new }
    {
        match self.set.delete(key) {
            Ok(()) => self.out.push_str("ok\n"),
            Err(refusal) => self.refuse(refusal),
        }
    }
}
