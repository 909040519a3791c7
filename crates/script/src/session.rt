// The residuals of a script, and what it has printed so far.
ghost use Rattle.std.specs.Prelude.{◌≡◌, [], ◌++◌, OnOk, string_bytes};
ghost use Rattle.script.specs.Text.{refusal_text};

use refusals::Refusal;
use std::alloc::{AllocError, Global};
use store::Residuals;

#[derive(Drop)]
pub struct Session {
    pub set: Residuals,
    pub out: String,
}

impl Session {
    pub fn new(heap: Global) -> Session
        ensures set { result.set ≡ [] }
        ensures out { string_bytes result.out ≡ [] }
    {
        Session {
            set: Residuals::new(heap),
            out: String::new(heap),
        }
    }

    pub fn refuse(&mut self, refusal: Refusal) -> Result<(), AllocError>
        ensures { OnOk result ((self.new.set ≡ self.old.set) × (string_bytes self.new.out ≡ string_bytes self.old.out ++ refusal_text refusal)) }
    {
        writeln!(self.out, "{refusal}")
    }
}
