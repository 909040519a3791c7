// A script, line by line.
ghost use Rattle.std.specs.Prelude.{◌≡◌, ℕ, List, ◌++◌, IfOk, OnOk, string_bytes};
ghost use Rattle.script.specs.Reports.{Reply, Lines, Report};

use crate::session::Session;
use lines::{parse, split_once};
use refusals::Refusal;
use std::alloc::{AllocError, Global};

const MOST_BYTES: usize = 60_000;

// What a script prints, as bytes for the writer; a script that is too long is refused before any line is run.
pub fn report(heap: Global, script: &[u8]) -> Result<Vec<u8>, AllocError>
    ensures { IfOk result (λ v. Report script.now v.items) }
{
    let mut session = Session::new(heap);
    if script.len() > MOST_BYTES {
        session.refuse(Refusal::Unreadable)?;
    } else {
        session.run(script)?;
    }
    Ok(session.out.into_bytes())
}

impl Session {
    fn run(&mut self, script: &[u8]) -> Result<(), AllocError>
        ensures { OnOk result ((os : List ℕ) × Lines self.old.set script.now os × (string_bytes self.new.out ≡ string_bytes self.old.out ++ os)) }
    {
        // One call of `reply`, which is laid in line then: a call would cost a short line a fourteenth more.
        // Not `split_inclusive`: the newline would have to be cut off each line but the last, and its
        // contract speaks of runs of the closure.
        let mut rest = script;
        while !rest.is_empty() {
            let (line, others) = split_once(rest, b'\n').unwrap_or((rest, &[]));
            self.reply(line)?;
            rest = others;
        }
        Ok(())
    }

    // Runs one line.
    #[tactic(auto, using(crate::proofs::Running::replied_said, crate::proofs::Running::replied_unread))]
    fn reply(&mut self, line: &[u8]) -> Result<(), AllocError>
        ensures { OnOk result ((o : List ℕ) × Reply line.now self.old.set o self.new.set × (string_bytes self.new.out ≡ string_bytes self.old.out ++ o)) }
    {
        match parse(line) {
            Some(command) => self.obey(command),
            None => self.refuse(Refusal::Unreadable),
        }
    }
}
