// Commands that read the set, each with its reply. The arm of a refusal is a line in each: what stands
// beside it differs.
ghost use Rattle.std.specs.Prelude.{◌≡◌, ◌++◌, length, OnOk, string_bytes};
ghost use Rattle.kinds.specs.Kinds.{small};
ghost use Rattle.plain.specs.Windows.{firsts};
ghost use Rattle.plain.specs.Refused.{frontier_refused};
ghost use Rattle.script.specs.Limits.{frontier};
ghost use Rattle.script.specs.Text.{first_text};
ghost use Rattle.script.specs.Replies.{Obeyed, told};

use crate::lists::put_first;
use crate::session::Session;
use crate::text::Pattern;
use kinds::{Kind, Small};
use lines::Command;
use plain::{Key, Point, Window};
use std::alloc::AllocError;

impl Session {
    pub fn sum(&mut self, bounds: Window<u64>) -> Result<(), AllocError>
        ensures { Obeyed (Command.Sum bounds.lower bounds.upper) self.old result self.new }
    {
        match self.set.sum(bounds) {
            Ok((sum, count)) => {
                let sum = Pattern(sum);
                writeln!(self.out, "sum {sum} {count}")
            }
            Err(refusal) => self.refuse(refusal),
        }
    }

    pub fn first(&mut self, bounds: Window<u64>, places: u8) -> Result<(), AllocError>
        ensures { Obeyed (Command.First bounds.lower bounds.upper places) self.old result self.new }
    {
        let k = usize::from(places);
        // Places for each number that `places` can be; a heap list would need memory for a reply.
        let mut list = [Point {
            key: Key { at: 0, number: 0 },
            weight: 0.0,
        }; 256];
        self.first_in(bounds, &mut list[..k])
    }

    // As many points as the list has places.
    fn first_in(
        &mut self,
        bounds: Window<u64>,
        list: &mut [Point<u64, f32>],
    ) -> Result<(), AllocError>
        ensures { OnOk result ((self.new.set ≡ self.old.set) × (string_bytes self.new.out ≡ string_bytes self.old.out ++ told (frontier_refused small bounds.lower bounds.upper frontier self.old.set) (first_text (firsts small (length list.old) bounds.lower bounds.upper self.old.set)))) }
    {
        match self.set.first(bounds, list) {
            Ok(n) => put_first(&mut self.out, &list[..n]),
            Err(refusal) => self.refuse(refusal),
        }
    }

    pub fn range(&mut self, bounds: Window<u64>, threshold: u32) -> Result<(), AllocError>
        ensures { Obeyed (Command.Range bounds.lower bounds.upper threshold) self.old result self.new }
    {
        match self.set.range(bounds, Small::recall(threshold)) {
            Ok(count) => writeln!(self.out, "range {count}"),
            Err(refusal) => self.refuse(refusal),
        }
    }
}
