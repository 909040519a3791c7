// Points listed one to a line: a function and no `Display`, which would need a struct round the slice,
// for one caller.
ghost use Rattle.std.specs.Prelude.{◌≡◌, ◌++◌, OnOk, string_bytes};
ghost use Rattle.script.specs.Text.{first_text};

use crate::text::Pattern;
use plain::Point;
use std::alloc::AllocError;

pub fn put_first(out: &mut String, points: &[Point<u64, f32>]) -> Result<(), AllocError>
    ensures { OnOk result (string_bytes out.new ≡ string_bytes out.old ++ first_text points.now) }
{
    let count = points.len();
    writeln!(out, "first {count}")?;
    for p in points {
        let epoch = p.key.at;
        let number = p.key.number;
        let weight = Pattern(p.weight);
        writeln!(out, "{epoch} {number} {weight}")?;
    }
    Ok(())
}
