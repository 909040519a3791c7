// A line, taken apart: a letter, a blank and the fields.
ghost use Rattle.std.specs.Option.{MatchOption};
ghost use Rattle.lines.specs.Grammar.{Says};

use crate::command::Command;
use crate::fields::{floor, key, listing, point, window};

// What a line says; nothing exactly if it is unreadable.
pub fn parse(line: &[u8]) -> Option<Command>
    ensures { MatchOption result ((c : Command) → Says line.now c → ⊥) (λ c. Says line.now c) }
{
    match line {
        [b'i', b' ', rest @ ..] => {
            let (epoch, number, pattern) = point(rest)?;
            Some(Command::Insert {
                epoch,
                number,
                pattern,
            })
        }
        [b'c', b' ', rest @ ..] => {
            let (epoch, number, pattern) = point(rest)?;
            Some(Command::Change {
                epoch,
                number,
                pattern,
            })
        }
        [b'd', b' ', rest @ ..] => {
            let (epoch, number) = key(rest)?;
            Some(Command::Delete { epoch, number })
        }
        [b's', b' ', rest @ ..] => {
            let (lo, hi) = window(rest)?;
            Some(Command::Sum { lo, hi })
        }
        [b'f', b' ', rest @ ..] => {
            let (lo, hi, places) = listing(rest)?;
            Some(Command::First { lo, hi, places })
        }
        [b'r', b' ', rest @ ..] => {
            let (lo, hi, threshold) = floor(rest)?;
            Some(Command::Range { lo, hi, threshold })
        }
        _ => None,
    }
}
