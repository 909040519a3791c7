// Why a call is refused, and the numbers by which callers know it.
#![tactic(auto)]

ghost use Rattle.std.specs.Prelude.{◌≡◌, Some};
ghost use Rattle.refusals.specs.Refusals.{number_of, text_of};

use std::error::Error;
use std::fmt;

#[derive(Clone, Copy, Debug, PartialEq, Eq)]
pub enum Refusal {
    // the table has no node, or more than a table may have
    Table,
    // an unfit point or threshold
    Unfit,
    // the key stands already
    Stands,
    // as many points as the table has room for
    Full,
    // no such key
    Missing,
    // the window's lower bound is later than its upper one
    Reversed,
    // more matches than list places: the matches and the visited nodes of the whole walk
    Overflow(usize, usize),
    // the frontier has fewer places than the index has points
    Frontier,
    // the key is not after that of the last point taken
    Order,
    // an unreadable line or script
    Unreadable,
}

impl Refusal {
    // For callers that name no type: what `u8::from` gives.
    pub fn number(self) -> u8
        ensures { result ≡ number_of self }
    {
        u8::from(self)
    }
}

impl From<Refusal> for u8 {
    ghost from_gives = { λ refusal n. n ≡ number_of refusal };

    fn from(refusal: Refusal) -> u8 {
        match refusal {
            Refusal::Table => 1,
            Refusal::Unfit => 2,
            Refusal::Stands => 3,
            Refusal::Full => 4,
            Refusal::Missing => 5,
            Refusal::Reversed => 6,
            Refusal::Overflow(_, _) => 7,
            Refusal::Frontier => 8,
            Refusal::Order => 9,
            Refusal::Unreadable => 10,
        }
    }
}

impl fmt::Display for Refusal {
    ghost output = { λ refusal. Some (text_of refusal) };

    fn fmt<W: fmt::Write>(&self, f: &mut fmt::Formatter<W>) -> fmt::Result {
        write!(f, "no {}", self.number())
    }
}

impl Error for Refusal {}
