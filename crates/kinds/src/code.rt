// A station's code: eight bytes, compared from the left. Fields and no array, so that a point or a
// hold of it passes through a `Result`.
ghost use Rattle.std.specs.Prelude.{◌≡◌};
ghost use Rattle.kinds.specs.Code.{by_code, fit_code};

use std::cmp::Ordering;

#[derive(Clone, Copy, PartialEq, Eq, PartialOrd, Ord)]
pub struct Code {
    pub a: u8,
    pub b: u8,
    pub c: u8,
    pub d: u8,
    pub e: u8,
    pub f: u8,
    pub g: u8,
    pub h: u8,
}

impl Code {
    // `Less` if `x` stands before `y`.
    pub fn order(x: Code, y: Code) -> Ordering
        ensures { result ≡ by_code x y }
    {
        x.cmp(&y)
    }

    // Each byte from 33 to 126.
    pub fn is_fit(self) -> bool
        ensures { result ≡ fit_code self }
    {
        let bytes = [
            self.a, self.b, self.c, self.d, self.e, self.f, self.g, self.h,
        ];
        bytes.iter().all(|b| b.is_ascii_graphic())
    }
}
