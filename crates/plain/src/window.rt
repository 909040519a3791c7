// A window of coordinates: from the lower bound to the upper one, both of them inside.
ghost use Rattle.std.specs.Prelude.{◌≡◌};

#[derive(Clone, Copy, PartialEq, Eq, Debug)]
pub struct Window<C> {
    pub lower: C,
    pub upper: C,
}

impl<C: Copy> Window<C> {
    pub fn new(lower: C, upper: C) -> Window<C>
        ensures { result ≡ record { lower = lower; upper = upper } }
    {
        Window { lower, upper }
    }
}
