// The places of a node's children, from the left: at most four. An array with a count, since a node
// lies in a table of fixed size and is copied (the kit's `ArrayVec` is not `Copy`); the casts lose
// nothing, as the check proves, and have no `From`. There may be none, as at a leaf: who needs a child
// asks for one.
ghost use Rattle.std.specs.Prelude.{◌≡◌, ◌+◌, ◌<◌, ◌≤◌, [], ◌∷◌, ◌++◌, length, take, drop, slice_index};
ghost use Rattle.table.specs.Kids.{kids_of};

#[derive(Clone, Copy, Debug, PartialEq, Eq)]
pub struct Children {
    pub places: [u16; 4],
    // how many of the places count; four, where it is larger
    pub count: u8,
}

impl Children {
    // Children at some places.
    pub fn of(places: &[u16]) -> Children
        requires { length places.now ≤ 4 }
        ensures { kids_of result ≡ places.now }
    {
        let mut all = [0; 4];
        all[..places.len()].copy_from_slice(places);
        Children {
            places: all,
            count: places.len() as u8,
        }
    }

    // No children. The place is that of the next free node, where the node is free.
    pub fn none(link: u16) -> Children
        ensures kids { kids_of result ≡ [] }
        ensures link { slice_index result.places 0 ≡ link }
    {
        Children {
            places: [link, 0, 0, 0],
            count: 0,
        }
    }

    pub fn len(self) -> usize
        ensures { result ≡ length (kids_of self) }
    {
        usize::from(self.count.min(4))
    }

    // The child number `i`, counted from 0.
    pub fn at(self, i: usize) -> u16
        requires { i < length (kids_of self) }
        ensures { result ≡ slice_index (kids_of self) i }
    {
        self.places[i]
    }

    // With one child more, as number `i`.
    pub fn insert(self, i: usize, p: u16) -> Children
        requires { (i ≤ length (kids_of self)) × (length (kids_of self) < 4) }
        ensures { kids_of result ≡ take i (kids_of self) ++ (p ∷ drop i (kids_of self)) }
    {
        let mut places = self.places;
        places.copy_within(i..3, i + 1);
        places[i] = p;
        Children {
            places,
            count: self.len() as u8 + 1,
        }
    }

    // Without the child number `i`.
    pub fn remove(self, i: usize) -> Children
        requires { i < length (kids_of self) }
        ensures { kids_of result ≡ take i (kids_of self) ++ drop (i + 1) (kids_of self) }
    {
        let mut places = self.places;
        places.copy_within(i + 1.., i);
        Children {
            places,
            count: self.len() as u8 - 1,
        }
    }

    // The first `n` children.
    pub fn front(self, n: usize) -> Children
        requires { n ≤ length (kids_of self) }
        ensures { kids_of result ≡ take n (kids_of self) }
    {
        let places = self.places;
        Children {
            places,
            count: n as u8,
        }
    }

    // The children after the first `n`.
    pub fn back(self, n: usize) -> Children
        requires { n ≤ length (kids_of self) }
        ensures { kids_of result ≡ drop n (kids_of self) }
    {
        let mut places = self.places;
        places.copy_within(n.., 0);
        Children {
            places,
            count: (self.len() - n) as u8,
        }
    }

    // These children, and after them those of another node.
    pub fn append(self, other: Children) -> Children
        requires { length (kids_of self) + length (kids_of other) ≤ 4 }
        ensures { kids_of result ≡ kids_of self ++ kids_of other }
    {
        let n = self.len();
        let end = n + other.len();
        let mut places = self.places;
        places[n..end].copy_from_slice(&other.places[..other.len()]);
        Children {
            places,
            count: end as u8,
        }
    }

    // The places, from the left.
    pub fn as_slice(&self) -> &[u16]
        ensures { result.now ≡ kids_of self.now }
    {
        &self.places[..self.len()]
    }
}

// The children of two nodes side by side.
#[derive(Clone, Copy, Debug, PartialEq, Eq)]
pub struct Sides {
    pub left: Children,
    pub right: Children,
}
