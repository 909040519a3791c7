// A tree in a table, and the same points in a map beside it: one change of both, and the tests after
// it.
ghost use Rattle.std.specs.Prelude.{◌≡◌, suc, ◌*◌, ◌≤◌, true, length};
ghost use Rattle.std.specs.Coded.{coded_ℕ};
ghost use Rattle.tree.specs.Single.{standing_prop};
ghost use Rattle.tree.specs.Standing.{Standing};

use crate::checks::check;
use build::build::build;
use change::change::change;
use change::find::find;
use checker::rules::holds_rules;
use grow::whole::insert;
use kinds::Kind;
use plain::Key;
use shrink::whole::remove;
use std::collections::BTreeMap;
use std::marker::PhantomData;
use std::test::Fail;
use table::header::Header;
use table::node::{Node, Stored};

// A point: coordinate, number and the bits of a weight.
pub type Pt = Stored<u64, u32>;

// The weight of each key.
pub type Points = BTreeMap<Key<u64>, u32>;

// What a step does with a point: a value and no closure, as it may come by chance.
#[derive(Clone, Copy)]
pub enum Act {
    Insert,
    Remove,
    Change,
}

#[derive(Drop)]
pub struct Trial<'a, K: Kind<Coordinate = u64, Recorded = u32>> {
    pub nodes: &'a mut [Node<u64, u32>],
    pub header: Header,
    pub points: &'a mut Points,
    pub kind: PhantomData<K>,
    ghost standing: { Standing K.Kind.meaning nodes.now header } by { standing_prop coded_ℕ K.Kind.meaning nodes.now header },
}

impl<'a, K: Kind<Coordinate = u64, Recorded = u32>> Trial<'a, K> {
    // A tree of no points in a table.
    pub fn empty(nodes: &'a mut [Node<u64, u32>], points: &'a mut Points) -> Result<Self, Fail> {
        check(nodes.len() <= 32767, "a table of nodes")?;
        let header = build::<K>(nodes, 0);
        points.clear();
        Ok(Trial {
            nodes,
            header,
            points,
            kind: PhantomData,
        })
    }

    // Whether the table has room for one point more.
    fn has_room(&self) -> bool
        ensures { result ≡ true → 2 * suc self.now.header.count ≤ suc (length self.now.nodes.now) }
    {
        2 * (usize::from(self.header.count) + 1) <= self.nodes.len() + 1
    }

    // Makes one change, in the tree and in the map: an insertion if the key does not stand and
    // there is room, else a removal or another weight if it stands.
    fn make(&mut self, act: Act, x: Pt) -> Result<(), Fail>
        ensures standing { Standing K.Kind.meaning self.new.nodes.now self.new.header }
        ensures same_table { self.new.nodes.ghost_name ≡ self.old.nodes.ghost_name }
    {
        let key = x.key();
        let stands = self.points.contains_key(&key);
        match act {
            Act::Insert => {
                if !stands && self.has_room() {
                    insert::<K>(self.nodes, &mut self.header, x);
                    self.points.insert(key, x.weight)?;
                }
            },
            Act::Remove => {
                if stands && self.header.count > 0 {
                    remove::<K>(self.nodes, &mut self.header, key);
                    self.points.remove(&key);
                }
            },
            Act::Change => {
                if stands && self.header.count > 0 {
                    change::<K>(self.nodes, self.header, key, x.weight);
                    self.points.insert(key, x.weight)?;
                }
            },
        }
        Ok(())
    }

    // The rules hold, and the tree has just the points of the map.
    pub fn verify(&self) -> Result<(), Fail> {
        check(holds_rules::<K>(self.nodes, self.header), "the rules hold")?;
        check(
            usize::from(self.header.count) == self.points.len(),
            "as many points",
        )?;
        for (key, weight) in self.points.iter() {
            let found = find::<K>(self.nodes, self.header, *key);
            let same = found.is_some_and(|w| K::record(w) == *weight);
            check(same, "the same points")?;
        }
        Ok(())
    }

    // Makes one change and tests what stands then.
    pub fn step(&mut self, act: Act, x: Pt) -> Result<(), Fail>
        ensures standing { Standing K.Kind.meaning self.new.nodes.now self.new.header }
        ensures same_table { self.new.nodes.ghost_name ≡ self.old.nodes.ghost_name }
    {
        self.make(act, x)?;
        self.verify()
    }
}
