// The points, and what changes them.
ghost use Rattle.std.specs.Prelude.{◌≡◌, [], MatchResult};
ghost use Rattle.kinds.specs.Kinds.{small};
ghost use Rattle.plain.specs.Set.{Rising, remove, reweigh};
ghost use Rattle.plain.specs.Refused.{insert_refused, delete_refused, change_refused};
ghost use Rattle.store.specs.Residuals.{room, Inserted, Changed};
ghost use Rattle.store.specs.Places.{GoesAt};

use crate::checks::ROOM;
use crate::failure::Failure;
use crate::place::place;
use kinds::{Kind, Small};
use plain::{Key, Point};
use refusals::Refusal;
use std::alloc::Global;
use std::marker::Model;

// In a vector and no map: the functions of the plain set read a slice.
#[derive(Drop)]
pub struct Residuals {
    points: Vec<Point<u64, f32>>,
}

impl Model for Residuals {
    ghost use Rattle.std.specs.Prelude.{ℕ, List, Float};
    ghost use Rattle.kinds.specs.Kinds.{small};
    ghost use Rattle.plain.specs.declared.point.Point.{Point};
    ghost use Rattle.plain.specs.Set.{Rising};

    ghost Value = { List (Point ℕ Float) };

    ghost view = { λ s. s.points.items };

    ghost invariant = { λ s. Rising small s.points.items };
}

impl Residuals {
    pub fn new(heap: Global) -> Residuals
        ensures { result ≡ [] }
    {
        Residuals {
            points: Vec::new(heap),
        }
    }

    pub(crate) fn points(&self) -> &[Point<u64, f32>]
        ensures { result.now ≡ self.now }
    {
        self.points.as_slice()
    }

    #[tactic(auto, using(crate::proofs::Places::put_rises))]
    pub fn insert(&mut self, p: Point<u64, f32>) -> Result<(), Failure>
        ensures { Inserted p self.old result self.new }
    {
        let i = self.new_place(p)?;
        self.points.insert(i, p)?;
        Ok(())
    }

    // The place of a point that may be inserted.
    fn new_place(&self, p: Point<u64, f32>) -> Result<usize, Refusal>
        ensures { MatchResult result (λ i. (insert_refused small room p self.now ≡ None) × GoesAt p.key self.now i) (λ e. insert_refused small room p self.now ≡ Some e) }
    {
        if !Small::is_fit(p.key.at, p.weight) {
            return Err(Refusal::Unfit);
        }
        match place(self.points.as_slice(), p.key) {
            Ok(_) => Err(Refusal::Stands),
            Err(_) if self.points.len() == ROOM => Err(Refusal::Full),
            Err(i) => Ok(i),
        }
    }

    #[tactic(auto, using(crate::proofs::Places::remove_rises))]
    pub fn delete(&mut self, key: Key<u64>) -> Result<(), Refusal>
        ensures { Changed (delete_refused small key self.old) self.old (remove small key self.old) result self.new }
    {
        let i = place(self.points.as_slice(), key).map_err(|_| Refusal::Missing)?;
        let _ = self.points.remove(i);
        Ok(())
    }

    #[tactic(auto, using(crate::proofs::Places::reweigh_rises))]
    pub fn change(&mut self, key: Key<u64>, weight: f32) -> Result<(), Refusal>
        ensures { Changed (change_refused small key weight self.old) self.old (reweigh small key weight self.old) result self.new }
    {
        if !Small::is_fit(key.at, weight) {
            return Err(Refusal::Unfit);
        }
        let i = place(self.points.as_slice(), key).map_err(|_| Refusal::Missing)?;
        self.points[i] = Point { key, weight };
        Ok(())
    }
}
