// Runs of changes: keys that rise, that fall or that meet in the middle, and keys by chance.
ghost use Rattle.std.specs.Prelude.{◌≡◌, ◌+◌, ◌%◌, None, []};
ghost use Rattle.table.specs.Kids.{kids_of};
ghost use Rattle.tree.specs.Standing.{Standing};

use crate::checks::check;
use crate::trial::{Act, Points, Pt, Trial};
use build::build::build;
use build::leaf::lay_leaf;
use kinds::{Kind, Large, Small};
use std::collections::BTreeMap;
use std::marker::PhantomData;
use std::test::Fail;
use table::children::Children;
use table::node::{Node, Stored};

// In which order the keys of a run come: a value, to be passed on to each sweep.
#[derive(Clone, Copy)]
pub enum Order {
    Rising,
    Falling,
    Inwards,
    // many numbers at one coordinate
    Tied,
}

// The coordinate of the i-th key.
fn key_number(order: Order, i: u32) -> u64 {
    match order {
        Order::Rising => u64::from(i),
        Order::Falling => 0xFFFF_FFFF - u64::from(i),
        Order::Inwards => if i % 2 == 0 {
            u64::from(i)
        } else {
            0xFFFF_FFFF - u64::from(i)
        },
        Order::Tied => 7,
    }
}

// The i-th point of a run, with a weight of few bits so that many tie.
pub fn point_of(order: Order, i: u32) -> Pt
    ensures { (result.number ≡ i) × (result.weight ≡ 0x3F80_0000 + i % 5) }
{
    Stored {
        at: key_number(order, i),
        number: i,
        weight: 0x3F80_0000 + i % 5,
    }
}

// One change for each of the first n points of an order, from the first on or from the last back.
pub fn sweep<K: Kind<Coordinate = u64, Recorded = u32>>(
    trial: &mut Trial<'_, K>,
    act: Act,
    order: Order,
    n: u32,
    back: bool,
) -> Result<(), Fail>
    ensures standing { Standing K.Kind.meaning trial.new.nodes.now trial.new.header }
    ensures same_table { trial.new.nodes.ghost_name ≡ trial.old.nodes.ghost_name }
{
    for i in 0..n {
        let k = if back { n - 1 - i } else { i };
        trial.step(act, point_of(order, k))?;
    }
    Ok(())
}

// The number after another in a sequence that looks like chance.
fn next(seed: u64) -> u64 {
    let a = seed ^ (seed << 13 & 0xFFFF_FFFF_FFFF_E000);
    let b = a ^ (a >> 7);
    b ^ (b << 17 & 0xFFFF_FFFF_FFFE_0000)
}

// What to do by a number of chance: of eight changes, `lean` insert, and the others remove or change.
fn act_of(seed: u64, lean: u64) -> Act {
    let which = seed >> 40 & 7;
    if which < lean {
        Act::Insert
    } else if seed >> 50 & 3 == 0 {
        Act::Change
    } else {
        Act::Remove
    }
}

// Which points and changes come by chance: bits of coordinates, of numbers and of weights, and how
// many changes of eight insert.
#[derive(Clone, Copy)]
struct Odds {
    coordinates: u64,
    numbers: u64,
    weights: u64,
    inserts: u64,
}

// A point by a number of chance; the casts take low bits.
fn chance_point(seed: u64, odds: Odds) -> Pt {
    Stored {
        at: seed >> 20 & odds.coordinates,
        number: (seed >> 5 & odds.numbers & 0xFF) as u32,
        weight: (seed >> 8 & odds.weights & 0x3FFF_FFFF) as u32,
    }
}

// So many changes by chance.
fn churn<K: Kind<Coordinate = u64, Recorded = u32>>(
    trial: &mut Trial<'_, K>,
    odds: Odds,
    n: u32,
) -> Result<(), Fail>
    ensures standing { Standing K.Kind.meaning trial.new.nodes.now trial.new.header }
    ensures same_table { trial.new.nodes.ghost_name ≡ trial.old.nodes.ghost_name }
{
    let mut seed = 0x9E37_79B9_7F4A_7C15;
    for _ in 0..n {
        seed = next(seed);
        trial.step(act_of(seed, odds.inserts), chance_point(seed, odds))?;
    }
    Ok(())
}

// The sweeps of one order: all points in, other weights, all points out from the same end; then in
// again, and out from the other end.
fn sweeps<K: Kind<Coordinate = u64, Recorded = u32>>(
    trial: &mut Trial<'_, K>,
    order: Order,
    n: u32,
) -> Result<(), Fail>
    ensures standing { Standing K.Kind.meaning trial.new.nodes.now trial.new.header }
    ensures same_table { trial.new.nodes.ghost_name ≡ trial.old.nodes.ghost_name }
{
    sweep::<K>(trial, Act::Insert, order, n, false)?;
    sweep::<K>(trial, Act::Change, order, n, true)?;
    sweep::<K>(trial, Act::Remove, order, n, false)?;
    sweep::<K>(trial, Act::Insert, order, n, false)?;
    sweep::<K>(trial, Act::Remove, order, n, true)
}

// All sweeps, one after the other.
fn all_sweeps<K: Kind<Coordinate = u64, Recorded = u32>>(
    nodes: &mut [Node<u64, u32>],
    points: &mut Points,
    n: u32,
) -> Result<(), Fail> {
    let mut trial = Trial::<K>::empty(nodes, points)?;
    sweeps::<K>(&mut trial, Order::Rising, n)?;
    sweeps::<K>(&mut trial, Order::Falling, n)?;
    sweeps::<K>(&mut trial, Order::Inwards, n)?;
    sweeps::<K>(&mut trial, Order::Tied, n)
}

// Changes by chance: the table fills up and stays full, then it empties; then with all weights
// tied, and with all points at one coordinate.
fn all_chances<K: Kind<Coordinate = u64, Recorded = u32>>(
    nodes: &mut [Node<u64, u32>],
    points: &mut Points,
    n: u32,
) -> Result<(), Fail> {
    let mut trial = Trial::<K>::empty(nodes, points)?;
    let wide = 0xFFFF_FFFF;
    let full = Odds {
        coordinates: 255,
        numbers: 3,
        weights: wide,
        inserts: 6,
    };
    let bare = Odds { inserts: 2, ..full };
    let tied = Odds {
        coordinates: 511,
        numbers: 0,
        weights: 0,
        inserts: 4,
    };
    let one = Odds {
        coordinates: 0,
        numbers: 255,
        weights: 3,
        inserts: 4,
    };
    churn::<K>(&mut trial, full, n)?;
    churn::<K>(&mut trial, bare, n)?;
    churn::<K>(&mut trial, tied, n)?;
    churn::<K>(&mut trial, one, n)
}

// Changes by chance on tables of no node to 8 nodes.
fn tiny<K: Kind<Coordinate = u64, Recorded = u32>>(
    nodes: &mut [Node<u64, u32>],
    points: &mut Points,
) -> Result<(), Fail> {
    for k in 0..9 {
        check(k <= nodes.len(), "a part of the table")?;
        all_chances::<K>(&mut nodes[..k], points, 500)?;
    }
    Ok(())
}

// A node that says nothing.
pub fn blank() -> Node<u64, u32>
    ensures { (result.kept ≡ None) × (kids_of result.children ≡ []) }
{
    let own = Stored {
        at: 0,
        number: 0,
        weight: 0,
    };
    Node::bare(own, Children::none(0))
}

// A tree built over so many leaves, with changes of it after that.
fn built<K: Kind<Coordinate = u64, Recorded = u32>>(
    nodes: &mut [Node<u64, u32>],
    points: &mut Points,
    n: u16,
) -> Result<(), Fail> {
    check(nodes.len() <= 32767, "a table of nodes")?;
    check(2 * usize::from(n) <= nodes.len() + 1, "room for the leaves")?;
    points.clear();
    for i in 0..n {
        let x = point_of(Order::Rising, u32::from(i));
        lay_leaf::<K>(nodes, i, x);
        points.insert(x.key(), x.weight)?;
    }
    let header = build::<K>(nodes, n);
    let mut trial: Trial<'_, K> = Trial {
        nodes,
        header,
        points,
        kind: PhantomData,
    };
    trial.verify()?;
    let odds = Odds {
        coordinates: 63,
        numbers: 0,
        weights: 0xFF,
        inserts: 3,
    };
    churn::<K>(&mut trial, odds, 100)
}

// Trees over 0 to 64 leaves.
fn all_builds<K: Kind<Coordinate = u64, Recorded = u32>>(
    nodes: &mut [Node<u64, u32>],
    points: &mut Points,
) -> Result<(), Fail> {
    for n in 0..65 {
        built::<K>(nodes, points, n)?;
    }
    Ok(())
}

// Trees built over 0 to 64 leaves, changed after that.
#[test]
fn builds(rt: HostRuntime) -> Result<(), Fail> {
    let mut table = [blank(); 127];
    let mut points = BTreeMap::new(rt.alloc());
    all_builds::<Small>(&mut table, &mut points)
}

// Every order on a table for 32 points, of kind small.
#[test]
fn sweeps_small(rt: HostRuntime) -> Result<(), Fail> {
    let mut table = [blank(); 63];
    let mut points = BTreeMap::new(rt.alloc());
    all_sweeps::<Small>(&mut table, &mut points, 40)
}

// Every order on a table for 256 points, of kind large.
#[test]
fn sweeps_large(rt: HostRuntime) -> Result<(), Fail> {
    let mut table = [blank(); 511];
    let mut points = BTreeMap::new(rt.alloc());
    all_sweeps::<Large>(&mut table, &mut points, 300)
}

// Chance on tables of no node to 8, and on one for 32 points, of kind small.
#[test]
fn chances_small(rt: HostRuntime) -> Result<(), Fail> {
    let mut table = [blank(); 63];
    let mut points = BTreeMap::new(rt.alloc());
    tiny::<Small>(&mut table, &mut points)?;
    all_chances::<Small>(&mut table, &mut points, 10000)
}

// Chance on a table for 256 points, of kind large.
#[test]
fn chances_large(rt: HostRuntime) -> Result<(), Fail> {
    let mut table = [blank(); 511];
    let mut points = BTreeMap::new(rt.alloc());
    all_chances::<Large>(&mut table, &mut points, 4000)
}
