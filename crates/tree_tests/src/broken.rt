// Trees with one node altered: the checker says so of each.
use crate::checks::check;
use crate::runs::{Order, blank, sweep};
use crate::trial::{Act, Points, Trial};
use checker::rules::holds_rules;
use kinds::Small;
use std::collections::BTreeMap;
use std::test::Fail;
use table::header::Header;
use table::node::{Node, Stored};

// The ways in which a node is altered: values, each tried at every place.
#[derive(Clone, Copy)]
enum Damage {
    Keeping,
    Coordinate,
    Number,
    KeptWeight,
}

fn altered(n: Node<u64, u32>, damage: Damage) -> Node<u64, u32> {
    let mut node = n;
    let kept = n.kept;
    match damage {
        Damage::Keeping => node.kept = if kept.is_some() { None } else { Some(n.own) },
        Damage::Coordinate => node.own.at = n.own.at ^ 0x1000,
        Damage::Number => node.own.number = n.own.number ^ 1,
        Damage::KeptWeight => {
            let x = kept.unwrap_or(n.own);
            node.kept = Some(Stored {
                weight: x.weight ^ 1,
                ..x
            });
        },
    }
    node
}

// Whether a node can be altered at no place without the checker saying so.
fn all_seen(nodes: &mut [Node<u64, u32>], header: Header, damage: Damage) -> Result<(), Fail> {
    // By number: the whole table is read while one node of it is altered.
    for i in 0..nodes.len() {
        let n = nodes[i];
        if i < usize::from(header.free.fresh) {
            nodes[i] = altered(n, damage);
            check(
                !holds_rules::<Small>(nodes, header),
                "the rules do not hold",
            )?;
            nodes[i] = n;
        }
    }
    check(holds_rules::<Small>(nodes, header), "the rules hold again")
}

// Headers of another tree: elsewhere, higher, much higher, or of another number of points.
fn others(header: Header) -> [Header; 4] {
    let mut elsewhere = header;
    elsewhere.top.root = 65535;
    let mut higher = header;
    higher.top.height = header.top.height ^ 1;
    let mut highest = header;
    highest.top.height = 255;
    let mut miscounted = header;
    miscounted.count = header.count ^ 1;
    [elsewhere, higher, highest, miscounted]
}

// A tree of twenty points, altered in each way at each place, and under each other header.
fn all_ways(nodes: &mut [Node<u64, u32>], points: &mut Points) -> Result<(), Fail> {
    let mut trial = Trial::<Small>::empty(nodes, points)?;
    sweep::<Small>(&mut trial, Act::Insert, Order::Inwards, 20, false)?;
    let Trial { nodes, header, .. } = trial;
    check(header.count == 20, "twenty points")?;
    let ways = [
        Damage::Keeping,
        Damage::Coordinate,
        Damage::Number,
        Damage::KeptWeight,
    ];
    for damage in ways {
        all_seen(nodes, header, damage)?;
    }
    for other in others(header) {
        check(!holds_rules::<Small>(nodes, other), "another header")?;
    }
    Ok(())
}

// No altered tree passes.
#[test]
fn broken(rt: HostRuntime) -> Result<(), Fail> {
    let mut table = [blank(); 63];
    let mut points = BTreeMap::new(rt.alloc());
    all_ways(&mut table, &mut points)
}
