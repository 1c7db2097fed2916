//! What no clause says: which way of a small set is taken next as blocks come, are granted and leave, and what an
//! entry's readers show.
use std::alloc::Global;
use std::marker::Model;
use std::test::Fail;
use tl_map::{Geometry, GeometryNumbers, Set, Tag};
use tl_types::{CLIENTS, ClientId, Perm};
use tl_ways::{Entry, Way, Ways};

/// One set of three ways.
const NUMBERS: GeometryNumbers = GeometryNumbers {
    version: 1,
    clients: 2,
    banks: 1,
    block_bytes: 8,
    sets: 1,
    ways: 3,
    registers: 2,
    copies: 2,
    memory_blocks: 8,
};

/// The ways of the set. Its model says nothing, so that a test of many calls has their answers alone to carry along.
#[derive(Drop)]
struct OneSet {
    ways: Ways,
}

impl Model for OneSet {
    ghost Value = { Unit {0} };

    ghost view = { λ _. tt };
}

impl OneSet {
    fn new(alloc: Global) -> Result<OneSet, Fail> {
        let ways = Ways::new(alloc, Geometry::new(NUMBERS)?)?;
        Ok(OneSet { ways })
    }

    /// The way that is taken next, of those that are not busy.
    fn choose(&self, busy: &[Way]) -> Option<u32> {
        if self.ways.sets() == 0 {
            return None;
        }
        let way = self.ways.choose(Set::new(0), busy)?;
        Some(way.number())
    }

    /// Puts a block into a way, where no way has its tag.
    fn place(&mut self, way: u32, tag: u32) {
        let tag = Tag::new(tag);
        if self.ways.sets() > 0
            && way < self.ways.ways()
            && self.ways.find(Set::new(0), tag).is_none()
        {
            self.ways
                .place(Set::new(0), Way::new(way), Entry::new(tag, false));
        }
    }

    /// Frees a way.
    fn clear(&mut self, way: u32) {
        if self.ways.sets() > 0 && way < self.ways.ways() {
            self.ways.clear(Set::new(0), Way::new(way));
        }
    }

    /// Moves a way last in the order.
    fn touch(&mut self, way: u32) {
        if self.ways.sets() > 0 && way < self.ways.ways() {
            self.ways.touch(Set::new(0), Way::new(way));
        }
    }
}

/// Puts a block into each way, and then moves these ways last, one after the other.
fn fill_and_touch(set: &mut OneSet, touched: &[u32]) {
    for way in 0..3u32 {
        set.place(way, way);
    }
    for way in touched {
        set.touch(*way);
    }
}

/// What is chosen of an empty set, of one whose ways were granted, where some are busy, and once way 0 is free again.
fn choices(set: &mut OneSet) -> [Option<u32>; 6] {
    let at_first = set.choose(&[]);
    fill_and_touch(set, &[0, 1, 2, 0]);
    let of_all = set.choose(&[]);
    let beside_one = set.choose(&[Way::new(1)]);
    let beside_all = set.choose(&[Way::new(0), Way::new(1), Way::new(2)]);
    set.clear(0);
    let free = set.choose(&[]);
    let free_but_busy = set.choose(&[Way::new(0)]);
    [
        at_first,
        of_all,
        beside_one,
        beside_all,
        free,
        free_but_busy,
    ]
}

#[test]
fn the_way_granted_longest_ago_is_taken(rt: HostRuntime) -> Result<(), Fail> {
    let mut set = OneSet::new(rt.alloc())?;
    assert_eq!(rt;
        choices(&mut set),
        [Some(0), Some(1), Some(2), None, Some(0), Some(1)]
    );
    Ok(())
}

/// The owner and the mask of an entry that records one permission.
fn recorded(client: u32, perm: Perm) -> (Option<ClientId>, u16) {
    let mut entry = Entry::new(Tag::new(0), false);
    if (client as usize) < CLIENTS && entry.is_unshared() {
        entry.set(ClientId::new(client), perm);
    }
    (entry.owner(), entry.branches())
}

#[test]
fn an_entry_shows_its_owner_and_its_branches(rt: HostRuntime) {
    assert_eq!(rt;
        [
            recorded(3, Perm::None),
            recorded(3, Perm::Branch),
            recorded(3, Perm::Tip)
        ],
        [(None, 0), (None, 8), (Some(ClientId::new(3)), 0)]
    );
}
