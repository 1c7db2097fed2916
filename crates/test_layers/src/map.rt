use std::test::Fail;
use tl_map::{Geometry, GeometryNumbers, Place, Set, Tag};
use tl_types::{BankNo, BlockNo};

const NUMBERS: GeometryNumbers = GeometryNumbers {
    version: 1,
    clients: 2,
    banks: 8,
    block_bytes: 8,
    sets: 4,
    ways: 2,
    registers: 2,
    copies: 2,
    memory_blocks: 65_536,
};

/// A bank, a set and a tag.
type Numbers = (u32, u32, u32);

/// Where a block lies. `None` where the memory has no such block.
fn place_of(geometry: Geometry, block: u32) -> Option<Numbers> {
    let block = BlockNo::new(block);
    if !geometry.has(block) {
        return None;
    }
    let place = geometry.place(block);
    Some((place.bank.number(), place.set.number(), place.tag.number()))
}

/// The block that lies there.
fn block_of(geometry: Geometry, (bank, set, tag): Numbers) -> Option<u32> {
    let block = geometry.block_of(Place {
        bank: BankNo::new(bank),
        set: Set::new(set),
        tag: Tag::new(tag),
    })?;
    Some(block.number())
}

/// Whether the block lies there, and no other.
fn is_place(geometry: Geometry, block: u32, place: Numbers) -> bool {
    place_of(geometry, block) == Some(place) && block_of(geometry, place) == Some(block)
}

/// The first of these blocks that does not lie there alone, if there is one.
fn first_elsewhere(geometry: Geometry, places: &[(u32, Numbers)]) -> Option<u32> {
    for (block, place) in places {
        if !is_place(geometry, *block, *place) {
            return Some(*block);
        }
    }
    None
}

/// Blocks of eight banks, and where they lie.
const OF_EIGHT: &[(u32, Numbers)] = &[
    (0, (0, 0, 0)),
    (1, (1, 0, 0)),
    (8, (1, 1, 0)),
    (9, (0, 1, 0)),
    (65_535, (6, 3, 2047)),
];

#[test]
fn eight_banks(rt: HostRuntime) -> Result<(), Fail> {
    let geometry = Geometry::new(NUMBERS)?;
    assert!(rt; geometry.numbers() == NUMBERS);
    assert_eq!(rt;
        (
            first_elsewhere(geometry, OF_EIGHT),
            place_of(geometry, 65_536)
        ),
        (None, None)
    );
    Ok(())
}

/// Four banks, of so many blocks.
fn of_four_banks(memory_blocks: i64) -> Result<Geometry, Fail> {
    Ok(Geometry::new(GeometryNumbers {
        banks: 4,
        memory_blocks,
        ..NUMBERS
    })?)
}

/// The blocks of these places, where the last block of the memory, another bank and another set would be.
fn blocks_beyond(geometry: Geometry) -> [Option<u32>; 3] {
    [
        block_of(geometry, (0, 2, 1)),
        block_of(geometry, (4, 0, 0)),
        block_of(geometry, (0, 4, 0)),
    ]
}

#[test]
fn four_banks(rt: HostRuntime) -> Result<(), Fail> {
    let geometry = of_four_banks(27)?;
    assert_eq!(rt;
        (is_place(geometry, 26, (1, 2, 1)), blocks_beyond(geometry)),
        (true, [None, None, None])
    );
    Ok(())
}

#[test]
fn a_block_more(rt: HostRuntime) -> Result<(), Fail> {
    assert!(rt; is_place(of_four_banks(65_536)?, 27, (0, 2, 1)));
    Ok(())
}

/// Numbers that are refused, each with the number of the refusal, and the largest that are not.
const REFUSALS: &[(GeometryNumbers, Option<u8>)] = &[
    (
        GeometryNumbers {
            clients: -1,
            ..NUMBERS
        },
        Some(20),
    ),
    (
        GeometryNumbers {
            banks: 3,
            ..NUMBERS
        },
        Some(21),
    ),
    (
        GeometryNumbers {
            block_bytes: 4,
            ..NUMBERS
        },
        Some(22),
    ),
    (GeometryNumbers { sets: 3, ..NUMBERS }, Some(23)),
    (GeometryNumbers { ways: 0, ..NUMBERS }, Some(24)),
    (
        GeometryNumbers {
            registers: 9,
            ..NUMBERS
        },
        Some(25),
    ),
    (
        GeometryNumbers {
            copies: 17,
            ..NUMBERS
        },
        Some(26),
    ),
    (
        GeometryNumbers {
            memory_blocks: 0,
            ..NUMBERS
        },
        Some(27),
    ),
    (
        GeometryNumbers {
            clients: 0,
            banks: 3,
            ..NUMBERS
        },
        Some(20),
    ),
    (
        GeometryNumbers {
            version: 3,
            clients: 0,
            ..NUMBERS
        },
        Some(28),
    ),
    (
        GeometryNumbers {
            clients: 9,
            ..NUMBERS
        },
        Some(20),
    ),
    (
        GeometryNumbers {
            version: 2,
            clients: 17,
            ..NUMBERS
        },
        Some(20),
    ),
    (
        GeometryNumbers {
            version: 2,
            copies: 65,
            ..NUMBERS
        },
        Some(26),
    ),
    (
        GeometryNumbers {
            version: 2,
            clients: 16,
            copies: 64,
            ..NUMBERS
        },
        None,
    ),
];

/// The number of the refusal of these numbers. `None` where they are lawful.
fn refusal_of(numbers: GeometryNumbers) -> Option<u8> {
    match Geometry::new(numbers) {
        Ok(_) => None,
        Err(error) => Some(error.number()),
    }
}

#[test]
fn the_first_refusal(rt: HostRuntime) {
    for (numbers, refusal) in REFUSALS {
        assert_eq!(rt; refusal_of(*numbers), *refusal);
    }
}
