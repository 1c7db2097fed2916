//! A judge at a client's pins beside a bench: lines in numbers, a verdict at once, and the same verdict as of the whole
//! record.
use crate::seen::{
    AT_PINS, Damage, GRANT_BEHIND, GRANTED_BEFORE, IN_ORDER, PINS, RACE, WITHOUT_CORES, at_pins,
    race,
};
use std::alloc::{AllocError, Global};
use std::test::Fail;
use tl_rules::Shape;
use tl_types::{BLOCK_BYTES, ClientId, code};
use tlcheck_embed::{JudgeNumbers, breach_told};
use tlwire_embed::{PinsLine, PinsNumbers, PinsRoom, PinsVerdict, opened, see};
use tlwire_pins::{Cores, Tap, first_wrong};
use tlwire_search::Seen;

/// What is seen, with no bytes: of a message the channel, the opcode and the param.
fn numbers(what: u32, client: u32, place: u32, message: (u32, u32, u32)) -> PinsLine {
    let (channel, opcode, param) = message;
    PinsLine {
        what,
        client,
        place,
        channel,
        opcode,
        param,
        len: 0,
        bytes: [0; BLOCK_BYTES],
    }
}

/// The same with bytes, at most `BLOCK_BYTES`.
fn with_bytes(line: PinsLine, bytes: &[u8]) -> PinsLine {
    let mut all = [0; BLOCK_BYTES];
    if bytes.len() > BLOCK_BYTES {
        return line;
    }
    all[..bytes.len()].copy_from_slice(bytes);
    PinsLine {
        len: bytes.len() as u32,
        bytes: all,
        ..line
    }
}

/// A line of a record in numbers.
fn numbers_of(line: &Seen) -> PinsLine {
    match line {
        Seen::OnLink(client, block, message) => {
            let (opcode, param) = code(message.kind);
            let channel = message.kind.channel().index() as u32;
            let kind = (channel, u32::from(opcode), u32::from(param));
            let head = numbers(2, client.number(), block.number(), kind);
            match &message.bytes {
                Some(bytes) => with_bytes(head, bytes.as_slice()),
                None => head,
            }
        }
        Seen::OnMemory(_, _) => numbers(3, 0, 0, (0, 0, 0)),
        Seen::Load(client, address, bytes) => with_bytes(
            numbers(0, client.number(), *address, (0, 0, 0)),
            bytes.as_slice(),
        ),
        Seen::Store(client, address, bytes) => with_bytes(
            numbers(1, client.number(), *address, (0, 0, 0)),
            bytes.as_slice(),
        ),
    }
}

/// A judge at the pins of a client, or a closed one where a number is not lawful.
fn judge(alloc: Global, shape: Shape, client: u32, cores: Cores) -> PinsRoom {
    let of = JudgeNumbers {
        clients: shape.clients,
        block_bytes: shape.block_bytes,
        memory_blocks: shape.blocks,
        order: 0,
    };
    let cores_unseen = if cores == Cores::Unseen { 1 } else { 0 };
    opened(
        alloc,
        &PinsNumbers {
            of,
            client,
            cores_unseen,
        },
    )
}

/// The place of the first line that a judge refuses, and the rule.
fn stops_at(
    alloc: Global,
    shape: Shape,
    client: u32,
    cores: Cores,
    seen: &[Seen],
) -> Option<(usize, u32)> {
    let mut room = judge(alloc, shape, client, cores);
    for (place, line) in seen.iter().enumerate() {
        let told = see(&mut room, &numbers_of(line));
        if told.status == 31 {
            return Some((place, told.rule));
        }
    }
    None
}

/// What is said of the whole record.
fn wrong_at(
    alloc: Global,
    shape: Shape,
    client: u32,
    cores: Cores,
    seen: &[Seen],
) -> Result<Option<(usize, u32)>, AllocError> {
    if shape.block_bytes == 0 || shape.block_bytes > BLOCK_BYTES as u32 {
        return Ok(None);
    }
    let tap = Tap {
        cores,
        drops: false,
    };
    let found = first_wrong(alloc, shape, ClientId::new(client), tap, seen)?;
    Ok(found.map(|wrong| (wrong.place, breach_told(&wrong.breach).rule)))
}

/// Whether the judge stops where the whole record is found wrong, for the same rule.
fn agrees(
    alloc: Global,
    shape: Shape,
    client: u32,
    cores: Cores,
    seen: &[Seen],
) -> Result<bool, AllocError> {
    let at_once = stops_at(alloc, shape, client, cores, seen);
    Ok(at_once == wrong_at(alloc, shape, client, cores, seen)?)
}

#[test]
fn a_judge_stops_where_the_record_is_wrong_at_the_pins(rt: HostRuntime) -> Result<(), Fail> {
    for (places, cores) in AT_PINS {
        let seen = at_pins(rt.alloc(), *places)?;
        let agrees = agrees(rt.alloc(), PINS, 0, *cores, &seen)?;
        assert!(rt; agrees, "at {places:?} {cores:?}");
    }
    Ok(())
}

/// Records of two clients: what is wrong with them, their lines, and whether somebody watched the cores.
const RECORDS: &[(Damage, &[usize], Cores)] = &[
    (Damage::Nothing, IN_ORDER, Cores::Watched),
    (Damage::GrantsOldBytes, IN_ORDER, Cores::Watched),
    (Damage::GrantsTip, IN_ORDER, Cores::Watched),
    (Damage::LoadsOldBytes, IN_ORDER, Cores::Watched),
    (Damage::Nothing, GRANTED_BEFORE, Cores::Watched),
    (Damage::Nothing, GRANT_BEHIND, Cores::Watched),
    (Damage::Nothing, WITHOUT_CORES, Cores::Watched),
    (Damage::Nothing, WITHOUT_CORES, Cores::Unseen),
    (Damage::Nothing, &[1, 2, 3, 4, 0, 0], Cores::Unseen),
];

#[test]
fn a_judge_stops_where_a_record_of_two_clients_is_wrong(rt: HostRuntime) -> Result<(), Fail> {
    for (damage, order, cores) in RECORDS {
        let seen = race(rt.alloc(), *damage, *order)?;
        for client in 0..2 {
            let agrees = agrees(rt.alloc(), RACE, client, *cores, &seen)?;
            assert!(rt; agrees, "at {damage:?} {order:?} {cores:?} {client}");
        }
    }
    Ok(())
}

/// What is told: the status, the rule, the client's permission and what it waits for.
fn told(verdict: &PinsVerdict) -> (u32, u32, u32, u32) {
    (verdict.status, verdict.rule, verdict.perm, verdict.wait)
}

/// Client 0 acquires block 0 and is granted Tip; what the two lines are told.
fn granted(room: &mut PinsRoom) -> ((u32, u32, u32, u32), (u32, u32, u32, u32)) {
    let asks = told(&see(room, &numbers(2, 0, 0, (0, 6, 1))));
    let grant = with_bytes(numbers(2, 0, 0, (3, 5, 0)), &[7; 8]);
    (asks, told(&see(room, &grant)))
}

#[test]
fn a_fault_is_told_again(rt: HostRuntime) {
    let mut room = judge(rt.alloc(), RACE, 0, Cores::Watched);
    let (asks, grant) = granted(&mut room);
    let other = numbers(2, 1, 0, (0, 6, 1));
    let of_the_other = told(&see(&mut room, &other));
    let wrong = with_bytes(numbers(2, 0, 0, (2, 7, 1)), &[7; 8]);
    let first = see(&mut room, &wrong);
    let again = see(&mut room, &other);
    assert_eq!(rt;
        (asks, grant, of_the_other),
        ((0, 0, 0, 1), (0, 0, 2, 0), (0, 0, 2, 0))
    );
    assert_eq!(rt;
        (told(&first), first.opcode, first.param),
        ((31, 41, 2, 0), 6, 1)
    );
    assert_eq!(rt;
        (told(&again), again.opcode, again.param),
        ((31, 41, 2, 0), 6, 1)
    );
}

#[test]
fn what_is_no_line_changes_nothing(rt: HostRuntime) {
    let mut watched = judge(rt.alloc(), RACE, 0, Cores::Watched);
    let mut unseen = judge(rt.alloc(), RACE, 0, Cores::Unseen);
    let what = see(&mut watched, &numbers(3, 0, 0, (0, 6, 1))).status;
    let client = see(&mut watched, &numbers(2, 2, 0, (0, 6, 1))).status;
    let block = see(&mut watched, &numbers(2, 0, 1, (0, 6, 1))).status;
    let param = see(&mut watched, &numbers(2, 0, 0, (0, 6, 3))).status;
    let no_data = see(&mut watched, &numbers(2, 0, 0, (3, 5, 0))).status;
    let load = with_bytes(numbers(0, 0, 0, (0, 0, 0)), &[0]);
    let of_a_core = see(&mut unseen, &load).status;
    let (asks, _) = granted(&mut watched);
    assert_eq!(rt; (what, client, block), (17, 17, 17));
    assert_eq!(rt;
        (param, no_data, of_a_core, asks),
        (17, 17, 17, (0, 0, 0, 1))
    );
}

#[test]
fn a_closed_judge_says_why(rt: HostRuntime) {
    let line = numbers(2, 0, 0, (0, 6, 1));
    let mut of_none = judge(rt.alloc(), RACE, 2, Cores::Watched);
    let mut shut = judge(rt.alloc(), RACE, 1, Cores::Watched);
    let shuts = told(&see(&mut shut, &numbers(255, 0, 0, (0, 0, 0))));
    let client = see(&mut of_none, &line).why;
    let by_its_caller = see(&mut shut, &line);
    assert_eq!(rt; (shuts, client), ((0, 0, 0, 0), 10));
    assert_eq!(rt; (by_its_caller.status, by_its_caller.why), (18, 18));
}
