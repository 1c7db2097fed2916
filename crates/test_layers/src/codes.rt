use tl_types::{Channel, code, decode};

/// How many kinds have this channel and opcode. `None` where one of them has other codes than it was decoded from.
fn count_kinds(channel: Channel, opcode: u8) -> Option<u32> {
    let mut found = 0u32;
    for param in 0..=255u8 {
        if let Some(kind) = decode(channel, opcode, param) {
            if kind.channel() != channel || code(kind) != (opcode, param) {
                return None;
            }
            found = found.saturating_add(1);
        }
    }
    Some(found)
}

/// How many kinds have this channel. `None` where one of them has other codes than it was decoded from.
fn count_on(channel: Channel) -> Option<u32> {
    let mut found = 0u32;
    for opcode in 0..=255u8 {
        found = found.saturating_add(count_kinds(channel, opcode)?);
    }
    Some(found)
}

#[test]
fn the_table_has_27_kinds(rt: HostRuntime) {
    let mut found = 0u32;
    for channel in Channel::ALL {
        found = found.saturating_add(count_on(channel).unwrap_or(100));
    }
    assert_eq!(rt; found, 27);
}
