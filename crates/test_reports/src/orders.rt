//! Small logs that have one order, and logs that do not.
use std::alloc::{AllocError, Global};
use tl_protocol::{Access, Event, Log};
use tl_rules::certify;
use tl_types::{AccessBytes, BlockNo, ClientId};

/// The stores of a log, each of a stamp, a client and an index.
type Marks = &'static [(u64, u32, u32)];

/// The stores of some logs, and whether the logs have one order.
const CASES: &[(&[Marks], bool)] = &[
    (&[&[(1, 0, 0), (2, 1, 0)], &[(2, 0, 1)]], true),
    (&[&[(2, 0, 1)], &[(1, 0, 0), (2, 1, 0)]], true),
    (&[&[], &[]], true),
    (&[], true),
    (&[&[(1, 15, 7)]], true),
    (&[&[], &[], &[], &[], &[], &[], &[], &[(1, 0, 0)]], true),
    (&[&[(2, 0, 0)], &[(1, 0, 1)]], false),
    (&[&[(1, 0, 0)], &[(1, 0, 1)]], false),
    (&[&[(1, 16, 0)]], false),
    (&[&[(2, 0, 0), (1, 1, 0)]], false),
    (&[&[(1, 0, 0), (1, 1, 0)]], false),
    (&[&[(1, 0, 0), (2, 0, 0)]], false),
    (
        &[&[], &[], &[], &[], &[], &[], &[], &[], &[(1, 0, 0)]],
        false,
    ),
];

/// Appends a store, with another event before it and one behind it.
fn append(log: &mut Log, stamp: u64, client: u32, index: u32) -> Result<(), AllocError> {
    log.reserve(3)?;
    log.append(Event::SendGet(BlockNo::new(0)));
    log.append(Event::Store(Access {
        client: ClientId::new(client),
        address: 0,
        bytes: AccessBytes::new(),
        stamp,
        index,
    }));
    log.append(Event::Serve(BlockNo::new(0)));
    Ok(())
}

/// A log of stores.
fn log_of(alloc: Global, marks: &[(u64, u32, u32)]) -> Result<Log, AllocError> {
    let mut log = Log::new(alloc);
    for (stamp, client, index) in marks {
        append(&mut log, *stamp, *client, *index)?;
    }
    Ok(log)
}

/// The logs of these stores.
fn logs_of(alloc: Global, marks: &[Marks]) -> Result<Vec<Log>, AllocError> {
    let mut logs = Vec::new(alloc);
    for list in marks {
        logs.push(log_of(alloc, *list)?)?;
    }
    Ok(logs)
}

/// Whether logs have one order.
fn are_certified(alloc: Global, logs: &[Log]) -> Result<bool, AllocError> {
    let mut lent = Vec::new(alloc);
    for log in logs {
        lent.push(log)?;
    }
    Ok(certify(lent.as_slice()))
}

/// Whether the logs of these stores have one order. `None` where a request for memory was refused.
fn have_one_order(alloc: Global, marks: &[Marks]) -> Option<bool> {
    let logs = logs_of(alloc, marks).ok()?;
    are_certified(alloc, &logs).ok()
}

#[test]
fn logs_have_one_order_or_none(rt: HostRuntime) {
    for (marks, wanted) in CASES {
        assert_eq!(rt; have_one_order(rt.alloc(), *marks), Some(*wanted));
    }
}
