//! The names of the scripts and records.

use tlcheck_coverage::{Form, Way};

/// Traces, and runs that stall or whose script is refused: each has one answer.
pub const DECIDED: &[(&str, bool)] = &[
    ("both-upgrade", true),
    ("doubled-early-and-foreign-tickets", true),
    ("every-way-is-held", true),
    ("eviction-and-return", true),
    ("eviction-of-a-reader", true),
    ("eviction-writes-back", true),
    ("grant-is-decided-when-sent", true),
    ("reader-beside-a-sole-reader", true),
    ("record-falls-while-a-probe-is-out", true),
    ("release-before-the-grant-ack", true),
    ("release-crosses-probe", true),
    ("last-client-of-sixteen", true),
    ("sole-reader-is-granted-tip", true),
    ("store-and-reader", true),
    ("strange-steps", true),
    ("three-readers", true),
    ("upgrade", true),
    ("wide-blocks", true),
    ("a-full-channel", true),
    ("the-largest-trace", true),
    ("the-victim-was-granted-longest-ago", true),
    ("forms-of-steps", true),
    ("not-a-text", false),
    ("one-command-too-many", false),
    ("one-step-too-many", false),
    ("one-turn", false),
    ("two-bytes-and-one-turn", false),
    ("more-commands-than-turns", false),
];

/// Runs that end, and how many reports each may have.
pub const RUNS: &[(&str, u32)] = &[
    ("two-bytes", 1),
    ("forms-of-commands", 1),
    ("no-commands", 1),
    ("image", 1),
    ("drop-between", 1),
    ("drop-at-the-end", 1),
    ("drop-of-nothing", 1),
    ("table-of-one-copy", 1),
    ("two-banks", 1),
    ("a-client-for-each-bank", 1),
    ("nine-clients", 1),
    ("sixteen-clients", 1),
    ("two-clients-contend", 1),
    ("eight-clients-contend", 1),
    ("sixteen-clients-contend", 1),
    ("readers-hold-a-block", 1),
    ("readers-become-writers", 1),
    ("drops-beside-upgrades", 1),
    ("two-clients-one-block", 2),
    ("one-memory-over-two-banks", 3),
    ("readers-and-a-writer", 4),
];

/// Traces with pictures.
pub const DRAWN: &[&str] = &[
    "release-crosses-probe",
    "both-upgrade",
    "eviction-writes-back",
    "every-mark",
];

/// Records of events with pages; the files are `record-NAME`.
pub const PAGED: &[&str] = &[
    "answers-before-the-release-ack",
    "grants-beside-a-probe",
    "grants-old-bytes",
    "in-another-order",
    "out-of-order",
    "reads-old-bytes",
    "two-writers",
];

/// Records of events with charts.
pub const CHARTED: &[&str] = &["grants-old-bytes"];

/// Records of events that are lawful, and have none.
pub const NOT_CHARTED: &[&str] = &["two-writers"];

/// Records of messages with charts.
pub const CHARTED_MESSAGES: &[&str] = &[
    "answers-before-its-release-ack",
    "two-writers-at-their-pins",
];

/// Records of messages that are explained, not decided or refused, and have none.
pub const NOT_CHARTED_MESSAGES: &[&str] = &[
    "a-grant-comes-too-late",
    "a-miss",
    "a-release-is-never-acknowledged",
    "no-such-sink",
    "two-writers-beside-a-client-that-drops",
];

/// Records of messages, each a file.
pub const MESSAGES: &[&str] = &[
    "a-grant-comes-in-time.txt",
    "a-grant-comes-too-late.txt",
    "a-late-core.txt",
    "a-late-write-back.txt",
    "a-memory-past-the-last-address.txt",
    "a-miss.txt",
    "a-premise-that-is-none.txt",
    "a-probe-ack-before-its-probe.txt",
    "a-probe-before-an-earlier-grant.txt",
    "a-probe-is-never-answered.txt",
    "a-release-is-never-acknowledged.txt",
    "accepts-without-a-grant.txt",
    "addresses-of-64-bits.txt",
    "an-acquire-is-never-granted.txt",
    "an-end-that-is-none.txt",
    "answers-before-its-get.txt",
    "answers-before-its-release-ack.txt",
    "answers-in-another-order.txt",
    "asks-a-line-early.txt",
    "asks-anew-for-what-it-has.txt",
    "asks-before-its-release-ack.txt",
    "delayed.txt",
    "denied.txt",
    "drops-a-branch-that-home-still-records.txt",
    "drops-a-clean-copy-before-a-probe.txt",
    "drops-a-clean-tip.txt",
    "drops-a-dirty-copy-before-a-probe.txt",
    "drops-a-dirty-tip.txt",
    "drops-as-another-client-may.txt",
    "drops-in-both-forms.txt",
    "drops-of-no-client.txt",
    "drops-said-twice.txt",
    "gives-dirty-bytes-up-without-them.txt",
    "grant-acks-in-another-order.txt",
    "grants-before-it-takes-a-release.txt",
    "grants-bytes-from-nowhere-before-a-load.txt",
    "grants-bytes-from-nowhere.txt",
    "grants-old-bytes-behind-a-skew.txt",
    "grants-old-bytes.txt",
    "keeps-a-stale-copy.txt",
    "leaves-out-a-device.txt",
    "leaves-out-an-instruction-cache.txt",
    "leaves-out-the-rest-of-the-memory.txt",
    "loads-a-line-early.txt",
    "no-such-sink.txt",
    "nobody-watched-the-cores.txt",
    "nobody-watched-the-memory.txt",
    "of-another-link.txt",
    "one-source-line.txt",
    "outside-the-profile.txt",
    "probes-beside-a-grant.txt",
    "release-acks-in-another-order.txt",
    "release-crosses-probe.txt",
    "two-faults.txt",
    "two-grants-in-reverse.txt",
    "two-readers-and-a-writer.txt",
    "two-writers-at-their-pins.txt",
    "two-writers-before-grant-acks-in-another-order.txt",
    "two-writers-beside-a-client-that-drops.txt",
    "two-writers.txt",
    "unwatched-answers-before-its-release-ack.txt",
    "unwatched-asks-before-its-release-ack.txt",
    "unwatched-gives-up-what-it-has-not.txt",
    "unwatched-grants-old-bytes.txt",
    "upgrades-behind-a-probe-ack.txt",
    "was-cut.txt",
    "writes-beside-the-caches.txt",
];

/// Records of events that are not among others, since one has no line feed and one is no text.
pub const EVENTS: &[&str] = &[
    "record-one-line-without-an-end.txt",
    "record-a-byte-that-is-no-text.txt",
];

/// Records of which it is told what they have reached.
#[derive(Clone, Copy)]
pub struct Reached {
    /// The file with what is told.
    pub file: &'static str,
    pub form: Form,
    /// Whether it is told what this project's home reaches.
    pub by_home: bool,
    /// Each record's name there, and its file.
    pub records: &'static [(&'static str, &'static str)],
}

const ONE: (&str, &str) = ("one", "record-one-client.txt");

const TWO: (&str, &str) = ("two", "record-two-clients.txt");

/// A name that a page has to write otherwise.
const MARKED: (&str, &str) = ("<one>", "record-one-client.txt");

/// What records have reached; `tlcheck` itself is run on `one` with what home reaches.
pub const REACHED: &[Reached] = &[
    Reached {
        file: "reached-by-one.out",
        form: Form::Text,
        by_home: false,
        records: &[ONE],
    },
    Reached {
        file: "reached-by-two.out",
        form: Form::Text,
        by_home: false,
        records: &[ONE, TWO],
    },
    Reached {
        file: "reached-by-two-with-home.out",
        form: Form::Text,
        by_home: true,
        records: &[ONE, TWO],
    },
    Reached {
        file: "reached-twice.out",
        form: Form::Text,
        by_home: false,
        records: &[
            ("a", "record-one-client.txt"),
            ("b", "record-one-client.txt"),
        ],
    },
    Reached {
        file: "reached-until-it-broke.out",
        form: Form::Text,
        by_home: false,
        records: &[ONE, ("b", "record-serves-without-a-get.txt")],
    },
    Reached {
        file: "reached-by-no-record.out",
        form: Form::Text,
        by_home: false,
        records: &[("c", "record-without-a-shape.txt")],
    },
    Reached {
        file: "reached-by-one.html",
        form: Form::Page,
        by_home: false,
        records: &[MARKED],
    },
    Reached {
        file: "reached-by-one-with-home.html",
        form: Form::Page,
        by_home: true,
        records: &[MARKED],
    },
];

/// Words for a situation, and how the way into it is told.
pub const WAYS: &[(&str, Way)] = &[
    ("1.100", Way::Record),
    ("1.320", Way::Record),
    ("1.130", Way::Script),
    ("1.320", Way::Script),
    ("1.100", Way::Script),
    ("2.1408", Way::Record),
    ("2.1403", Way::Script),
    ("", Way::Record),
    ("1", Way::Record),
    ("1.", Way::Record),
    (".1", Way::Record),
    ("0.1", Way::Record),
    ("1.0", Way::Record),
    ("4.1", Way::Record),
    ("1.01", Way::Record),
    ("1.1.1", Way::Record),
    ("-1.1", Way::Record),
    ("1.1 ", Way::Record),
];
