//! The options in the order in which they apply.

use crate::entry::Entry;

/// The options.
pub(crate) static TABLE: [Entry; 34] = [
    Entry {
        name: "accept-word",
        letter: None,
        takes_value: true,
    },
    Entry {
        name: "reject-word",
        letter: None,
        takes_value: true,
    },
    Entry {
        name: "is-empty",
        letter: None,
        takes_value: false,
    },
    Entry {
        name: "included-in",
        letter: None,
        takes_value: true,
    },
    Entry {
        name: "equivalent-to",
        letter: None,
        takes_value: true,
    },
    Entry {
        name: "intersect",
        letter: None,
        takes_value: true,
    },
    Entry {
        name: "is-deterministic",
        letter: None,
        takes_value: false,
    },
    Entry {
        name: "is-complete",
        letter: None,
        takes_value: false,
    },
    Entry {
        name: "is-unambiguous",
        letter: None,
        takes_value: false,
    },
    Entry {
        name: "states",
        letter: None,
        takes_value: true,
    },
    Entry {
        name: "edges",
        letter: None,
        takes_value: true,
    },
    Entry {
        name: "acc-sets",
        letter: None,
        takes_value: true,
    },
    Entry {
        name: "ap",
        letter: None,
        takes_value: true,
    },
    Entry {
        name: "product",
        letter: None,
        takes_value: true,
    },
    Entry {
        name: "product-or",
        letter: None,
        takes_value: true,
    },
    Entry {
        name: "sum",
        letter: None,
        takes_value: true,
    },
    Entry {
        name: "remove-ap",
        letter: None,
        takes_value: true,
    },
    Entry {
        name: "remove-unreachable-states",
        letter: None,
        takes_value: false,
    },
    Entry {
        name: "complement",
        letter: None,
        takes_value: false,
    },
    Entry {
        name: "deterministic",
        letter: Some('D'),
        takes_value: false,
    },
    Entry {
        name: "parity",
        letter: None,
        takes_value: false,
    },
    Entry {
        name: "buchi",
        letter: None,
        takes_value: false,
    },
    Entry {
        name: "remove-fin",
        letter: None,
        takes_value: false,
    },
    Entry {
        name: "dnf-acceptance",
        letter: None,
        takes_value: false,
    },
    Entry {
        name: "monitor",
        letter: Some('M'),
        takes_value: false,
    },
    Entry {
        name: "complete",
        letter: Some('C'),
        takes_value: false,
    },
    Entry {
        name: "stats",
        letter: None,
        takes_value: true,
    },
    Entry {
        name: "refute",
        letter: None,
        takes_value: true,
    },
    Entry {
        name: "invert-match",
        letter: Some('v'),
        takes_value: false,
    },
    Entry {
        name: "count",
        letter: Some('c'),
        takes_value: false,
    },
    Entry {
        name: "quiet",
        letter: Some('q'),
        takes_value: false,
    },
    Entry {
        name: "max-count",
        letter: Some('n'),
        takes_value: true,
    },
    Entry {
        name: "file",
        letter: Some('F'),
        takes_value: true,
    },
    Entry {
        name: "made",
        letter: None,
        takes_value: true,
    },
];
