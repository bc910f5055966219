//! Stores of mixed versions: what is wanted of their objects, and what these become.

/// What a field holds: a number, the object in a slot, or null.
#[derive(Clone, Copy)]
pub enum Holds {
    Int(i64),
    Slot(u8),
    Null,
}

use Holds::{Int, Null, Slot};

#[derive(Clone, Copy)]
pub struct Stored {
    pub slot: u8,
    pub class: u16,
    pub ver: u32,
    pub fields: &'static [Holds],
}

#[derive(Clone, Copy)]
pub enum Want {
    Part(u8),
    /// All is at hand: these slots, and the fields of the object in that epoch.
    All(&'static [u8], &'static [Holds]),
}

#[derive(Clone, Copy)]
pub struct Case {
    pub object: Stored,
    pub at_hand: &'static [Stored],
    pub epoch: u32,
    pub want: Want,
}

/// The classes 0 to 8: an A owns an M, which owns a Z; an H owns a chain of L; an R owns an M, a T two Z.
pub const SETUP: &[u8] =
    b"free class A { M m; int s; A o; } part class M { Z z; } part class Z { int v; } free class H { L n; int v; } part class L { L n; int v; } free class N { int v; } free class K { K k; } free class R { M m; int v; } free class T { Z a; Z b; int v; }";

/// The upgrades to the epochs 1, 2 and 3, with the classes behind them. The second hands a Z over to another field.
pub const UPGRADES: &[(&[u8], &[u8])] = &[
    (
        b"upgrade { class A { M m = old.m; int s = old.m.z.v; A o = old.o; } class Z { int v = old.v * 10; } class H { L n = old.n; int v = old.n.n.n.n.n.n.n.v; } }",
        SETUP,
    ),
    (
        b"upgrade { class M { Z y = old.z; int w = old.z.v + 1; } }",
        b"free class A { M m; int s; A o; } part class M { Z y; int w; } part class Z { int v; } free class H { L n; int v; } part class L { L n; int v; } free class N { int v; } free class K { K k; } free class R { M m; int v; } free class T { Z a; Z b; int v; }",
    ),
    (
        b"upgrade { class A { M p = old.m; int s = old.m.w * 2 + old.m.y.v; A o = old.o; int t = -old.s; } class Z { int v = old.v + 5; } class K { Gone g = old.k; } class R { M m = old.m; int v = old.m.w; } class T { Z a = old.a; Z b = old.b; int v = old.a.v + old.b.v; } }",
        b"free class A { M p; int s; A o; int t; } part class M { Z y; int w; } part class Z { int v; } free class H { L n; int v; } part class L { L n; int v; } free class N { int v; } free class K { Gone g; } free class R { M m; int v; } free class T { Z a; Z b; int v; }",
    ),
];

const ACCOUNT: Stored = Stored {
    slot: 0,
    class: 0,
    ver: 0,
    fields: &[Slot(1), Int(0), Null],
};

const MIDDLE: Stored = Stored {
    slot: 1,
    class: 1,
    ver: 0,
    fields: &[Slot(2)],
};

const LAST: Stored = Stored {
    slot: 2,
    class: 2,
    ver: 0,
    fields: &[Int(7)],
};

const LATER_ACCOUNT: Stored = Stored {
    slot: 0,
    class: 0,
    ver: 1,
    fields: &[Slot(1), Int(100), Null],
};

const LATER_LAST: Stored = Stored {
    slot: 2,
    class: 2,
    ver: 1,
    fields: &[Int(70)],
};

const LONELY: Stored = Stored {
    slot: 0,
    class: 0,
    ver: 0,
    fields: &[Null, Int(5), Null],
};

const HEAD: Stored = Stored {
    slot: 0,
    class: 3,
    ver: 0,
    fields: &[Slot(3), Int(0)],
};

const LINK_3: Stored = Stored {
    slot: 3,
    class: 4,
    ver: 0,
    fields: &[Slot(4), Int(43)],
};

const LINK_4: Stored = Stored {
    slot: 4,
    class: 4,
    ver: 0,
    fields: &[Slot(5), Int(44)],
};

const LINK_5: Stored = Stored {
    slot: 5,
    class: 4,
    ver: 0,
    fields: &[Slot(6), Int(45)],
};

const LINK_6: Stored = Stored {
    slot: 6,
    class: 4,
    ver: 0,
    fields: &[Slot(7), Int(46)],
};

const LINK_7: Stored = Stored {
    slot: 7,
    class: 4,
    ver: 0,
    fields: &[Slot(8), Int(47)],
};

const LINK_8: Stored = Stored {
    slot: 8,
    class: 4,
    ver: 0,
    fields: &[Slot(9), Int(48)],
};

const LINK_9: Stored = Stored {
    slot: 9,
    class: 4,
    ver: 0,
    fields: &[Slot(10), Int(49)],
};

const LOOP: Stored = Stored {
    slot: 3,
    class: 4,
    ver: 0,
    fields: &[Slot(3), Int(8)],
};

const OTHER: Stored = Stored {
    slot: 0,
    class: 5,
    ver: 0,
    fields: &[Int(5)],
};

const WRONG: Stored = Stored {
    slot: 0,
    class: 0,
    ver: 0,
    fields: &[Int(5), Slot(2), Int(7)],
};

const UNKNOWN: Stored = Stored {
    slot: 0,
    class: 9,
    ver: 0,
    fields: &[Int(1)],
};

const FUTURE: Stored = Stored {
    slot: 0,
    class: 2,
    ver: 5,
    fields: &[Int(3)],
};

/// Its field becomes one of a class that isn't there.
const KIN: Stored = Stored {
    slot: 0,
    class: 6,
    ver: 0,
    fields: &[Slot(0)],
};

/// It reads of its part what the part's upgrade read of its own.
const READER: Stored = Stored {
    slot: 0,
    class: 7,
    ver: 0,
    fields: &[Slot(1), Int(0)],
};

const TWO_PARTS: Stored = Stored {
    slot: 0,
    class: 8,
    ver: 0,
    fields: &[Slot(2), Slot(3), Int(0)],
};

pub const CASES: &[Case] = &[
    // the first object on the path lacks
    Case {
        object: ACCOUNT,
        at_hand: &[],
        epoch: 1,
        want: Want::Part(1),
    },
    // then the next
    Case {
        object: ACCOUNT,
        at_hand: &[MIDDLE],
        epoch: 1,
        want: Want::Part(2),
    },
    // all is there: the part is read as it was before the upgrade
    Case {
        object: ACCOUNT,
        at_hand: &[MIDDLE, LAST],
        epoch: 1,
        want: Want::All(&[1, 2], &[Slot(1), Int(7), Null]),
    },
    // a part by itself
    Case {
        object: LAST,
        at_hand: &[],
        epoch: 1,
        want: Want::All(&[], &[Int(70)]),
    },
    // a part that lags is brought up first, and what that reads is read
    Case {
        object: ACCOUNT,
        at_hand: &[MIDDLE],
        epoch: 3,
        want: Want::Part(2),
    },
    // three upgrades, each over the epoch before
    Case {
        object: ACCOUNT,
        at_hand: &[MIDDLE, LAST],
        epoch: 3,
        want: Want::All(&[1, 2], &[Slot(1), Int(212), Null, Int(-7)]),
    },
    // a part that lags by two, below an object that lags by one
    Case {
        object: LATER_ACCOUNT,
        at_hand: &[MIDDLE, LATER_LAST],
        epoch: 3,
        want: Want::All(&[1, 2], &[Slot(1), Int(212), Null, Int(-100)]),
    },
    // a path through null
    Case {
        object: LONELY,
        at_hand: &[],
        epoch: 3,
        want: Want::All(&[], &[Null, Int(0), Null, Int(0)]),
    },
    // a path of eight names, whose end lacks
    Case {
        object: HEAD,
        at_hand: &[LINK_3, LINK_4, LINK_5, LINK_6, LINK_7, LINK_8],
        epoch: 1,
        want: Want::Part(9),
    },
    // and whole
    Case {
        object: HEAD,
        at_hand: &[LINK_3, LINK_4, LINK_5, LINK_6, LINK_7, LINK_8, LINK_9],
        epoch: 3,
        want: Want::All(&[3, 4, 5, 6, 7, 8, 9], &[Slot(3), Int(49)]),
    },
    // an object that owns itself is read seven times
    Case {
        object: HEAD,
        at_hand: &[LOOP],
        epoch: 1,
        want: Want::All(&[3], &[Slot(3), Int(8)]),
    },
    // no upgrade names the class
    Case {
        object: OTHER,
        at_hand: &[MIDDLE, LAST],
        epoch: 3,
        want: Want::All(&[], &[Int(5)]),
    },
    // values of wrong kinds
    Case {
        object: WRONG,
        at_hand: &[LAST],
        epoch: 1,
        want: Want::All(&[], &[Null, Int(0), Null]),
    },
    // a class that isn't there
    Case {
        object: UNKNOWN,
        at_hand: &[],
        epoch: 3,
        want: Want::All(&[], &[Int(1)]),
    },
    // an object of a later epoch
    Case {
        object: FUTURE,
        at_hand: &[],
        epoch: 3,
        want: Want::All(&[], &[Int(3)]),
    },
    // a reference for a field of a class that isn't there
    Case {
        object: KIN,
        at_hand: &[],
        epoch: 3,
        want: Want::All(&[], &[Null]),
    },
    // what a part's upgrade reads is wanted with the part, and read before
    Case {
        object: READER,
        at_hand: &[MIDDLE],
        epoch: 3,
        want: Want::Part(2),
    },
    Case {
        object: READER,
        at_hand: &[MIDDLE, LAST],
        epoch: 3,
        want: Want::All(&[1, 2], &[Slot(1), Int(71)]),
    },
    // of two parts that lack the first is wanted
    Case {
        object: TWO_PARTS,
        at_hand: &[],
        epoch: 3,
        want: Want::Part(2),
    },
];
