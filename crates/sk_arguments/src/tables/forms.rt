//! The forms of the arguments that take constants. `tools/call_arguments` makes the table.
use crate::constants::Set;
use crate::forms::{Field, Form, Row, When};

const ACCESS: Set = Set { first: 0, end: 4 };

const AF: Set = Set { first: 4, end: 50 };

const ARCH: Set = Set { first: 50, end: 75 };

const AT: Set = Set { first: 75, end: 81 };

const BPF: Set = Set {
    first: 81,
    end: 117,
};

const CLOCK: Set = Set {
    first: 117,
    end: 128,
};

const CLONE: Set = Set {
    first: 128,
    end: 152,
};

const CLONE_NS: Set = Set {
    first: 152,
    end: 166,
};

const EPOLL: Set = Set {
    first: 166,
    end: 169,
};

const F: Set = Set {
    first: 169,
    end: 200,
};

const FADV: Set = Set {
    first: 200,
    end: 206,
};

const FD: Set = Set {
    first: 206,
    end: 207,
};

const FMT: Set = Set {
    first: 207,
    end: 215,
};

const FUTEX: Set = Set {
    first: 215,
    end: 229,
};

const FUTEX_FLAG: Set = Set {
    first: 229,
    end: 231,
};

const GRND: Set = Set {
    first: 231,
    end: 234,
};

const IOCTL: Set = Set {
    first: 234,
    end: 444,
};

const IP: Set = Set {
    first: 444,
    end: 484,
};

const IPC: Set = Set {
    first: 484,
    end: 493,
};

const IPCKEY: Set = Set {
    first: 493,
    end: 494,
};

const IPPROTO: Set = Set {
    first: 494,
    end: 523,
};

const IPV6: Set = Set {
    first: 523,
    end: 578,
};

const ITIMER: Set = Set {
    first: 578,
    end: 581,
};

const KCMP: Set = Set {
    first: 581,
    end: 589,
};

const KEYCTL: Set = Set {
    first: 589,
    end: 622,
};

const LEVEL: Set = Set {
    first: 622,
    end: 659,
};

const LOCK: Set = Set {
    first: 659,
    end: 667,
};

const MADV: Set = Set {
    first: 667,
    end: 692,
};

const MAP: Set = Set {
    first: 692,
    end: 708,
};

const MAP_TYPE: Set = Set {
    first: 708,
    end: 713,
};

const MFD: Set = Set {
    first: 713,
    end: 718,
};

const MREMAP: Set = Set {
    first: 718,
    end: 721,
};

const MS: Set = Set {
    first: 721,
    end: 751,
};

const MSG: Set = Set {
    first: 751,
    end: 773,
};

const NETLINK: Set = Set {
    first: 773,
    end: 795,
};

const O: Set = Set {
    first: 795,
    end: 811,
};

const PER: Set = Set {
    first: 811,
    end: 817,
};

const PER_FLAG: Set = Set {
    first: 817,
    end: 828,
};

const PIPE: Set = Set {
    first: 828,
    end: 832,
};

const PKEY: Set = Set {
    first: 832,
    end: 834,
};

const PR: Set = Set {
    first: 834,
    end: 903,
};

const PRIO: Set = Set {
    first: 903,
    end: 906,
};

const PROT: Set = Set {
    first: 906,
    end: 913,
};

const PTRACE: Set = Set {
    first: 913,
    end: 956,
};

const QCMD: Set = Set {
    first: 956,
    end: 965,
};

const RLIMIT: Set = Set {
    first: 965,
    end: 981,
};

const S: Set = Set {
    first: 981,
    end: 996,
};

const SCHED: Set = Set {
    first: 996,
    end: 1003,
};

const SCHED_FLAG: Set = Set {
    first: 1003,
    end: 1004,
};

const SECCOMP: Set = Set {
    first: 1004,
    end: 1008,
};

const SHMAT: Set = Set {
    first: 1008,
    end: 1012,
};

const SIG: Set = Set {
    first: 1012,
    end: 1043,
};

const SIGHOW: Set = Set {
    first: 1043,
    end: 1046,
};

const SO: Set = Set {
    first: 1046,
    end: 1124,
};

const SOCK: Set = Set {
    first: 1124,
    end: 1131,
};

const SOCK_FLAG: Set = Set {
    first: 1131,
    end: 1133,
};

const STATX: Set = Set {
    first: 1133,
    end: 1152,
};

const TCP: Set = Set {
    first: 1152,
    end: 1190,
};

const UDP: Set = Set {
    first: 1190,
    end: 1196,
};

const UMOUNT: Set = Set {
    first: 1196,
    end: 1200,
};

/// The rows of each argument: call, place, where the form is there, and the form.
pub const ROWS: &[Row] = &[
    (288, 3, When::Always, Form::Bits(SOCK_FLAG, None)),
    (158, 0, When::Always, Form::One(ARCH)),
    (321, 0, When::Always, Form::One(BPF)),
    (90, 1, When::Always, Form::Bits(S, None)),
    (229, 0, When::Always, Form::One(CLOCK)),
    (228, 0, When::Always, Form::One(CLOCK)),
    (230, 0, When::Always, Form::One(CLOCK)),
    (227, 0, When::Always, Form::One(CLOCK)),
    (
        56,
        0,
        When::Always,
        Form::Bits(
            CLONE,
            Some(Field {
                mask: 0xff,
                values: SIG,
            }),
        ),
    ),
    (85, 1, When::Always, Form::Bits(S, None)),
    (233, 1, When::Always, Form::One(EPOLL)),
    (221, 3, When::Always, Form::One(FADV)),
    (91, 1, When::Always, Form::Bits(S, None)),
    (268, 2, When::Always, Form::Bits(S, None)),
    (452, 2, When::Always, Form::Bits(S, None)),
    (72, 1, When::Always, Form::One(F)),
    (72, 2, When::Is(1, 2), Form::Bits(FD, None)),
    (
        72,
        2,
        When::Is(1, 4),
        Form::Bits(
            O,
            Some(Field {
                mask: 0x3,
                values: ACCESS,
            }),
        ),
    ),
    (73, 1, When::Always, Form::Bits(LOCK, None)),
    (
        202,
        1,
        When::Always,
        Form::Bits(
            FUTEX_FLAG,
            Some(Field {
                mask: 0x7f,
                values: FUTEX,
            }),
        ),
    ),
    (140, 0, When::Always, Form::One(PRIO)),
    (318, 2, When::Always, Form::Bits(GRND, None)),
    (97, 0, When::Always, Form::One(RLIMIT)),
    (55, 1, When::Always, Form::One(LEVEL)),
    (55, 2, When::Is(1, 1), Form::One(SO)),
    (55, 2, When::Is(1, 0), Form::One(IP)),
    (55, 2, When::Is(1, 41), Form::One(IPV6)),
    (55, 2, When::Is(1, 6), Form::One(TCP)),
    (55, 2, When::Is(1, 17), Form::One(UDP)),
    (16, 1, When::Always, Form::One(IOCTL)),
    (312, 2, When::Always, Form::One(KCMP)),
    (250, 0, When::Always, Form::One(KEYCTL)),
    (62, 1, When::Always, Form::One(SIG)),
    (28, 2, When::Always, Form::One(MADV)),
    (319, 1, When::Always, Form::Bits(MFD, None)),
    (83, 1, When::Always, Form::Bits(S, None)),
    (258, 2, When::Always, Form::Bits(S, None)),
    (
        133,
        1,
        When::Always,
        Form::Bits(
            S,
            Some(Field {
                mask: 0xf000,
                values: FMT,
            }),
        ),
    ),
    (
        259,
        2,
        When::Always,
        Form::Bits(
            S,
            Some(Field {
                mask: 0xf000,
                values: FMT,
            }),
        ),
    ),
    (9, 2, When::Always, Form::Bits(PROT, None)),
    (
        9,
        3,
        When::Always,
        Form::Bits(
            MAP,
            Some(Field {
                mask: 0xf,
                values: MAP_TYPE,
            }),
        ),
    ),
    (165, 3, When::Always, Form::Bits(MS, None)),
    (10, 2, When::Always, Form::Bits(PROT, None)),
    (25, 3, When::Always, Form::Bits(MREMAP, None)),
    (262, 3, When::Always, Form::Bits(AT, None)),
    (
        2,
        1,
        When::Always,
        Form::Bits(
            O,
            Some(Field {
                mask: 0x3,
                values: ACCESS,
            }),
        ),
    ),
    (
        2,
        2,
        When::Always,
        Form::Bits(
            S,
            Some(Field {
                mask: 0xf000,
                values: FMT,
            }),
        ),
    ),
    (
        257,
        2,
        When::Always,
        Form::Bits(
            O,
            Some(Field {
                mask: 0x3,
                values: ACCESS,
            }),
        ),
    ),
    (
        257,
        3,
        When::Always,
        Form::Bits(
            S,
            Some(Field {
                mask: 0xf000,
                values: FMT,
            }),
        ),
    ),
    (
        135,
        0,
        When::Always,
        Form::Bits(
            PER_FLAG,
            Some(Field {
                mask: 0xff,
                values: PER,
            }),
        ),
    ),
    (293, 1, When::Always, Form::Bits(PIPE, None)),
    (330, 1, When::Always, Form::Bits(PKEY, None)),
    (329, 2, When::Always, Form::Bits(PROT, None)),
    (157, 0, When::Always, Form::One(PR)),
    (302, 1, When::Always, Form::One(RLIMIT)),
    (101, 0, When::Always, Form::One(PTRACE)),
    (179, 0, When::Always, Form::One(QCMD)),
    (45, 3, When::Always, Form::Bits(MSG, None)),
    (299, 3, When::Always, Form::Bits(MSG, None)),
    (47, 2, When::Always, Form::Bits(MSG, None)),
    (13, 0, When::Always, Form::One(SIG)),
    (14, 0, When::Always, Form::One(SIGHOW)),
    (129, 1, When::Always, Form::One(SIG)),
    (297, 2, When::Always, Form::One(SIG)),
    (
        144,
        1,
        When::Always,
        Form::Bits(
            SCHED_FLAG,
            Some(Field {
                mask: 0xff,
                values: SCHED,
            }),
        ),
    ),
    (317, 0, When::Always, Form::One(SECCOMP)),
    (64, 0, When::Always, Form::One(IPCKEY)),
    (307, 3, When::Always, Form::Bits(MSG, None)),
    (46, 2, When::Always, Form::Bits(MSG, None)),
    (44, 3, When::Always, Form::Bits(MSG, None)),
    (38, 0, When::Always, Form::One(ITIMER)),
    (308, 1, When::Always, Form::Bits(CLONE_NS, None)),
    (141, 0, When::Always, Form::One(PRIO)),
    (160, 0, When::Always, Form::One(RLIMIT)),
    (54, 1, When::Always, Form::One(LEVEL)),
    (54, 2, When::Is(1, 1), Form::One(SO)),
    (54, 2, When::Is(1, 0), Form::One(IP)),
    (54, 2, When::Is(1, 41), Form::One(IPV6)),
    (54, 2, When::Is(1, 6), Form::One(TCP)),
    (54, 2, When::Is(1, 17), Form::One(UDP)),
    (30, 2, When::Always, Form::Bits(SHMAT, None)),
    (31, 1, When::Always, Form::One(IPC)),
    (29, 0, When::Always, Form::One(IPCKEY)),
    (41, 0, When::Always, Form::One(AF)),
    (
        41,
        1,
        When::Always,
        Form::Bits(
            SOCK_FLAG,
            Some(Field {
                mask: 0xf,
                values: SOCK,
            }),
        ),
    ),
    (41, 2, When::Is(0, 16), Form::One(NETLINK)),
    (41, 2, When::Is(0, 2), Form::One(IPPROTO)),
    (41, 2, When::Is(0, 10), Form::One(IPPROTO)),
    (53, 0, When::Always, Form::One(AF)),
    (
        53,
        1,
        When::Always,
        Form::Bits(
            SOCK_FLAG,
            Some(Field {
                mask: 0xf,
                values: SOCK,
            }),
        ),
    ),
    (53, 2, When::Is(0, 16), Form::One(NETLINK)),
    (53, 2, When::Is(0, 2), Form::One(IPPROTO)),
    (53, 2, When::Is(0, 10), Form::One(IPPROTO)),
    (332, 3, When::Always, Form::Bits(STATX, None)),
    (234, 2, When::Always, Form::One(SIG)),
    (200, 1, When::Always, Form::One(SIG)),
    (166, 1, When::Always, Form::Bits(UMOUNT, None)),
    (272, 0, When::Always, Form::Bits(CLONE_NS, None)),
];
