//! What ranges of numbers weigh: by this the rows are cut in two. How many instructions a call takes depends on it, and
//! nothing of what it is answered.

use crate::rows::X32;
use crate::saying::{Row, Saying};
use sk_insn::ARCHITECTURE;

/// i386, as a filter is shown it: AUDIT_ARCH_I386 of linux/audit.h.
const I386: u32 = 0x4000_0003;

/// The numbers of calls that are made often, and how many of 495 calls each of them is: an estimate for servers and shells.
pub const OFTEN: [(u32, usize); 55] = [
    (0, 60),
    (1, 60),
    (3, 20),
    (4, 3),
    (5, 10),
    (6, 2),
    (7, 20),
    (8, 6),
    (9, 10),
    (10, 4),
    (11, 4),
    (12, 2),
    (13, 4),
    (14, 4),
    (15, 2),
    (16, 6),
    (17, 8),
    (18, 8),
    (19, 4),
    (20, 12),
    (21, 2),
    (24, 4),
    (33, 1),
    (35, 3),
    (39, 3),
    (41, 2),
    (42, 2),
    (43, 4),
    (44, 20),
    (45, 20),
    (46, 8),
    (47, 8),
    (56, 1),
    (59, 1),
    (61, 1),
    (72, 4),
    (78, 1),
    (79, 1),
    (89, 1),
    (96, 2),
    (186, 2),
    (202, 60),
    (228, 6),
    (230, 6),
    (232, 30),
    (233, 4),
    (257, 10),
    (262, 8),
    (271, 6),
    (281, 10),
    (288, 4),
    (318, 1),
    (332, 3),
    (334, 1),
    (426, 6),
];

/// The same of i386, whose calls have other numbers.
const OFTEN_ON_I386: [(u32, usize); 59] = [
    (3, 60),
    (4, 60),
    (6, 20),
    (11, 1),
    (19, 6),
    (20, 3),
    (33, 2),
    (45, 2),
    (54, 6),
    (55, 4),
    (63, 1),
    (78, 2),
    (85, 1),
    (90, 10),
    (91, 4),
    (106, 3),
    (107, 2),
    (108, 10),
    (114, 1),
    (120, 1),
    (125, 4),
    (141, 1),
    (145, 4),
    (146, 12),
    (158, 4),
    (162, 3),
    (168, 20),
    (173, 2),
    (174, 4),
    (175, 4),
    (180, 8),
    (181, 8),
    (183, 1),
    (192, 10),
    (195, 3),
    (196, 2),
    (197, 10),
    (221, 4),
    (224, 2),
    (240, 60),
    (255, 4),
    (256, 30),
    (265, 6),
    (267, 6),
    (295, 10),
    (300, 8),
    (309, 6),
    (319, 10),
    (355, 1),
    (359, 2),
    (362, 2),
    (364, 4),
    (369, 20),
    (370, 8),
    (371, 20),
    (372, 8),
    (383, 3),
    (386, 1),
    (426, 6),
];

/// So many times what it has in `OFTEN` a call weighs more than one that is not there, which weighs 1.
const TIMES: usize = 6;

/// From here on numbers weigh nothing: Linux has no calls there.
const NAMED: u32 = 480;

/// The numbers from one on, up to another, of an architecture whose calls are made so often.
#[derive(Clone, Copy)]
pub struct Numbers {
    pub from: u32,
    pub to: u32,
    pub often: &'static [(u32, usize)],
}

/// All numbers of the calls of an architecture, but the last one.
pub fn numbers_of(audit: u32) -> Numbers {
    let often: &'static [(u32, usize)] = match audit {
        ARCHITECTURE => &OFTEN,
        I386 => &OFTEN_ON_I386,
        _ => &[],
    };
    Numbers {
        from: 0,
        to: u32::MAX,
        often,
    }
}

impl Numbers {
    /// Those below a number, and those from it on.
    pub fn cut_at(self, number: u32) -> (Numbers, Numbers) {
        (
            Numbers { to: number, ..self },
            Numbers {
                from: number,
                ..self
            },
        )
    }
}

/// What they weigh, which any number is right for.
pub fn weight(numbers: Numbers) -> usize {
    let mut weight = numbers.to.min(NAMED).saturating_sub(numbers.from) as usize;
    for (number, share) in numbers.often {
        if numbers.from <= *number && *number < numbers.to {
            weight = weight.saturating_add(share.saturating_mul(TIMES));
        }
    }
    weight
}

/// How many of the first rows weigh something: beside others those of x32 do not.
pub fn heavy_rows(numbers: Numbers, rows: &[Row]) -> usize {
    if numbers.from >= X32 {
        return rows.len();
    }
    let mut count = 0_usize;
    for row in rows {
        count = count.saturating_add(usize::from(row.start < X32));
    }
    count
}

/// No more instructions than these have the code of rows.
pub fn most(before: &Saying, rows: &[Row]) -> usize {
    let mut most = most_of(before);
    for row in rows {
        most = most.saturating_add(1).saturating_add(most_of(&row.saying));
    }
    most
}

fn most_of(saying: &Saying) -> usize {
    let mut most = 1_usize;
    for arm in saying.arms.iter() {
        most = most
            .saturating_add(1)
            .saturating_add(arm.conditions.len().saturating_mul(6));
    }
    most
}
