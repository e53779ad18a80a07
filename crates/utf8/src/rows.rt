// Table 3-7: its nine rows, and the step that stands at the front of some bytes by them.
ghost use Rattle.std.specs.Prelude.{◌≡◌, suc, ◌-◌, ◌≤◌, length, drop};
ghost use Rattle.utf8.specs.Text.{rows, row_for, in_range, follow, matching, taken, step};
ghost use Rattle.utf8.specs.Inner.{as_range, seen, led_by};

use crate::step::Step;

// The bytes from the first to the last.
#[derive(Clone, Copy)]
struct Range {
    low: u8,
    high: u8,
}

impl Range {
    #[tactic(auto, unfolding(crate::specs::Text::in_range))]
    fn contains(self, byte: u8) -> bool
        ensures { result ≡ in_range (as_range self) byte }
    {
        self.low <= byte && byte <= self.high
    }
}

// A row of the table: what the first byte may be, what the second, and how many bytes there are.
#[derive(Clone, Copy)]
struct Row {
    lead: Range,
    second: Range,
    bytes: usize,
}

const ROWS: [Row; 9] = [
    Row {
        lead: Range {
            low: 0x00,
            high: 0x7F,
        },
        second: Range {
            low: 0x00,
            high: 0x00,
        },
        bytes: 1,
    },
    Row {
        lead: Range {
            low: 0xC2,
            high: 0xDF,
        },
        second: Range {
            low: 0x80,
            high: 0xBF,
        },
        bytes: 2,
    },
    Row {
        lead: Range {
            low: 0xE0,
            high: 0xE0,
        },
        second: Range {
            low: 0xA0,
            high: 0xBF,
        },
        bytes: 3,
    },
    Row {
        lead: Range {
            low: 0xE1,
            high: 0xEC,
        },
        second: Range {
            low: 0x80,
            high: 0xBF,
        },
        bytes: 3,
    },
    Row {
        lead: Range {
            low: 0xED,
            high: 0xED,
        },
        second: Range {
            low: 0x80,
            high: 0x9F,
        },
        bytes: 3,
    },
    Row {
        lead: Range {
            low: 0xEE,
            high: 0xEF,
        },
        second: Range {
            low: 0x80,
            high: 0xBF,
        },
        bytes: 3,
    },
    Row {
        lead: Range {
            low: 0xF0,
            high: 0xF0,
        },
        second: Range {
            low: 0x90,
            high: 0xBF,
        },
        bytes: 4,
    },
    Row {
        lead: Range {
            low: 0xF1,
            high: 0xF3,
        },
        second: Range {
            low: 0x80,
            high: 0xBF,
        },
        bytes: 4,
    },
    Row {
        lead: Range {
            low: 0xF4,
            high: 0xF4,
        },
        second: Range {
            low: 0x80,
            high: 0x8F,
        },
        bytes: 4,
    },
];

// The step at the front of `s`, by the row in whose range its first byte is.
pub(crate) fn front_step(s: &[u8]) -> Step
    ensures { seen result ≡ step s.now }
{
    let Some(&lead) = s.first() else {
        return Step::End;
    };
    // ASCII is the first row, and by far the most frequent.
    if lead.is_ascii() {
        return Step::Char(1);
    }
    match lead_row(lead) {
        Some(row) => step_on(s, row.bytes, row.second),
        None => Step::Mark(1),
    }
}

// The row of a first byte, if there is one.
fn lead_row(lead: u8) -> Option<Row>
    ensures { led_by result ≡ row_for rows lead }
{
    for i in 0..9 {
        let row = ROWS[i];
        if row.lead.contains(lead) {
            return Some(row);
        }
    }
    None
}

// The step whose first byte is right, in a row of so many bytes and this range for the second.
fn step_on(s: &[u8], bytes: usize, second: Range) -> Step
    requires { 1 ≤ length s.now }
    ensures { seen result ≡ taken (suc (bytes - 1)) (suc (matching (follow (bytes - 1) (as_range second)) (drop 1 s.now))) }
{
    let mut allowed = second;
    for at in 1..bytes {
        if s.len() <= at || !allowed.contains(s[at]) {
            return Step::Mark(at);
        }
        allowed = Range {
            low: 0x80,
            high: 0xBF,
        };
    }
    Step::Char(bytes.max(1))
}
