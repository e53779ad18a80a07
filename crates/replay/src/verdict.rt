// What a line turned out to be, and how many lines of each sort there are.
use answer::{Refusal, WAIT};
use std::fmt;

#[derive(Clone, Copy, PartialEq, Eq)]
pub(crate) enum Verdict {
    Agrees,
    Differs,
    Unread,
}

impl fmt::Display for Verdict {
    fn fmt<W: fmt::Write>(&self, f: &mut fmt::Formatter<W>) -> fmt::Result {
        f.write_str(match self {
            Verdict::Agrees => "agrees",
            Verdict::Differs => "differs",
            Verdict::Unread => "cannot be read",
        })
    }
}

#[derive(Clone, Copy, Default)]
pub(crate) struct Counts {
    agree: u64,
    differ: u64,
    unread: u64,
}

impl Counts {
    pub(crate) fn add(&mut self, verdict: Verdict) {
        let count = match verdict {
            Verdict::Agrees => &mut self.agree,
            Verdict::Differs => &mut self.differ,
            Verdict::Unread => &mut self.unread,
        };
        *count = count.saturating_add(1);
    }
}

impl fmt::Display for Counts {
    fn fmt<W: fmt::Write>(&self, f: &mut fmt::Formatter<W>) -> fmt::Result {
        let Counts {
            agree,
            differ,
            unread,
        } = self;
        write!(f, "{agree} agree, {differ} differ, {unread} cannot be read")
    }
}

// What is expected of a call: 0 and a count, 1 and how many bytes are missing, or a refusal's number and its place. It is what a line has,
// so the answer may be a number that no call gives.
#[derive(Clone, Copy)]
pub(crate) struct Expected {
    pub(crate) answer: u64,
    pub(crate) at: u64,
}

impl Expected {
    // That a writer writes so many bytes.
    pub(crate) fn bytes(want: &[u8]) -> Expected {
        Expected {
            answer: 0,
            at: want.len() as u64,
        }
    }

    pub(crate) fn is_done(self, at: usize) -> bool {
        self.answer == 0 && self.at == at as u64
    }

    pub(crate) fn is_wait(self, missing: usize) -> bool {
        self.answer == WAIT && self.at == missing as u64
    }

    pub(crate) fn is_refused(self, r: Refusal) -> bool {
        self.answer == u64::from(r.reason) && self.at == r.place as u64
    }

    // Whether a writer answered so, and the output that it was lent begins with these bytes.
    pub(crate) fn is_written(
        self,
        answer: Result<usize, Refusal>,
        out: &[u8],
        want: &[u8],
    ) -> bool {
        match answer {
            Ok(k) => self.is_done(k) && k == want.len() && out.starts_with(want),
            Err(r) => self.is_refused(r) && want.is_empty(),
        }
    }
}
