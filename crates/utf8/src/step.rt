// A step: what a walk over a text takes at once.
ghost use Rattle.std.specs.Prelude.{◌≡◌, ◌≤◌, length};
ghost use Rattle.utf8.specs.Text.{step_size, becomes};
ghost use Rattle.utf8.specs.Inner.{seen};

// U+FFFD, the replacement character.
pub(crate) const REPLACEMENT: [u8; 3] = [0xEF, 0xBF, 0xBD];

// What stands at the front of some bytes: nothing, a well-formed sequence, or a maximal subpart of an ill-formed one.
#[derive(Clone, Copy)]
pub(crate) enum Step {
    End,
    Char(usize),
    Mark(usize),
}

impl Step {
    // How many bytes it takes.
    pub(crate) fn len(self) -> usize
        ensures { result ≡ step_size (seen self) }
    {
        match self {
            Step::End => 0,
            Step::Char(n) | Step::Mark(n) => n,
        }
    }

    // What it becomes in the lossy text, where it stands at the front of `s`.
    pub(crate) fn text<'a>(self, s: &'a [u8]) -> &'a [u8]
        requires { step_size (seen self) ≤ length s.now }
        ensures { result.now ≡ becomes (seen self) s.now }
    {
        match self {
            Step::End => &[],
            Step::Char(n) => &s[..n],
            Step::Mark(_) => &REPLACEMENT,
        }
    }
}
