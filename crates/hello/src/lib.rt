// The two negotiations of the HELLO handshake (SPOE.txt, sections 3.2.4 and 3.2.5).

#![tactic(auto)]

ghost use Rattle.std.specs.Prelude.{◌≡◌};
ghost use Rattle.hello.specs.Hello.{version_at, covers, choice};
ghost use Rattle.hello.specs.Promise.{NegotiateMaxFrameSize};

use answer::{Reason, Refusal};

// The least size that a peer may announce.
pub const MIN_FRAME_SIZE: u32 = 256;

#[derive(Clone, Copy, Debug, PartialEq, Eq)]
pub struct Version {
    pub major: u64,
    pub minor: u64,
    pub patch: u64,
}

pub const SUPPORTED_VERSION: Version = Version {
    major: 2,
    minor: 0,
    patch: 0,
};

// How many numbers an announced version has in the table of them, which C lends as numbers.
pub const VERSION_WIDTH: usize = 4;

// An announced version. The last number is 0 exactly where it has no pre-release part.
#[derive(Clone, Copy, Debug, PartialEq, Eq)]
pub struct Announced {
    pub major: u64,
    pub minor: u64,
    pub patch: u64,
    pub pre: u64,
}

impl From<[u64; VERSION_WIDTH]> for Announced {
    ghost from_gives = { λ numbers version. version ≡ version_at numbers 0 };

    #[tactic(auto, unfolding(crate::specs::Hello::version_at))]
    fn from(numbers: [u64; VERSION_WIDTH]) -> Announced {
        let [major, minor, patch, pre] = numbers;
        Announced {
            major,
            minor,
            patch,
            pre,
        }
    }
}

impl Announced {
    // Whether whoever speaks this version speaks the supported one. A pre-release ranks below its version.
    #[tactic(auto, unfolding(crate::specs::Hello::covers))]
    fn covers_supported(self) -> bool
        ensures { result ≡ covers self }
    {
        self.major == SUPPORTED_VERSION.major && (self.pre == 0 || 0 < self.minor || 0 < self.patch)
    }
}

// The smaller of both sizes.
#[tactic(auto, unfolding(crate::specs::Hello::frame_size))]
pub fn negotiate_max_frame_size(theirs: u32, ours: u32) -> Result<u32, Refusal>
    ensures { NegotiateMaxFrameSize theirs ours result }
{
    if theirs < MIN_FRAME_SIZE || ours < MIN_FRAME_SIZE {
        return Err(Reason::SizeTooSmall.at(0));
    }
    Ok(theirs.min(ours))
}

// The supported version, where one of the announced ones covers it. Fewer numbers than a version has, at the end of the table, are passed over.
pub fn negotiate_version(versions: &[u64]) -> Option<Version>
    ensures { result ≡ choice versions.now }
{
    let (announced, _) = versions.as_chunks::<VERSION_WIDTH>();
    announced
        .iter()
        .any(|numbers| Announced::from(*numbers).covers_supported())
        .then_some(SUPPORTED_VERSION)
}
