// Types of frame (SPOE.txt, section 3.2.2), by their numbers.
ghost use Rattle.std.specs.Prelude.{◌≡◌, eqb};
ghost use Rattle.answer.specs.Table.{some};
ghost use Rattle.frame.specs.Kind.{number_of_type};
ghost use Rattle.frame.specs.Read.{sender};

use crate::Side;

#[derive(Clone, Copy, Debug, PartialEq, Eq)]
pub enum FrameType {
    HAProxyHello = 1,
    HAProxyDisconnect = 2,
    Notify = 3,
    AgentHello = 101,
    AgentDisconnect = 102,
    Ack = 103,
}

// A number that is no type's.
#[derive(Clone, Copy, Debug, PartialEq, Eq)]
pub struct UnknownType(pub u8);

impl TryFrom<u8> for FrameType {
    type Error = UnknownType;

    ghost use Rattle.frame.specs.Kind.{Numbered};

    ghost try_from_gives = { Numbered };

    fn try_from(number: u8) -> Result<FrameType, UnknownType> {
        match number {
            1 => Ok(FrameType::HAProxyHello),
            2 => Ok(FrameType::HAProxyDisconnect),
            3 => Ok(FrameType::Notify),
            101 => Ok(FrameType::AgentHello),
            102 => Ok(FrameType::AgentDisconnect),
            103 => Ok(FrameType::Ack),
            _ => Err(UnknownType(number)),
        }
    }
}

impl FrameType {
    // Whether this side sends frames of this type.
    #[tactic(auto, unfolding(answer::specs::Table::some))]
    pub fn is_sent_by(self, side: Side) -> bool
        ensures { result ≡ some (eqb (number_of_type self)) (sender side).own }
    {
        match self {
            FrameType::HAProxyHello | FrameType::HAProxyDisconnect | FrameType::Notify => matches!(
                side,
                Side::HAProxy
            ),
            FrameType::AgentHello | FrameType::AgentDisconnect | FrameType::Ack => matches!(
                side,
                Side::Agents
            ),
        }
    }
}
