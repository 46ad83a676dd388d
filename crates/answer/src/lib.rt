// The answers of the published table, with their numbers.
#![tactic(auto)]

ghost use Rattle.std.specs.Prelude.{◌≡◌};
ghost use Rattle.answer.specs.Answer.{number};

#[derive(Clone, Copy, PartialEq, Eq)]
pub enum Answer {
    Done = 0,
    Setting = 1,
    ShortBuffer = 2,
    IpForm = 3,
    IpChecksum = 4,
    Protocol = 5,
    HelloForm = 6,
    HelloChecksum = 7,
    OtherLayout = 8,
    LoopedLine = 9,
    DelayNotValid = 10,
    NoHost = 11,
    OutOfRange = 12,
    HostDown = 13,
    InWalk = 16,
    NoWalk = 17,
}

// The number of an answer in the table.
impl From<Answer> for u8 {
    ghost from_gives = { λ a n. n ≡ number a };

    fn from(a: Answer) -> u8 {
        a as u8
    }
}
