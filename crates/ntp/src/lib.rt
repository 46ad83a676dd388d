// The successor: the NTP header of RFC 5905, read and written, and what an association makes of a packet.
#![tactic(auto)]

ghost use Rattle.std.specs.Prelude.{◌≡◌};
ghost use Rattle.ntp.specs.Answer.{number};
ghost use Rattle.ntp.specs.Dispatch.{action_number};
ghost use Rattle.ntp.specs.HalfDelay.{NtpHalfDelay};
ghost use Rattle.ntp.specs.Laws.{ReadBack, WrittenBack};
ghost use Rattle.ntp.specs.Octets.{signed_octet};

mod dispatch;
pub mod receive;
pub mod times;
mod values;
pub mod wire;

// A time of 64 bits: seconds in the high half, a fraction of a second in the low one.
#[repr(C)]
#[derive(Clone, Copy, PartialEq, Eq)]
pub struct Timestamp(pub u64);

// A signed difference of two times.
#[repr(C)]
#[derive(Clone, Copy)]
pub struct Interval(pub i64);

// A power of two, in seconds.
#[repr(C)]
#[derive(Clone, Copy)]
pub struct Exponent(pub i8);

// What is done with a packet, by the RFC's number.
#[derive(Clone, Copy, PartialEq, Eq)]
pub enum Action {
    // ERR: a passive association ends.
    Error = -1,
    // DSCRD: the packet is discarded.
    Discard = 0,
    // PROC: the packet is processed.
    Process = 1,
    // FXMIT: a client's packet is answered at once.
    Reply = 3,
    // MANY: a manycast server answers, and a client association begins.
    Manycast = 4,
    // NEWPS: a passive association begins.
    Passive = 5,
    // NEWBC: a broadcast client association begins.
    Broadcast = 6,
}

// The fields of a header. C programs fill in version, mode and leap, so each is a number that may be out of range, and is refused with an answer.
#[repr(C)]
#[derive(Clone, Copy)]
pub struct Header {
    pub leap: u8,
    pub version: u8,
    pub mode: u8,
    pub stratum: u8,
    pub poll: Exponent,
    pub precision: Exponent,
    pub root_delay: u32,
    pub root_dispersion: u32,
    pub reference_id: u32,
    pub reference: Timestamp,
    pub origin: Timestamp,
    pub receive: Timestamp,
    pub transmit: Timestamp,
}

// The answers, by their number in the table.
#[derive(Clone, Copy, PartialEq, Eq)]
pub enum Answer {
    Done = 0,
    NtpLength = 23,
    NtpVersion = 24,
    NtpMode = 25,
    NtpTimestamp = 26,
}

// One row of the dispatch table, the time that we last sent, and the transmit time that was last taken in. C programs fill in the row, so it is a number that may be out of range, and is refused with an answer.
#[repr(C)]
#[derive(Clone, Copy)]
pub struct Association {
    pub number: u8,
    pub transmit: Timestamp,
    pub saved: Timestamp,
}

// What receiving a packet yields, and the association afterwards. A refusal has these fields too, so the answer is beside them.
#[derive(Clone, Copy)]
pub struct Outcome {
    pub answer: Answer,
    pub action: Action,
    pub offset: Interval,
    pub delay: Interval,
    pub association: Association,
}

impl Exponent {
    // The octet of the number, as a header has it.
    pub fn octet(self) -> u8
        ensures { result ≡ signed_octet self }
    {
        self.0.cast_unsigned()
    }
}

// The number of an action in the RFC's appendix A.5.
impl From<Action> for i8 {
    ghost from_gives = { λ a n. n ≡ action_number a };

    fn from(action: Action) -> i8 {
        action as i8
    }
}

// The number of an answer in the table.
impl From<Answer> for u8 {
    ghost from_gives = { λ a n. n ≡ number a };

    fn from(answer: Answer) -> u8 {
        answer as u8
    }
}

// What was written is read back, and what was read is written back.
#[tactic(auto, using(crate::proofs::Back::read_back))]
pub fn read_back()
    ensures { ReadBack }
{}

#[tactic(auto, using(crate::proofs::Back::written_back))]
pub fn written_back()
    ensures { WrittenBack }
{}

// The half-delay law for a packet that is processed.
pub fn ntp_half_delay()
    ensures { NtpHalfDelay }
{}
