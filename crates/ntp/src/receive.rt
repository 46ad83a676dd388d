// What an association makes of a packet.
ghost use Rattle.std.specs.Prelude.{◌≡◌, true};
ghost use Rattle.ntp.specs.Header.{mode_good};
ghost use Rattle.ntp.specs.Receive.{idle, refused, processed, passes, dispatched, receive};

use super::{
    Action, Answer, Association, Header, Interval, Outcome, Timestamp, dispatch, times, wire,
};

// The last row of the dispatch table.
const LAST: u8 = 6;

// An action is printed, and nothing is done.
fn idle(answer: Answer, action: Action, association: Association) -> Outcome
    ensures { result ≡ idle answer action association }
{
    Outcome {
        answer,
        action,
        offset: Interval(0),
        delay: Interval(0),
        association,
    }
}

fn refused(answer: Answer, association: Association) -> Outcome
    ensures { result ≡ refused answer association }
{
    idle(answer, Action::Discard, association)
}

// The four timestamp tests.
#[tactic(auto, unfolding(crate::specs::Receive::passes))]
fn passes(association: Association, header: Header, destination: Timestamp) -> bool
    ensures { result ≡ passes association header destination }
{
    header.transmit != Timestamp(0)
        && header.origin == association.transmit
        && header.transmit != association.saved
        && times::later(destination, header.origin)
}

// The offset and the delay, and the transmit time kept.
fn processed(association: Association, header: Header, destination: Timestamp) -> Outcome
    ensures { result ≡ processed association header destination }
{
    let offset = times::offset(header.origin, header.receive, header.transmit, destination);
    let delay = times::delay(header.origin, header.receive, header.transmit, destination);
    Outcome {
        answer: Answer::Done,
        action: Action::Process,
        offset,
        delay,
        association: Association {
            saved: header.transmit,
            ..association
        },
    }
}

// A packet whose header is good.
#[tactic(auto, unfolding(crate::specs::Receive::dispatched))]
fn dispatched(association: Association, header: Header, destination: Timestamp) -> Outcome
    requires { mode_good header.mode ≡ true }
    ensures { result ≡ dispatched association header destination }
{
    if association.number > LAST {
        return refused(Answer::NtpMode, association);
    }
    let action = dispatch::dispatch(association.number, header.mode);
    if action != Action::Process {
        return idle(Answer::Done, action, association);
    }
    if !passes(association, header, destination) {
        return refused(Answer::NtpTimestamp, association);
    }
    processed(association, header, destination)
}

// A packet that arrives at its destination time: the answer, the action, the offset and delay, and the association afterwards.
#[tactic(auto, unfolding(crate::specs::Receive::receive))]
pub fn receive(association: Association, octets: &[u8], destination: Timestamp) -> Outcome
    ensures { result ≡ receive association octets.now destination }
{
    match wire::read(octets) {
        Ok(header) => dispatched(association, header, destination),
        Err(answer) => refused(answer, association),
    }
}
