// The replies of calls.
ghost use Rattle.std.specs.Prelude.{◌≡◌};
ghost use Rattle.host.specs.Reply.{plainly, returns_length, returns_route, returns_time, returns_packet, returns_place};

use super::Reply;
use answer::Answer;
use calendar::Date;
use quantity::Millis;
use wire::Address;

// An answer without values.
pub fn plainly(answer: Answer) -> Reply
    ensures { result ≡ plainly answer }
{
    Reply {
        answer,
        length: 0,
        id: 0,
        pid: 0,
        time: Millis(0),
        date: Date(0),
        source: Address::ZERO,
        tsp: 0,
        nhosts: 0,
        step: 0,
        line: 0,
    }
}

// The length of a message.
pub fn returns_length(n: usize) -> Reply
    ensures { result ≡ returns_length n }
{
    Reply {
        length: n,
        ..plainly(Answer::Done)
    }
}

// A route: a host id and the link to it.
pub fn returns_route(id: usize, pid: u8) -> Reply
    ensures { result ≡ returns_route id pid }
{
    Reply {
        id,
        pid,
        ..plainly(Answer::Done)
    }
}

// The time and DATE.
pub fn returns_time(time: Millis, date: Date) -> Reply
    ensures { result ≡ returns_time time date }
{
    Reply {
        time,
        date,
        ..plainly(Answer::Done)
    }
}

// What an inspection returns for a packet.
pub fn returns_packet(source: Address, time: Millis, tsp: u16, nhosts: u8) -> Reply
    ensures { result ≡ returns_packet source time tsp nhosts }
{
    Reply {
        time,
        source,
        tsp,
        nhosts,
        ..plainly(Answer::Done)
    }
}

// The next place of a walk: step, line and host id.
pub fn returns_place(step: u8, line: u8, id: u8) -> Reply
    ensures { result ≡ returns_place step line id }
{
    Reply {
        id: id as usize,
        step,
        line,
        ..plainly(Answer::Done)
    }
}
