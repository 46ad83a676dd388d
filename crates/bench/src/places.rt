// The place of a host's copy of a packet among the copies, and of an event's answer among the answers.
ghost use Rattle.std.specs.Prelude.{◌≡◌, ◌+◌, ◌*◌, ◌≤◌, ◌<◌, length, set};
ghost use Rattle.lists.specs.Lists.{part};
ghost use Rattle.answer.specs.declared.Answer.TheVariants.{IpForm};
ghost use Rattle.answer.specs.Answer.{number};
ghost use Rattle.host.specs.Guard.{longest};

use answer::Answer;
use host::{LONGEST, Reply};

// The host's copy of a packet.
pub fn copy_of(copies: &[u8], host: usize) -> &[u8]
    requires { (host ≤ 15) × (longest * host + longest ≤ length copies.now) }
    ensures { result.now ≡ part (longest * host) longest copies.now }
{
    &copies[LONGEST * host..LONGEST * host + LONGEST]
}

// The answer of an event is stored.
pub fn keep_answer(answers: &mut [u8], event: usize, r: Reply)
    requires { event < length answers.old }
    ensures { answers.new ≡ set answers.old event (number r.answer) }
{
    answers[event] = calls::queries::number(r.answer);
}

// The answer of an event that asks no host is 3.
pub fn note(answers: &mut [u8], event: usize)
    requires { event < length answers.old }
    ensures { answers.new ≡ set answers.old event (number IpForm) }
{
    answers[event] = calls::queries::number(Answer::IpForm);
}
