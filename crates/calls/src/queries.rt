// What a program above the calls asks about their input and their answers.
ghost use Rattle.std.specs.Prelude.{◌≡◌, eqb};
ghost use Rattle.answer.specs.Answer.{number};
ghost use Rattle.net_table.specs.Table.{table_bad};

use answer::Answer;
use net_table::NetTable;

// Is it a net table that every call except initializing refuses with 12?
pub fn is_bad(t: NetTable) -> bool
    ensures { result ≡ table_bad t }
{
    net_table::is_bad(&t)
}

// The number of an answer in the table.
pub fn number(a: Answer) -> u8
    ensures { result ≡ number a }
{
    u8::from(a)
}

// Is it answer 0?
pub fn is_done(a: Answer) -> bool
    ensures { result ≡ eqb (number a) 0 }
{
    a == Answer::Done
}
