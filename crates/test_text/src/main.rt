// Texts of several sorts: of each the reader's number and the writer's, asked for the message that was read, and the text that came back.
#![tactic(auto)]

ghost use Rattle.std.specs.Prelude.{◌≤◌, length, IfOk};

use std::io;
use std::io::Write;
use text::Refusal;

// The number of an answer, 0 where it is done.
fn number(outcome: Result<usize, Refusal>) -> u8 {
    match outcome {
        Ok(_) => 0,
        Err(refusal) => refusal.into(),
    }
}

// What was written: nothing at a refusal.
fn written(buffer: &[u8], outcome: Result<usize, Refusal>) -> &[u8]
    requires { IfOk outcome (λ n. n ≤ length buffer.now) }
{
    match outcome {
        Ok(n) => &buffer[..n],
        Err(_) => &buffer[..0],
    }
}

fn run(rt: &impl Print, text: &[u8]) -> io::Result<()> {
    let mut message = [0u8; 4096];
    let read = text::from_text(text, &mut message);
    let mut back = [0u8; 4096];
    let again = text::to_text(written(&message, read), &mut back);
    println!(rt; "{} {}", number(read), number(again))?;
    io::writer(rt).write_all(written(&back, again))
}

fn runs(rt: &impl Print) -> io::Result<()> {
    run(rt, b"hello 12331 3600000 4660 1 0\n")?;
    run(
        rt,
        b"hello 65535 4294967295 65535 255 4\n0 0\n100 -51\n30000 32767\n65535 -32768\n",
    )?;
    run(rt, b"hello 12331 3600000 4660 1 1\n100 -0\n")?;
    run(rt, b"hello 12331 3600000 04660 1 0\n")?;
    run(rt, b"hello 12331 3600000 4660 1 0")?;
    run(rt, b"hello 12331 3600000 4660 1 1\n")?;
    run(rt, b"hello 65536 3600000 4660 1 1\n100 +1\n")?;
    run(rt, b"hello 65536 3600000 4660 1 0\n")?;
    run(rt, b"hello 12331 3600000 4660 1 1\n100 32768\n")?;
    run(
        rt,
        b"hello 12331 3600000 4660 1 00000000000000000000000000000000000000000000000000\n",
    )?;
    run(
        rt,
        b"hello 12331 3600000 4660 1 12345678901234567890123456789012345678901234567890\n",
    )?;
    run(
        rt,
        b"hello 12331 12345678901234567890123456789012345678901234567890 4660 1 0\n",
    )
}

// A write that fails is not seen.
fn main(rt: HostRuntime) {
    let _ = runs(&rt);
}
