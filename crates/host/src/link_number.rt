// The number of a link.
ghost use Rattle.std.specs.Prelude.{◌≤◌};

// A number that a host's links may have: 1 to 8.
#[derive(Clone, Copy)]
pub struct LinkNumber {
    pub number: usize,
    pub ghost from_one: { 1 ≤ number },
    pub ghost to_eight: { number ≤ 8 },
}
