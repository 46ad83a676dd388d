// Writes an octet into a borrowed buffer: `octets::put_octet`, told as the writer's other steps are.
ghost use Rattle.std.specs.Prelude.{◌∷◌, [], ◌+◌, ◌<◌, length};
ghost use Rattle.text.specs.code.Put.{Put};

pub fn put_octet(s: &mut [u8], i: usize, n: u8)
    requires { i < length s.old }
    ensures { Put s.old s.new i (i + 1) (n ∷ []) }
{
    s[i] = n;
}
