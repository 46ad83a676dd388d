// Addresses in octets: read from a place, and written there.
ghost use Rattle.std.specs.Prelude.{◌≡◌, ◌+◌, ◌≤◌, length};
ghost use Rattle.std.proofs.lemmas.List.Edits.{sets};
ghost use Rattle.wire.specs.Octets.{address_octets, address_at};

use super::Address;

pub fn address_at(s: &[u8], i: usize) -> Address
    requires { i + 4 ≤ length s.now }
    ensures { result ≡ address_at s.now i }
{
    Address {
        first: s[i],
        second: s[i + 1],
        third: s[i + 2],
        fourth: s[i + 3],
    }
}

pub fn put_address(s: &mut [u8], i: usize, address: Address)
    requires { i + 4 ≤ length s.old }
    ensures { s.new ≡ sets s.old i (address_octets address) }
{
    s[i] = address.first;
    s[i + 1] = address.second;
    s[i + 2] = address.third;
    s[i + 3] = address.fourth;
}
