// The checksum in the plain way, for programs in other languages.
ghost use Rattle.std.specs.Prelude.{◌≡◌};
ghost use Rattle.checksum.specs.Checksum.{checksum_of};

// The checksum of the octets, worked out two octets at a time.
#[unsafe(no_mangle)]
pub extern "C" fn hello_checksum_plain(octets: &[u8]) -> u16
    ensures { result ≡ checksum_of octets.now }
{
    checksum::plain::complement(octets)
}
