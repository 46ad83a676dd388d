// NTP for programs in C, Rust and Python: the header read and written, and a packet received, with the answer as its number.
ghost use Rattle.std.specs.Prelude.{◌≡◌};
ghost use Rattle.ntp.specs.Header.{read, write};
ghost use Rattle.ntp.specs.Receive.{receive};
ghost use Rattle.hello.specs.Ntp.{zero_header, read_returned, written_returned, outcome_returned};

// What reading a header answers: the number of the answer, and the fields, all zero where it refuses.
#[repr(C)]
#[derive(Clone, Copy)]
pub struct NtpRead {
    pub answer: u8,
    pub header: ntp::Header,
}

// What writing a header answers: the number of the answer, and the octets, all zero where it refuses.
#[repr(C)]
#[derive(Clone, Copy)]
pub struct NtpWritten {
    pub answer: u8,
    pub octets: [u8; 48],
}

// What receiving a packet answers: the number of the answer, the action's number, the offset and the delay, and the association afterwards.
#[repr(C)]
#[derive(Clone, Copy)]
pub struct NtpOutcome {
    pub answer: u8,
    pub action: i8,
    pub offset: ntp::Interval,
    pub delay: ntp::Interval,
    pub association: ntp::Association,
}

fn zero_header() -> ntp::Header
    ensures { result ≡ zero_header }
{
    ntp::Header {
        leap: 0,
        version: 0,
        mode: 0,
        stratum: 0,
        poll: ntp::Exponent(0),
        precision: ntp::Exponent(0),
        root_delay: 0,
        root_dispersion: 0,
        reference_id: 0,
        reference: ntp::Timestamp(0),
        origin: ntp::Timestamp(0),
        receive: ntp::Timestamp(0),
        transmit: ntp::Timestamp(0),
    }
}

// The fields of an NTP header.
#[unsafe(no_mangle)]
pub extern "C" fn hello_ntp_read(octets: &[u8]) -> NtpRead
    ensures { result ≡ read_returned (read octets.now) }
{
    match ntp::wire::read(octets) {
        Ok(header) => NtpRead { answer: 0, header },
        Err(a) => NtpRead {
            answer: u8::from(a),
            header: zero_header(),
        },
    }
}

// The octets of an NTP header.
#[unsafe(no_mangle)]
pub extern "C" fn hello_ntp_write(header: ntp::Header) -> NtpWritten
    ensures { result ≡ written_returned (write header) }
{
    match ntp::wire::write(header) {
        Ok(octets) => NtpWritten { answer: 0, octets },
        Err(a) => NtpWritten {
            answer: u8::from(a),
            octets: [0; 48],
        },
    }
}

// An NTP packet that arrives at an association at its destination time.
#[unsafe(no_mangle)]
pub extern "C" fn hello_ntp_receive(
    association: ntp::Association,
    octets: &[u8],
    destination: ntp::Timestamp,
) -> NtpOutcome
    ensures { result ≡ outcome_returned (receive association octets.now destination) }
{
    let o = ntp::receive::receive(association, octets, destination);
    NtpOutcome {
        answer: u8::from(o.answer),
        action: i8::from(o.action),
        offset: o.offset,
        delay: o.delay,
        association: o.association,
    }
}
