// The mailbox: what 128 lent bytes are, and the 128 bytes of an answer. Its headers are read through a reader.
#![tactic(auto)]

ghost use Rattle.std.specs.Prelude.{◌≡◌, ◌+◌, ◌*◌, ◌/◌, ◌%◌, ◌≤◌, length, take, drop};
ghost use Rattle.wire.specs.Splice.{splice};
ghost use Rattle.wire.specs.Little.{number};
ghost use Rattle.mailbox.specs.Mail.{mailbox_size, head_of, mail_of, sdo_in};
ghost use Rattle.mailbox.specs.Sealing.{service_by, sealed};

use wire::Number;

pub const SIZE: usize = 128;

// The bytes of the mailbox header, and where the SDO begins, behind the CoE header.
const HEADER: usize = 6;

pub const SDO_AT: usize = 8;

// The least and the most length field; type 3, which is CoE; service 2, which is an SDO request.
const LEAST_LENGTH: u16 = 10;

const MOST_LENGTH: u16 = 122;

const TYPE_COE: u16 = 3;

const SDO_REQUEST: u16 = 2;

// What is read of the headers: length field, address, type with counter, CoE number with service.
#[derive(Clone, Copy)]
pub struct Head {
    pub len: u16,
    pub address: u16,
    pub kind: u16,
    pub service: u16,
}

// What is no SDO request in a mailbox: not 128 bytes or a length field not 10 to 122; or something else than an SDO.
#[derive(Clone, Copy, PartialEq, Eq)]
pub enum Unfit {
    Misshapen,
    NotSdo,
}

// The fields, one after another; channel and priority are passed over.
fn head_of(datagram: &[u8]) -> Head
    requires { 8 ≤ length datagram.now }
    ensures { result ≡ head_of datagram.now }
{
    let at0 = reader::new(datagram);
    let len = reader::field(at0);
    let at2 = reader::past(at0, 2);
    let address = reader::field(at2);
    let at5 = reader::past(at2, 3);
    let kind = u16::from(reader::field::<u8>(at5));
    let at6 = reader::past(at5, 1);
    let service = reader::field(at6);
    Head {
        len,
        address,
        kind,
        service,
    }
}

// The head of an SDO request.
pub fn mail_of(datagram: &[u8]) -> Result<Head, Unfit>
    ensures { result ≡ mail_of datagram.now }
{
    if datagram.len() != SIZE {
        return Err(Unfit::Misshapen);
    }
    let head = head_of(datagram);
    if head.len < LEAST_LENGTH {
        return Err(Unfit::Misshapen);
    }
    if MOST_LENGTH < head.len {
        return Err(Unfit::Misshapen);
    }
    if head.kind % 16 != TYPE_COE {
        return Err(Unfit::NotSdo);
    }
    if head.service / 4096 != SDO_REQUEST {
        return Err(Unfit::NotSdo);
    }
    Ok(head)
}

// The SDO of a mailbox with this length field.
pub fn sdo_of(mailbox: &[u8], len: u16) -> &[u8]
    requires { (length mailbox.now ≡ mailbox_size) × (len ≡ number mailbox.now 0 2) × ((10 ≤ len) × (len ≤ 122)) }
    ensures { (result.now ≡ sdo_in mailbox.now) × (8 ≤ length result.now) }
{
    let end = HEADER + usize::from(len);
    &mailbox[SDO_AT..end]
}

// The word of length field and address, for an SDO of len bytes.
fn length_word(len: usize, address: u16) -> u32
    requires { len ≤ 120 }
    ensures { result ≡ 2 + len + 65536 * address }
{
    2 + len as u32 + 65536 * u32::from(address)
}

// The word of type with counter and of service: an abort goes out as a request.
fn service_word(kind: u16, first: u8) -> u32
    ensures { result ≡ 256 * (3 + 16 * (kind / 16 % 8)) + 65536 * (4096 * service_by first) }
{
    let counter = u32::from(kind / 16 % 8);
    let coe = 256 * (3 + 16 * counter);
    if first == 0x80 {
        return coe + 65536 * 8192;
    }
    coe + 65536 * 12288
}

// The answer's SDO stands in its place already, len bytes of it: the headers before it, with the request's address and counter, and zeros to the end.
pub fn seal(answer: &mut [u8], head: Head, len: usize)
    requires { (mailbox_size ≤ length answer.old) × ((1 ≤ len) × (len ≤ 120)) }
    ensures { answer.new ≡ splice answer.old 0 (sealed head (take len (drop 8 answer.old))) }
{
    let first = answer[SDO_AT];
    length_word(len, head.address).put(answer, 0);
    service_word(head.kind, first).put(answer, 4);
    let end = SDO_AT + len;
    answer[end..SIZE].fill(0);
}
