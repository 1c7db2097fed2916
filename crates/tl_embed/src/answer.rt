//! What a call answers, in plain numbers.
ghost use Rattle.std.specs.Prelude.{◌≡◌, ◌≤◌, ◌-◌, ◌++◌, length, replicate};
ghost use Rattle.tl_embed.specs.Told.{loaded_told, number_told, number_wide, only, wide, with_bytes};

use tl_types::{AccessBytes, BLOCK_BYTES};

/// What a call answers. What is not told is 0.
#[repr(C)]
#[derive(Clone, Copy, Drop)]
pub struct Answer {
    /// 0; a bank's refusal, 1 to 15; 16 there is no such call; 17 an argument is out of its range; 18 the cache is
    /// closed; 19 the event is forgotten; 29 the client would send another message; 30 this profile has no such
    /// message.
    pub status: u32,
    /// What there is to tell: 0 nothing more, 1 a message of a client's link, 2 a message between home and the memory,
    /// 3 home dropped its copy, 4 the bytes of a load, 5 a number, 6 an event, 7 what passes between home and the
    /// memory, 8 bytes, 9 a call.
    pub what: u32,
    /// The bank of a ticket, with `serial`, of a drop, or of a message between home and the memory.
    pub bank: u32,
    /// The client of a ticket.
    pub client: u32,
    /// The channel of a ticket: 0 to 4 for A to E; 5 and 6 for A and D of the memory's link.
    pub channel: u32,
    /// The opcode of a message, the number of an event's kind, or that of a call.
    pub opcode: u32,
    /// The param of a message.
    pub param: u32,
    /// The block of a message, of a drop, or of an event.
    pub place: u32,
    /// The first address of the block of a drop or of a message between home and the memory, or the address of an
    /// access.
    pub address: u32,
    /// The size of a message between home and the memory: the base-2 logarithm of its bytes.
    pub size: u32,
    /// The index of an access.
    pub index: u32,
    /// How many bytes there are.
    pub len: u32,
    /// How many stores were made before the message that was seen.
    pub stores: u32,
    /// 0: so that no bytes lie between the fields, and two answers may be compared as bytes.
    pub reserved: u32,
    /// The ticket's serial, a number, or the stamp of an access.
    pub serial: u64,
    /// The bytes, and 0 past them.
    pub bytes: [u8; BLOCK_BYTES],
}

impl Answer {
    /// Nothing is told but a status.
    pub fn only(status: u32) -> Answer
        ensures { result ≡ only status }
    {
        Answer {
            status,
            what: 0,
            bank: 0,
            client: 0,
            channel: 0,
            opcode: 0,
            param: 0,
            place: 0,
            address: 0,
            size: 0,
            index: 0,
            len: 0,
            stores: 0,
            reserved: 0,
            serial: 0,
            bytes: [0; BLOCK_BYTES],
        }
    }

    /// This answer with these bytes.
    pub fn with_bytes(self, bytes: &[u8]) -> Answer
        requires { length bytes.now ≤ BLOCK_BYTES }
        ensures { result ≡ with_bytes bytes.now self }
    {
        let mut told = self;
        told.set_bytes(bytes);
        told
    }

    /// Tells nothing but a status.
    pub fn set_status(&mut self, status: u32)
        ensures { self.new ≡ only status }
    {
        *self = Answer::only(status);
    }

    /// Tells these bytes.
    pub fn set_bytes(&mut self, bytes: &[u8])
        requires { length bytes.now ≤ BLOCK_BYTES }
        ensures { self.new ≡ with_bytes bytes.now self.old }
    {
        self.bytes = [0; BLOCK_BYTES];
        self.bytes[..bytes.len()].copy_from_slice(bytes);
        self.len = bytes.len() as u32;
    }
}

/// What a load or a store answers: an `Answer` without what they do not tell.
#[repr(C)]
#[derive(Clone, Copy, Drop)]
pub struct Accessed {
    /// As that of an `Answer`.
    pub status: u32,
    /// 4 where the bytes of a load are told, else 0.
    pub what: u32,
    /// Why the cache is closed, where the status is 18.
    pub serial: u64,
    /// The bytes of a load, and 0 past them.
    pub bytes: [u8; 8],
    /// How many bytes there are.
    pub len: u32,
}

impl Accessed {
    /// Nothing is told but a status.
    pub fn only(status: u32) -> Accessed
        ensures { wide result ≡ only status }
    {
        Accessed {
            status,
            what: 0,
            serial: 0,
            bytes: [0; 8],
            len: 0,
        }
    }

    /// The bytes of a load.
    pub fn loaded(bytes: &AccessBytes) -> Accessed
        ensures { wide result ≡ loaded_told bytes.now }
    {
        let bytes = bytes.as_slice();
        Accessed {
            status: 0,
            what: 4,
            serial: 0,
            bytes: padded(bytes),
            len: bytes.len() as u32,
        }
    }
}

/// At most eight bytes, and 0 past them.
pub fn padded(bytes: &[u8]) -> [u8; 8]
    requires { length bytes.now ≤ 8 }
    ensures { result ≡ bytes.now ++ replicate (8 - length bytes.now) 0 }
{
    let mut all = [0; 8];
    all[..bytes.len()].copy_from_slice(bytes);
    all
}

/// What a view of a number answers: an `Answer` without what it does not tell.
#[repr(C)]
#[derive(Clone, Copy, Drop)]
pub struct Number {
    /// As that of an `Answer`.
    pub status: u32,
    /// 5 where a number is told, else 0.
    pub what: u32,
    /// The number; or why the cache is closed, where the status is 18.
    pub serial: u64,
}

impl Number {
    /// Nothing is told but a status.
    pub fn only(status: u32) -> Number
        ensures { number_wide result ≡ only status }
    {
        Number {
            status,
            what: 0,
            serial: 0,
        }
    }

    /// A number.
    pub fn told(number: u64) -> Number
        ensures { number_wide result ≡ number_told number }
    {
        Number {
            status: 0,
            what: 5,
            serial: number,
        }
    }

    /// Tells the same as an answer.
    pub fn tell(self, told: &mut Answer)
        ensures { told.new ≡ number_wide self }
    {
        told.set_status(self.status);
        told.what = self.what;
        told.serial = self.serial;
    }
}
