//! What a monitor on the links sees, as lines of a record of messages.

use crate::numbers::Numbers;
use std::alloc::{AllocError, Global};
use tl_protocol::Outward;
use tl_script_words::Hex;
use tl_types::{BlockBytes, BlockNo, Channel, ClientId, Message, Ticket, code};

/// Which way something passes between home and the memory.
#[derive(Clone, Copy)]
pub(crate) enum Way {
    Asked,
    Answered,
}

/// The sources of a client's link: as many as there are blocks at most.
pub(crate) const SOURCES: u32 = 64;

/// The lines so far, each with the cycle in which it is seen.
#[derive(Drop)]
pub(crate) struct Sights {
    alloc: Global,
    numbers: Numbers,
    block_bytes: u32,
    /// How many lines what a core does, or a Probe, is seen late at most.
    late: u32,
    /// The latest cycle of each core, and of each client's channel B.
    cores: Vec<u64>,
    probes: Vec<u64>,
    cycle: u64,
    lines: Vec<(u64, String)>,
}

fn data_of(alloc: Global, bytes: Option<&BlockBytes>) -> Result<String, AllocError> {
    match bytes {
        Some(bytes) => format!(in alloc; " data={}", Hex(bytes.as_slice())),
        None => Ok(String::new(alloc)),
    }
}

/// The latest of a number and the one at a place, which it becomes.
fn later(latest: &mut [u64], place: usize, cycle: u64) -> u64 {
    match latest.get_mut(place) {
        Some(one) => {
            *one = cycle.max(*one);
            *one
        }
        None => cycle,
    }
}

impl Sights {
    /// Nothing is seen.
    pub(crate) fn new(
        alloc: Global,
        seed: u32,
        block_bytes: u32,
        late: u32,
    ) -> Result<Sights, AllocError> {
        Ok(Sights {
            alloc,
            numbers: Numbers::new(seed),
            block_bytes,
            late,
            cores: vec![in alloc; 0u64; 16]?,
            probes: vec![in alloc; 0u64; 16]?,
            cycle: 0,
            lines: Vec::new(alloc),
        })
    }

    fn size(&self) -> u32 {
        self.block_bytes.max(1).ilog2()
    }

    fn address(&self, block: BlockNo) -> u32 {
        block.number().wrapping_mul(self.block_bytes)
    }

    /// By how many cycles a line is late.
    fn lateness(&mut self) -> u64 {
        if self.late == 0 {
            0
        } else {
            u64::from(self.numbers.below(self.late))
        }
    }

    fn add(&mut self, cycle: u64, line: String) -> Result<(), AllocError> {
        self.cycle = self.cycle.wrapping_add(1);
        match self.lines.push((cycle, line)) {
            Ok(()) => Ok(()),
            Err(_) => Err(AllocError),
        }
    }

    /// A core loads or stores.
    pub(crate) fn access(
        &mut self,
        verb: &str,
        client: ClientId,
        address: u32,
        bytes: &[u8],
    ) -> Result<(), AllocError> {
        let at = self.cycle.wrapping_add(self.lateness());
        let cycle = later(self.cores.as_mut_slice(), client.index(), at);
        let line = format!(in self.alloc; "c{client} {verb} 0x{address:08x} {}", Hex(bytes))?;
        self.add(cycle, line)
    }

    /// The words of a message after its opcode.
    fn words(&self, ticket: &Ticket, message: &Message) -> Result<String, AllocError> {
        let alloc = self.alloc;
        let size = self.size();
        let block = message.block.number();
        let source = ticket
            .client
            .number()
            .wrapping_mul(SOURCES)
            .wrapping_add(block);
        let (opcode, param) = code(message.body.kind());
        let address = self.address(message.block);
        let data = data_of(alloc, message.body.bytes())?;
        match ticket.channel {
            Channel::A => {
                format!(in alloc;
                    "A {opcode} param={param} size={size} source={source} address=0x{address:08x}"
                )
            }
            Channel::B => {
                format!(in alloc; "B {opcode} param={param} size={size} address=0x{address:08x}")
            }
            Channel::C => {
                format!(in alloc;
                    "C {opcode} param={param} size={size} source={source} address=0x{address:08x}{data}"
                )
            }
            Channel::D if opcode == 6 => format!(in alloc; "D 6 size={size} source={source}"),
            Channel::D => {
                format!(in alloc;
                    "D {opcode} param={param} size={size} source={source} sink={block}{data}"
                )
            }
            Channel::E => format!(in alloc; "E {opcode} sink={block}"),
        }
    }

    /// A message is sent.
    pub(crate) fn message(&mut self, ticket: &Ticket, message: &Message) -> Result<(), AllocError> {
        let words = self.words(ticket, message)?;
        let client = ticket.client;
        let line = format!(in self.alloc; "c{client} {words}")?;
        let cycle = if ticket.channel == Channel::B {
            let at = self.cycle.wrapping_add(self.lateness());
            later(self.probes.as_mut_slice(), client.index(), at)
        } else {
            self.cycle
        };
        self.add(cycle, line)
    }

    /// Home asks the memory, or the memory answers: what passes since.
    pub(crate) fn memory(
        &mut self,
        block: BlockNo,
        way: Way,
        outward: &Outward,
    ) -> Result<(), AllocError> {
        let alloc = self.alloc;
        let size = self.size();
        let address = self.address(block);
        let line = match (way, outward) {
            (Way::Asked, Outward::Get) => {
                format!(in alloc; "m A 4 size={size} source={block} address=0x{address:08x}")?
            }
            (Way::Asked, Outward::Put(bytes)) => {
                let data = data_of(alloc, Some(bytes))?;
                format!(in alloc; "m A 0 size={size} source={block} address=0x{address:08x}{data}")?
            }
            (Way::Answered, Outward::Data(bytes)) => {
                let data = data_of(alloc, Some(bytes))?;
                format!(in alloc; "m D 1 size={size} source={block}{data}")?
            }
            _ => format!(in alloc; "m D 0 size={size} source={block}")?,
        };
        let cycle = self.cycle;
        self.add(cycle, line)
    }

    /// The lines in order of their cycles, each with the place where it was sent.
    fn in_order(&self) -> Result<Vec<(u64, usize)>, AllocError> {
        let mut order = Vec::new(self.alloc);
        for place in 0..self.lines.len() {
            if let Some(line) = self.lines.get(place) {
                order.push((line.0, place))?;
            }
        }
        order.sort()?;
        Ok(order)
    }

    /// Appends the lines in order of their cycles.
    pub(crate) fn push_lines(&self, text: &mut String) -> Result<(), AllocError> {
        for (cycle, place) in self.in_order()?.as_slice() {
            if let Some(line) = self.lines.get(*place) {
                let words = line.1.as_str();
                let whole = format!(in self.alloc; "{cycle} {words}\n")?;
                text.push_str(whole.as_str())?;
            }
        }
        Ok(())
    }
}
