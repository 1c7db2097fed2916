//! A script.

ghost use Rattle.std.specs.Prelude.{◌≡◌, ◌*◌, ◌≤◌, Ok, length, map, true};
ghost use Rattle.tl_script.specs.Commands.{all_fit};
ghost use Rattle.tl_script.specs.Numbers.{geometry_of};

use tl_map::{Geometry, GeometryNumbers};
use tl_script_words::{Command, Step};

/// What a script asks for.
#[derive(Debug, Drop)]
pub struct Script {
    /// The numbers of the cache, as the document gives them.
    pub numbers: GeometryNumbers,
    /// The geometry that the numbers make.
    pub geometry: Geometry,
    /// How many turns a thread makes at most.
    pub turns: u32,
    /// The first bytes of the memory.
    pub image: Vec<u8>,
    /// The commands of each client, from client 0 on.
    pub commands: Vec<Vec<Command>>,
    /// The steps of a trace.
    pub steps: Vec<Step>,

    // The geometry is that of the numbers.
    pub ghost made: { geometry_of numbers ≡ Ok geometry },
    // The image is no longer than the memory.
    pub ghost inside: { length image.items ≤ geometry.memory_blocks * geometry.block_bytes },
    // Each client has its list of commands.
    pub ghost each_client: { length commands.items ≡ geometry.clients },
    // The bytes of each command lie in the memory and in one block.
    pub ghost placed: { all_fit geometry (map (λ v. v.items) commands.items) ≡ true },
    // There are at most 4,096 steps (`STEPS`).
    pub ghost few: { length steps.items ≤ 4096 },
}

impl Script {
    /// The geometry of the cache, with what it says of the rest.
    pub fn geometry(&self) -> Geometry
        ensures is { result ≡ self.now.geometry }
        ensures image { length self.now.image.items ≤ result.memory_blocks * result.block_bytes }
        ensures clients { length self.now.commands.items ≡ result.clients }
        ensures commands { all_fit result (map (λ v. v.items) self.now.commands.items) ≡ true }
    {
        self.geometry
    }
}
