//! A judge at a client's pins beside a bench, as C calls it.
ghost use Rattle.std.specs.Prelude.{◌≡◌};
ghost use Rattle.std.specs.Align.{type_align};
ghost use Rattle.std.specs.Borrow.{full_share, sem};
ghost use Rattle.std.specs.Mem.{type_size};
ghost use Rattle.std.specs.Ptr.{lies_at, room_at};
ghost use Rattle.tlwire_embed.specs.Opens.{OpensPins, SeesRoom};
ghost use Rattle.tlwire_embed.specs.contracts.room.PinsRoom.{the_row};
ghost use Rattle.tlwire_embed.specs.declared.room.PinsRoom.{PinsRoom};

use std::alloc::Global;
use tlwire_embed::{PinsLine, PinsNumbers, PinsRoom, PinsVerdict};

/// How many bytes of room `jp_open` asks for.
#[unsafe(no_mangle)]
pub extern "C" fn jp_size() -> usize
    ensures { result ≡ type_size the_row }
{
    std::mem::size_of::<PinsRoom>()
}

/// What the address of the room divides by.
#[unsafe(no_mangle)]
pub extern "C" fn jp_align() -> usize
    ensures { result ≡ type_align the_row }
{
    std::mem::align_of::<PinsRoom>()
}

/// A judge at a client's pins, open or closed.
fn pins_opened(alloc: Global, numbers: &PinsNumbers) -> PinsRoom
    ensures { OpensPins numbers.now result }
{
    tlwire_embed::opened(alloc, numbers)
}

/// Hands a line to a judge.
fn pins_see(room: &mut PinsRoom, line: &PinsLine) -> PinsVerdict
    ensures { SeesRoom room.old line.now room.new result }
{
    tlwire_embed::see(room, line)
}

/// Puts a judge into room for one: at a client's pins, of which it saw no line, or closed for the reason that each call
/// then answers.
#[unsafe(no_mangle)]
pub unsafe extern "C" fn jp_open(alloc: Global, numbers: &PinsNumbers, room: *mut u8)
    requires* { sem 𝓛 (room_at the_row room) }
    ensures* { ∃ₛ (λ (made : PinsRoom). sem 𝓛 (lies_at the_row full_share room made)
        ∗ ⌜ OpensPins numbers.now made ⌝) }
{
    let made = pins_opened(alloc, numbers);
    unsafe { std::ptr::write(room as *mut PinsRoom, made) }
}

/// Hands a line to the judge at a pointer where `jp_open` put one; what is seen as 255 closes it.
#[unsafe(no_mangle)]
pub unsafe extern "C" fn jp_see(judge: *mut u8, line: &PinsLine) -> PinsVerdict
    ghost before: { PinsRoom }
    requires* { sem 𝓛 (lies_at the_row full_share judge before) }
    ensures* { ∃ₛ (λ (after : PinsRoom). sem 𝓛 (lies_at the_row full_share judge after)
        ∗ ⌜ SeesRoom before line.now after result ⌝) }
{
    pins_see(unsafe { &mut *(judge as *mut PinsRoom) }, line)
}
