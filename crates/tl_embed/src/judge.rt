//! A judge beside a bench, as C calls it.
ghost use Rattle.std.specs.Prelude.{◌≡◌};
ghost use Rattle.std.specs.Align.{type_align};
ghost use Rattle.std.specs.Borrow.{full_share, sem};
ghost use Rattle.std.specs.Mem.{type_size};
ghost use Rattle.std.specs.Ptr.{lies_at, room_at};
ghost use Rattle.tlcheck_embed.specs.Opens.{OpensJudge, SeesRoom};
ghost use Rattle.tlcheck_embed.specs.contracts.room.JudgeRoom.{the_row};
ghost use Rattle.tlcheck_embed.specs.declared.room.JudgeRoom.{JudgeRoom};

use std::alloc::Global;
use tlcheck_embed::{BenchEntry, JudgeNumbers, JudgeRoom, Verdict};

/// How many bytes of room `jj_open` asks for.
#[unsafe(no_mangle)]
pub extern "C" fn jj_size() -> usize
    ensures { result ≡ type_size the_row }
{
    std::mem::size_of::<JudgeRoom>()
}

/// What the address of the room divides by.
#[unsafe(no_mangle)]
pub extern "C" fn jj_align() -> usize
    ensures { result ≡ type_align the_row }
{
    std::mem::align_of::<JudgeRoom>()
}

/// A judge, open or closed.
fn judge_opened(alloc: Global, numbers: &JudgeNumbers, image: &[u8]) -> JudgeRoom
    ensures { OpensJudge numbers.now image.now result }
{
    tlcheck_embed::opened(alloc, numbers, image)
}

/// Hands an entry to a judge.
fn judge_see(room: &mut JudgeRoom, entry: &BenchEntry) -> Verdict
    ensures { SeesRoom room.old entry.now room.new result }
{
    tlcheck_embed::see(room, entry)
}

/// Puts a judge into room for one: at reset over an image, or closed for the reason that each call then answers.
#[unsafe(no_mangle)]
pub unsafe extern "C" fn jj_open(alloc: Global, numbers: &JudgeNumbers, image: &[u8], room: *mut u8)
    requires* { sem 𝓛 (room_at the_row room) }
    ensures* { ∃ₛ (λ (made : JudgeRoom). sem 𝓛 (lies_at the_row full_share room made)
        ∗ ⌜ OpensJudge numbers.now image.now made ⌝) }
{
    let made = judge_opened(alloc, numbers, image);
    unsafe { std::ptr::write(room as *mut JudgeRoom, made) }
}

/// Hands an entry to the judge at a pointer where `jj_open` put one; the event 255 closes it.
#[unsafe(no_mangle)]
pub unsafe extern "C" fn jj_see(judge: *mut u8, entry: &BenchEntry) -> Verdict
    ghost before: { JudgeRoom }
    requires* { sem 𝓛 (lies_at the_row full_share judge before) }
    ensures* { ∃ₛ (λ (after : JudgeRoom). sem 𝓛 (lies_at the_row full_share judge after)
        ∗ ⌜ SeesRoom before entry.now after result ⌝) }
{
    judge_see(unsafe { &mut *(judge as *mut JudgeRoom) }, entry)
}
