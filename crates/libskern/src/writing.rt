//! What is written for a caller, who gives some room for it.
ghost use Rattle.std.specs.Prelude.{◌≡◌, length};
ghost use Rattle.libskern.specs.Writing.{IsGiven, IsSaid, written};

use crate::{Fault, reason};

/// Writes bytes at the beginning of the room, where there is room for all of them, and gives how many they are.
fn write(bytes: &[u8], room: &mut [u8]) -> usize
    ensures size { result ≡ length bytes.now }
    ensures written { room.new ≡ written bytes.now room.old }
{
    if bytes.len() <= room.len() {
        room[..bytes.len()].copy_from_slice(bytes);
    }
    bytes.len()
}

/// Writes a filter's image, or tells that there is no room for it.
pub(crate) fn give(image: &[u8], room: &mut [u8], size: &mut usize) -> Fault
    ensures given { IsGiven image.now room.old result size.new room.new }
{
    *size = write(image, room);
    if *size <= room.len() {
        Fault::plain(reason::FINE)
    } else {
        Fault::plain(reason::NO_ROOM)
    }
}

/// Writes a text beside what is told.
pub(crate) fn say(told: Fault, text: &str, room: &mut [u8], size: &mut usize) -> Fault
    ensures said { IsSaid told text.now room.old result size.new room.new }
{
    *size = write(text.as_bytes(), room);
    told
}
