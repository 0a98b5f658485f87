//! Copies octets into lists of fixed capacity.

ghost use Rattle.std.specs.Prelude.{◌≡◌, ◌≤◌, length};

use arrayvec::ArrayVec;

/// A copy of some octets. The caller ensures that there are at most `ROOM` of them.
pub fn copy_octets<const ROOM: usize>(octets: &[u8]) -> ArrayVec<u8, ROOM>
    requires { length octets.now ≤ ROOM }
    ensures { result.items ≡ octets.now }
{
    let mut copy = ArrayVec::new();
    copy.try_extend_from_slice(octets).unwrap();
    copy
}

/// Replaces the content of `room` by some octets. The caller ensures that there are at most `ROOM` of them. An empty
/// list copies nothing, and a list of equal length is copied over the old octets without clearing them.
#[inline(always)]
pub fn put_octets<const ROOM: usize>(room: &mut ArrayVec<u8, ROOM>, octets: &[u8])
    requires { length octets.now ≤ ROOM }
    ensures { room.new.items ≡ octets.now }
{
    if octets.is_empty() {
        room.clear();
    } else if room.len() == octets.len() {
        room.copy_from_slice(octets);
    } else {
        room.clear();
        room.try_extend_from_slice(octets).unwrap();
    }
}
