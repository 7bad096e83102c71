// A list with a count beside it: as many places as the most that a wait takes.
ghost use Rattle.std.specs.Prelude.{◌≡◌, ◌≤◌, length, take};
ghost use Rattle.types.specs.Thread.{wait_list};

use crate::thread::WAIT_LIST;

// The first n, or all of them: in mid-operation a thread's count may be more than the places.
pub fn first<T>(l: &[T; WAIT_LIST], n: u32) -> &[T]
    ensures value { result.now ≡ take n l.now }
    ensures bound { length result.now ≤ wait_list }
{
    &l[..(n as usize).min(WAIT_LIST)]
}
