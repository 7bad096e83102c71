// The earliest tick that a blocked thread or a timer wants the scheduler at.
ghost use Rattle.std.specs.Prelude.{◌≡◌, ◌≤◌, length};
ghost use Rattle.laws.specs.Tally.{tally};
ghost use Rattle.types.specs.Thread.{wait_list};
ghost use Rattle.kernel.specs.NextEvent.{earlier, wake_after, due_of};
ghost use Rattle.kernel.specs.Marks.{list_if};

use types::object::KObject;
use types::thread::Thread;
use units::Ticks;

// The best so far, or the other tick if there is one and it is earlier.
pub fn earlier(best: Option<Ticks>, at: Option<Ticks>) -> Option<Ticks>
    ensures { result ≡ earlier best at }
{
    match (best, at) {
        (_, None) => best,
        (None, Some(_)) => at,
        (Some(b), Some(t)) => { if t.0 < b.0 { at } else { best } }
    }
}

pub fn wake_after(best: Option<Ticks>, t: Thread) -> Option<Ticks>
    ensures { result ≡ wake_after best t }
{
    if types::thread::is_blocked(t.status) {
        return earlier(best, t.wakeup_at);
    }
    best
}

// One more for each object that the thread waits on, if it is blocked.
#[tactic(auto, unfolding(laws::specs::Tally::tally))]
pub fn mark_list(m: &mut [u32; 129], t: Thread)
    ensures m_after { m.new ≡ tally 129 m.old (list_if t) }
    ensures t_len_bound { length (list_if t) ≤ wait_list }
{
    if types::thread::is_blocked(t.status) {
        tally::tally_list(m, t.wait_objects);
    }
}

pub fn due_of(o: KObject) -> Option<Ticks>
    ensures { result ≡ due_of o }
{
    match o {
        KObject::Timer(t) => t.fire_at,
        _ => None,
    }
}
