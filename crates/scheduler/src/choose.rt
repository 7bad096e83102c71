// The choice after the tries: first pick, starving, relief, stand-in, switch.
ghost use Rattle.std.specs.Prelude.{◌≡◌, not, Some};
ghost use Rattle.laws.specs.Logic.{◌and◌};
ghost use Rattle.sound.specs.View.{thread_at};
ghost use Rattle.pass.specs.Schedule as def;
ghost use Rattle.scheduler.specs.Switch as computed;
ghost use Rattle.scheduler.specs.Turn.{Chooses};

use crate::run;
use types::thread::Thread;
use units::Ticks;

fn priority_at(ts: &[Thread; 32], t: u32) -> u32
    ensures { result ≡ (thread_at ts.now t).priority }
{
    if t < 32 { ts[t as usize].priority } else { 0 }
}

fn stand_in_at(ts: &[Thread; 32], t: u32) -> Option<u32>
    ensures { result ≡ def.stand_in ts.now (Some t) }
{
    pick::pick_other(ts, t, priority_at(ts, t)).or(Some(t))
}

fn stand_in(ts: &[Thread; 32], first: Option<u32>) -> Option<u32>
    ensures { result ≡ def.stand_in ts.now first }
{
    first.and_then(|t| stand_in_at(ts, t))
}

// When relief turns on, another thread runs instead, if there is one.
#[tactic(auto, using(laws::specs::Logic::and_yes, laws::specs::Logic::and_no))]
fn chosen(ts: &[Thread; 32], first: Option<u32>, starve: bool, relief: bool) -> Option<u32>
    ensures { result ≡ def.chosen ts.now first starve relief }
{
    if starve && !relief {
        return stand_in(ts, first);
    }
    first
}

fn flipped(starve: bool, relief: bool) -> bool
    ensures { result ≡ def.flipped starve relief }
{
    if starve { !relief } else { relief }
}

fn stays(c: Option<u32>, n: Option<u32>) -> bool
    ensures { result ≡ computed.stays c n }
{
    c.is_some() && c == n
}

fn unless(same: bool, t: Option<u32>) -> Option<u32>
    ensures { result ≡ computed.unless same t }
{
    if same { None } else { t }
}

#[tactic(auto, using(laws::specs::Logic::and_yes, laws::specs::Logic::and_no))]
fn switches(same: bool, c: Option<u32>, n: Option<u32>) -> bool
    ensures { result ≡ (not same and not (def.is_none c and def.is_none n)) }
{
    !same && (c.is_some() || n.is_some())
}

// What a pass chooses: the threads after it, who runs, the relief, whose context is saved, whose is restored, and
// whether it switched.
#[derive(Clone, Copy)]
pub struct Turned {
    pub threads: [Thread; 32],
    pub current: Option<u32>,
    pub relief: bool,
    pub saved: Option<u32>,
    pub restored: Option<u32>,
    pub switched: bool,
}

// From the threads ts after the tries. In place: threads that are handed on would be copied.
pub fn choose(ts: [Thread; 32], current: Option<u32>, relief: bool, tick: Ticks) -> Turned
    ensures { Chooses ts current relief tick.0 result }
{
    let mut l = ts;
    run::mark_waited(&mut l, current);
    let first = pick::pick_next(&l, current);
    run::begin_run(&mut l, first, tick);
    let starve = run::starving(&l, first, tick);
    let next = chosen(&l, first, starve, relief);
    run::begin_run(&mut l, next, tick);
    let same = stays(current, next);
    if !same {
        run::leave_core(&mut l, current);
    }
    run::take_core(&mut l, next);
    Turned {
        threads: l,
        current: next,
        relief: flipped(starve, relief),
        saved: unless(same, current),
        restored: unless(same, next),
        switched: switches(same, current, next),
    }
}
