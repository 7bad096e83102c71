// Threads and their saved processor state (thread.rs).
ghost use Rattle.std.specs.Prelude.{◌≡◌};
ghost use Rattle.types.specs.Thread.{option_flag, option_value, option_of, tick_value, tick_option, status_number};
ghost use Rattle.types.specs.Thread.{status_of, is_blocked, is_dead, result_number, result_index, result_of};
ghost use Rattle.types.specs.Thread.{syscall_number, syscall_of};

use units::{ObjectId, Ticks};

// The places of a thread's list: the most handles in one wait. `wait_list` of specs/Thread.antt has the same number.
pub const WAIT_LIST: usize = 12;
// The same as a word, for what guests and records count.
pub const WAIT_COUNT: u32 = WAIT_LIST as u32;

#[derive(Clone, Copy, Default, PartialEq, Eq)]
pub enum ThreadStatus {
    #[default]
    Dead,
    Running,
    Ready,
    // Until a tick, with no object involved.
    Sleeping,
    // On one or more kernel objects.
    WaitSync,
    // Parked on an address arbiter.
    WaitArbiter,
    // Created but not started.
    Dormant,
}

// Why a blocked thread woke up, where its syscall has not collected it yet.
#[derive(Clone, Copy, PartialEq, Eq)]
pub enum WaitResult {
    // The wait succeeded, by the object at this index of its list.
    Signaled(u32),
    TimedOut,
}

// The syscall that waits for that result.
#[derive(Clone, Copy, PartialEq, Eq)]
pub enum WaitSyscall {
    WaitSynchronization1,
    WaitSynchronizationN,
    ArbitrateAddress,
    SleepThread,
}

// By default a place that no thread has yet.
#[derive(Clone, Copy, Default)]
pub struct Thread {
    pub status: ThreadStatus,
    // 0 is the most urgent, 63 the least.
    pub priority: u32,
    pub entry: u32,
    pub stack_top: u32,
    // The TLS slot.
    pub tls: u32,
    pub processor_id: u32,
    // The first wait_count are the objects that the thread waits on, the rest are 0.
    pub wait_objects: [ObjectId; WAIT_LIST],
    pub wait_count: u32,
    // Whether all of them are needed.
    pub wait_all: bool,
    // When a time-out expires; none waits for good.
    pub wakeup_at: Option<Ticks>,
    // When the thread last started to run after a wait, and whether it has waited since.
    pub running_since: Ticks,
    pub waited: bool,
    // The address that it is parked on.
    pub wait_address: Option<u32>,
    pub wait_result: Option<WaitResult>,
    pub wait_syscall: Option<WaitSyscall>,
    pub guest_id: u32,
}

// All that is saved across a context switch.
#[derive(Clone, Copy)]
pub struct ThreadContext {
    pub regs: [u32; 16],
    pub cpsr: u32,
    pub vfp_regs: [u32; 32],
    pub fpscr: u32,
    pub fpexc: u32,
    // The TLS slot.
    pub tls_pointer: u32,
}

// 1 if there is a value, else 0.
pub fn option_flag<T: Drop>(o: Option<T>) -> u32
    ensures { result ≡ option_flag o }
{
    o.is_some() as u32
}

// The value, 0 if there is none.
pub fn option_value(o: Option<u32>) -> u32
    ensures { result ≡ option_value o }
{
    o.unwrap_or(0)
}

// The value where the flag is 1.
pub fn option_of<T: Drop>(flag: u32, value: T) -> Option<T>
    ensures { result ≡ option_of flag value }
{
    if flag == 1 { Some(value) } else { None }
}

// As `option_value`, of a tick.
pub fn tick_value(o: Option<Ticks>) -> u64
    ensures { result ≡ tick_value o }
{
    o.map_or(0, |t| t.0)
}

pub fn tick_option(flag: u32, value: u64) -> Option<Ticks>
    ensures { result ≡ tick_option flag value }
{
    option_of(flag, Ticks(value))
}

impl From<ThreadStatus> for u32 {
    ghost from_gives = { λ s r. r ≡ status_number s };

    fn from(s: ThreadStatus) -> u32 {
        match s {
            ThreadStatus::Dead => 0,
            ThreadStatus::Running => 1,
            ThreadStatus::Ready => 2,
            ThreadStatus::Sleeping => 3,
            ThreadStatus::WaitSync => 4,
            ThreadStatus::WaitArbiter => 5,
            ThreadStatus::Dormant => 6,
        }
    }
}

// An unknown number reads as Dead, and question 2 refuses it.
impl From<u32> for ThreadStatus {
    ghost from_gives = { λ n r. r ≡ status_of n };

    fn from(n: u32) -> ThreadStatus {
        match n {
            1 => ThreadStatus::Running,
            2 => ThreadStatus::Ready,
            3 => ThreadStatus::Sleeping,
            4 => ThreadStatus::WaitSync,
            5 => ThreadStatus::WaitArbiter,
            6 => ThreadStatus::Dormant,
            _ => ThreadStatus::Dead,
        }
    }
}

pub fn is_blocked(s: ThreadStatus) -> bool
    ensures { result ≡ is_blocked s }
{
    matches!(
        &s,
        ThreadStatus::Sleeping | ThreadStatus::WaitSync | ThreadStatus::WaitArbiter
    )
}

pub fn is_dead(s: ThreadStatus) -> bool
    ensures { result ≡ is_dead s }
{
    matches!(&s, ThreadStatus::Dead)
}

pub fn result_number(r: Option<WaitResult>) -> u32
    ensures { result ≡ result_number r }
{
    match r {
        None => 0,
        Some(WaitResult::Signaled(_)) => 1,
        Some(WaitResult::TimedOut) => 2,
    }
}

pub fn result_index(r: Option<WaitResult>) -> u32
    ensures { result ≡ result_index r }
{
    match r {
        Some(WaitResult::Signaled(i)) => i,
        _ => 0,
    }
}

pub fn result_of(n: u32, index: u32) -> Option<WaitResult>
    ensures { result ≡ result_of n index }
{
    match n {
        1 => Some(WaitResult::Signaled(index)),
        2 => Some(WaitResult::TimedOut),
        _ => None,
    }
}

pub fn syscall_number(s: Option<WaitSyscall>) -> u32
    ensures { result ≡ syscall_number s }
{
    match s {
        None => 0,
        Some(WaitSyscall::WaitSynchronization1) => 1,
        Some(WaitSyscall::WaitSynchronizationN) => 2,
        Some(WaitSyscall::ArbitrateAddress) => 3,
        Some(WaitSyscall::SleepThread) => 4,
    }
}

pub fn syscall_of(n: u32) -> Option<WaitSyscall>
    ensures { result ≡ syscall_of n }
{
    match n {
        1 => Some(WaitSyscall::WaitSynchronization1),
        2 => Some(WaitSyscall::WaitSynchronizationN),
        3 => Some(WaitSyscall::ArbitrateAddress),
        4 => Some(WaitSyscall::SleepThread),
        _ => None,
    }
}
