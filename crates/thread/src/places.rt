// The TLS slot that a new thread gets (`allocate_tls`).
ghost use Rattle.std.specs.Prelude.{◌≡◌, ◌≤◌};
ghost use Rattle.thread.specs.Marks.{free_marked};

// The first of the n slots from 0 that m does not mark, or n, which is the slot to be given out next.
#[tactic(auto, using(crate::proofs::Steps::free_hit, crate::proofs::Steps::free_miss, crate::proofs::Steps::free_end))]
pub fn free_slot(m: &[u32; 129], n: u32) -> u32
    requires { n ≤ 32 }
    ensures { result ≡ free_marked m.now n 0 }
{
    for i in 0..n {
        if m[i as usize] == 0 {
            return i;
        }
    }
    n
}
