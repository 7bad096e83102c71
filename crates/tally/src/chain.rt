// Chains through numbered cells. A chain is walked by recursion with a falling allowance, so that a damaged one ends
// too: references to arrays are handed on in registers, so that a walk is compiled to a loop.
ghost use Rattle.std.specs.Prelude.{◌≡◌};
ghost use Rattle.laws.specs.Count as cells;
ghost use Rattle.laws.specs.Walk.{walk};
ghost use Rattle.sound.specs.Records.{has?};

// What stands in the cell numbered at, from 1; 0 where there is no such cell.
pub fn cell<const N: usize>(l: &[u32; N], at: u32) -> u32
    ensures { result ≡ cells.at l.now at }
{
    let n = at as usize;
    if n == 0 || N < n { 0 } else { l[n - 1] }
}

// Whether a record of the chain from at is that of thread t and address a.
pub fn has_record<'a>(
    nexts: &'a [u32; 64],
    threads: &'a [u32; 64],
    addresses: &'a [u32; 64],
    t: u32,
    a: u32,
    at: u32,
    left: u32,
) -> bool
    ensures { result ≡ has? threads.now addresses.now t a (walk nexts.now left at) }
{
    if at == 0 || left == 0 {
        return false;
    }
    if cell(threads, at) == t && cell(addresses, at) == a {
        return true;
    }
    has_record(nexts, threads, addresses, t, a, cell(nexts, at), left - 1)
}
