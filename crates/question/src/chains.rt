// Chain walks, by recursion with a falling allowance, so that a damaged chain ends too. What is walked over is handed
// on by reference, in registers, so that a walk is compiled to a loop.
ghost use Rattle.std.specs.Prelude.{◌≡◌, ◌≢◌, ◌≤◌, Bool, true, false, List, ℕ, Some, None, take};
ghost use Rattle.laws.specs.Logic.{◌and◌};
ghost use Rattle.laws.specs.Walk.{walk, ends?};
ghost use Rattle.laws.specs.Tally.{tally};
ghost use Rattle.sound.specs.Records.{chain?, blanks?};
ghost use Rattle.question.specs.LinearObjects.{lone?};
ghost use Rattle.question.specs.declared.chains.Marks.TheVariants.{Broken};
ghost use Rattle.question.specs.Apart.{fresh?, marked, apart?, outcome};

use tally::chain::{cell, has_record};

// The columns of the records of arbiters.
#[derive(Drop)]
pub struct Records {
    pub nexts: [u32; 64],
    pub threads: [u32; 64],
    pub addresses: [u32; 64],
}

// Whether the chain from at ends within left cells of the first n, and one more in m for each cell that it has.
#[tactic(auto, using(crate::proofs::Tests::walks))]
pub fn mark_chain<const N: usize>(
    nexts: &[u32; N],
    n: usize,
    m: &mut [u32; 129],
    at: u32,
    left: u32,
) -> bool
    requires { n ≤ N }
    ensures value { result ≡ ends? (take n nexts.now) left at }
    ensures m_after { m.new ≡ tally 129 m.old (walk (take n nexts.now) left at) }
{
    if at == 0 {
        return true;
    }
    if left == 0 {
        return false;
    }
    tally::bump_at(m, at);
    if n < at as usize {
        return false;
    }
    mark_chain(nexts, n, m, cell(nexts, at), left - 1)
}

// Whether thread t has not this mark yet, and the mark if so.
#[tactic(auto, using(crate::proofs::Tests::marks))]
fn fresh(seen: &mut [u32; 32], t: u32, mark: u32) -> bool
    ensures value { result ≡ fresh? seen.old t mark }
    ensures seen_after { seen.new ≡ marked seen.old t mark }
{
    let i = t as usize;
    if 32 <= i || seen[i] == mark {
        return false;
    }
    seen[i] = mark;
    true
}

// What a walk finds. One byte, so that the walk is compiled to a loop: where it gives an Option of a bool, each step
// is a call.
#[derive(Clone, Copy)]
pub enum Marks {
    // It does not end, or has a record that is marked already.
    Broken,
    // It ends, but its threads are not told apart.
    Shared,
    // It ends, its threads are below n, and none was met twice.
    Apart,
}

// Marks in m those of the 64 records that the chain from at has. It is apart if it was before, its threads are below
// n, and none of them had the mark. The first fault ends the walk, so all walks over the same m together step on a
// record at most once. m after Broken is left open, since it is not read then. What seen has is left open, since it
// only tells Shared from Apart, and pairs are compared after Shared. What is handed on stays in registers, as no struct
// of it would.
fn mark_apart(
    r: &Records,
    m: &mut [u32; 129],
    seen: &mut [u32; 32],
    mark: u32,
    n: u32,
    at: u32,
    left: u32,
    apart: bool,
) -> Marks
    ensures value { result
        ≡ outcome (lone? r.now.nexts m.old left at)
        (apart and apart? n r.now.threads seen.old mark (walk r.now.nexts left at)) }
    ensures m_after { result ≢ Broken → m.new ≡ tally 129 m.old (walk r.now.nexts left at) }
{
    if at == 0 {
        return if apart { Marks::Apart } else { Marks::Shared };
    }
    if left == 0 || 64 < at || m[at as usize] != 0 {
        return Marks::Broken;
    }
    tally::bump_at(m, at);
    let t = cell(&r.threads, at);
    let still = apart & (t < n) & fresh(seen, t, mark);
    mark_apart(r, m, seen, mark, n, cell(&r.nexts, at), left - 1, still)
}

// mark_apart for the chain from head, which may be 0: None if it is broken, else whether it is apart. m and seen are
// left open as there.
pub fn mark_head(
    r: &Records,
    m: &mut [u32; 129],
    seen: &mut [u32; 32],
    mark: u32,
    n: u32,
    head: u32,
) -> Option<bool>
    ensures broken { result ≡ None → lone? r.now.nexts m.old 64 head ≡ false }
    ensures lone { (b : Bool) → result ≡ Some b → lone? r.now.nexts m.old 64 head ≡ true }
    ensures m_after { (b : Bool) → result ≡ Some b → m.new ≡ tally 129 m.old (walk r.now.nexts 64 head) }
    ensures pairs { result ≡ Some true → (ad : List ℕ) → chain? r.now.threads ad n (walk r.now.nexts 64 head) ≡ true }
{
    if head == 0 {
        return Some(true);
    }
    match mark_apart(r, m, seen, mark, n, head, 64, true) {
        Marks::Broken => None,
        Marks::Shared => Some(false),
        Marks::Apart => Some(true),
    }
}

// Whether the records of the chain from at name threads below n, and no thread and address twice.
#[tactic(auto, using(crate::proofs::Tests::walks))]
pub fn chain_ok(r: &Records, n: u32, at: u32, left: u32) -> bool
    ensures { result ≡ chain? r.now.threads r.now.addresses n (walk r.now.nexts left at) }
{
    if at == 0 || left == 0 {
        return true;
    }
    let t = cell(&r.threads, at);
    let a = cell(&r.addresses, at);
    let next = cell(&r.nexts, at);
    if n <= t || has_record(&r.nexts, &r.threads, &r.addresses, t, a, next, left - 1) {
        return false;
    }
    chain_ok(r, n, next, left - 1)
}

// Whether the records of the chain from at are blank.
#[tactic(auto, using(crate::proofs::Tests::walks))]
pub fn blanks_ok(r: &Records, at: u32, left: u32) -> bool
    ensures { result ≡ blanks? r.now.threads r.now.addresses (walk r.now.nexts left at) }
{
    if at == 0 || left == 0 {
        return true;
    }
    if cell(&r.threads, at) != 0 || cell(&r.addresses, at) != 0 {
        return false;
    }
    blanks_ok(r, cell(&r.nexts, at), left - 1)
}
