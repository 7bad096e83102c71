// What a sound block is stands in specs/. Here is the one test of it that code above asks by itself.
#![tactic(auto)]

ghost use Rattle.std.specs.Prelude.{◌≡◌};
ghost use Rattle.sound.specs.Threads.{is_current};

pub fn is_current(c: Option<u32>, i: u32) -> bool
    ensures { result ≡ is_current c i }
{
    c == Some(i)
}
