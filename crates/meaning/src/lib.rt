#![tactic(auto)]

ghost use Rattle.std.specs.Prelude.{◌≡◌};

// The meaning of document 01 stands in specs/, its laws in proofs/. The code is in the crates above this one; this function only makes it a crate.

// The number of refusals that document 01 lists.
pub fn refusals() -> u32
    ensures { result ≡ 21 }
{
    21
}
