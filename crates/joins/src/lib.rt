// What a query adds to the walks of its parts: an element or a pair around them, U.q, and 14 after the source of let and for. The first two take a part's
// entry; 14 takes what the source's walk answered, so that a refusal passes through.
#![tactic(auto)]

ghost use Rattle.std.specs.Prelude.{◌≤◌, ◌<◌, length};
ghost use Rattle.joins.specs.Joins.{Adds, Repeats, Frees};

use grow::Made;
use refusals::Refusal;
use scope::Scope;
use words::Entry;

// One more entry, of this kind, with a first field and the part's entry, for node n.
pub fn add(
    types: &mut [u16],
    classes: &mut [u16],
    count: usize,
    n: usize,
    kind: u16,
    a: u16,
    at: usize,
) -> Result<Made, Refusal>
    requires { (4096 ≤ length classes.old) × (at < 4096) }
    ensures { Adds types.old types.new classes.old classes.new count n kind a at result }
{
    let b = at as u16;
    grow::append(types, classes, count, n, Entry { kind, a, b })
}

// U.q of the part's entry, for node n.
pub fn repeat(
    types: &mut [u16],
    classes: &mut [u16],
    count: usize,
    n: usize,
    class: u16,
    at: usize,
) -> Result<Made, Refusal>
    requires { (4096 ≤ length classes.old) × (at < 4096) }
    ensures { Repeats types.old types.new classes.old classes.new count n class at result }
{
    walks::times(types, classes, count, n, at, class)
}

// After a source: its own refusal, or 14 if the variable that node n binds is in scope.
pub fn free(n: usize, v: u16, source: Result<Made, Refusal>, scope: &Scope) -> Result<Made, Refusal>
    requires { v ≤ 63 }
    ensures { Frees n v scope.now source result }
{
    let made = source?;
    conds::unbound(scope, n, v)?;
    Ok(made)
}
