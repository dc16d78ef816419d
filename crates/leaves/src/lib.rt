// The typing walk of queries that have no parts: (), a text, a variable, child and dos. Those that look a variable up are lent the scope.
#![tactic(auto)]

ghost use Rattle.std.specs.Prelude.{◌≡◌, Ok, List, ℕ, ◌≤◌, length};
ghost use Rattle.meaning.specs.Types.{Defs};
ghost use Rattle.meaning.specs.Queries as Queries;
ghost use Rattle.scope.specs.declared.Scope.{Scope};
ghost use Rattle.leaves.specs.Walk.{Begins, Walks};

use grow::Made;
use refusals::Refusal;
use scope::Scope;

// kept: () and a text differ in an entry's number alone, but one function for both would need a clause that asks which query it is.

// (): entry 0, in every scope.
pub fn nothing(count: usize) -> Made
    ensures { (n : ℕ) (D : Defs) (ws cs : List ℕ) (s : Scope) → Begins D ws cs count s → Walks D ws ws cs cs count (Queries.nothing n) s (Ok result) }
{
    Made { at: 0, count }
}

// A text: entry 1, in every scope.
pub fn text(count: usize) -> Made
    ensures { (n t : ℕ) (D : Defs) (ws cs : List ℕ) (s : Scope) → Begins D ws cs count s → Walks D ws ws cs cs count (Queries.text n t) s (Ok result) }
{
    Made { at: 1, count }
}

// A variable: its entry, for node n.
pub fn variable(count: usize, scope: &Scope, n: usize, v: u16) -> Result<Made, Refusal>
    requires { v ≤ 63 }
    ensures { (D : Defs) (ws cs : List ℕ) → Begins D ws cs count scope.now → Walks D ws ws cs cs count (Queries.variable n v) scope.now result }
{
    let e = conds::variable(scope, n, v)?;
    Ok(Made {
        at: usize::from(e),
        count,
    })
}

// kept: child and dos have one line in common, and one function for both, with the rule as a value, is no plainer.

// child of a tree variable, for node n. The marks are scratch.
pub fn child(
    test: u16,
    types: &mut [u16],
    classes: &mut [u16],
    defs: &[u16],
    count: usize,
    n: usize,
    v: u16,
    scope: &Scope,
    marks: &mut [u16],
) -> Result<Made, Refusal>
    requires begins { Begins defs.now types.old classes.old count scope.now }
    requires low { v ≤ 63 }
    requires marked { 4096 ≤ length marks.old }
    ensures { Walks defs.now types.old types.new classes.old classes.new count (Queries.child n v test) scope.now result }
{
    let e = conds::tree_type(scope, n, v)?;
    let at = usize::from(e);
    walks::child_rule(test, types, classes, defs, count, n, at, marks)
}

// dos of a tree variable, for node n. The marks are scratch.
pub fn dos(
    test: u16,
    types: &mut [u16],
    classes: &mut [u16],
    defs: &[u16],
    count: usize,
    n: usize,
    v: u16,
    scope: &Scope,
    marks: &mut [u16],
) -> Result<Made, Refusal>
    requires begins { Begins defs.now types.old classes.old count scope.now }
    requires low { v ≤ 63 }
    requires marked { 8192 ≤ length marks.old }
    ensures { Walks defs.now types.old types.new classes.old classes.new count (Queries.dos n v test) scope.now result }
{
    let e = conds::tree_type(scope, n, v)?;
    let at = usize::from(e);
    dos::dos_rule(types, classes, count, defs, n, test, at, marks)
}
