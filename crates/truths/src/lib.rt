// Conditions, evaluated: whether two forests are the same entry for entry, whether one is empty, and the conditions that join others.
#![tactic(auto)]

ghost use Rattle.std.specs.Prelude.{◌≡◌, List, ℕ, ◌≤◌, ◌<◌, length};
ghost use Rattle.meaning.specs.Forests.{same_words};
ghost use Rattle.meaning.specs.Queries as Queries;
ghost use Rattle.meaning.specs.Queries.{cond_at};
ghost use Rattle.uses.specs.Counts.{Lowers};
ghost use Rattle.truths.specs.Tells.{Places, Tells};

use conds::Cond;
use spans::Spans;
use tables::Nodes;

// Whether two stretches have the same words.
#[tactic(auto, using(crate::proofs::Alike::same_pointwise))]
fn same(a: &[u16], b: &[u16]) -> bool
    ensures { result ≡ same_words a.now b.now }
{
    a == b
}

// Whether two variables have the same forest.
fn equal(scope: &Spans, held: &[u16], v: u16, w: u16) -> bool
    requires places { Places scope.now held.now }
    requires left { v ≤ 63 }
    requires right { w ≤ 63 }
    ensures { Tells scope.now held.now result (Queries.equal 0 v w) }
{
    let left = scope.lookup(usize::from(v));
    let right = scope.lookup(usize::from(w));
    same(left.of(held), right.of(held))
}

// Whether a variable has no tree.
fn empty(scope: &Spans, v: u16) -> bool
    requires { v ≤ 63 }
    ensures { (held : List ℕ) → Places scope.now held → Tells scope.now held result (Queries.empty 0 v) }
{
    let trees = scope.lookup(usize::from(v));
    trees.from == trees.to
}

// Whether the condition at node n holds.
pub fn truth(code: &Nodes, n: usize, scope: &Spans, held: &[u16]) -> bool
    requires lowers { Lowers code.now }
    requires inside { n < length code.now }
    requires places { Places scope.now held.now }
    ensures { Tells scope.now held.now result (cond_at code.now n) }
{
    match conds::read_cond(code, n) {
        Cond::True => true,
        Cond::False => false,
        Cond::Equal(v, w) => equal(scope, held, v, w),
        Cond::Empty(v) => empty(scope, v),
        Cond::Or(p, q) => {
            let left = usize::from(p);
            let right = usize::from(q);
            truth(code, left, scope, held) || truth(code, right, scope, held)
        }
        Cond::Not(p) => !truth(code, usize::from(p), scope, held),
    }
}
