// The parts of the typing walk that look at the scope alone: a variable's entry, refusals 13, 14 and 15, and the variables of a condition. The scope is
// lent, and only looked in.
#![tactic(auto)]

ghost use Rattle.std.specs.Prelude.{◌≡◌, ℕ, ◌≤◌, ◌<◌, length};
ghost use Rattle.meaning.specs.Base.{ok};
ghost use Rattle.meaning.specs.Base as Base;
ghost use Rattle.meaning.specs.Records.{type_in, node, node_at};
ghost use Rattle.meaning.specs.Queries.{cond_at};
ghost use Rattle.meaning.specs.Typing.{lookup, tree_type, type_cond};
ghost use Rattle.scope.specs.Shows.{var_of};
ghost use Rattle.uses.specs.Counts.{Lowers};
ghost use Rattle.conds.specs.Says.{told, variable_told, missing_at, Says, Answers};

use refusals::{Reason, Refusal};
use scope::{Scope, Var};
use tables::Nodes;

// 13 at node n.
fn missing(n: usize) -> Refusal
    ensures { result ≡ missing_at n }
{
    Refusal {
        reason: Reason::NotInScope,
        place: n,
    }
}

// Variable v, for node n: 13 if it is not in scope.
fn known(scope: &Scope, n: usize, v: u16) -> Result<Var, Refusal>
    requires { v ≤ 63 }
    ensures { Answers scope.now (variable_told result) (λ g. lookup n g v) }
{
    let x = scope.get(usize::from(v));
    x.ok_or(missing(n))
}

// The entry of variable v, for node n: 13 if it is not in scope.
pub fn variable(scope: &Scope, n: usize, v: u16) -> Result<u16, Refusal>
    requires { v ≤ 63 }
    ensures { Answers scope.now (told result) (λ g. Base.◌>>=◌ (lookup n g v) (λ y. ok (type_in y))) }
{
    match scope.lookup(usize::from(v)) {
        (_, Some(x)) => Ok(x.entry()),
        (_, None) => Err(missing(n)),
    }
}

// The entry of a tree variable: 13, then 15 if it is a forest variable.
pub fn tree_type(scope: &Scope, n: usize, v: u16) -> Result<u16, Refusal>
    requires { v ≤ 63 }
    ensures { Answers scope.now (told result) (λ g. tree_type n g v) }
{
    match known(scope, n, v)? {
        Var::Tree(e) => Ok(e),
        Var::Forest(_) => Err(Refusal {
            reason: Reason::OfForest,
            place: n,
        }),
    }
}

// Whether node n may bind variable v: 14 if it is in scope.
pub fn unbound(scope: &Scope, n: usize, v: u16) -> Result<(), Refusal>
    requires { v ≤ 63 }
    ensures { Answers scope.now (told result) (λ g. Rattle.meaning.specs.Typing.unbound n g v) }
{
    let x = scope.get(usize::from(v));
    match x {
        None => Ok(()),
        Some(_) => Err(Refusal {
            reason: Reason::InScope,
            place: n,
        }),
    }
}

// A condition as its node gives it: variables, or the nodes of other conditions.
#[derive(Clone, Copy, Debug, PartialEq, Eq)]
pub enum Cond {
    True,
    False,
    Equal(u16, u16),
    Empty(u16),
    Or(u16, u16),
    Not(u16),
}

// The condition of a kind with these fields.
fn cond_of(kind: u16, a: u16, b: u16) -> Cond
    ensures { (n c : ℕ) → Says n (node kind a b c) result }
{
    match kind {
        48 => Cond::True,
        50 => Cond::Equal(a, b),
        51 => Cond::Empty(a),
        52 => Cond::Or(a, b),
        53 => Cond::Not(a),
        _ => Cond::False,
    }
}

// The condition at node n.
pub fn read_cond(code: &Nodes, n: usize) -> Cond
    requires { n < length code.now }
    ensures { Says n (node_at code.now n) result }
{
    let x = code.get(n);
    cond_of(x.kind, x.a, x.b)
}

// The condition at node n: 13 at the first of its nodes, left field first, that names a variable that is not in scope. The loop goes into `not` and into
// the right part of `or`, so only left parts nest.
pub fn type_cond(code: &Nodes, n: usize, scope: &Scope) -> Result<(), Refusal>
    requires lowers { Lowers code.now }
    requires inside { n < length code.now }
    ensures { Answers scope.now (told result) (λ g. type_cond (cond_at code.now n) g) }
{
    let mut at = n;
    loop {
        let cond = read_cond(code, at);
        match cond {
            Cond::True | Cond::False => return Ok(()),
            Cond::Equal(v, w) => {
                known(scope, at, v)?;
                known(scope, at, w)?;
                return Ok(());
            }
            Cond::Empty(v) => {
                known(scope, at, v)?;
                return Ok(());
            }
            Cond::Or(p, q) => {
                type_cond(code, usize::from(p), scope)?;
                at = usize::from(q);
            }
            Cond::Not(p) => at = usize::from(p),
        }
    }
}
