// The typing walk: from the root of the query down, left field first, with 13 to 16 where they are met. One loop does it, with what is begun on a lent
// stack: a frame is two words, a node, and what it keeps. A node keeps 0 while its first part is done, and one more than a number while its second is: a
// pair its first part's entry, a for its source's class, a let 0. Parts have lower nodes, so there are never more frames than nodes. The marks are scratch
// for prime, child and dos. The loop owns the scope, and lends it: a step down looks in it (`enter`), and a step up binds a variable before a body and
// unbinds it after it (`leave`).
// kept: a frame is two words, and no struct, since `walk` asks its callers for a stack of words (its clause `deep`).
#![tactic(auto)]

ghost use Rattle.std.specs.Prelude.{◌≡◌, Ok, List, ℕ, suc, ◌+◌, ◌*◌, ◌≤◌, ◌<◌, length, get_or, set};
ghost use Rattle.meaning.specs.Types.{Defs};
ghost use Rattle.meaning.specs.Records.{Node};
ghost use Rattle.meaning.specs.Queries as Queries;
ghost use Rattle.meaning.specs.Queries.{Query as Term, query_at};
ghost use Rattle.leaves.specs.Walk.{Begins};
ghost use Rattle.typing.specs.declared.Next.TheVariants as Stands;
ghost use Rattle.typing.specs.Walking.{begun, Free, Here, Framed, Goes, Turns, Typed};

use grow::Made;
use queries::Query;
use refusals::Refusal;
use scope::{Scope, Var};
use tables::Nodes;

// Where the walk stands, with so many frames on its stack: down at a node that is to be done, with so many entries, or up with what a node made.
#[derive(Clone, Copy)]
enum Next {
    Down {
        node: usize,
        count: usize,
        top: usize,
    },
    Up {
        made: Made,
        top: usize,
    },
}

// Down into a part of the frame over i others, which keeps a number for it.
fn go_on(stack: &mut [u16], i: usize, kept: u16, q: u16, count: usize) -> Next
    requires { 2 * i + 1 < length stack.old }
    ensures comes { result ≡ Stands.Down q count (suc i) }
    ensures keeps { stack.new ≡ set stack.old (2 * i + 1) kept }
{
    stack[2 * i + 1] = kept;
    Next::Down {
        node: usize::from(q),
        count,
        top: i + 1,
    }
}

// Down into the first part of node n, which becomes a frame.
fn begin(stack: &mut [u16], top: usize, n: usize, part: u16, count: usize) -> Next
    requires room { 2 * top + 1 < length stack.old }
    requires low { n < 1024 }
    ensures comes { result ≡ Stands.Down part count (suc top) }
    ensures frame { stack.new ≡ begun stack.old top n }
{
    stack[2 * top] = n as u16;
    go_on(stack, top, 0, part, count)
}

// A step down at node n: what it is, if it has no parts, or down into its first part.
fn enter(
    types: &mut [u16],
    classes: &mut [u16],
    marks: &mut [u16],
    defs: &[u16],
    code: &Nodes,
    count: usize,
    scope: &Scope,
    n: usize,
    stack: &mut [u16],
    top: usize,
) -> Result<Next, Refusal>
    requires here { Here types.old classes.old marks.old defs.now code.now count n scope.now }
    requires room { 2 * top + 1 < length stack.old }
    ensures { Goes defs.now code.now types.old types.new classes.old classes.new count scope.now n stack.old stack.new top result }
{
    let query = queries::read_query(code, n);
    match query {
        Query::Nothing => {
            let made = leaves::nothing(count);
            Ok(Next::Up { made, top })
        }
        Query::Text(_) => {
            let made = leaves::text(count);
            Ok(Next::Up { made, top })
        }
        Query::Element(_, p) | Query::Pair(p, _) | Query::For(_, p, _) | Query::Let(_, p, _) => {
            Ok(begin(stack, top, n, p, count))
        }
        Query::Variable(v) => {
            let made = leaves::variable(count, scope, n, v)?;
            Ok(Next::Up { made, top })
        }
        Query::Child(v, test) => {
            let made = leaves::child(test, types, classes, defs, count, n, v, scope, marks)?;
            Ok(Next::Up { made, top })
        }
        Query::Dos(v, test) => {
            let made = leaves::dos(test, types, classes, defs, count, n, v, scope, marks)?;
            Ok(Next::Up { made, top })
        }
        Query::When(p, q) => {
            conds::type_cond(code, usize::from(p), scope)?;
            Ok(begin(stack, top, n, q, count))
        }
    }
}

// A pair with what a part made: its first one, and then comes its second; or its second, and the pair is appended.
fn paired(
    types: &mut [u16],
    classes: &mut [u16],
    part: Made,
    n: usize,
    q: u16,
    k: u16,
    stack: &mut [u16],
    i: usize,
) -> Result<Next, Refusal>
    requires long { 4096 ≤ length classes.old }
    requires room { 2 * i + 1 < length stack.old }
    requires few { part.at < 4096 }
    ensures { (D : Defs) (C : List Node) (p : Term) (s : Scope) → query_at C n ≡ Queries.pair n p (query_at C q) → q < n → k ≤ part.count → part.at < part.count → Begins D types.old classes.old part.count s → Turns D C types.old types.new classes.old classes.new part.count s n k part.at stack.old stack.new i result s }
{
    if k == 0 {
        let kept = part.at as u16 + 1;
        return Ok(go_on(stack, i, kept, q, part.count));
    }
    let made = joins::add(types, classes, part.count, n, 4, k - 1, part.at)?; // a pair
    Ok(Next::Up { made, top: i })
}

// let with what a part made: its source, and then comes its body with a forest variable of the source's type; or its body.
fn named(
    part: Made,
    scope: &mut Scope,
    n: usize,
    v: u16,
    q: u16,
    k: u16,
    stack: &mut [u16],
    i: usize,
) -> Result<Next, Refusal>
    requires room { 2 * i + 1 < length stack.old }
    requires low { v ≤ 63 }
    requires few { part.at < 4096 }
    ensures { (D : Defs) (C : List Node) (p : Term) (ws cs : List ℕ) → query_at C n ≡ Queries.let_in n v p (query_at C q) → q < n → Begins D ws cs part.count scope.old → part.at < part.count → Turns D C ws ws cs cs part.count scope.old n k part.at stack.old stack.new i result scope.new }
{
    let w = usize::from(v);
    if k != 0 {
        *scope = scope.unbind(w);
        return Ok(Next::Up { made: part, top: i });
    }
    let source = joins::free(n, v, Ok(part), scope)?;
    let x = Var::Forest(source.at as u16);
    *scope = scope.bind(w, x);
    Ok(go_on(stack, i, 1, q, source.count))
}

// for with what its source made, which 14 let through: its prime, and then its body with a tree variable of that type.
fn primed(
    types: &mut [u16],
    classes: &mut [u16],
    marks: &mut [u16],
    defs: &[u16],
    source: Made,
    scope: &mut Scope,
    n: usize,
    v: u16,
    q: u16,
    stack: &mut [u16],
    i: usize,
) -> Result<Next, Refusal>
    requires begins { Begins defs.now types.old classes.old source.count scope.old }
    requires marked { 4096 ≤ length marks.old }
    requires free { Free scope.old v }
    requires low { source.at < source.count }
    requires room { 2 * i + 1 < length stack.old }
    ensures { (C : List Node) (p : Term) → query_at C n ≡ Queries.for n v p (query_at C q) → q < n → Turns defs.now C types.old types.new classes.old classes.new source.count scope.old n 0 source.at stack.old stack.new i result scope.new }
{
    let class = classes[source.at];
    let made = walks::prime(types, classes, defs, source.count, n, source.at, marks)?;
    let x = Var::Tree(made.at as u16);
    scope.set(usize::from(v), x);
    Ok(go_on(stack, i, class + 1, q, made.count))
}

// for with what a part made: its source, and then come 14, prime and its body; or its body, which is repeated as often as the source's class says.
fn each(
    types: &mut [u16],
    classes: &mut [u16],
    marks: &mut [u16],
    defs: &[u16],
    part: Made,
    scope: &mut Scope,
    n: usize,
    v: u16,
    q: u16,
    k: u16,
    stack: &mut [u16],
    i: usize,
) -> Result<Next, Refusal>
    requires begins { Begins defs.now types.old classes.old part.count scope.old }
    requires marked { 4096 ≤ length marks.old }
    requires few { v ≤ 63 }
    requires low { part.at < part.count }
    requires room { 2 * i + 1 < length stack.old }
    ensures { (C : List Node) (p : Term) → query_at C n ≡ Queries.for n v p (query_at C q) → q < n → Turns defs.now C types.old types.new classes.old classes.new part.count scope.old n k part.at stack.old stack.new i result scope.new }
{
    if k != 0 {
        scope.clear(usize::from(v));
        let made = joins::repeat(types, classes, part.count, n, k - 1, part.at)?;
        return Ok(Next::Up { made, top: i });
    }
    let source = joins::free(n, v, Ok(part), scope)?;
    primed(
        types, classes, marks, defs, source, scope, n, v, q, stack, i,
    )
}

// A step up to the frame over i others, with what its part made.
fn leave(
    types: &mut [u16],
    classes: &mut [u16],
    marks: &mut [u16],
    defs: &[u16],
    code: &Nodes,
    part: Made,
    scope: &mut Scope,
    stack: &mut [u16],
    i: usize,
) -> Result<Next, Refusal>
    requires framed { Framed defs.now types.old classes.old marks.old code.now part.count scope.old stack.old i part.at }
    ensures { Turns defs.now code.now types.old types.new classes.old classes.new part.count scope.old (get_or stack.old (2 * i) 0) (get_or stack.old (2 * i + 1) 0) part.at stack.old stack.new i result scope.new }
{
    let j = 2 * i;
    let n = usize::from(stack[j]);
    let k = stack[j + 1];
    let query = queries::read_query(code, n);
    match query {
        Query::Element(l, _) => {
            let made = joins::add(types, classes, part.count, n, 3, l, part.at)?; // an element
            Ok(Next::Up { made, top: i })
        }
        Query::Pair(_, q) => paired(types, classes, part, n, q, k, stack, i),
        Query::For(v, _, q) => {
            each(
                types, classes, marks, defs, part, scope, n, v, q, k, stack, i,
            )
        }
        Query::Let(v, _, q) => named(part, scope, n, v, q, k, stack, i),
        Query::When(_, _) => {
            let made = joins::repeat(types, classes, part.count, n, 2, part.at)?; // an opt
            Ok(Next::Up { made, top: i })
        }
        Query::Nothing
        | Query::Text(_)
        | Query::Variable(_)
        | Query::Child(_, _)
        | Query::Dos(_, _) => Ok(Next::Up { made: part, top: i }),
    }
}

// The query at node n, in a scope. The stack has two words for each node.
pub fn walk(
    types: &mut [u16],
    classes: &mut [u16],
    marks: &mut [u16],
    defs: &[u16],
    code: &Nodes,
    count: usize,
    mut scope: Scope,
    n: usize,
    stack: &mut [u16],
) -> Result<Made, Refusal>
    requires here { Here types.old classes.old marks.old defs.now code.now count n scope }
    requires deep { 2048 ≤ length stack.old }
    ensures { Typed defs.now types.old types.new classes.old classes.new count (query_at code.now n) scope result }
{
    let mut next = Next::Down {
        node: n,
        count,
        top: 0,
    };
    loop {
        match next {
            Next::Down {
                node,
                count: m,
                top,
            } => {
                next = enter(
                    types, classes, marks, defs, code, m, &scope, node, stack, top,
                )?;
            }
            Next::Up { made, top } => {
                if top == 0 {
                    return Ok(made);
                }
                let i = top - 1;
                next = leave(
                    types, classes, marks, defs, code, made, &mut scope, stack, i,
                )?;
            }
        }
    }
}
