// The evaluator: a query's forest, from a node of the query table, at the front of the part of the work table that is lent to it. One loop does it, with
// what is begun on a stack of frames. A source that let or for binds is held in a second table, where its variable finds it. The scope comes by value; it is
// lent to each step that looks a variable up, binds it before a body or unbinds it after that.
#![tactic(auto)]

ghost use Rattle.std.specs.Prelude.{◌≡◌, List, [], ◌∷◌, ℕ, ◌+◌, ◌*◌, ◌≤◌, ◌<◌, length, Ok, Some};
ghost use Rattle.meaning.specs.Queries as Queries;
ghost use Rattle.meaning.specs.Queries.{query_at, cond_at};
ghost use Rattle.meaning.specs.Records.{Node};
ghost use Rattle.running.specs.declared.Next.TheVariants as Stands;
ghost use Rattle.running.specs.Evaluates.{Ready, Evaluated};
ghost use Rattle.running.specs.Machine.{spot, turn, fresh, pile, Taken, weight, still, Waits, Back, Looping, Guards, Steps};

use queries::Query;
use refusals::{Reason, Refusal};
use spans::{Span, Spans};
use tables::Nodes;

// A node that is begun: the entry of the work table at which it begins; how many entries its first part has, once that is done; of a for, the held entry at
// which its next tree begins; and the stretch that its variable hides.
#[derive(Clone, Copy)]
struct Frame {
    node: u16,
    base: u16,
    first: Option<u16>,
    next: u16,
    hides: Span,
}

// Where the evaluation stands: down at a node that is to be done from an entry on, or up with so many entries that a node made there.
#[derive(Clone, Copy)]
enum Next {
    Down { node: usize, at: usize },
    Up { made: usize, at: usize },
}

impl Frame {
    // Of node n, which begins at an entry.
    fn new(n: usize, base: usize) -> Frame
        requires { (n < 1024) × (base ≤ 8192) }
        ensures { result ≡ fresh n base }
    {
        Frame {
            node: n as u16,
            base: base as u16,
            first: None,
            next: 0,
            hides: Span { from: 0, to: 0 },
        }
    }
}

// The nodes that are begun, one inside another. Parts have lower nodes, so there is room for all.
#[derive(Drop)]
struct Stack {
    frames: [Frame; 1024],
    top: usize,
}

impl Stack {
    #[tactic(auto, unfolding(crate::specs::Machine::piled))]
    fn new() -> Stack
        ensures { pile result ≡ [] }
    {
        Stack {
            frames: [Frame::new(0, 0); 1024],
            top: 0,
        }
    }

    #[tactic(auto, using(crate::proofs::Frames::piled_length, crate::proofs::Frames::pile_more))]
    fn push(&mut self, f: Frame)
        requires { length (pile self.old) < 1024 }
        ensures { pile self.new ≡ f ∷ pile self.old }
    {
        self.frames[self.top] = f;
        self.top += 1;
    }

    #[tactic(auto, using(crate::proofs::Frames::piled_length, crate::proofs::Frames::pile_none, crate::proofs::Frames::pile_last))]
    fn pop(&mut self) -> Option<Frame>
        requires { length (pile self.old) ≤ 1024 }
        ensures { Taken result (pile self.old) (pile self.new) }
    {
        if self.top == 0 {
            return None;
        }
        self.top -= 1;
        Some(self.frames[self.top])
    }
}

// Down into a part of the node whose frame this is.
fn go_on(stack: &mut Stack, f: Frame, part: u16, at: usize) -> Next
    requires { length (pile stack.old) < 1024 }
    ensures next { result ≡ Stands.Down part at }
    ensures stacked { pile stack.new ≡ f ∷ pile stack.old }
{
    stack.push(f);
    Next::Down {
        node: usize::from(part),
        at,
    }
}

// Down into the first part of node n, which becomes a frame.
fn begin(stack: &mut Stack, n: usize, base: usize, part: u16, at: usize) -> Next
    requires room { length (pile stack.old) < 1024 }
    requires few { n < 1024 }
    requires low { base ≤ 8192 }
    ensures next { result ≡ Stands.Down part at }
    ensures stacked { pile stack.new ≡ fresh n base ∷ pile stack.old }
{
    go_on(stack, Frame::new(n, base), part, at)
}

// An element: room for its entry, and then down into its body behind that.
fn entered(stack: &mut Stack, room: usize, n: usize, q: u16, at: usize) -> Result<Next, Refusal>
    requires room { length (pile stack.old) < 1024 }
    requires few { n < 1024 }
    requires low { at ≤ 8192 }
    ensures { (code : List Node) (held rest : List ℕ) (l : ℕ) (s : Spans) → room ≡ length rest → Ready code s held rest at n → query_at code n ≡ Queries.element n l (query_at code q) → q < n → Steps code (weight (query_at code n)) (spot n at s held rest) held rest (pile stack.old) (pile stack.new) (turn result s) }
{
    if room < 3 {
        return Err(Refusal {
            reason: Reason::WorkFull,
            place: n,
        });
    }
    let inside = at + 1;
    Ok(begin(stack, n, at, q, inside))
}

// when: its condition, and then down into its part; or nothing.
fn guarded(
    code: &Nodes,
    scope: &Spans,
    held: &[u16],
    stack: &mut Stack,
    n: usize,
    p: u16,
    q: u16,
    at: usize,
) -> Next
    requires guards { Guards code.now scope.now held.now at n p }
    requires room { length (pile stack.old) < 1024 }
    ensures { (rest : List ℕ) → Ready code.now scope.now held.now rest at n → query_at code.now n ≡ Queries.when n (cond_at code.now p) (query_at code.now q) → q < n → Steps code.now (weight (query_at code.now n)) (spot n at scope.now held.now rest) held.now rest (pile stack.old) (pile stack.new) (turn (Ok result) scope.now) }
{
    if truths::truth(code, usize::from(p), scope, held) {
        return begin(stack, n, at, q, at);
    }
    Next::Up { made: 0, at }
}

// A step down at node n, which the rest from an entry on is lent to.
fn down(
    code: &Nodes,
    scope: &Spans,
    held: &[u16],
    rest: &mut [u16],
    at: usize,
    n: usize,
    stack: &mut Stack,
) -> Result<Next, Refusal>
    requires ready { Ready code.now scope.now held.now rest.old at n }
    requires room { length (pile stack.old) < 1024 }
    ensures { Steps code.now (weight (query_at code.now n)) (spot n at scope.now held.now rest.old) held.now rest.new (pile stack.old) (pile stack.new) (turn result scope.now) }
{
    let query = queries::read_query(code, n);
    match query {
        Query::Nothing => Ok(Next::Up { made: 0, at }),
        Query::Text(t) => {
            let made = picks::text(rest, n, t)?;
            Ok(Next::Up { made, at })
        }
        Query::Element(_, q) => entered(stack, rest.len(), n, q, at),
        Query::Pair(p, _) => Ok(begin(stack, n, at, p, at)),
        Query::Variable(v) => {
            let made = picks::variable(scope, held, rest, n, v)?;
            Ok(Next::Up { made, at })
        }
        Query::Child(v, test) => {
            let made = picks::child(scope, held, rest, n, v, test)?;
            Ok(Next::Up { made, at })
        }
        Query::Dos(v, test) => {
            let made = picks::dos(scope, held, rest, n, v, test)?;
            Ok(Next::Up { made, at })
        }
        Query::For(_, p, _) => Ok(begin(stack, n, at, p, at)),
        Query::Let(_, p, _) => Ok(begin(stack, n, at, p, at)),
        Query::When(p, q) => Ok(guarded(code, scope, held, stack, n, p, q, at)),
    }
}

// A pair with k entries made from an entry on: by its first part, and then comes its second behind them; or by its second.
fn paired(stack: &mut Stack, f: Frame, q: u16, at: usize, k: usize) -> Next
    requires room { length (pile stack.old) < 1024 }
    requires few { at + k ≤ 8192 }
    ensures { (s : Spans) (held rest : List ℕ) (w : Waits (λ n p r. Queries.pair n p r) q f at k s held rest) → Steps w.code (still (query_at w.code w.back.outer.node) f) w.back.outer held rest (pile stack.old) (pile stack.new) (turn (Ok result) s) }
{
    match f.first {
        None => {
            let first = Some(k as u16);
            go_on(stack, Frame { first, ..f }, q, at + k)
        }
        Some(first) => Next::Up {
            made: usize::from(first) + k,
            at: usize::from(f.base),
        },
    }
}

// let with k entries made from an entry on: by its source, which is held for its variable, and then comes its body; or by its body, which is moved down.
fn named(
    scope: &mut Spans,
    held: &mut [u16],
    rest: &mut [u16],
    stack: &mut Stack,
    f: Frame,
    v: u16,
    q: u16,
    at: usize,
    k: usize,
) -> Next
    requires room { length (pile stack.old) < 1024 }
    requires variable { v ≤ 63 }
    requires waits { Waits (λ n p r. Queries.let_in n v p r) q f at k scope.old held.old rest.old }
    ensures { (w : Waits (λ n p r. Queries.let_in n v p r) q f at k scope.old held.old rest.old) → Steps w.code (still (query_at w.code w.back.outer.node) f) w.back.outer held.new rest.new (pile stack.old) (pile stack.new) (turn (Ok result) scope.new) }
{
    let base = usize::from(f.base);
    let variable = usize::from(v);
    match f.first {
        None => {
            moves::hold(rest, k, held, base);
            let to = (base + k) as u16;
            let hides = scope.bind(variable, Span { from: f.base, to });
            let first = Some(k as u16);
            go_on(stack, Frame { first, hides, ..f }, q, at + k)
        }
        Some(first) => {
            scope.unbind(variable, f.hides);
            moves::down(rest, usize::from(first), k);
            Next::Up { made: k, at: base }
        }
    }
}

// for with its source of k entries held and bodies of m entries behind it: the next tree's body, or, when there is none, all moved down.
fn round(
    scope: &mut Spans,
    held: &[u16],
    rest: &mut [u16],
    stack: &mut Stack,
    f: Frame,
    k: usize,
    v: u16,
    q: u16,
    m: usize,
) -> Next
    requires room { length (pile stack.old) < 1024 }
    requires variable { v ≤ 63 }
    requires first { f.first ≡ Some k }
    requires looping { Looping v q f m scope.old held.now rest.old }
    ensures { (l : Looping v q f m scope.old held.now rest.old) → Steps l.code (still (query_at l.code l.outer.node) f) l.outer held.now rest.new (pile stack.old) (pile stack.new) (turn (Ok result) scope.new) }
{
    let base = usize::from(f.base);
    let j = usize::from(f.next);
    let end = base + k;
    if j < end {
        let size = usize::from(held[3 * j + 2]) + 1;
        let tree = f.next;
        let to = (usize::from(tree) + size) as u16;
        let next = (j + size) as u16;
        let hides = scope.bind(usize::from(v), Span { from: tree, to });
        return go_on(stack, Frame { next, hides, ..f }, q, end + m);
    }
    moves::down(rest, k, m);
    Next::Up { made: m, at: base }
}

// for with k entries made from an entry on: by its source, which is held for its variable; or by the body of one tree. Then comes the next tree.
fn each(
    scope: &mut Spans,
    held: &mut [u16],
    rest: &mut [u16],
    stack: &mut Stack,
    f: Frame,
    v: u16,
    q: u16,
    at: usize,
    k: usize,
) -> Next
    requires room { length (pile stack.old) < 1024 }
    requires variable { v ≤ 63 }
    requires waits { Waits (λ n p r. Queries.for n v p r) q f at k scope.old held.old rest.old }
    ensures { (w : Waits (λ n p r. Queries.for n v p r) q f at k scope.old held.old rest.old) → Steps w.code (still (query_at w.code w.back.outer.node) f) w.back.outer held.new rest.new (pile stack.old) (pile stack.new) (turn (Ok result) scope.new) }
{
    let base = usize::from(f.base);
    match f.first {
        None => {
            moves::hold(rest, k, held, base);
            let first = Some(k as u16);
            let g = Frame {
                first,
                next: f.base,
                ..f
            };
            round(scope, held, rest, stack, g, k, v, q, 0)
        }
        Some(first) => {
            scope.unbind(usize::from(v), f.hides);
            let source = usize::from(first);
            let m = at - (base + source) + k;
            round(scope, held, rest, stack, f, source, v, q, m)
        }
    }
}

// A step up to the frame f, whose part made k entries from an entry on; the rest is lent from where the frame's node begins.
fn up(
    code: &Nodes,
    scope: &mut Spans,
    held: &mut [u16],
    rest: &mut [u16],
    f: Frame,
    at: usize,
    k: usize,
    stack: &mut Stack,
) -> Next
    requires back { Back code.now f at k scope.old held.old rest.old }
    requires room { length (pile stack.old) < 1024 }
    ensures { (b : Back code.now f at k scope.old held.old rest.old) → Steps code.now (still (query_at code.now b.outer.node) f) b.outer held.new rest.new (pile stack.old) (pile stack.new) (turn (Ok result) scope.new) }
{
    let query = queries::read_query(code, usize::from(f.node));
    match query {
        Query::Element(l, _) => {
            moves::wrap(rest, l, k);
            Next::Up {
                made: 1 + k,
                at: usize::from(f.base),
            }
        }
        Query::Pair(_, q) => paired(stack, f, q, at, k),
        Query::For(v, _, q) => each(scope, held, rest, stack, f, v, q, at, k),
        Query::Let(v, _, q) => named(scope, held, rest, stack, f, v, q, at, k),
        _ => Next::Up { made: k, at },
    }
}

// The query at node n, at the front of `rest`, which begins at entry `first` of the work table: how many entries it has.
pub fn eval(
    code: &Nodes,
    mut scope: Spans,
    held: &mut [u16],
    rest: &mut [u16],
    first: usize,
    n: usize,
) -> Result<usize, Refusal>
    requires { Ready code.now scope held.old rest.old first n }
    ensures { Evaluated scope held.old (length rest.old) rest.new first result (query_at code.now n) }
{
    let mut stack = Stack::new();
    let mut next = Next::Down { node: n, at: first };
    loop {
        match next {
            Next::Down { node, at } => {
                let from = 3 * (at - first);
                next = down(code, &scope, held, &mut rest[from..], at, node, &mut stack)?;
            }
            Next::Up { made, at } => {
                let Some(f) = stack.pop() else {
                    return Ok(made);
                };
                let from = 3 * (usize::from(f.base) - first);
                next = up(
                    code,
                    &mut scope,
                    held,
                    &mut rest[from..],
                    f,
                    at,
                    made,
                    &mut stack,
                );
            }
        }
    }
}
