// The items of the text form, a step at a time: an item that is to be read is made at once or opens a frame, and a frame goes on when the item behind it is
// made. Refusals 22, 6 and 23. Nodes are written children first, left first; the node of an item that was made is the last.
#![tactic(auto)]

ghost use Rattle.std.specs.Prelude.{◌≡◌, List, ℕ, ◌≤◌, ◌<◌, length, Ok};
ghost use Rattle.meaning.specs.Records.{node};
ghost use Rattle.tokens.specs.Says.{kind_of};
ghost use Rattle.items.specs.declared.Open as Opens;
ghost use Rattle.items.specs.Machine.{item_at, sign_of, bound_kind};
ghost use Rattle.items.specs.Says.{node_of, Emitted, Does, Guards, Goes, Steps, text_behind, step_kind, test_behind, step_behind, variable_item, group_behind, inside_at, element_at, sign_behind, bound_behind, when_behind};

use queries::Query;
use refusals::{Reason, Refusal};
use rows::Part;
use tokens::Token;
use words::Node;

// What binds a variable.
#[derive(Clone, Copy, Debug, PartialEq, Eq)]
pub enum Binder {
    For,
    Let,
}

impl Binder {
    // The sign behind the variable.
    fn sign(self) -> Token
        ensures { kind_of result ≡ sign_of self }
    {
        match self {
            Binder::For => Token::In,
            Binder::Let => Token::Gets,
        }
    }

    // What it is with this variable, source and body.
    fn query(self, v: u16, p: u16, q: u16) -> Query
        ensures { node_of result ≡ node (bound_kind self) v p q }
    {
        match self {
            Binder::For => Query::For(v, p, q),
            Binder::Let => Query::Let(v, p, q),
        }
    }
}

// What is open: items that commas may follow, where so many are open; the second part of a pair, with the node of the first; `(`; `[` of this label; the
// source of a for or let of this variable, where so many are open; its body, with the node of the source; the body of a when, with the node of its condition.
#[derive(Clone, Copy, Debug, PartialEq, Eq)]
pub enum Open {
    Tail(u16),
    Second(u16),
    Group,
    Inside(u16),
    Source(Binder, u16, u16),
    Body(Binder, u16, u16),
    Guarded(u16),
}

// What is to be done: an item is to be read, where so many are open; or what is open goes on behind the item that was made.
#[derive(Clone, Copy, Debug, PartialEq, Eq)]
pub enum Task {
    Item(u16),
    Behind(Open),
}

// What a step does: an item is made; one more is open, with so many open behind it; or what is open stays so, as many are, and one item more is to be read there.
#[derive(Clone, Copy, Debug, PartialEq, Eq)]
pub enum Act {
    Done(Part),
    More(Open, u16, Part),
    Again(u16, usize),
}

// Which way a step goes from a variable: `/` or `//`.
#[derive(Clone, Copy, Debug, PartialEq, Eq)]
enum Axis {
    Child,
    Dos,
}

impl Axis {
    // The step from a variable to what passes a test.
    fn query(self, v: u16, test: u16) -> Query
        ensures { node_of result ≡ node (step_kind self) v test 0 }
    {
        match self {
            Axis::Child => Query::Child(v, test),
            Axis::Dos => Query::Dos(v, test),
        }
    }
}

// The node of a query.
fn node_of(query: Query) -> Node
    ensures { node result.kind result.a result.b result.c ≡ node_of query }
{
    let (kind, a, b, c) = match query {
        Query::Nothing => (32, 0, 0, 0),
        Query::Text(t) => (33, t, 0, 0),
        Query::Element(l, q) => (34, l, q, 0),
        Query::Pair(p, q) => (35, p, q, 0),
        Query::Variable(v) => (36, v, 0, 0),
        Query::Child(v, test) => (37, v, test, 0),
        Query::Dos(v, test) => (38, v, test, 0),
        Query::For(v, p, q) => (39, v, p, q),
        Query::Let(v, p, q) => (40, v, p, q),
        Query::When(p, q) => (41, p, q, 0),
    };
    Node { kind, a, b, c }
}

// An item that is made: its node is the last.
fn made(code: &mut [u16], nodes: u16, query: Query, next: usize) -> Act
    requires room { 4096 ≤ length code.old }
    requires few { nodes ≤ 1025 }
    ensures { Emitted nodes (node_of query) next code.old result code.new }
{
    let nodes = rows::emit(code, nodes, node_of(query));
    Act::Done(Part { next, nodes })
}

// A text number, behind `#`.
fn text_item(s: &[u8], at: usize, code: &mut [u16], nodes: u16) -> Result<Act, Refusal>
    requires inside { at ≤ length s.now }
    requires room { 4096 ≤ length code.old }
    requires few { nodes ≤ 1025 }
    ensures { (deep : ℕ) → Does 0 s.now at deep nodes code.old (λ k h. text_behind s.now h) result code.new }
{
    let t = steps::number_in(s, at, 0, 65535)?;
    Ok(made(code, nodes, Query::Text(t.value), t.next))
}

// A test, behind `/` or `//` of a variable.
fn test_item(
    s: &[u8],
    at: usize,
    axis: Axis,
    v: u16,
    code: &mut [u16],
    nodes: u16,
) -> Result<Act, Refusal>
    requires inside { at ≤ length s.now }
    requires room { 4096 ≤ length code.old }
    requires few { nodes ≤ 1025 }
    ensures { (deep : ℕ) → Does 0 s.now at deep nodes code.old (λ k h. test_behind axis s.now v h) result code.new }
{
    let t = steps::test_at(s, at)?;
    Ok(made(code, nodes, axis.query(v, t.value), t.next))
}

// What may follow a variable.
fn step_item(s: &[u8], at: usize, v: u16, code: &mut [u16], nodes: u16) -> Result<Act, Refusal>
    requires inside { at ≤ length s.now }
    requires room { 4096 ≤ length code.old }
    requires few { nodes ≤ 1025 }
    ensures { (deep : ℕ) → Does 0 s.now at deep nodes code.old (λ k h. step_behind s.now v h) result code.new }
{
    let t = tokens::token_at(s, at);
    match t.token {
        Token::Slash => test_item(s, t.next, Axis::Child, v, code, nodes),
        Token::Slashes => test_item(s, t.next, Axis::Dos, v, code, nodes),
        _ => Ok(made(code, nodes, Query::Variable(v), at)),
    }
}

// A variable, from its `$` on.
fn variable_item(s: &[u8], at: usize, code: &mut [u16], nodes: u16) -> Result<Act, Refusal>
    requires inside { at ≤ length s.now }
    requires room { 4096 ≤ length code.old }
    requires few { nodes ≤ 1025 }
    ensures { (deep : ℕ) → Does 0 s.now at deep nodes code.old (λ k h. variable_item s.now h) result code.new }
{
    let v = steps::variable_at(s, at)?;
    step_item(s, v.next, v.value, code, nodes)
}

// Behind `(`, which stands at a place, where so many were open.
fn group_item(
    s: &[u8],
    place: usize,
    at: usize,
    deep: u16,
    code: &mut [u16],
    nodes: u16,
) -> Result<Act, Refusal>
    requires inside { at ≤ length s.now }
    requires room { 4096 ≤ length code.old }
    requires few { nodes ≤ 1025 }
    ensures { Does 1 s.now at deep nodes code.old (λ k h. group_behind s.now place deep k h) result code.new }
{
    steps::check_depth(deep, place)?;
    let t = tokens::token_at(s, at);
    match t.token {
        Token::Closes => Ok(made(code, nodes, Query::Nothing, t.next)),
        _ => Ok(Act::More(Open::Group, deep + 1, Part { next: at, nodes })),
    }
}

// Behind the number of a label, where so many are open: `[`.
fn inside_item(s: &[u8], at: usize, l: u16, deep: u16, nodes: u16) -> Result<Act, Refusal>
    requires inside { at ≤ length s.now }
    requires few { nodes ≤ 1025 }
    ensures { (code : List ℕ) → Does 0 s.now at deep nodes code (λ k h. inside_at s.now l deep k h) result code }
{
    let t = tokens::token_at(s, at);
    let place = t.place;
    match t.token {
        Token::Inside => {
            steps::check_depth(deep, place)?;
            let part = Part {
                next: t.next,
                nodes,
            };
            Ok(Act::More(Open::Inside(l), deep + 1, part))
        }
        _ => Err(Refusal {
            reason: Reason::NoSuchText,
            place,
        }),
    }
}

// A label number, where so many are open.
fn element_item(s: &[u8], at: usize, deep: u16, nodes: u16) -> Result<Act, Refusal>
    requires inside { at ≤ length s.now }
    requires few { nodes ≤ 1025 }
    ensures { (code : List ℕ) → Does 0 s.now at deep nodes code (λ k h. element_at s.now deep k h) result code }
{
    let l = steps::number_in(s, at, 1, 65534)?;
    inside_item(s, l.next, l.value, deep, nodes)
}

// Behind a variable that a for or a let binds: the sign that must come.
fn sign_item(
    s: &[u8],
    at: usize,
    binder: Binder,
    v: u16,
    deep: u16,
    nodes: u16,
) -> Result<Act, Refusal>
    requires inside { at ≤ length s.now }
    requires few { nodes ≤ 1025 }
    requires low { deep < 100 }
    ensures { (code : List ℕ) → Does 0 s.now at deep nodes code (λ k h. sign_behind binder s.now v deep k h) result code }
{
    let next = steps::expect(s, at, binder.sign())?;
    Ok(Act::More(
        Open::Source(binder, v, deep + 1),
        deep + 1,
        Part { next, nodes },
    ))
}

// Behind `for` or `let`, which stands at a place, where so many were open.
fn bound_item(
    s: &[u8],
    place: usize,
    at: usize,
    binder: Binder,
    deep: u16,
    nodes: u16,
) -> Result<Act, Refusal>
    requires inside { at ≤ length s.now }
    requires few { nodes ≤ 1025 }
    ensures { (code : List ℕ) → Does 0 s.now at deep nodes code (λ k h. bound_behind binder s.now place deep k h) result code }
{
    steps::check_depth(deep, place)?;
    let v = steps::variable_at(s, at)?;
    sign_item(s, v.next, binder, v.value, deep, nodes)
}

// Behind the condition of a when: `return`.
fn body_item(s: &[u8], at: usize, deep: u16, nodes: u16) -> Result<Act, Refusal>
    requires inside { at ≤ length s.now }
    requires few { nodes ≤ 1025 }
    requires low { deep < 100 }
    ensures { Guards s.now at deep nodes result }
{
    let next = steps::expect(s, at, Token::Return)?;
    let c = nodes.saturating_sub(1);
    Ok(Act::More(Open::Guarded(c), deep + 1, Part { next, nodes }))
}

// Behind `when`, which stands at a place, where so many were open.
fn when_item(
    s: &[u8],
    place: usize,
    at: usize,
    deep: u16,
    code: &mut [u16],
    nodes: u16,
) -> Result<Act, Refusal>
    requires inside { at ≤ length s.now }
    requires room { 4096 ≤ length code.old }
    requires few { nodes ≤ 1025 }
    ensures { Does 0 s.now at deep nodes code.old (λ k h. when_behind s.now place deep k h) result code.new }
{
    steps::check_depth(deep, place)?;
    let part = conditions::condition(s, at, deep + 1, code, nodes)?;
    body_item(s, part.next, deep, part.nodes)
}

// An item that is to be read, where so many are open.
fn begin(s: &[u8], at: usize, deep: u16, code: &mut [u16], nodes: u16) -> Result<Act, Refusal>
    requires inside { at ≤ length s.now }
    requires room { 4096 ≤ length code.old }
    requires few { nodes ≤ 1025 }
    ensures { Does 0 s.now at deep nodes code.old (λ k h. item_at s.now k deep h) result code.new }
{
    let t = tokens::token_at(s, at);
    match t.token {
        Token::Number(_) => element_item(s, at, deep, nodes),
        Token::For => bound_item(s, t.place, t.next, Binder::For, deep, nodes),
        Token::Let => bound_item(s, t.place, t.next, Binder::Let, deep, nodes),
        Token::When => when_item(s, t.place, t.next, deep, code, nodes),
        Token::Opens => group_item(s, t.place, t.next, deep, code, nodes),
        Token::Hash => text_item(s, t.next, code, nodes),
        Token::Dollar => variable_item(s, at, code, nodes),
        _ => Err(Refusal {
            reason: Reason::NoSuchText,
            place: t.place,
        }),
    }
}

// Behind an item that commas may follow, where so many are open. Beyond 1,024 nodes the first part of a pair is not kept.
fn go_tail(s: &[u8], at: usize, deep: u16, nodes: u16) -> Act
    requires { at ≤ length s.now }
    ensures { (code : List ℕ) → Goes s.now at (Opens.Open.Tail deep) nodes code (Ok result) code }
{
    let t = tokens::token_at(s, at);
    match t.token {
        Token::Comma => {
            let too_many = 1024 < nodes;
            if too_many {
                return Act::Again(deep, t.next);
            }
            let m = nodes.saturating_sub(1);
            let part = Part {
                next: t.next,
                nodes,
            };
            Act::More(Open::Second(m), deep, part)
        }
        _ => Act::Done(Part { next: at, nodes }),
    }
}

// Behind the query in parentheses.
fn go_group(s: &[u8], at: usize, nodes: u16) -> Result<Act, Refusal>
    requires { at ≤ length s.now }
    ensures { (code : List ℕ) → Goes s.now at Opens.Open.Group nodes code result code }
{
    let next = steps::expect(s, at, Token::Closes)?;
    Ok(Act::Done(Part { next, nodes }))
}

// Behind the query in the brackets of a label.
fn go_inside(s: &[u8], at: usize, l: u16, code: &mut [u16], nodes: u16) -> Result<Act, Refusal>
    requires inside { at ≤ length s.now }
    requires room { 4096 ≤ length code.old }
    requires few { nodes ≤ 1025 }
    ensures { Goes s.now at (Opens.Open.Inside l) nodes code.old result code.new }
{
    let next = steps::expect(s, at, Token::Outside)?;
    let q = nodes.saturating_sub(1);
    Ok(made(code, nodes, Query::Element(l, q), next))
}

// Behind the source of a for or a let: `return`.
fn go_source(
    s: &[u8],
    at: usize,
    binder: Binder,
    v: u16,
    deep: u16,
    nodes: u16,
) -> Result<Act, Refusal>
    requires { at ≤ length s.now }
    ensures { (code : List ℕ) → Goes s.now at (Opens.Open.Source binder v deep) nodes code result code }
{
    let next = steps::expect(s, at, Token::Return)?;
    let p = nodes.saturating_sub(1);
    Ok(Act::More(Open::Body(binder, v, p), deep, Part { next, nodes }))
}

// What is open goes on behind the item that was made.
fn go(s: &[u8], at: usize, top: Open, code: &mut [u16], nodes: u16) -> Result<Act, Refusal>
    requires inside { at ≤ length s.now }
    requires room { 4096 ≤ length code.old }
    requires few { nodes ≤ 1025 }
    ensures { Goes s.now at top nodes code.old result code.new }
{
    let q = nodes.saturating_sub(1);
    match top {
        Open::Tail(deep) => Ok(go_tail(s, at, deep, nodes)),
        Open::Second(m) => Ok(made(code, nodes, Query::Pair(m, q), at)),
        Open::Group => go_group(s, at, nodes),
        Open::Inside(l) => go_inside(s, at, l, code, nodes),
        Open::Source(binder, v, deep) => go_source(s, at, binder, v, deep, nodes),
        Open::Body(binder, v, p) => Ok(made(code, nodes, binder.query(v, p, q), at)),
        Open::Guarded(c) => Ok(made(code, nodes, Query::When(c, q), at)),
    }
}

// One step: the item that is to be read, or what is open goes on.
pub fn step(s: &[u8], at: usize, top: Task, code: &mut [u16], nodes: u16) -> Result<Act, Refusal>
    requires inside { at ≤ length s.now }
    requires room { 4096 ≤ length code.old }
    requires few { nodes ≤ 1025 }
    ensures { Steps s.now at top nodes code.old result code.new }
{
    match top {
        Task::Item(deep) => begin(s, at, deep, code, nodes),
        Task::Behind(x) => go(s, at, x, code, nodes),
    }
}
