// A condition of the text form: `true`, `false`, `$1 = $2`, `empty $1`, `not condition`, `(condition or condition)`. One loop over a stack of what is open, at most 100.
#![tactic(auto)]

ghost use Rattle.std.specs.Prelude.{◌≡◌, suc, ◌≤◌, ◌<◌, length, Ok};
ghost use Rattle.meaning.specs.Records.{node};
ghost use Rattle.conditions.specs.Says.{Conditions};
ghost use Rattle.conditions.specs.Frames.{node_of, as_act, equal_at, empty_at, Builds, Leaf, Opens, Begins, Turns, Closes, Resumes, Moves, Room, Runs};

use conds::Cond;
use refusals::{Reason, Refusal};
use rows::Part;
use tokens::{Placed, Token};
use words::Node;

// What waits for a condition that is being read: `not`; `(` for its first part; `(` for its second part, with the node of the first.
#[derive(Clone, Copy, Debug, PartialEq, Eq)]
enum Waiting {
    Not,
    First,
    Second(u16),
}

// What one act does: a condition is read, with where the text goes on and how many nodes there are; or one is to be read first, and this waits for it.
#[derive(Clone, Copy, Debug, PartialEq, Eq)]
enum Act {
    Done(Part),
    More(Waiting, Part),
}

// The node of a condition.
fn node_of(cond: Cond) -> Node
    ensures { node result.kind result.a result.b result.c ≡ node_of cond }
{
    let (kind, a, b) = match cond {
        Cond::True => (48, 0, 0),
        Cond::False => (49, 0, 0),
        Cond::Equal(v, w) => (50, v, w),
        Cond::Empty(v) => (51, v, 0),
        Cond::Or(p, q) => (52, p, q),
        Cond::Not(p) => (53, p, 0),
    };
    Node { kind, a, b, c: 0 }
}

// A condition that is read: its node is the last.
fn made(code: &mut [u16], at: usize, nodes: u16, cond: Cond) -> Part
    requires room { 4096 ≤ length code.old }
    requires few { nodes ≤ 1025 }
    ensures { Builds at nodes (node_of cond) code.old result code.new }
{
    let count = rows::emit(code, nodes, node_of(cond));
    Part {
        next: at,
        nodes: count,
    }
}

// `$1 = $2`.
fn equal(s: &[u8], at: usize, code: &mut [u16], nodes: u16) -> Result<Part, Refusal>
    requires inside { at ≤ length s.now }
    requires room { 4096 ≤ length code.old }
    requires few { nodes ≤ 1025 }
    ensures { Leaf s.now (suc at) at code.old nodes (equal_at s.now) (as_act result) code.new }
{
    let v = steps::variable_at(s, at)?;
    let behind = steps::expect(s, v.next, Token::Equals)?;
    let w = steps::variable_at(s, behind)?;
    Ok(made(code, w.next, nodes, Cond::Equal(v.value, w.value)))
}

// `empty $1` behind its word.
fn empty(s: &[u8], at: usize, code: &mut [u16], nodes: u16) -> Result<Part, Refusal>
    requires inside { at ≤ length s.now }
    requires room { 4096 ≤ length code.old }
    requires few { nodes ≤ 1025 }
    ensures { Leaf s.now at at code.old nodes (empty_at s.now) (as_act result) code.new }
{
    let v = steps::variable_at(s, at)?;
    Ok(made(code, v.next, nodes, Cond::Empty(v.value)))
}

// One more that is open, from this token on.
fn opened(deep: u16, t: Placed, waiting: Waiting, nodes: u16) -> Result<Act, Refusal>
    ensures { Opens deep t.place t.next waiting nodes result }
{
    steps::check_depth(deep, t.place)?;
    let part = Part {
        next: t.next,
        nodes,
    };
    Ok(Act::More(waiting, part))
}

// The act at a condition's first token, with so many open around it.
fn begin(s: &[u8], at: usize, deep: u16, code: &mut [u16], nodes: u16) -> Result<Act, Refusal>
    requires inside { at ≤ length s.now }
    requires room { 4096 ≤ length code.old }
    requires few { nodes ≤ 1025 }
    ensures { Begins s.now at deep code.old nodes result code.new }
{
    let t = tokens::token_at(s, at);
    match t.token {
        Token::True => Ok(Act::Done(made(code, t.next, nodes, Cond::True))),
        Token::False => Ok(Act::Done(made(code, t.next, nodes, Cond::False))),
        Token::Dollar => {
            let part = equal(s, at, code, nodes)?;
            Ok(Act::Done(part))
        }
        Token::Empty => {
            let part = empty(s, t.next, code, nodes)?;
            Ok(Act::Done(part))
        }
        Token::Not => opened(deep, t, Waiting::Not, nodes),
        Token::Opens => opened(deep, t, Waiting::First, nodes),
        _ => Err(Refusal {
            reason: Reason::NoSuchText,
            place: t.place,
        }),
    }
}

// `or` behind a first part, and its second part to be read.
fn turn(s: &[u8], at: usize, nodes: u16) -> Result<Act, Refusal>
    requires inside { at ≤ length s.now }
    requires few { nodes ≤ 1025 }
    requires some { 0 < nodes }
    ensures { Turns s.now at nodes result }
{
    let next = steps::expect(s, at, Token::Or)?;
    let left = nodes - 1;
    Ok(Act::More(Waiting::Second(left), Part { next, nodes }))
}

// `)` behind a second part; the first part's node is `left`.
fn close(s: &[u8], at: usize, code: &mut [u16], nodes: u16, left: u16) -> Result<Part, Refusal>
    requires inside { at ≤ length s.now }
    requires room { 4096 ≤ length code.old }
    requires few { nodes ≤ 1025 }
    requires some { 0 < nodes }
    ensures { Closes s.now at left code.old nodes (as_act result) code.new }
{
    let next = steps::expect(s, at, Token::Closes)?;
    let right = nodes - 1;
    Ok(made(code, next, nodes, Cond::Or(left, right)))
}

// The act behind a condition that is read, of what waited for it. Its node is the last one.
fn resume(
    s: &[u8],
    at: usize,
    waiting: Waiting,
    code: &mut [u16],
    nodes: u16,
) -> Result<Act, Refusal>
    requires inside { at ≤ length s.now }
    requires room { 4096 ≤ length code.old }
    requires few { nodes ≤ 1025 }
    requires some { 0 < nodes }
    ensures { Resumes s.now at waiting code.old nodes result code.new }
{
    match waiting {
        Waiting::Not => Ok(Act::Done(made(code, at, nodes, Cond::Not(nodes - 1)))),
        Waiting::First => turn(s, at, nodes),
        Waiting::Second(left) => {
            let part = close(s, at, code, nodes, left)?;
            Ok(Act::Done(part))
        }
    }
}

// Acts until all that was opened is closed, from the one that has been done. The stack is scratch.
fn run(
    s: &[u8],
    deep: u16,
    code: &mut [u16],
    stack: &mut [Waiting],
    first: Act,
) -> Result<Part, Refusal>
    requires moves { Moves s.now 0 (Ok first) }
    requires open_room { Room deep (Ok first) }
    requires room { 4096 ≤ length code.old }
    requires wide { 128 ≤ length stack.old }
    ensures { Runs s.now deep code.old (Ok first) result code.new }
{
    let mut top = 0u16;
    let mut act = first;
    loop {
        match act {
            Act::Done(part) => {
                if top == 0 {
                    return Ok(part);
                }
                top -= 1;
                let waiting = stack[usize::from(top)];
                act = resume(s, part.next, waiting, code, part.nodes)?;
            }
            Act::More(waiting, part) => {
                stack[usize::from(top)] = waiting;
                top += 1;
                act = begin(s, part.next, deep + top, code, part.nodes)?;
            }
        }
    }
}

// A condition from an offset on, with so many open around it.
pub fn condition(
    s: &[u8],
    at: usize,
    deep: u16,
    code: &mut [u16],
    nodes: u16,
) -> Result<Part, Refusal>
    requires inside { at ≤ length s.now }
    requires few_open { deep ≤ 100 }
    requires room { 4096 ≤ length code.old }
    requires few { nodes ≤ 1025 }
    ensures { Conditions s.now at deep code.old nodes result code.new }
{
    let first = begin(s, at, deep, code, nodes)?;
    let mut stack = [Waiting::Not; 128];
    run(s, deep, code, &mut stack, first)
}
