// The parts that the text of a query is made of, on a lent stack: a query or a condition gives way to its parts, the first one on top.
#![tactic(auto)]

ghost use Rattle.std.specs.Prelude.{◌≡◌, List, [], ◌∷◌, ℕ, ◌+◌, ◌≤◌, ◌<◌, length};
ghost use Rattle.meaning.specs.Records.{Node};
ghost use Rattle.meaning.specs.Queries.{cond_at, query_at};
ghost use Rattle.meaning.specs.Written.{of_test};
ghost use Rattle.uses.specs.Counts.{Lowers};
ghost use Rattle.queries.specs.Says.{query_of};
ghost use Rattle.conds.specs.Says.{cond_of};
ghost use Rattle.parts.specs.Items as Items;
ghost use Rattle.parts.specs.Stacks.{item_of, Pushed, Grown, Inside};

use conds::Cond;
use queries::Query;
use tables::Nodes;

// A piece by its number and its value; a query, where there may be many items or one, and a condition: how many are open around it, and its node.
#[derive(Clone, Copy)]
pub enum Part {
    Piece(u16, u16),
    Query(bool, u16, u16),
    Cond(u16, u16),
}

// A word or a sign.
fn sign(kind: u16) -> Part
    ensures { result ≡ Part.Piece kind 0 }
{
    Part::Piece(kind, 0)
}

// A decimal number.
fn number(n: u16) -> Part
    ensures { result ≡ Part.Piece 2 n }
{
    Part::Piece(2, n)
}

// A test: 0 is `node`, 65535 is `text`.
fn test(w: u16) -> Part
    ensures { result ≡ Part.Piece (of_test w).0 (of_test w).1 }
{
    match w {
        0 => sign(13),
        65535 => sign(14),
        _ => number(w),
    }
}

// Parts put on a stack, the first one on top; where the top is then.
fn push(stack: &mut [Part], top: usize, parts: &[Part]) -> usize
    requires room { length parts.now ≤ top }
    requires inside { top ≤ length stack.old }
    ensures { Pushed stack.old top stack.new result parts.now }
{
    let next = top - parts.len();
    stack[next..top].copy_from_slice(parts);
    next
}

// The parts of a query.
#[tactic(auto, using(crate::proofs::Pushing::grown), unfolding(crate::specs::Items::of_query))]
fn push_query(stack: &mut [Part], top: usize, q: Query, many: bool, deep: u16) -> usize
    requires room { 7 ≤ top }
    requires inside { top ≤ length stack.old }
    ensures { (C : List Node) (n : ℕ) → Grown C stack.old top stack.new result (Items.of_query many deep (query_of n (cond_at C) (query_at C) q)) }
{
    match q {
        Query::Nothing => push(stack, top, &[sign(15), sign(16)]),
        Query::Text(t) => push(stack, top, &[sign(20), number(t)]),
        Query::Element(l, i) => {
            let inner = Part::Query(true, deep, i);
            push(stack, top, &[number(l), sign(17), inner, sign(18)])
        }
        Query::Pair(i, j) => {
            let left = Part::Query(false, deep, i);
            let right = Part::Query(true, deep, j);
            if many {
                return push(stack, top, &[left, sign(19), right]);
            }
            push(stack, top, &[sign(15), left, sign(19), right, sign(16)])
        }
        Query::Variable(v) => push(stack, top, &[sign(21), number(v)]),
        Query::Child(v, w) => push(stack, top, &[sign(21), number(v), sign(22), test(w)]),
        Query::Dos(v, w) => push(stack, top, &[sign(21), number(v), sign(23), test(w)]),
        Query::For(v, i, j) => {
            let over = Part::Query(false, deep, i);
            let body = Part::Query(false, deep, j);
            push(
                stack,
                top,
                &[sign(3), sign(21), number(v), sign(4), over, sign(5), body],
            )
        }
        Query::Let(v, i, j) => {
            let bound = Part::Query(false, deep, i);
            let body = Part::Query(false, deep, j);
            push(
                stack,
                top,
                &[sign(6), sign(21), number(v), sign(24), bound, sign(5), body],
            )
        }
        Query::When(i, j) => {
            let test = Part::Cond(deep, i);
            let body = Part::Query(false, deep, j);
            push(stack, top, &[sign(7), test, sign(5), body])
        }
    }
}

// The parts of a condition.
#[tactic(auto, using(crate::proofs::Pushing::grown), unfolding(crate::specs::Items::of_cond))]
fn push_cond(stack: &mut [Part], top: usize, p: Cond, deep: u16) -> usize
    requires room { 7 ≤ top }
    requires inside { top ≤ length stack.old }
    ensures { (C : List Node) (n : ℕ) → Grown C stack.old top stack.new result (Items.of_cond deep (cond_of n (cond_at C) p)) }
{
    match p {
        Cond::True => push(stack, top, &[sign(8)]),
        Cond::False => push(stack, top, &[sign(9)]),
        Cond::Equal(v, w) => push(
            stack,
            top,
            &[sign(21), number(v), sign(25), sign(21), number(w)],
        ),
        Cond::Empty(v) => push(stack, top, &[sign(10), sign(21), number(v)]),
        Cond::Or(i, j) => {
            let left = Part::Cond(deep, i);
            let right = Part::Cond(deep, j);
            push(stack, top, &[sign(15), left, sign(12), right, sign(16)])
        }
        Cond::Not(i) => push(stack, top, &[sign(11), Part::Cond(deep, i)]),
    }
}

// The parts of the query or the condition that a part is, with so many open around them; a piece has none.
pub fn expand(code: &Nodes, stack: &mut [Part], top: usize, part: Part, deep: u16) -> usize
    requires lowers { Lowers code.now }
    requires node { Inside (length code.now) part }
    requires room { 7 ≤ top }
    requires inside { top ≤ length stack.old }
    ensures { Grown code.now stack.old top stack.new result (Items.parts_of deep (item_of code.now part)) }
{
    match part {
        Part::Piece(_, _) => top,
        Part::Query(many, _, q) => {
            let query = queries::read_query(code, usize::from(q));
            push_query(stack, top, query, many, deep)
        }
        Part::Cond(_, p) => {
            let cond = conds::read_cond(code, usize::from(p));
            push_cond(stack, top, cond, deep)
        }
    }
}

// Whether a query opens.
#[tactic(auto, unfolding(crate::specs::Items::query_opens))]
fn query_opens(q: Query, many: bool) -> bool
    ensures { (C : List Node) (n : ℕ) → result ≡ Items.query_opens many (query_of n (cond_at C) (query_at C) q) }
{
    match q {
        Query::Pair(_, _) => !many,
        Query::Nothing
        | Query::Element(_, _)
        | Query::For(_, _, _)
        | Query::Let(_, _, _)
        | Query::When(_, _) => true,
        Query::Text(_) | Query::Variable(_) | Query::Child(_, _) | Query::Dos(_, _) => false,
    }
}

// Whether a condition opens.
#[tactic(auto, unfolding(crate::specs::Items::cond_opens))]
fn cond_opens(p: Cond) -> bool
    ensures { (C : List Node) (n : ℕ) → result ≡ Items.cond_opens (cond_of n (cond_at C) p) }
{
    match p {
        Cond::Or(_, _) => true,
        Cond::Not(_) => true,
        _ => false,
    }
}

// Whether the query or the condition that a part is opens; a piece does not.
pub fn opens(code: &Nodes, part: Part) -> bool
    requires lowers { Lowers code.now }
    requires node { Inside (length code.now) part }
    ensures { result ≡ Items.opens (item_of code.now part) }
{
    match part {
        Part::Piece(_, _) => false,
        Part::Query(many, _, q) => query_opens(queries::read_query(code, usize::from(q)), many),
        Part::Cond(_, p) => cond_opens(conds::read_cond(code, usize::from(p))),
    }
}
