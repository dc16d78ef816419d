// A query node of the lent query table as an enum, for the typing walk and for the evaluator.
#![tactic(auto)]

ghost use Rattle.std.specs.Prelude.{ℕ, ◌<◌, length};
ghost use Rattle.meaning.specs.Records.{node, node_at};
ghost use Rattle.queries.specs.Says.{Says};

use tables::Nodes;

// A query as its node gives it: texts, labels, variables and test words, or the nodes of other queries and conditions.
#[derive(Clone, Copy, Debug, PartialEq, Eq)]
pub enum Query {
    Nothing,
    Text(u16),
    Element(u16, u16),
    Pair(u16, u16),
    Variable(u16),
    Child(u16, u16),
    Dos(u16, u16),
    For(u16, u16, u16),
    Let(u16, u16, u16),
    When(u16, u16),
}

// The query of a kind with these fields.
#[tactic(auto, unfolding(meaning::specs::Queries::expand_query, meaning::specs::Base::find))]
fn query_of(kind: u16, a: u16, b: u16, c: u16) -> Query
    ensures { (n : ℕ) → Says n (node kind a b c) result }
{
    match kind {
        33 => Query::Text(a),
        34 => Query::Element(a, b),
        35 => Query::Pair(a, b),
        36 => Query::Variable(a),
        37 => Query::Child(a, b),
        38 => Query::Dos(a, b),
        39 => Query::For(a, b, c),
        40 => Query::Let(a, b, c),
        41 => Query::When(a, b),
        _ => Query::Nothing,
    }
}

// The query at node n.
pub fn read_query(code: &Nodes, n: usize) -> Query
    requires { n < length code.now }
    ensures { Says n (node_at code.now n) result }
{
    let x = code.get(n);
    query_of(x.kind, x.a, x.b, x.c)
}
