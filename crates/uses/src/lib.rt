// Refusal 8's test of the root, and refusal 12: each node but the root is used exactly once. One pass counts the uses into a lent table, one looks for
// the lowest node.
#![tactic(auto)]

ghost use Rattle.std.specs.Prelude.{◌≡◌, not, [], ◌∷◌, ◌-◌, ◌≤◌, eqb, length, get_or};
ghost use Rattle.meaning.specs.Base.{lowest, zeros};
ghost use Rattle.meaning.specs.Records.{node};
ghost use Rattle.meaning.specs.Checks.{has_root, uses_of, uses, misused};
ghost use Rattle.words.specs.Says.{found};
ghost use Rattle.uses.specs.Counts.{uses_in, Room, Counted, Lowers};

use tables::Nodes;
use words::Node;

// 8: there is a query record, and the last is no condition.
pub fn has_root(code: &Nodes) -> bool
    ensures { result ≡ has_root code.now }
{
    let nodes = code.len();
    if nodes == 0 {
        return false;
    }
    let root = code.get(nodes - 1);
    !words::is_condition(root.kind)
}

// One use more of a node.
fn count(counts: &mut [u16], q: u16)
    requires { Room counts.old (q ∷ []) }
    ensures { Counted counts.old (q ∷ []) counts.new }
{
    counts[usize::from(q)] += 1;
}

// The nodes that a node names: none, one or two.
#[derive(Clone, Copy)]
enum Uses {
    None,
    One(u16),
    Two(u16, u16),
}

// The nodes that the fields of a node name, by its kind.
#[tactic(auto, unfolding(meaning::specs::Base::find, meaning::specs::Records::forms, meaning::specs::Checks::named))]
fn uses_of(x: Node) -> Uses
    ensures { uses_in result ≡ uses_of (node x.kind x.a x.b x.c) }
{
    match x.kind {
        34 => Uses::One(x.b),
        35 | 41 | 52 => Uses::Two(x.a, x.b),
        39 => Uses::Two(x.b, x.c),
        40 => Uses::Two(x.b, x.c),
        53 => Uses::One(x.a),
        _ => Uses::None,
    }
}

// One use more of each node that a node names.
fn count_node(x: Node, counts: &mut [u16])
    requires { Room counts.old (uses_of (node x.kind x.a x.b x.c)) }
    ensures { Counted counts.old (uses_of (node x.kind x.a x.b x.c)) counts.new }
{
    match uses_of(x) {
        Uses::None => {}
        Uses::One(q) => count(counts, q),
        Uses::Two(p, q) => {
            count(counts, p);
            count(counts, q);
        }
    }
}

// The uses that all nodes make.
fn count_all(code: &Nodes, counts: &mut [u16])
    requires lowers { Lowers code.now }
    requires room { length code.now ≤ length counts.old }
    requires zero { counts.old ≡ zeros (length counts.old) }
    ensures { Counted counts.old (uses code.now) counts.new }
{
    for i in 0..code.len() {
        count_node(code.get(i), counts);
    }
}

// The lowest of the first nodes that is not counted exactly once.
fn lowest_misuse(counts: &[u16], nodes: usize) -> Option<usize>
    requires { nodes ≤ length counts.now }
    ensures { found result ≡ lowest (λ q. not (eqb (get_or counts.now q 0) 1)) nodes }
{
    for q in 0..nodes {
        let misused = counts[q] != 1;
        if misused {
            return Some(q);
        }
    }
    None
}

// The lowest node but the root that is not used exactly once, with counts for so many nodes: clearing them is most of what a small query costs.
fn misuse_of<const N: usize>(code: &Nodes) -> Option<usize>
    requires lowers { Lowers code.now }
    requires few { length code.now ≤ N }
    requires most { N ≤ 1024 }
    ensures { found result ≡ lowest (misused code.now) (length code.now - 1) }
{
    let mut counts = [0u16; N];
    count_all(code, &mut counts);
    lowest_misuse(&counts, code.len().saturating_sub(1))
}

// 12, with as many counts as the query needs.
pub fn misuse(code: &Nodes) -> Option<usize>
    requires { Lowers code.now }
    ensures { found result ≡ lowest (misused code.now) (length code.now - 1) }
{
    let nodes = code.len();
    if nodes <= 128 {
        return misuse_of::<128>(code);
    }
    misuse_of::<1024>(code)
}
