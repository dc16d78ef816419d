// What a type entry reaches, elements entered, as a mark for each entry; and the atoms among it that pass a test, by increasing entry number.
#![tactic(auto)]

ghost use Rattle.std.specs.Prelude.{◌≡◌, true, [], ◌∷◌, ◌*◌, ◌≤◌, ◌<◌, length, get_or};
ghost use Rattle.meaning.specs.Types.{Defs, head_of};
ghost use Rattle.meaning.specs.Reach.{steps_of, reached, atom_passes};
ghost use Rattle.entries.specs.Says.{shown};
ghost use Rattle.reach.specs.Marks.{marks_of, Within, Given, Room, Grew};
ghost use Rattle.reach.specs.Atoms.{picked, Next};

use entries::Ty;
use tables::Types;
use words::Head;

// Marks an entry and puts it behind those that are to be visited, if it has no mark yet; how many are to be visited then. They stand behind the first
// `count` marks.
// kept: marks and what is to be visited in one lent table of words (fixed memory)
fn push(marks: &mut [u16], count: usize, left: usize, e: usize) -> usize
    requires low { e < count }
    requires room { Room marks.old count left }
    ensures { Grew count marks.old marks.new left result (e ∷ []) }
{
    if marks[e] != 0 {
        return left;
    }
    marks[e] = 1;
    let last = count + left;
    marks[last] = e as u16;
    left + 1
}

// The same for the definition of a name.
fn follow(d: u16, defs: &[u16], marks: &mut [u16], count: usize, left: usize) -> usize
    requires inside { d < length defs.now }
    requires low { get_or defs.now d 0 < count }
    requires room { Room marks.old count left }
    ensures { Grew count marks.old marks.new left result (get_or defs.now d 0 ∷ []) }
{
    push(marks, count, left, usize::from(defs[usize::from(d)]))
}

// The same for what stands directly in an entry: an element's child; both children of a pair or union; the child of star, plus and opt; a name's
// definition.
fn visit(x: Ty, defs: &[u16], marks: &mut [u16], count: usize, left: usize) -> usize
    requires within { Within count defs.now (shown x) }
    requires room { Room marks.old count left }
    ensures { Grew count marks.old marks.new left result (steps_of true defs.now (shown x)) }
{
    match x {
        Ty::Empty | Ty::Text => left,
        Ty::Element(_, c) => push(marks, count, left, usize::from(c)),
        Ty::Pair(a, b) | Ty::Union(a, b) => {
            let more = push(marks, count, left, usize::from(a));
            push(marks, count, more, usize::from(b))
        }
        Ty::Star(a) | Ty::Plus(a) | Ty::Opt(a) => push(marks, count, left, usize::from(a)),
        Ty::Name(d) => follow(d, defs, marks, count, left),
    }
}

// Marks what entry e reaches, itself too, and nothing else among the entries. Each entry that is marked is visited once. The definitions in use are the
// first of those lent.
pub fn reach(types: &Types, defs: &[u16], e: usize, marks: &mut [u16])
    requires given { ((D : Defs) × Given types.now defs.now D) }
    requires low { e < length types.now }
    requires long { 2 * length types.now ≤ length marks.old }
    ensures { (D : Defs) → Given types.now defs.now D → marks_of (length types.now) marks.new ≡ reached true D types.now e }
{
    let count = types.len();
    words::clear(&mut marks[..count]);
    let mut left = push(marks, count, 0, e); // itself
    while 0 < left {
        let next = left - 1;
        let at = usize::from(marks[count + next]);
        left = visit(types.get(at), defs, marks, count, next);
    }
}

// Is the type an atom, String or an element, that passes the test.
#[tactic(auto, unfolding(meaning::specs::Types::head_of))]
fn atom_passes(x: Ty, test: u16) -> bool
    ensures { result ≡ atom_passes test (head_of (shown x)) }
{
    match x {
        Ty::Text => words::passes(test, Head::Text),
        Ty::Element(l, _) => words::passes(test, Head::Label(l)),
        _ => false,
    }
}

// Is entry i marked, and an atom that passes the test.
fn chosen(types: &Types, marks: &[u16], test: u16, i: usize) -> bool
    requires inside { i < length types.now }
    requires marked { i < length marks.now }
    ensures { result ≡ picked test types.now (marks_of (length types.now) marks.now) i }
{
    let unmarked = marks[i] == 0;
    if unmarked {
        return false;
    }
    atom_passes(types.get(i), test)
}

// The first entry from i on that is marked and an atom that passes the test.
pub fn next(types: &Types, marks: &[u16], test: u16, i: usize) -> Option<usize>
    requires marked { length types.now ≤ length marks.now }
    ensures { Next (picked test types.now (marks_of (length types.now) marks.now)) (length types.now) i result }
{
    let count = types.len();
    (i..count).find(|k| chosen(types, marks, test, *k))
}
