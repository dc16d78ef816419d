// Copies of whole trees at the front of a lent part: all that there are, those that pass a test word, those among all below them, and those inside them.
// Trees are handed on as the slice that has their words.
#![tactic(auto)]

ghost use Rattle.std.specs.Prelude.{◌≡◌, false, ◌+◌, ◌*◌, ◌≤◌, ◌<◌, length};
ghost use Rattle.meaning.specs.Base.{zeros};
ghost use Rattle.meaning.specs.Forests.{Forest, forest_words, join, select};
ghost use Rattle.meaning.specs.Forests as Forests;
ghost use Rattle.words.specs.Says.{head_of};
ghost use Rattle.copies.specs.Fills.{head_in, first, stride_of, spread, Filled, Copied, Trees, Tree};

use refusals::{Reason, Refusal};
use words::Head;

// The top of a tree by the first two words of its entry.
fn head_of(kind: u16, label: u16) -> Head
    ensures { head_of result ≡ head_in kind label }
{
    if kind == 64 {
        Head::Text
    } else {
        Head::Label(label)
    }
}

// A forest at the front of `rest`, if there is room: how many entries it has, or the node that finds no room.
pub fn place(forest: &[u16], rest: &mut [u16], n: usize) -> Result<usize, Refusal>
    requires { rest.old ≡ zeros (length rest.old) }
    ensures { (f : Forest) → forest.now ≡ forest_words f → Copied (length rest.old) rest.new n result f }
{
    if rest.len() < forest.len() {
        return Err(Refusal {
            reason: Reason::WorkFull,
            place: n,
        });
    }
    words::copy(forest, rest);
    Ok(forest.len() / 3)
}

// A tree at the front of `rest`, if it passes the test and there is room.
fn put(tree: &[u16], test: u16, rest: &mut [u16], n: usize) -> Result<usize, Refusal>
    requires long { 3 ≤ length tree.now }
    requires blank { rest.old ≡ zeros (length rest.old) }
    ensures { (f : Forest) → tree.now ≡ forest_words (first f) → Copied (length rest.old) rest.new n result (select test (first f)) }
{
    let head = head_of(tree[0], tree[1]);
    if !words::passes(test, head) {
        return Ok(0);
    }
    place(tree, rest, n)
}

// The same behind m entries that stand there: how many there are then.
fn append(tree: &[u16], test: u16, rest: &mut [u16], m: usize, n: usize) -> Result<usize, Refusal>
    requires one { Tree tree.now }
    requires filled { ((g : Forest) × Filled (length rest.old) rest.old m g) }
    ensures { (f g : Forest) → tree.now ≡ forest_words (first f) → Filled (length rest.old) rest.old m g → Copied (length rest.old) rest.new n result (join g (select test (first f))) }
{
    let k = put(tree, test, &mut rest[3 * m..], n)?;
    Ok(m + k)
}

// How many entries further the next tree to look at begins.
fn stride(deep: bool, size: usize) -> usize
    ensures { result ≡ stride_of deep size }
{
    if deep { 1 } else { size }
}

// Behind m entries, the trees that pass the test: those at the top, or all that begin among these.
pub fn chosen(
    trees: &[u16],
    test: u16,
    deep: bool,
    rest: &mut [u16],
    m: usize,
    n: usize,
) -> Result<usize, Refusal>
    requires trees { Trees trees.now }
    requires filled { ((g : Forest) × Filled (length rest.old) rest.old m g) }
    ensures { (f g : Forest) → trees.now ≡ forest_words f → Filled (length rest.old) rest.old m g → Copied (length rest.old) rest.new n result (join g (select test (spread deep f))) }
{
    let end = trees.len() / 3;
    let mut j = 0;
    let mut top = m;
    // kept: a while, since a step is as long as the tree that it passes
    while j < end {
        let size = usize::from(trees[3 * j + 2]) + 1;
        top = append(&trees[3 * j..3 * (j + size)], test, rest, top, n)?;
        j += stride(deep, size);
    }
    Ok(top)
}

// The trees inside these that pass the test.
pub fn inner(trees: &[u16], test: u16, rest: &mut [u16], n: usize) -> Result<usize, Refusal>
    requires trees { Trees trees.now }
    requires blank { rest.old ≡ zeros (length rest.old) }
    ensures { (f : Forest) → trees.now ≡ forest_words f → Copied (length rest.old) rest.new n result (select test (Forests.children f)) }
{
    let end = trees.len() / 3;
    let mut j = 0;
    let mut top = 0;
    // kept: a while, since a step is as long as the tree that it passes
    while j < end {
        let first = j + 1;
        let next = first + usize::from(trees[3 * j + 2]);
        top = chosen(&trees[3 * first..3 * next], test, false, rest, top, n)?;
        j = next;
    }
    Ok(top)
}
