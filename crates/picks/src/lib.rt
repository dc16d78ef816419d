// Queries without parts, evaluated: a text, and copies of a variable's trees, of those inside them and of those below them.
#![tactic(auto)]

ghost use Rattle.std.specs.Prelude.{◌≡◌, length};
ghost use Rattle.meaning.specs.Base.{zeros};
ghost use Rattle.meaning.specs.Forests.{end, leaf, select};
ghost use Rattle.meaning.specs.Forests as Forests;
ghost use Rattle.meaning.specs.Running.{value_of};
ghost use Rattle.copies.specs.Fills.{Copied};
ghost use Rattle.picks.specs.Picks.{Picks, Within};

use refusals::Refusal;
use spans::Spans;

// A query of one text leaf.
pub fn text(rest: &mut [u16], n: usize, t: u16) -> Result<usize, Refusal>
    requires { rest.old ≡ zeros (length rest.old) }
    ensures { Copied (length rest.old) rest.new n result (leaf t end) }
{
    copies::place(&[64, t, 0], rest, n)
}

// A variable: all its trees.
pub fn variable(
    scope: &Spans,
    held: &[u16],
    rest: &mut [u16],
    n: usize,
    v: u16,
) -> Result<usize, Refusal>
    requires within { Within scope.now held.now v }
    requires blank { rest.old ≡ zeros (length rest.old) }
    ensures { Picks scope.now held.now (length rest.old) rest.new n result (λ env. value_of env v) }
{
    let trees = scope.lookup(usize::from(v));
    copies::place(trees.of(held), rest, n)
}

// child: the trees inside those of a variable.
pub fn child(
    scope: &Spans,
    held: &[u16],
    rest: &mut [u16],
    n: usize,
    v: u16,
    test: u16,
) -> Result<usize, Refusal>
    requires within { Within scope.now held.now v }
    requires blank { rest.old ≡ zeros (length rest.old) }
    ensures { Picks scope.now held.now (length rest.old) rest.new n result (λ env. select test (Forests.children (value_of env v))) }
{
    let trees = scope.lookup(usize::from(v));
    copies::inner(trees.of(held), test, rest, n)
}

// dos: the trees of a variable and all below them.
pub fn dos(
    scope: &Spans,
    held: &[u16],
    rest: &mut [u16],
    n: usize,
    v: u16,
    test: u16,
) -> Result<usize, Refusal>
    requires within { Within scope.now held.now v }
    requires blank { rest.old ≡ zeros (length rest.old) }
    ensures { Picks scope.now held.now (length rest.old) rest.new n result (λ env. select test (Forests.below (value_of env v))) }
{
    let trees = scope.lookup(usize::from(v));
    copies::chosen(trees.of(held), test, true, rest, 0, n)
}
