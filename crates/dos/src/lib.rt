// The typing rule of dos: the star of the union of the atoms that an entry reaches and that pass a test.
#![tactic(auto)]

ghost use Rattle.std.specs.Prelude.{◌≡◌, ◌∷◌, ◌+◌, ◌*◌, ◌-◌, ◌≤◌, ◌<◌, length};
ghost use Rattle.meaning.specs.Base.{type_capacity, kept_from};
ghost use Rattle.meaning.specs.Types.{Defs};
ghost use Rattle.meaning.specs.Rules.{unions, star_of, dos_rule};
ghost use Rattle.words.specs.Tables.{table_of};
ghost use Rattle.reach.specs.Marks.{marks_of, Given};
ghost use Rattle.reach.specs.Atoms.{picked};
ghost use Rattle.grow.specs.Grow.{Ready, Left};

use entries::Ty;
use grow::Made;
use refusals::Refusal;
use tables::Types;

// The union of the chosen entries from x on, leaning left: x itself if there is no other. Chosen are marked atoms that pass the test.
fn unite(
    types: &mut [u16],
    classes: &mut [u16],
    count: usize,
    marks: &[u16],
    test: u16,
    node: usize,
    x: usize,
) -> Result<Made, Refusal>
    requires ready { ((D : Defs) × Ready D types.old classes.old count) }
    requires low { x < count }
    requires marked { count ≤ length marks.now }
    ensures { (D : Defs) → Ready D types.old classes.old count → Left D types.old types.new classes.old classes.new result (unions (type_capacity (length types.old)) node x (kept_from (picked test (table_of types.old count) (marks_of count marks.now)) (x + 1) (count - (x + 1))) (table_of types.old count)) }
{
    let mut made = Made { at: x, count };
    let mut i = x + 1;
    while let Some(y) = reach::next(&Types::new(types, count), marks, test, i) {
        let both = Ty::Union(made.at as u16, y as u16).words();
        made = grow::append(types, classes, made.count, node, both)?;
        i = y + 1;
    }
    Ok(made)
}

// The star of that union.
fn join(
    types: &mut [u16],
    classes: &mut [u16],
    count: usize,
    marks: &[u16],
    test: u16,
    node: usize,
    x: usize,
) -> Result<Made, Refusal>
    requires ready { ((D : Defs) × Ready D types.old classes.old count) }
    requires low { x < count }
    requires marked { count ≤ length marks.now }
    ensures { (D : Defs) → Ready D types.old classes.old count → Left D types.old types.new classes.old classes.new result (star_of (type_capacity (length types.old)) node (x ∷ kept_from (picked test (table_of types.old count) (marks_of count marks.now)) (x + 1) (count - (x + 1))) (table_of types.old count)) }
{
    let all = unite(types, classes, count, marks, test, node, x)?;
    let star = Ty::Star(all.at as u16).words();
    grow::append(types, classes, all.count, node, star)
}

// The type of dos for entry e: marks what e reaches, then joins the atoms among it that pass the test, by increasing entry number. Where there is none,
// the answer is entry 0, and nothing is appended. The marks are scratch.
pub fn dos_rule(
    types: &mut [u16],
    classes: &mut [u16],
    count: usize,
    defs: &[u16],
    node: usize,
    test: u16,
    e: usize,
    marks: &mut [u16],
) -> Result<Made, Refusal>
    requires ready { ((D : Defs) × Ready D types.old classes.old count × Given (table_of types.old count) defs.now D) }
    requires low { e < count }
    requires marked { 2 * count ≤ length marks.old }
    ensures { (D : Defs) → Ready D types.old classes.old count → Given (table_of types.old count) defs.now D → Left D types.old types.new classes.old classes.new result (dos_rule (type_capacity (length types.old)) node D test e (table_of types.old count)) }
{
    let known = Types::new(types, count);
    reach::reach(&known, defs, e, marks);
    let first = reach::next(&known, marks, test, 0);
    let Some(x) = first else {
        return Ok(Made { at: 0, count });
    };
    join(types, classes, count, marks, test, node, x)
}
