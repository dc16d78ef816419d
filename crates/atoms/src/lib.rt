// Refusal 11: a tree variable's type has other than unions of atoms. One pass upward marks the entries that have nothing else, so that a union that is
// shared many times over costs no more than one; a second pass looks for the first variable.
#![tactic(auto)]

ghost use Rattle.std.specs.Prelude.{◌≡◌, ℕ, ◌≤◌, ◌<◌, length};
ghost use Rattle.meaning.specs.Types.{Table, Defs};
ghost use Rattle.meaning.specs.Records.{var_of};
ghost use Rattle.meaning.specs.Formed.{Formed};
ghost use Rattle.meaning.specs.Checks.{is_tangled, tangled};
ghost use Rattle.words.specs.Says.{found};
ghost use Rattle.entries.specs.Says.{shown};
ghost use Rattle.atoms.specs.Marks.{Parts, mark_of, Marked, Typed, Scoped};

use entries::Ty;
use tables::{Types, Vars};

// Whether an entry has nothing but unions of atoms, when all lower ones are marked: a union goes by its parts; text and an element are one atom.
fn has_only_atoms(x: Ty, marks: &[bool]) -> bool
    requires { Parts (length marks.now) (shown x) }
    ensures { result ≡ mark_of marks.now (shown x) }
{
    match x {
        Ty::Text | Ty::Element(_, _) => true,
        Ty::Union(a, b) => marks[usize::from(a)] && marks[usize::from(b)],
        _ => false,
    }
}

// The marks of all entries.
fn mark_atoms(types: &Types, marks: &mut [bool])
    requires typed { Typed types.now }
    requires room { length types.now ≤ length marks.old }
    ensures { (D : Defs) → Formed D types.now → Marked D types.now (length types.now) marks.new }
{
    for e in 0..types.len() {
        marks[e] = has_only_atoms(types.get(e), marks);
    }
}

// Whether a variable is a tree variable, 17, whose type is not marked.
fn is_tangled(kind: u16, e: usize, marks: &[bool]) -> bool
    requires { e < length marks.now }
    ensures { (D : Defs) (T : Table) (n : ℕ) → Marked D T n marks.now → e < n → result ≡ is_tangled D T (var_of kind e) }
{
    let is_tree = kind == 17;
    is_tree && !marks[e]
}

// The number of the first such variable.
fn first_tangled(vars: &Vars, marks: &[bool]) -> Option<usize>
    requires scoped { Scoped (length marks.now) vars.now }
    ensures { (D : Defs) (T : Table) (n : ℕ) → Marked D T n marks.now → Scoped n vars.now → found result ≡ tangled D T vars.now }
{
    for i in 0..vars.len() {
        let x = vars.get(i);
        if is_tangled(x.kind, usize::from(x.b), marks) {
            return Some(usize::from(x.a));
        }
    }
    None
}

// The first declared tree variable whose type has other than unions of atoms, with marks for so many entries: clearing them is most of what a small
// table costs.
fn tangled_of<const N: usize>(types: &Types, vars: &Vars) -> Option<usize>
    requires typed { Typed types.now }
    requires few { length types.now ≤ N }
    requires most { N ≤ 4096 }
    requires scoped { Scoped (length types.now) vars.now }
    ensures { (D : Defs) → Formed D types.now → found result ≡ tangled D types.now vars.now }
{
    let mut marks = [false; N];
    mark_atoms(types, &mut marks);
    first_tangled(vars, &marks)
}

// 11, with as many marks as the table needs.
pub fn tangled(types: &Types, vars: &Vars) -> Option<usize>
    requires typed { Typed types.now }
    requires few { length types.now ≤ 4096 }
    requires scoped { Scoped (length types.now) vars.now }
    ensures { (D : Defs) → Formed D types.now → found result ≡ tangled D types.now vars.now }
{
    let count = types.len();
    if count <= 256 {
        return tangled_of::<256>(types, vars);
    }
    tangled_of::<4096>(types, vars)
}
