// The class of every type entry, in an array of one word for each: 1, 2 for ?, 3 for +, 4 for *, and 0 where it is not known yet. Each entry's class is
// computed once, after those of its parts; an entry that is appended gets its class from those of its parts.
// kept: words in the array, and not a `Class` each, since callers lend it as words (fixed memory)
#![tactic(auto)]

ghost use Rattle.std.specs.Prelude.{◌≡◌, false, [], ◌∷◌, ◌++◌, ℕ, ◌<◌, ◌≤◌, length, get_or};
ghost use Rattle.std.proofs.Math.Option.{none};
ghost use Rattle.meaning.specs.Types.{Table, Defs, entry_of, name, name_of, at};
ghost use Rattle.meaning.specs.Reach.{steps_of};
ghost use Rattle.meaning.specs.Formed.{Lower, Formed};
ghost use Rattle.meaning.specs.Shapes.{allowing, comma, either, shape, quant};
ghost use Rattle.entries.specs.Says.{shown};
ghost use Rattle.classes.specs.Classes.{meant, code_of, class_of, Filled, Parts, From, Place};
ghost use Rattle.classes.specs.Climbs.{is_name, Lacks, Sound, Stepped, Climbed, Begun};

use entries::Ty;
use tables::Types;

// A class: 1, ? where a type allows none too, + where it allows many, * where it allows both.
#[derive(Clone, Copy, Debug, PartialEq, Eq)]
pub enum Class {
    One,
    Maybe,
    More,
    Any,
}

impl Class {
    // The class that a word of the array means.
    #[tactic(auto, unfolding(crate::specs::Classes::class_of, meaning::specs::Shapes::allowing))]
    pub fn of_word(c: u16) -> Class
        ensures { meant result ≡ class_of c }
    {
        match c {
            2 => Class::Maybe,
            3 => Class::More,
            4 => Class::Any,
            _ => Class::One,
        }
    }

    // Its word.
    #[tactic(auto, unfolding(crate::specs::Classes::code_of))]
    fn word(self) -> u16
        ensures { result ≡ code_of (meant self) }
    {
        match self {
            Class::One => 1,
            Class::Maybe => 2,
            Class::More => 3,
            Class::Any => 4,
        }
    }

    // Whether it allows none, and whether it allows many.
    #[tactic(auto, unfolding(meaning::specs::Shapes::none))]
    fn none(self) -> bool
        ensures { result ≡ Rattle.meaning.specs.Shapes.none (meant self) }
    {
        matches!(self, Class::Maybe | Class::Any)
    }

    #[tactic(auto, unfolding(meaning::specs::Shapes::many))]
    fn many(self) -> bool
        ensures { result ≡ Rattle.meaning.specs.Shapes.many (meant self) }
    {
        matches!(self, Class::More | Class::Any)
    }

    // The class that allows so.
    #[tactic(auto, unfolding(meaning::specs::Shapes::allowing))]
    fn allowing(none: bool, many: bool) -> Class
        ensures { meant result ≡ allowing none many }
    {
        match (none, many) {
            (false, false) => Class::One,
            (true, false) => Class::Maybe,
            (false, true) => Class::More,
            (true, true) => Class::Any,
        }
    }

    // The class of a pair, by ','.
    #[tactic(auto, unfolding(meaning::specs::Shapes::comma))]
    fn comma(self, other: Class) -> Class
        ensures { meant result ≡ comma (meant self) (meant other) }
    {
        Class::allowing(self.none() & other.none(), true)
    }

    // The class of a union, by '|', and of star, plus and opt, by '.'.
    fn either(self, other: Class) -> Class
        ensures { meant result ≡ either (meant self) (meant other) }
    {
        Class::allowing(self.none() | other.none(), self.many() | other.many())
    }
}

// The word of an entry; 0 past the end of the array.
fn part(classes: &[u16], e: u16) -> u16
    ensures { result ≡ get_or classes.now e 0 }
{
    classes.get(usize::from(e)).copied().unwrap_or(0)
}

// The class of an entry.
fn class_in(classes: &[u16], e: u16) -> Class
    ensures { meant result ≡ class_of (get_or classes.now e 0) }
{
    Class::of_word(part(classes, e))
}

// The class of an entry that is no name, from the classes of its parts. It is compiled into its callers: an entry is taken apart once.
#[inline(always)]
fn from_parts(x: Ty, classes: &[u16]) -> Class
    ensures { From classes.now (shown x) (code_of (meant result)) }
{
    match x {
        Ty::Text | Ty::Element(_, _) => Class::One,
        Ty::Pair(a, b) => class_in(classes, a).comma(class_in(classes, b)),
        Ty::Union(a, b) => class_in(classes, a).either(class_in(classes, b)),
        Ty::Star(a) => class_in(classes, a).either(Class::Any),
        Ty::Plus(a) => class_in(classes, a).either(Class::More),
        Ty::Opt(a) => class_in(classes, a).either(Class::Maybe),
        Ty::Empty | Ty::Name(_) => Class::Maybe,
    }
}

// The class of an entry to be appended, where those before it have theirs.
#[inline(always)]
pub fn class_of(kind: u16, a: u16, b: u16, classes: &[u16]) -> u16
    ensures { (D : Defs) (T : Table) → Formed D T → Filled D T classes.now → Lower (length T) (entry_of kind a b) → name_of (entry_of kind a b) ≡ none → length T < 4096 → result ≡ code_of (quant (shape D (T ++ (entry_of kind a b ∷ [])) (length T))) }
{
    from_parts(Ty::of_kind(kind, a, b), classes).word()
}

// The class of entry e, where those of its parts are known.
fn class_at(types: &Types, defs: &[u16], classes: &[u16], e: usize) -> u16
    requires place { Place defs.now types.now classes.now }
    requires low { e < length types.now }
    ensures { Parts defs.now types.now classes.now (at types.now e) → result ≡ code_of (quant (shape defs.now types.now e)) }
{
    let x = types.get(e);
    if let Ty::Name(d) = x {
        return part(classes, defs[usize::from(d)]);
    }
    from_parts(x, classes).word()
}

// The first of these entries that has no class.
fn lacks(classes: &[u16], parts: &[u16]) -> Option<u16>
    ensures { Lacks classes.now parts.now result }
{
    parts.iter().copied().find(|x| part(classes, *x) == 0)
}

// What an entry waits for: the first of those that stand directly in it, elements not entered, that has no class yet.
#[tactic(auto, unfolding(meaning::specs::Reach::steps_of))]
fn waits(x: Ty, defs: &[u16], classes: &[u16]) -> Option<u16>
    requires { (d : ℕ) → shown x ≡ name d → d < length defs.now }
    ensures { Lacks classes.now (steps_of false defs.now (shown x)) result }
{
    match x {
        Ty::Pair(a, b) | Ty::Union(a, b) => lacks(classes, &[a, b]),
        Ty::Star(a) | Ty::Plus(a) | Ty::Opt(a) => lacks(classes, &[a]),
        Ty::Name(d) => lacks(classes, &[defs[usize::from(d)]]),
        Ty::Empty | Ty::Text | Ty::Element(_, _) => None,
    }
}

// One step from entry `at`: down to a part that it waits for, which gets `at` as its way back; or, where it waits for nothing, its class, and back.
fn step(types: &Types, defs: &[u16], classes: &mut [u16], back: &mut [u16], at: usize) -> usize
    requires place { Place defs.now types.now classes.old }
    requires ways { length types.now ≤ length back.old }
    requires low { at < length types.now }
    ensures { Stepped defs.now types.now classes.old classes.new back.old back.new at result }
{
    match waits(types.get(at), defs, classes) {
        None => {
            classes[at] = class_at(types, defs, classes, at);
            usize::from(back[at])
        }
        Some(x) => {
            let next = usize::from(x);
            back[next] = at as u16;
            next
        }
    }
}

// The class of entry e, and of those that it waits for.
fn climb(types: &Types, defs: &[u16], classes: &mut [u16], back: &mut [u16], e: usize)
    requires place { Place defs.now types.now classes.old }
    requires ways { length types.now ≤ length back.old }
    requires low { e < length types.now }
    requires sound { Sound defs.now types.now classes.old }
    ensures { Climbed defs.now types.now classes.old classes.new e }
{
    back[e] = e as u16;
    let mut at = e;
    while classes[e] == 0 {
        at = step(types, defs, classes, back, at);
    }
}

// Whether it is a name.
fn is_name(x: Ty) -> bool
    ensures { result ≡ is_name (shown x) }
{
    matches!(x, Ty::Name(_))
}

// The class of entry e, where all before it have theirs: it may have it from an earlier climb, and only a name can wait for an entry behind it.
fn place(types: &Types, defs: &[u16], classes: &mut [u16], back: &mut [u16], e: usize)
    requires place { Place defs.now types.now classes.old }
    requires ways { length types.now ≤ length back.old }
    requires low { e < length types.now }
    requires begun { Begun defs.now types.now classes.old e }
    ensures { Climbed defs.now types.now classes.old classes.new e }
{
    if classes[e] != 0 {
        return;
    }
    let x = types.get(e);
    if is_name(x) {
        climb(types, defs, classes, back, e);
        return;
    }
    classes[e] = from_parts(x, classes).word();
}

// The classes of all entries, from entry 0 up. What an entry waits for comes first, so each class is computed once. `back` is scratch, a word for each entry.
pub fn fill(types: &Types, defs: &[u16], classes: &mut [u16], back: &mut [u16])
    requires place { Place defs.now types.now classes.old }
    requires ways { length types.now ≤ length back.old }
    ensures { Filled defs.now types.now classes.new }
{
    let count = types.len();
    words::clear(&mut classes[..count]);
    for e in 0..count {
        place(types, defs, classes, back, e);
    }
}
