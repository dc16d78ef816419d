// A type entry of a lent type table as an enum: for the checks, for the classes and for the typing rules. Only these functions know the kinds' numbers.
#![tactic(auto)]

ghost use Rattle.std.specs.Prelude.{◌≡◌, [], ◌∷◌, ◌+◌, ◌*◌, ◌≤◌, length};
ghost use Rattle.meaning.specs.Base.{type_width};
ghost use Rattle.meaning.specs.Types.{kind_of, entry_of, entry_words};
ghost use Rattle.words.specs.Tables.{stored, entry_at};
ghost use Rattle.entries.specs.Says.{shown};

use words::Entry;

// A type by its entry: labels and definitions, or the entries of other types.
#[derive(Clone, Copy, Debug, PartialEq, Eq, Hash)]
pub enum Ty {
    Empty,
    Text,
    Element(u16, u16),
    Pair(u16, u16),
    Union(u16, u16),
    Star(u16),
    Plus(u16),
    Opt(u16),
    Name(u16),
}

impl Ty {
    // The type of a kind with these fields.
    pub fn of_kind(kind: u16, a: u16, b: u16) -> Ty
        ensures { shown result ≡ entry_of kind a b }
    {
        match kind {
            2 => Ty::Text,
            3 => Ty::Element(a, b),
            4 => Ty::Pair(a, b),
            5 => Ty::Union(a, b),
            6 => Ty::Star(a),
            7 => Ty::Plus(a),
            8 => Ty::Opt(a),
            9 => Ty::Name(a),
            _ => Ty::Empty,
        }
    }

    // The type at entry e.
    pub fn read(types: &[u16], e: usize) -> Ty
        requires { type_width * e + type_width ≤ length types.now }
        ensures { shown result ≡ entry_at types.now e }
    {
        let x = words::read_entry(types, e);
        Ty::of_kind(x.kind, x.a, x.b)
    }

    // Its words.
    pub fn words(self) -> Entry
        ensures { result.kind ∷ result.a ∷ result.b ∷ [] ≡ entry_words (shown self) }
    {
        let (kind, a, b) = match self {
            Ty::Empty => (1, 0, 0),
            Ty::Text => (2, 0, 0),
            Ty::Element(l, c) => (3, l, c),
            Ty::Pair(a, b) => (4, a, b),
            Ty::Union(a, b) => (5, a, b),
            Ty::Star(a) => (6, a, 0),
            Ty::Plus(a) => (7, a, 0),
            Ty::Opt(a) => (8, a, 0),
            Ty::Name(d) => (9, d, 0),
        };
        Entry { kind, a, b }
    }

    // Its kind.
    pub fn kind(self) -> u16
        ensures { result ≡ kind_of (shown self) }
    {
        self.words().kind
    }

    // Its words are stored at entry e.
    pub fn put(self, types: &mut [u16], e: usize)
        requires { type_width * e + type_width ≤ length types.old }
        ensures { types.new ≡ stored types.old (type_width * e) (entry_words (shown self)) }
    {
        let x = self.words();
        words::put_entry(types, e, x.kind, x.a, x.b);
    }
}
