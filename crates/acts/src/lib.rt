// What the typing rules prime, content and filter do at one entry.
#![tactic(auto)]

ghost use Rattle.std.specs.Prelude.{◌≡◌, ℕ, cond, ◌<◌, length};
ghost use Rattle.meaning.specs.Types.{name, at};
ghost use Rattle.meaning.specs.Formed.{Formed};
ghost use Rattle.entries.specs.Says.{shown};
ghost use Rattle.acts.specs.Acts.{prime_of, content_of, sift_of, act_of};

use entries::Ty;
use tables::Types;
use words::Head;

// Which of the rules: prime, content, or filter by a test word other than 0.
#[derive(Clone, Copy, Debug, PartialEq, Eq)]
pub enum Mode {
    Prime,
    Content,
    Sift(u16),
}

// What a rule does at an entry: it answers at once; it does what it does at another entry; or it does the entry's first part, then its second if there is
// one, and appends an entry of that kind for what they answered.
// kept: the kind as its number, since `walks` puts it into a word of its lent stack (fixed memory)
#[derive(Clone, Copy, Debug, PartialEq, Eq)]
pub enum Act {
    Answer(usize),
    Into(usize),
    First(u16, usize),
}

// prime: both sides of a pair or a union, joined by a union; of star, plus, opt and names what they have inside; the rest is itself.
#[tactic(auto, unfolding(crate::specs::Acts::prime_of))]
fn prime_act(defs: &[u16], x: Ty, e: usize) -> Act
    requires { (d : ℕ) → shown x ≡ name d → d < length defs.now }
    ensures { result ≡ prime_of defs.now e (shown x) }
{
    match x {
        Ty::Empty | Ty::Text | Ty::Element(_, _) => Act::Answer(e),
        Ty::Pair(a, _) | Ty::Union(a, _) => Act::First(5, usize::from(a)),
        Ty::Star(a) | Ty::Plus(a) | Ty::Opt(a) => Act::Into(usize::from(a)),
        Ty::Name(d) => Act::Into(usize::from(defs[usize::from(d)])),
    }
}

// content: the child of an element, those of both sides of a union joined by a union, and () for the rest.
#[tactic(auto, unfolding(crate::specs::Acts::content_of))]
fn content_act(x: Ty) -> Act
    ensures { result ≡ content_of (shown x) }
{
    match x {
        Ty::Element(_, child) => Act::Answer(usize::from(child)),
        Ty::Union(left, _) => Act::First(5, usize::from(left)),
        _ => Act::Answer(0),
    }
}

// An atom that passes, or () for one that does not.
fn chosen(passes: bool, e: usize) -> usize
    ensures { result ≡ cond passes e 0 }
{
    if passes { e } else { 0 }
}

// filter: the parts as the test leaves them, in an entry of the same kind; a name does its definition; an atom that passes and () are themselves.
#[tactic(auto, unfolding(crate::specs::Acts::sift_of))]
fn sift_act(test: u16, defs: &[u16], x: Ty, e: usize) -> Act
    requires { (d : ℕ) → shown x ≡ name d → d < length defs.now }
    ensures { result ≡ sift_of test defs.now e (shown x) }
{
    match x {
        Ty::Empty => Act::Answer(e),
        Ty::Text => Act::Answer(chosen(words::passes(test, Head::Text), e)),
        Ty::Element(l, _) => Act::Answer(chosen(words::passes(test, Head::Label(l)), e)),
        Ty::Pair(a, _) => Act::First(4, usize::from(a)),
        Ty::Union(a, _) => Act::First(5, usize::from(a)),
        Ty::Star(a) => Act::First(6, usize::from(a)),
        Ty::Plus(a) => Act::First(7, usize::from(a)),
        Ty::Opt(a) => Act::First(8, usize::from(a)),
        Ty::Name(d) => Act::Into(usize::from(defs[usize::from(d)])),
    }
}

// What a rule does at entry e.
pub fn look(mode: Mode, types: &Types, defs: &[u16], e: usize) -> Act
    requires formed { Formed defs.now types.now }
    requires low { e < length types.now }
    ensures { result ≡ act_of mode defs.now e (at types.now e) }
{
    match mode {
        Mode::Prime => prime_act(defs, types.get(e), e),
        Mode::Content => content_act(types.get(e)),
        Mode::Sift(test) => sift_act(test, defs, types.get(e), e),
    }
}
