// The typing rules prime, content, filter, child and U.q. Each answers an entry, appends what it names, and refuses 16 at its node. prime, content and
// filter go from an entry to those that stand in it, and back: one loop, `walk`, does it for all three, with what is begun on a lent stack. No entry comes
// twice on such a way, since past refusal 10 no name comes back to its definition: so 4,096 words are enough.
// kept: each table is lent by itself, since the contracts of the crates above name each (`Ready`, `Left`)
#![tactic(auto)]

ghost use Rattle.std.specs.Prelude.{◌≡◌, ◌<◌, ◌≤◌, length, get_or};
ghost use Rattle.meaning.specs.Base.{type_capacity};
ghost use Rattle.meaning.specs.Types.{Defs, at};
ghost use Rattle.meaning.specs.Formed.{Formed};
ghost use Rattle.meaning.specs.Shapes.{shape};
ghost use Rattle.meaning.specs.Rules.{prime, content, filter, child_rule, times};
ghost use Rattle.words.specs.Tables.{table_of};
ghost use Rattle.classes.specs.Classes.{class_of};
ghost use Rattle.grow.specs.Grow.{Ready, Left};
ghost use Rattle.acts.specs.Acts.{does, act_of};
ghost use Rattle.entries.specs.Says.{shown};
ghost use Rattle.walks.specs.Frames.{frame_of, begun, Fit, second, Halved, down_of, Pushed, then_of};

use acts::{Act, Mode};
use classes::Class;
use entries::Ty;
use grow::Made;
use refusals::Refusal;
use tables::Types;
use words::Entry;

// Where a walk stands, with so many frames on its stack: down at an entry that is to be done, or up with an entry's answer.
#[derive(Drop)]
enum Next {
    Down { at: usize, top: usize },
    Up { at: usize, top: usize },
}

// What is begun, a word of the stack for each: an entry of this kind is to be appended.
#[derive(Clone, Copy, Debug, PartialEq, Eq)]
enum Frame {
    // for entry e, whose first part is being done
    Half { kind: u16, e: u16 },
    // for a part that is being done
    Alone { kind: u16 },
    // for a first part that answered `left`, and a second that is being done
    Joined { kind: u16, left: u16 },
}

// kept: a word for each frame, since the stack is a lent table of words (fixed memory)
impl Frame {
    // The frame of entry e, that is begun: a pair or a union (4, 5) has two parts, a star, plus or opt (6, 7, 8) one.
    fn begun(kind: u16, e: u16) -> Frame
        ensures { result ≡ begun kind e }
    {
        if kind < 6 {
            Frame::Half { kind, e }
        } else {
            Frame::Alone { kind }
        }
    }

    // A word that says it: 4096 times the kind, 5 more where a second part is being done, and the entry or the answer.
    fn word(self) -> u16
        requires { Fit self }
        ensures { frame_of result ≡ self }
    {
        match self {
            Frame::Half { kind, e } => kind * 4096 + e,
            Frame::Alone { kind } => kind * 4096,
            Frame::Joined { kind, left } => (kind + 5) * 4096 + left,
        }
    }

    // The frame that a word says.
    fn of_word(w: u16) -> Frame
        ensures { result ≡ frame_of w }
    {
        let kind = w / 4096;
        let x = w % 4096;
        if w < 24576 {
            return Frame::Half { kind, e: x };
        }
        if w < 36864 {
            return Frame::Alone { kind };
        }
        Frame::Joined {
            kind: kind - 5,
            left: x,
        }
    }
}

// What a frame does with the answer that it waited for: append an entry, or change to a frame that waits for the second part.
#[derive(Drop)]
enum Then {
    Append(Entry),
    Second { frame: Frame, part: usize },
}

// A step down at entry e. An entry that is begun becomes a frame.
fn down(mode: Mode, types: &Types, defs: &[u16], e: usize, stack: &mut [u16], top: usize) -> Next
    requires formed { Formed defs.now types.now }
    requires low { e < length types.now }
    requires room { top < length stack.old }
    requires short { top < 4096 }
    ensures next { result ≡ down_of (act_of mode defs.now e (at types.now e)) top }
    ensures pushed { Pushed (act_of mode defs.now e (at types.now e)) e top stack.old stack.new }
{
    let act = acts::look(mode, types, defs, e);
    match act {
        Act::Answer(at) => Next::Up { at, top },
        Act::Into(at) => Next::Down { at, top },
        Act::First(kind, at) => {
            stack[top] = Frame::begun(kind, e as u16).word();
            Next::Down { at, top: top + 1 }
        }
    }
}

// The second part of an entry that has two.
#[tactic(auto, unfolding(crate::specs::Frames::second))]
fn second(x: Ty) -> usize
    ensures { result ≡ second (shown x) }
{
    match x {
        Ty::Pair(_, b) | Ty::Union(_, b) => usize::from(b),
        _ => 0,
    }
}

// What a frame does with the answer `at`. A pair or union that waited for its first part waits for its second; one that waited for its second is
// appended, and so is a star, plus or opt.
fn over(types: &Types, frame: Frame, at: usize) -> Then
    requires halved { Halved types.now frame }
    requires small { at < 4096 }
    ensures { result ≡ then_of types.now frame at }
{
    let at = at as u16;
    match frame {
        Frame::Half { kind, e } => {
            let x = types.get(usize::from(e));
            Then::Second {
                frame: Frame::Joined { kind, left: at },
                part: second(x),
            }
        }
        Frame::Alone { kind } => Then::Append(Entry { kind, a: at, b: 0 }),
        Frame::Joined { kind, left } => Then::Append(Entry {
            kind,
            a: left,
            b: at,
        }),
    }
}

// What a rule does with entry e of the first `count`. The stack is scratch. It is compiled into each rule, so that the loop tests no mode.
#[inline(always)]
fn walk(
    mode: Mode,
    types: &mut [u16],
    classes: &mut [u16],
    defs: &[u16],
    count: usize,
    node: usize,
    e: usize,
    stack: &mut [u16],
) -> Result<Made, Refusal>
    requires ready { Ready defs.now types.old classes.old count × (e < count) }
    requires enough { 4096 ≤ length stack.old }
    ensures { Left defs.now types.old types.new classes.old classes.new result (does mode (type_capacity (length types.old)) node (shape defs.now (table_of types.old count) e) (table_of types.old count)) }
{
    let mut n = count;
    let mut next = Next::Down { at: e, top: 0 };
    loop {
        match next {
            Next::Down { at, top } => {
                let known = Types::new(types, count);
                next = down(mode, &known, defs, at, stack, top);
            }
            Next::Up { at, top } => {
                if top == 0 {
                    return Ok(Made { at, count: n });
                }
                let i = top - 1;
                let known = Types::new(types, count);
                let then = over(&known, Frame::of_word(stack[i]), at);
                match then {
                    Then::Second { frame, part } => {
                        stack[i] = frame.word();
                        next = Next::Down { at: part, top };
                    }
                    Then::Append(x) => {
                        let made = grow::append(types, classes, n, node, x)?;
                        n = made.count;
                        next = Next::Up {
                            at: made.at,
                            top: i,
                        };
                    }
                }
            }
        }
    }
}

// Both sides of a pair or a union, joined by a union; of star, plus, opt and names what they have inside; the rest is itself.
pub fn prime(
    types: &mut [u16],
    classes: &mut [u16],
    defs: &[u16],
    count: usize,
    node: usize,
    e: usize,
    stack: &mut [u16],
) -> Result<Made, Refusal>
    requires { (Ready defs.now types.old classes.old count × (e < count)) × (4096 ≤ length stack.old) }
    ensures { Left defs.now types.old types.new classes.old classes.new result (prime (type_capacity (length types.old)) node (shape defs.now (table_of types.old count) e) (table_of types.old count)) }
{
    let mode = Mode::Prime;
    walk(mode, types, classes, defs, count, node, e, stack)
}

// What a test word leaves of a type: all of it where the test is 0.
pub fn filter(
    test: u16,
    types: &mut [u16],
    classes: &mut [u16],
    defs: &[u16],
    count: usize,
    node: usize,
    e: usize,
    stack: &mut [u16],
) -> Result<Made, Refusal>
    requires ready { Ready defs.now types.old classes.old count × (e < count) }
    requires enough { 4096 ≤ length stack.old }
    ensures { Left defs.now types.old types.new classes.old classes.new result (filter (type_capacity (length types.old)) node defs.now test e (table_of types.old count)) }
{
    let passes_all = test == 0;
    if passes_all {
        return Ok(Made { at: e, count });
    }
    let mode = Mode::Sift(test);
    walk(mode, types, classes, defs, count, node, e, stack)
}

// The content of a type, and what a test word leaves of that.
pub fn child_rule(
    test: u16,
    types: &mut [u16],
    classes: &mut [u16],
    defs: &[u16],
    count: usize,
    node: usize,
    e: usize,
    stack: &mut [u16],
) -> Result<Made, Refusal>
    requires ready { Ready defs.now types.old classes.old count × (e < count) }
    requires enough { 4096 ≤ length stack.old }
    ensures { Left defs.now types.old types.new classes.old classes.new result (child_rule (type_capacity (length types.old)) node defs.now test e (table_of types.old count)) }
{
    let mode = Mode::Content;
    let inside = walk(mode, types, classes, defs, count, node, e, stack)?;
    let n = inside.count;
    filter(test, types, classes, defs, n, node, inside.at, stack)
}

// U.q: u itself for the class 1, else an opt, plus or star of it.
pub fn times(
    types: &mut [u16],
    classes: &mut [u16],
    count: usize,
    node: usize,
    u: usize,
    class: u16,
) -> Result<Made, Refusal>
    requires { (4096 ≤ length classes.old) × (u < 4096) }
    ensures { (D : Defs) → Ready D types.old classes.old count → u < count → Left D types.old types.new classes.old classes.new result (times (type_capacity (length types.old)) node u (class_of class) (table_of types.old count)) }
{
    let a = u as u16;
    let x = match Class::of_word(class) {
        Class::One => return Ok(Made { at: u, count }),
        Class::Maybe => Ty::Opt(a),
        Class::More => Ty::Plus(a),
        Class::Any => Ty::Star(a),
    };
    grow::append(types, classes, count, node, x.words())
}
