// A type table that typing grows, an entry at a time, with the class of every entry beside it. `append` adds an entry; `read` gives the words of one.
#![tactic(auto)]

ghost use Rattle.std.specs.Prelude.{◌*◌, ◌<◌, ◌≤◌, length};
ghost use Rattle.meaning.specs.Base.{type_width, type_capacity};
ghost use Rattle.meaning.specs.Types.{Entry, Defs};
ghost use Rattle.meaning.specs.Rules.{append};
ghost use Rattle.words.specs.Tables.{table_of};
ghost use Rattle.grow.specs.Grow.{Shows, Ready, Left, New};

use refusals::{Reason, Refusal};

// What a rule answers where it refuses nothing: an entry's number, and how many entries there are then.
#[derive(Clone, Copy, Debug, PartialEq, Eq)]
pub struct Made {
    pub at: usize,
    pub count: usize,
}

// kept: types, classes and count as parameters: a struct of the two `&mut` would have to say in each contract that it still holds the same references.

// The words of entry e of the first `count`.
pub fn read(types: &[u16], count: usize, e: usize) -> words::Entry
    requires { (e < count) × (type_width * count ≤ length types.now) }
    ensures { Shows (table_of types.now count) e result }
{
    words::read_entry(types, e)
}

// One more entry, of these words, with its class, for a query node: refused there if the table is full.
#[inline(always)]
pub fn append(
    types: &mut [u16],
    classes: &mut [u16],
    count: usize,
    node: usize,
    x: words::Entry,
) -> Result<Made, Refusal>
    requires { 4096 ≤ length classes.old }
    ensures { (D : Defs) (y : Entry) → New count x.kind x.a x.b y → Ready D types.old classes.old count → Left D types.old types.new classes.old classes.new result (append (type_capacity (length types.old)) node y (table_of types.old count)) }
{
    let room = words::type_room(types);
    if count < room {
        let c = classes::class_of(x.kind, x.a, x.b, classes);
        words::put_entry(types, count, x.kind, x.a, x.b);
        classes[count] = c;
        return Ok(Made {
            at: count,
            count: count + 1,
        });
    }
    Err(Refusal {
        reason: Reason::TypesFull,
        place: node,
    })
}
