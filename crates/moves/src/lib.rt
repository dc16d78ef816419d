// What queries add to the evaluations of their parts: an element's entry before its body, a source held for its variable, and bodies moved down over
// their source.
#![tactic(auto)]

ghost use Rattle.std.specs.Prelude.{◌≡◌, ◌+◌, ◌*◌, ◌≤◌, length, take, drop};
ghost use Rattle.words.specs.Tables.{stored};
ghost use Rattle.moves.specs.Moves.{Room, Wraps, Moves};

// An element's entry before its body of k entries.
pub fn wrap(rest: &mut [u16], l: u16, k: usize)
    requires { Room (length rest.old) 1 k }
    ensures { Wraps rest.old rest.new l k }
{
    let inside = k as u16;
    words::put_entry(rest, 0, 65, l, inside);
}

// The forest of the first k entries, held from entry `at` on.
pub fn hold(rest: &[u16], k: usize, held: &mut [u16], at: usize)
    requires { (3 * k ≤ length rest.now) × (3 * at + 3 * k ≤ length held.old) }
    ensures { held.new ≡ stored held.old (3 * at) (take (3 * k) rest.now) }
{
    let from = 3 * at;
    words::copy(&rest[..3 * k], &mut held[from..]);
}

// Bodies of m entries that stand behind a source of k entries, moved down over it.
pub fn down(rest: &mut [u16], k: usize, m: usize)
    requires { Room (length rest.old) k m }
    ensures { Moves rest.old rest.new k m }
{
    let start = 3 * k;
    let count = 3 * m;
    rest.copy_within(start..start + count, 0);
    let end = 3 * (k + m);
    words::clear(&mut rest[count..end]);
}
