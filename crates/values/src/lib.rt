// A values file into a lent work table: 18 over the whole file, then 19, then 20.
#![tactic(auto)]

ghost use Rattle.std.specs.Prelude.{◌≡◌, [], ◌∷◌, ◌+◌, ◌*◌, ◌≤◌, length};
ghost use Rattle.meaning.specs.Base.{forest_width, work_capacity};
ghost use Rattle.meaning.specs.Values.{value_at, read_forest, read_value, read_values, load_values};
ghost use Rattle.refusals.specs.Says.{told};
ghost use Rattle.values.specs.Says.{wrong_at, Stands, is_entry, entry_at, head_at, words_of, Adds, Reads, Single, Odd, Gives, Deep, Blank, Scans, judged, Fitting, Settles, Left};

use refusals::{Reason, Refusal};
use tables::Vars;

// A record of a values file: its kind, its fields (one that it does not have is 0), and the place after it.
#[derive(Clone, Copy)]
struct Line {
    kind: u16,
    a: u16,
    b: u16,
    next: usize,
}

// 18 at a place.
fn wrong(place: usize) -> Refusal
    ensures { result ≡ wrong_at place }
{
    let reason = Reason::WrongValues;
    Refusal { reason, place }
}

// The record that is due at a place, whose fields fit.
fn value_at(s: &[u8], at: usize) -> Result<Line, Refusal>
    requires { at ≤ length s.now }
    ensures { Stands (value_at s.now at) result }
{
    let Ok(i) = records::value_at(s, at) else {
        return Err(wrong(at));
    };
    if !records::value_fits(i) {
        return Err(wrong(at));
    }
    Ok(Line {
        kind: i.kind,
        a: i.a,
        b: i.b,
        next: i.next,
    })
}

// Whether a record of this kind is an entry of a forest.
fn is_entry(kind: u16) -> bool
    ensures { result ≡ is_entry kind }
{
    matches!(kind, 64 | 65)
}

// The entry that is due at a place, with so many more to come in its stretch.
fn entry_at(s: &[u8], at: usize, left: u16) -> Result<Line, Refusal>
    requires { at ≤ length s.now }
    ensures { Stands (entry_at s.now at left) result }
{
    let x = value_at(s, at)?;
    if !is_entry(x.kind) {
        return Err(wrong(at));
    }
    if left < x.b {
        return Err(wrong(at));
    }
    Ok(x)
}

// The record 66 that is due at a place, for the variable v.
fn head_at(s: &[u8], at: usize, v: u16) -> Result<Line, Refusal>
    requires { at ≤ length s.now }
    ensures { Stands (head_at v s.now at) result }
{
    let x = value_at(s, at)?;
    if x.kind != 66 || x.a != v {
        return Err(wrong(at));
    }
    Ok(x)
}

// The entries in the front of a work table: for how many there is room, how many were read, and where the first record without room stands.
#[derive(Clone, Copy)]
struct Kept {
    room: usize,
    entries: usize,
    full: Option<usize>,
}

impl Kept {
    // One entry more, whose record stands at a place: it is stored where there is room.
    fn keep(&mut self, work: &mut [u16], x: Line, at: usize)
        requires long { forest_width * self.old.room ≤ length work.old }
        requires few { self.old.entries ≤ 2097152 }
        ensures { Adds (length work.old) work.old self.old work.new self.new (words_of x) (at ∷ []) }
    {
        let e = self.entries;
        self.entries += 1;
        if e < self.room {
            words::put_entry(work, e, x.kind, x.a, x.b);
        } else {
            self.full = self.full.or(Some(at));
        }
    }
}

// Reads the n records of a forest from a place on, and gives the place behind it. `stack` has for each open stretch how many of its records are still to
// come, the innermost last.
fn read_forest(
    s: &[u8],
    start: usize,
    n: u16,
    stack: &mut [u16],
    work: &mut [u16],
    kept: &mut Kept,
) -> Result<usize, Refusal>
    requires inside { start ≤ length s.now }
    requires deep { Deep s.now (length stack.old) }
    requires long { forest_width * kept.old.room ≤ length work.old }
    requires few { kept.old.entries ≤ 1048576 }
    ensures { Reads (length work.old) work.old kept.old work.new kept.new (read_forest n s.now start n) result }
{
    stack[0] = n;
    let mut depth: usize = 1;
    let mut at = start;
    while 0 < depth {
        let left = stack[depth - 1];
        if left == 0 {
            depth -= 1;
        } else {
            let x = entry_at(s, at, left - 1)?;
            kept.keep(work, x, at);
            stack[depth - 1] = left - 1 - x.b;
            stack[depth] = x.b;
            depth += 1;
            at = x.next;
        }
    }
    Ok(at)
}

// Whether the forest of the n records from a place on, once it is read, is one tree: its first record has all the others inside.
fn one_tree(s: &[u8], start: usize, n: u16) -> bool
    requires { start ≤ length s.now }
    ensures { Single (read_forest n s.now start n) result }
{
    if n == 0 {
        return false;
    }
    let Ok(x) = entry_at(s, start, n - 1) else {
        return false;
    };
    x.b == n - 1
}

// Whether a variable of this kind, 17 or 18, with the forest of the n records from a place on is a tree variable without exactly one tree.
fn is_odd(kind: u16, s: &[u8], start: usize, n: u16) -> bool
    requires { start ≤ length s.now }
    ensures { Odd kind (read_forest n s.now start n) result }
{
    let is_tree = kind == 17;
    is_tree && !one_tree(s, start, n)
}

// A variable's value that was read: the place behind it, and whether it is a tree variable's without exactly one tree.
#[derive(Clone, Copy)]
struct Valued {
    next: usize,
    odd: bool,
}

// Reads the value of the variable v, of a kind, from a place on.
fn read_value(
    s: &[u8],
    at: usize,
    kind: u16,
    v: u16,
    stack: &mut [u16],
    work: &mut [u16],
    kept: &mut Kept,
) -> Result<Valued, Refusal>
    requires inside { at ≤ length s.now }
    requires deep { Deep s.now (length stack.old) }
    requires long { forest_width * kept.old.room ≤ length work.old }
    requires few { kept.old.entries ≤ 1048576 }
    ensures { Gives kind (length work.old) work.old kept.old work.new kept.new (read_value v s.now at) result }
{
    let x = head_at(s, at, v)?;
    let next = read_forest(s, x.next, x.b, stack, work, kept)?;
    let odd = is_odd(kind, s, x.next, x.b);
    Ok(Valued { next, odd })
}

// What reading all values finds: the place of 19, and the entries, with the place of 20.
#[derive(Clone, Copy)]
struct Scan {
    odd: Option<usize>,
    kept: Kept,
}

// Reads the values of the declared variables into the front of a work table, and the ends of their forests into `ends`.
fn read_values(
    s: &[u8],
    vars: &Vars,
    stack: &mut [u16],
    ends: &mut [u16],
    work: &mut [u16],
    room: usize,
) -> Result<Scan, Refusal>
    requires { Blank s.now vars.now stack.old ends.old work.old room }
    ensures { Scans room (length work.old) (read_values vars.now s.now 0) ends.new work.new result }
{
    let mut at: usize = 0;
    let mut odd = None;
    let mut kept = Kept {
        room,
        entries: 0,
        full: None,
    };
    for i in 0..vars.len() {
        let x = vars.get(i);
        let value = read_value(s, at, x.kind, x.a, stack, work, &mut kept)?;
        odd = odd.or(value.odd.then_some(at));
        ends[i] = kept.entries.min(room) as u16;
        at = value.next;
    }
    if at < s.len() {
        return Err(wrong(at));
    }
    Ok(Scan { odd, kept })
}

// How many entries were read, or the first of the refusals.
fn judged(scan: Result<Scan, Refusal>) -> Result<usize, Refusal>
    ensures { told result ≡ judged scan }
{
    let scan = scan?;
    if let Some(place) = scan.odd {
        let reason = Reason::NotOneTree;
        return Err(Refusal { reason, place });
    }
    if let Some(place) = scan.kept.full {
        let reason = Reason::ValuesFull;
        return Err(Refusal { reason, place });
    }
    Ok(scan.kept.entries)
}

// How many entries the values have, and for each declared variable the entry behind its forest.
#[derive(Clone, Copy, Debug, PartialEq, Eq)]
pub struct Loaded {
    pub entries: usize,
    pub ends: [u16; 16],
}

// The answer after all values are read: the work table is cleared behind them, or all of it.
#[tactic(auto, using(crate::proofs::Settling::passed_low))]
fn settle(scan: Result<Scan, Refusal>, ends: [u16; 16], work: &mut [u16]) -> Result<Loaded, Refusal>
    requires { Fitting scan work.old }
    ensures { Settles (length work.old) scan ends work.old result work.new }
{
    match judged(scan) {
        Ok(entries) => {
            words::clear_behind(work, entries);
            Ok(Loaded { entries, ends })
        }
        Err(refusal) => {
            words::clear(work);
            Err(refusal)
        }
    }
}

// The values into the work table, with a stack for so many open stretches: clearing it is most of what a small file costs.
fn load_with<const N: usize>(s: &[u8], vars: &Vars, work: &mut [u16]) -> Result<Loaded, Refusal>
    requires few { length vars.now ≤ 16 }
    requires deep { Deep s.now N }
    requires most { N ≤ 65536 }
    ensures { Left (length work.old) result work.new (load_values (work_capacity (length work.old)) vars.now s.now) }
{
    let room = words::work_room(work);
    let mut stack = [0u16; N];
    let mut ends = [0u16; 16];
    let scan = read_values(s, vars, &mut stack, &mut ends, work, room);
    settle(scan, ends, work)
}

// Loads a values file into a lent work table: of any bytes, and of any lengths. A refusal leaves every word of it zero. Stretches may nest as deep as
// a variable has records.
pub fn load(file: &[u8], vars: &Vars, work: &mut [u16]) -> Result<Loaded, Refusal>
    requires few { length vars.now ≤ 16 }
    ensures { Left (length work.old) result work.new (load_values (work_capacity (length work.old)) vars.now file.now) }
{
    if file.len() <= 1000 {
        return load_with::<256>(file, vars, work);
    }
    if file.len() <= 32000 {
        return load_with::<8192>(file, vars, work);
    }
    load_with::<65536>(file, vars, work)
}
