// The checks over types and definitions alone, for jobs and for answer files: 9, a name without definition; 10, a definition that reaches itself
// without entering an element.
#![tactic(auto)]

ghost use Rattle.std.specs.Prelude.{◌≡◌, ◌≤◌, ◌<◌, length};
ghost use Rattle.meaning.specs.Base.{lowest};
ghost use Rattle.meaning.specs.Types.{name_of};
ghost use Rattle.meaning.specs.Reach.{loops};
ghost use Rattle.meaning.specs.Formed.{DefsRead};
ghost use Rattle.meaning.specs.Checks.{is_undefined, undefined_name, check_types};
ghost use Rattle.words.specs.Says.{found};
ghost use Rattle.entries.specs.Says.{shown};
ghost use Rattle.guard.specs.Says.{outcome, Given};
ghost use Rattle.guard.specs.Sets.{bit, bit_at, Inside, set_of, merged, Laid, Filled, Begun, Joined, Closed};

use entries::Ty;
use refusals::{Reason, Refusal};
use tables::Types;

// Is the entry a name that has no definition.
#[tactic(auto, unfolding(meaning::specs::Types::name_of))]
fn is_undefined(x: Ty, defs: &[u16]) -> bool
    ensures { result ≡ is_undefined defs.now (name_of (shown x)) }
{
    match x {
        Ty::Name(d) => defs.len() <= usize::from(d),
        _ => false,
    }
}

// 9: the lowest name without definition.
fn undefined_name(types: &Types, defs: &[u16]) -> Option<usize>
    ensures { found result ≡ lowest (undefined_name defs.now types.now) (length types.now) }
{
    for i in 0..types.len() {
        if is_undefined(types.get(i), defs) {
            return Some(i);
        }
    }
    None
}

// Is the definition in the set.
fn has(set: u64, d: u64) -> bool
    requires { d < 64 }
    ensures { result ≡ bit set d }
{
    (set >> d) % 2 == 1
}

// The set, with another if it has definition k.
#[tactic(auto, unfolding(crate::specs::Sets::merged))]
fn joined(set: u64, other: u64, k: u64) -> u64
    requires { k < 64 }
    ensures { result ≡ merged set other k }
{
    if has(set, k) {
        return set | other;
    }
    set
}

// What an entry names without entering an element or a definition, from what the lower entries name: a name its definition; the others what stands
// in them names.
#[tactic(auto, unfolding(crate::specs::Sets::set_of))]
fn own_set(x: Ty, masks: &[u64]) -> u64
    requires { Inside (length masks.now) (shown x) }
    ensures { result ≡ set_of masks.now (shown x) }
{
    match x {
        Ty::Pair(a, b) | Ty::Union(a, b) => masks[usize::from(a)] | masks[usize::from(b)],
        Ty::Star(a) | Ty::Plus(a) | Ty::Opt(a) => masks[usize::from(a)],
        Ty::Name(d) => 1 << d,
        _ => 0,
    }
}

// The sets of all entries, from the lowest up: what stands in an entry is lower.
fn fill_masks(types: &Types, masks: &mut [u64])
    requires laid { Laid types.now }
    requires room { length types.now ≤ length masks.old }
    ensures { Filled types.now masks.new }
{
    for e in 0..types.len() {
        masks[e] = own_set(types.get(e), masks);
    }
}

// The set of each definition's entry.
fn fill_reach(defs: &[u16], masks: &[u64], reach: &mut [u64])
    requires room { length defs.now ≤ length reach.old }
    requires read { DefsRead (length masks.now) defs.now }
    ensures { Begun defs.now masks.now reach.new }
{
    for (d, entry) in defs.iter().enumerate() {
        reach[d] = masks[usize::from(*entry)];
    }
}

// The set of definition k joined to each set that has it.
fn join_through(reach: &mut [u64], k: usize)
    requires few { length reach.old ≤ 64 }
    requires inside { k < length reach.old }
    ensures { Joined (length reach.old) k reach.old reach.new }
{
    let other = reach[k];
    for set in reach.iter_mut() {
        *set = joined(*set, other, k as u64);
    }
}

// The sets of all definitions closed, through one definition after the other.
fn close_reach(reach: &mut [u64])
    requires few { length reach.old ≤ 64 }
    ensures { Closed (length reach.old) reach.old reach.new }
{
    for k in 0..reach.len() {
        join_through(reach, k);
    }
}

// The lowest definition that is in its own set.
fn lowest_circle(reach: &[u64]) -> Option<usize>
    requires few { length reach.now ≤ 64 }
    ensures { found result ≡ lowest (λ d. bit_at reach.now d d) (length reach.now) }
{
    for (d, set) in reach.iter().enumerate() {
        if has(*set, d as u64) {
            return Some(d);
        }
    }
    None
}

// 10: the lowest definition that reaches itself without entering an element, in at most as many steps as there are entries and the square of the
// definitions. `masks` has room for a set of each entry, `reach` one of each definition.
fn circle(types: &Types, defs: &[u16], masks: &mut [u64], reach: &mut [u64]) -> Option<usize>
    requires given { Given types.now defs.now }
    requires masks { length types.now ≤ length masks.old }
    requires reach { length reach.old ≡ length defs.now }
    ensures { found result ≡ lowest (loops defs.now types.now) (length defs.now) }
{
    fill_masks(types, masks);
    fill_reach(defs, masks, reach);
    close_reach(reach);
    lowest_circle(reach)
}

// The same with arrays for so many entries: clearing them is most of what a small table costs. A call of its own, so that only a table with definitions
// takes the stack for them, and only a large one that of the larger.
#[inline(never)]
fn circle_of<const N: usize>(types: &Types, defs: &[u16]) -> Option<usize>
    requires given { Given types.now defs.now }
    requires few { length types.now ≤ N }
    requires most { N ≤ 4096 }
    ensures { found result ≡ lowest (loops defs.now types.now) (length defs.now) }
{
    let mut masks = [0u64; N];
    let mut reach = [0u64; 64];
    circle(types, defs, &mut masks, &mut reach[..defs.len()])
}

// The same, with the arrays that the table needs. Without definitions there is no circle.
fn any_circle(types: &Types, defs: &[u16]) -> Option<usize>
    requires given { Given types.now defs.now }
    requires few { length types.now ≤ 4096 }
    ensures { found result ≡ lowest (loops defs.now types.now) (length defs.now) }
{
    if defs.is_empty() {
        return None;
    }
    let count = types.len();
    if count <= 256 {
        return circle_of::<256>(types, defs);
    }
    circle_of::<4096>(types, defs)
}

// 9, then 10, of at most 4,096 entries.
pub fn check_types(types: &Types, defs: &[u16]) -> Result<(), Refusal>
    requires given { Given types.now defs.now }
    requires few { length types.now ≤ 4096 }
    ensures { outcome result ≡ check_types defs.now types.now }
{
    if let Some(place) = undefined_name(types, defs) {
        let reason = Reason::NoDefinition;
        return Err(Refusal { reason, place });
    }
    if let Some(place) = any_circle(types, defs) {
        let reason = Reason::Circle;
        return Err(Refusal { reason, place });
    }
    Ok(())
}
