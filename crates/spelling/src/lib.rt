// One piece of a query's text, spelled into a lent buffer: a word, a sign or a decimal number, with a blank before it or without. What has no room is
// left out, and its length counted.
#![tactic(auto)]

ghost use Rattle.std.specs.Prelude.{◌≡◌, [], ◌∷◌, length};
ghost use Prim.Native.Nat.{◌+◌, ◌≤◌};
ghost use Rattle.meaning.specs.Written.{digits, piece_bytes, is_wide, between};
ghost use Rattle.spelling.specs.Says.{spelled, Spells};

// A byte, where there is room for it.
fn put_byte(out: &mut [u8], at: usize, byte: u8)
    ensures { Spells at (at + 1) (byte ∷ []) out.old out.new }
{
    if out.len() <= at {
        return;
    }
    out[at] = byte;
}

// Bytes one behind the other; the place behind them.
fn put_bytes(out: &mut [u8], at: usize, bytes: &[u8]) -> usize
    requires near { at ≤ 1048576 }
    requires few { length bytes.now ≤ 6 }
    ensures { Spells at result bytes.now out.old out.new }
{
    let mut next = at;
    for byte in bytes {
        put_byte(out, next, *byte);
        next += 1;
    }
    next
}

// A decimal number of at most so many digits.
// kept: the library writes numbers too, but to a slice it tells no bytes, and digits that have no room are counted here.
fn put_digits(out: &mut [u8], at: usize, most: usize, n: u16) -> usize
    requires { (at ≤ 1048576) × (most ≤ 5) }
    ensures { Spells at result (digits most n) out.old out.new }
{
    if most == 0 {
        return at;
    }
    if n < 10 {
        put_byte(out, at, b'0' + n as u8);
        return at + 1;
    }
    let next = put_digits(out, at, most - 1, n / 10);
    put_byte(out, next, b'0' + (n % 10) as u8);
    next + 1
}

// The bytes of a word or a sign by its number; what has none has no bytes.
#[tactic(auto, unfolding(meaning::specs::Base::find, meaning::specs::Tokens::words, meaning::specs::Tokens::signs))]
fn letters(kind: u16) -> &'static [u8]
    ensures are { result.now ≡ spelled kind }
    ensures few { length result.now ≤ 6 }
{
    match kind {
        3 => b"for",
        4 => b"in",
        5 => b"return",
        6 => b"let",
        7 => b"when",
        8 => b"true",
        9 => b"false",
        10 => b"empty",
        11 => b"not",
        12 => b"or",
        13 => b"node",
        14 => b"text",
        15 => b"(",
        16 => b")",
        17 => b"[",
        18 => b"]",
        19 => b",",
        20 => b"#",
        21 => b"$",
        22 => b"/",
        23 => b"//",
        24 => b":=",
        25 => b"=",
        _ => b"",
    }
}

// A word or a sign by its number.
fn put_sign(out: &mut [u8], at: usize, kind: u16) -> usize
    requires { at ≤ 1048576 }
    ensures { Spells at result (spelled kind) out.old out.new }
{
    put_bytes(out, at, letters(kind))
}

// One space, or none.
pub fn space(out: &mut [u8], at: usize, wide: bool) -> usize
    requires { at ≤ 1048576 }
    ensures { Spells at result (between wide) out.old out.new }
{
    if wide {
        put_byte(out, at, b' ');
        return at + 1;
    }
    at
}

// A piece: a decimal number has a value, a word or a sign has none; the place behind it.
pub fn put(out: &mut [u8], at: usize, kind: u16, value: u16) -> usize
    requires { at ≤ 1048576 }
    ensures { Spells at result (piece_bytes (kind, value)) out.old out.new }
{
    if kind == 2 {
        return put_digits(out, at, 5, value);
    }
    put_sign(out, at, kind)
}

// Whether a piece is a word, := or =, which want a space beside them.
pub fn is_wide(kind: u16) -> bool
    ensures { (v : Prim.Native.Nat.ℕ) → result ≡ is_wide (kind, v) }
{
    let is_word = (3..=14).contains(&kind);
    is_word || kind == 24 || kind == 25
}
