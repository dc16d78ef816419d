// The tokens of a text in which designers type a query: the next one from an offset on, behind blanks. Bytes may be any.
#![tactic(auto)]

ghost use Rattle.std.specs.Prelude.{◌≡◌, List, ◌∷◌, ℕ, ◌+◌, ◌≤◌, min, length, get_or, drop};
ghost use Rattle.meaning.specs.Tokens.{words, signs, run, word_among, sign_among, decimal, token_at};
ghost use Rattle.tokens.specs.Says.{test_of, kind_of, Digits, Shows, Draws, Tells};

// A token: the end of the text, what is none, a decimal number (65,536 for all from there on), words, and signs: ( ) [ ] , # $ / // := =.
#[derive(Clone, Copy, Debug, PartialEq, Eq)]
pub enum Token {
    End,
    Strange,
    Number(u32),
    For,
    In,
    Return,
    Let,
    When,
    True,
    False,
    Empty,
    Not,
    Or,
    Node,
    Text,
    Opens,
    Closes,
    Inside,
    Outside,
    Comma,
    Hash,
    Dollar,
    Slash,
    Slashes,
    Gets,
    Equals,
}

// A token, the offset of its first byte, and the one behind its last.
#[derive(Clone, Copy, Debug, PartialEq, Eq)]
pub struct Placed {
    pub token: Token,
    pub place: usize,
    pub next: usize,
}

// What a byte may be one of.
#[derive(Clone, Copy, Debug, PartialEq, Eq)]
enum Class {
    Blank,
    Letter,
    Digit,
}

// Whether a byte is of a class: a space, a tab or a line end; a letter a to z; a digit.
fn passes(class: Class, c: u8) -> bool
    ensures { result ≡ test_of class c }
{
    match class {
        Class::Blank => matches!(c, b' ' | b'\t' | b'\n' | b'\r'),
        Class::Letter => matches!(c, b'a'..=b'z'),
        Class::Digit => matches!(c, b'0'..=b'9'),
    }
}

// Where the bytes of a class end that stand from an offset on.
fn run_end(class: Class, s: &[u8], at: usize) -> usize
    requires { at ≤ length s.now }
    ensures { result ≡ at + run (test_of class) (drop at s.now) }
{
    for i in at..s.len() {
        if !passes(class, s[i]) {
            return i;
        }
    }
    s.len()
}

// The number that decimal digits are, or 65,536 where it is more.
fn value_of(digits: &[u8]) -> u32
    requires { Digits digits.now }
    ensures { result ≡ min (decimal 0 digits.now) 65536 }
{
    let mut n = 0u32;
    for digit in digits {
        n = (10 * n + u32::from(*digit - b'0')).min(65536);
    }
    n
}

// The words.
const WORDS: [(&[u8], Token); 12] = [
    (b"for", Token::For),
    (b"in", Token::In),
    (b"return", Token::Return),
    (b"let", Token::Let),
    (b"when", Token::When),
    (b"true", Token::True),
    (b"false", Token::False),
    (b"empty", Token::Empty),
    (b"not", Token::Not),
    (b"or", Token::Or),
    (b"node", Token::Node),
    (b"text", Token::Text),
];

// The word of these letters.
fn word_of(letters: &[u8]) -> Token
    ensures { Shows (word_among words letters.now) result }
{
    for (word, token) in WORDS {
        if letters == word {
            return token;
        }
    }
    Token::Strange
}

// The sign that begins with byte c, the next byte being d, and how many bytes it has: what begins no sign is one strange byte.
#[tactic(auto, unfolding(meaning::specs::Tokens::signs, meaning::specs::Tokens::sign_among, meaning::specs::Forests::same_words))]
fn sign_of(c: u8, d: u8) -> (Token, usize)
    ensures drawn { (s : List ℕ) → d ≡ get_or s 0 0 → Draws (sign_among signs (c ∷ s)) result }
    ensures short { result.1 ≤ 2 }
{
    match (c, d) {
        (b'(', _) => (Token::Opens, 1),
        (b')', _) => (Token::Closes, 1),
        (b'[', _) => (Token::Inside, 1),
        (b']', _) => (Token::Outside, 1),
        (b',', _) => (Token::Comma, 1),
        (b'#', _) => (Token::Hash, 1),
        (b'$', _) => (Token::Dollar, 1),
        (b'/', b'/') => (Token::Slashes, 2),
        (b'/', _) => (Token::Slash, 1),
        (b':', b'=') => (Token::Gets, 2),
        (b'=', _) => (Token::Equals, 1),
        _ => (Token::Strange, 1),
    }
}

// The byte at a place, or 0 behind the last.
fn byte_at(s: &[u8], at: usize) -> u8
    ensures { result ≡ get_or s.now at 0 }
{
    s.get(at).copied().unwrap_or(0)
}

// The next token from an offset on.
pub fn token_at(s: &[u8], at: usize) -> Placed
    requires { at ≤ length s.now }
    ensures { Tells (token_at s.now at) result }
{
    let place = run_end(Class::Blank, s, at);
    if place == s.len() {
        return Placed {
            token: Token::End,
            place,
            next: place,
        };
    }
    let c = s[place];
    if passes(Class::Letter, c) {
        let next = run_end(Class::Letter, s, place);
        let token = word_of(&s[place..next]);
        return Placed { token, place, next };
    }
    if passes(Class::Digit, c) {
        let next = run_end(Class::Digit, s, place);
        let n = value_of(&s[place..next]);
        return Placed {
            token: Token::Number(n),
            place,
            next,
        };
    }
    let (token, bytes) = sign_of(c, byte_at(s, place + 1));
    let next = place + bytes;
    Placed { token, place, next }
}

// The number of a token.
pub fn kind_of(token: Token) -> u16
    ensures { result ≡ kind_of token }
{
    match token {
        Token::End => 0,
        Token::Strange => 1,
        Token::Number(_) => 2,
        Token::For => 3,
        Token::In => 4,
        Token::Return => 5,
        Token::Let => 6,
        Token::When => 7,
        Token::True => 8,
        Token::False => 9,
        Token::Empty => 10,
        Token::Not => 11,
        Token::Or => 12,
        Token::Node => 13,
        Token::Text => 14,
        Token::Opens => 15,
        Token::Closes => 16,
        Token::Inside => 17,
        Token::Outside => 18,
        Token::Comma => 19,
        Token::Hash => 20,
        Token::Dollar => 21,
        Token::Slash => 22,
        Token::Slashes => 23,
        Token::Gets => 24,
        Token::Equals => 25,
    }
}
