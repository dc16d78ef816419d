// Steps of the text form's parser that read a token or two and make no node: the sign or word that must come, a number in its range, a variable, and a test.
// Refusals 22, 6 and 23, each at its token's first byte.
#![tactic(auto)]

ghost use Rattle.std.specs.Prelude.{◌≤◌, ◌<◌, length};
ghost use Rattle.meaning.specs.Texts.{here, expect, number_in, variable_at, test_at};
ghost use Rattle.tokens.specs.Says.{kind_of};
ghost use Rattle.steps.specs.Says.{Opens, Goes, Gives};

use refusals::{Reason, Refusal};
use tokens::Token;

// A number, and where the text goes on.
#[derive(Clone, Copy, Debug, PartialEq, Eq)]
pub struct Got {
    pub value: u16,
    pub next: usize,
}

// Past the sign, word or number that must come, which is not the end: where the text goes on. Any number will do where one must come, so kinds are compared.
pub fn expect(s: &[u8], at: usize, wanted: Token) -> Result<usize, Refusal>
    requires inside { at ≤ length s.now }
    requires not_end { 0 < kind_of wanted }
    ensures { Goes s.now at result (λ n. expect s.now (kind_of wanted) (here at n)) }
{
    expect_kind(s, at, tokens::kind_of(wanted))
}

// The same by a token's kind, whichever it is but the end's.
pub fn expect_kind(s: &[u8], at: usize, kind: u16) -> Result<usize, Refusal>
    requires inside { at ≤ length s.now }
    requires not_end { 0 < kind }
    ensures { Goes s.now at result (λ n. expect s.now kind (here at n)) }
{
    let t = tokens::token_at(s, at);
    let is_wanted = tokens::kind_of(t.token) == kind;
    if !is_wanted {
        return Err(Refusal {
            reason: Reason::NoSuchText,
            place: t.place,
        });
    }
    Ok(t.next)
}

// A number that must come, from one to another.
pub fn number_in(s: &[u8], at: usize, low: u32, high: u32) -> Result<Got, Refusal>
    requires inside { at ≤ length s.now }
    requires order { low ≤ high }
    requires small { high ≤ 65535 }
    ensures { Gives s.now at result (λ n. number_in s.now low high (here at n)) }
{
    let t = tokens::token_at(s, at);
    let Token::Number(n) = t.token else {
        return Err(Refusal {
            reason: Reason::NoSuchText,
            place: t.place,
        });
    };
    let fits = (low..=high).contains(&n);
    if !fits {
        return Err(Refusal {
            reason: Reason::Unfit,
            place: t.place,
        });
    }
    Ok(Got {
        value: n as u16,
        next: t.next,
    })
}

// Whether one more may be open where so many are: 100 at most, else 23 at the one too many.
pub fn check_depth(deep: u16, place: usize) -> Result<(), Refusal>
    ensures { Opens deep place result }
{
    let is_full = 100 <= deep;
    if is_full {
        return Err(Refusal {
            reason: Reason::TooDeep,
            place,
        });
    }
    Ok(())
}

// `$` and a variable number.
pub fn variable_at(s: &[u8], at: usize) -> Result<Got, Refusal>
    requires { at ≤ length s.now }
    ensures { Gives s.now at result (λ n. variable_at s.now (here at n)) }
{
    let next = expect(s, at, Token::Dollar)?;
    number_in(s, next, 0, 63)
}

// `node`, `text` or a label number, as a test word.
pub fn test_at(s: &[u8], at: usize) -> Result<Got, Refusal>
    requires { at ≤ length s.now }
    ensures { Gives s.now at result (λ n. test_at s.now (here at n)) }
{
    let t = tokens::token_at(s, at);
    let next = t.next;
    match t.token {
        Token::Node => Ok(Got { value: 0, next }),
        Token::Text => Ok(Got { value: 65535, next }),
        _ => number_in(s, at, 1, 65534),
    }
}
