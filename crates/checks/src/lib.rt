// The checks of a whole job, 8 to 12, tried in that order.
#![tactic(auto)]

ghost use Rattle.std.specs.Prelude.{◌≡◌, ◌≤◌, length};
ghost use Rattle.meaning.specs.Base.{refuse_at};
ghost use Rattle.meaning.specs.Types.{Defs};
ghost use Rattle.meaning.specs.Records.{Tables};
ghost use Rattle.meaning.specs.Formed.{Formed};
ghost use Rattle.meaning.specs.Checks.{check_job};
ghost use Rattle.words.specs.Says.{found};
ghost use Rattle.refusals.specs.Says.{number_of};
ghost use Rattle.guard.specs.Says.{outcome};
ghost use Rattle.atoms.specs.Marks.{Typed, Scoped};
ghost use Rattle.uses.specs.Counts.{Lowers};
ghost use Rattle.checks.specs.Says.{passed, from_vars, Ready, Stored};

use refusals::{Reason, Refusal};
use tables::{Nodes, Types, Vars};

// A refusal, if what it is about was found.
fn refuse_at(reason: Reason, at: Option<usize>) -> Result<(), Refusal>
    ensures { outcome result ≡ refuse_at (number_of reason) (found at) }
{
    match at {
        Some(place) => Err(Refusal { reason, place }),
        None => Ok(()),
    }
}

// 11, then 12.
fn check_vars_uses(types: &Types, vars: &Vars, code: &Nodes) -> Result<(), Refusal>
    requires typed { Typed types.now }
    requires few { length types.now ≤ 4096 }
    requires scoped { Scoped (length types.now) vars.now }
    requires lowers { Lowers code.now }
    ensures { (D : Defs) → Formed D types.now → outcome result ≡ from_vars D types.now vars.now code.now }
{
    let tangled = atoms::tangled(types, vars);
    refuse_at(Reason::NotTrees, tangled)?;
    let misused = uses::misuse(code);
    refuse_at(Reason::NotUsedOnce, misused)
}

// 8, then 9 and 10, then 11 and 12, of a job of so many bytes.
pub fn check_job(
    bytes: usize,
    types: &Types,
    defs: &[u16],
    vars: &Vars,
    code: &Nodes,
) -> Result<(), Refusal>
    requires { Ready types.now defs.now vars.now code.now }
    ensures { (t : Tables) → Stored types.now defs.now vars.now code.now t → passed t result ≡ check_job bytes t }
{
    if !uses::has_root(code) {
        let reason = Reason::NoQuery;
        return Err(Refusal {
            reason,
            place: bytes,
        });
    }
    guard::check_types(types, defs)?;
    check_vars_uses(types, vars, code)
}
