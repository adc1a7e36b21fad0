ghost use Rattle.std.specs.Prelude.{◌≡◌, IfOk};
ghost use Rattle.claim_syntax.specs.Joined as spec;

use crate::claim::Claim;
use rsml_syntax::{NoMemory, Spec};

/// The specification with the claims after its declarations. Out of memory, both are dropped.
pub fn joined(specification: Spec, claims: Vec<Claim>) -> Result<Spec, NoMemory>
    ensures { IfOk result (λ s. s ≡ spec.joined specification claims.items) }
{
    let mut joined = specification;
    for claim in claims {
        joined.decls.push(claim.into_declaration())?;
    }
    Ok(joined)
}
