ghost use Rattle.std.specs.Prelude.{◌≡◌, All, IfOk};
ghost use Rattle.fx_designs.specs.Vectors.{IsVector};
ghost use Rattle.fx_vectors.specs.Shape.{IsShape};
ghost use Rattle.fx_vectors.specs.Question.{requirement_of};
ghost use Rattle.fx_alias.specs.Aliasing.{listed_components};

use fx_base::{Items, NoMemory};
use fx_components::list_components;
use fx_statements::listed_factors;
use fx_vectors::{Demands, Shape, Vector};
use std::alloc::Global;

/// The components that the sections of a step list, by what it demands.
pub(crate) fn listed_components(
    alloc: Global,
    demands: &Demands,
    shape: Shape,
) -> Result<Items<Vector>, NoMemory>
    requires { IsShape shape }
    ensures components { IfOk result (λ found. found
        ≡ listed_components shape.q shape.s (requirement_of demands.now)) }
    ensures each { IfOk result (All (λ u. IsVector shape.q shape.s u)) }
{
    list_components(
        alloc,
        shape.q,
        shape.s,
        listed_factors(demands).min(shape.s),
    )
}
