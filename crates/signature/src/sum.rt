ghost use Rattle.cells.specs.Cells.{cell};
ghost use Rattle.signature.specs.Polynomials.{sum_of};
ghost use Rattle.signature.specs.Steps.{Holds};

use std::array;

// The cells of the sum.
pub fn sum(x: &[u16; 512], y: &[u16; 512]) -> [u16; 512]
    ensures { Holds result (sum_of (cell x.now) (cell y.now)) }
{
    array::from_fn(|p| x[p].wrapping_add(y[p]))
}
