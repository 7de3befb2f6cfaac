//! Walks data sets piece by piece.
ghost use Rattle.std.specs.Prelude.{◌≡◌, ℕ, List, ◌++◌, None, OnOk, IfErr};
ghost use Rattle.sequence.specs.Consumed.{StandsAt, fault_of};
ghost use Rattle.dicomdir.specs.Walking.{IsGoing, IsSameSet, FailsIn};

use sequence::{Fault, Step, Walker};

/// Walks a piece of a data set to the end of the piece. Fails with the first fault of the data set.
pub fn walk_piece<const V: usize, const D: usize>(
    walker: &mut Walker<V, D>,
    piece: &[u8],
) -> Result<(), Fault>
    requires going { IsGoing walker.old }
    ensures along { OnOk result ((b : List ℕ) → StandsAt walker.old b → StandsAt walker.new (b ++ piece.now)) }
    ensures good { OnOk result (fault_of walker.new ≡ None) }
    ensures same { IsSameSet walker.old walker.new }
    ensures fails { IfErr result (FailsIn walker.old piece.now) }
{
    let mut rest = piece;
    while !rest.is_empty() {
        let (count, step) = walker.step(rest);
        if let Step::Refused(fault) = step {
            return Err(fault);
        }
        rest = &rest[count..];
    }
    Ok(())
}
