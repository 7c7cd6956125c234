//! Things that a walk over what was taken has met.

ghost use Rattle.std.specs.Prelude.{◌≡◌, ◌||◌, not, IfOk};
ghost use Rattle.ca_model.specs.declared.values.Given.{Given as Thing};
ghost use Rattle.ca_model.specs.Hardened.{same_given};
ghost use Rattle.ca_wants.specs.Met.{met};

use ca_model::Given;
use ca_tree::NoMemory;
use std::collections::BTreeSet;

/// Whether a thing is met for the first time: a mutex or a block that its set doesn't have yet. It is there from now on. In
/// time of the logarithm of those that were met.
pub fn is_first(
    mutexes: &mut BTreeSet<u32>,
    blocks: &mut BTreeSet<u32>,
    thing: Given,
) -> Result<bool, NoMemory>
    ensures first { IfOk result (λ b. b ≡ not (met mutexes.old blocks.old thing)) }
    ensures met { IfOk result (λ b. (g : Thing) → met mutexes.new blocks.new g ≡ (same_given thing g || met mutexes.old blocks.old g)) }
{
    match thing {
        Given::Mutex(m) => {
            let first = mutexes.insert(m.0)?;
            Ok(first)
        }
        Given::Block(b) => {
            let first = blocks.insert(b)?;
            Ok(first)
        }
    }
}
