//! The setting that the parties run in: what the protocol takes as given holds over every field and every hash, and so do its promises.
#![tactic(auto)]

ghost use Rattle.std.specs.Prelude.{ℕ};
ghost use Rattle.protocol.specs.Log.{Log, Valid};
ghost use Rattle.protocol.specs.Promises.{Promises};
ghost use Rattle.protocol.specs.Setting.{Laws};
ghost use Rattle.setting.specs.Concrete.{setting};

use field::Field;
use hash::Hash;
use shape::Shape;

/// The laws that the protocol asks for hold over every field and every hash, whatever the shape and the number of fetchers, and so do its promises.
pub fn lawful<F: Field, D: Hash>(_shape: Shape)
    ensures laws { (f : ℕ) → Laws (setting F.arithmetic F.inverted D.hashes _shape.faults _shape.rows f) }
    ensures promises { (f : ℕ) (log : Log) → Valid (setting F.arithmetic F.inverted D.hashes _shape.faults _shape.rows f) log → Promises (setting F.arithmetic F.inverted D.hashes _shape.faults _shape.rows f) log }
{}
