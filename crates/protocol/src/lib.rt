//! The protocol by which boards agree on a commitment vector and fetchers read a design back: messages, histories, logs, and the promises that hold over every log.
#![tactic(auto)]

ghost use Rattle.protocol.specs.Log.{Log, Valid};
ghost use Rattle.protocol.specs.Machines.{Machines};
ghost use Rattle.protocol.specs.Promises.{Promises, Possible};
ghost use Rattle.protocol.specs.Setting.{Setting, Laws};

pub use kind::Kind;

/// What the protocol promises: agreement, totality, knowledge and comparison over every valid log and every lawful setting; that its parties are machines; and that there is such a log.
pub fn promises()
    ensures kept { (S : Setting) → Laws S → (log : Log) → Valid S log → Promises S log }
    ensures stepwise { (S : Setting) → Machines S }
    ensures possible { Possible }
{}
