//! The kinds of objects from their words.

ghost use Rattle.std.specs.Prelude.{◌≡◌, IfSome, IfNone};
ghost use Rattle.crq_sim.specs.Kinds.{kind_word};
ghost use Rattle.crq_sim.specs.declared.model.BehaviourName.{BehaviourName};

use crq_sim::BehaviourName;
use std::str;

/// What objects of this word do.
pub(crate) fn kind_of(word: &[u8]) -> Option<BehaviourName>
    ensures kind { IfSome result (λ k. word.now ≡ kind_word k) }
    ensures none { IfNone result ((k : BehaviourName) → word.now ≡ kind_word k → ⊥) }
{
    match str::from_utf8(word) {
        Ok(word) => BehaviourName::from_word(word),
        Err(_) => None,
    }
}
