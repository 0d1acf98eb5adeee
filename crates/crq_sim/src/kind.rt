//! The kinds of objects and their words.

ghost use Rattle.std.specs.Prelude.{◌≡◌, IfSome, IfNone, Some};
ghost use Rattle.crq_sim.specs.Kinds.{kind_of, kind_word};
ghost use Rattle.crq_sim.specs.declared.model.BehaviourName.{BehaviourName};

use crate::model::{Behaviour, BehaviourName};

impl Behaviour {
    /// The behaviour without its numbers.
    pub fn kind(&self) -> BehaviourName
        ensures { result ≡ kind_of self.now }
    {
        match self {
            Behaviour::Relay { .. } => BehaviourName::Relay,
            Behaviour::Phold { .. } => BehaviourName::Phold,
            Behaviour::Station { .. } => BehaviourName::Station,
            Behaviour::Fan { .. } => BehaviourName::Fan,
            Behaviour::Sink => BehaviourName::Sink,
        }
    }
}

impl BehaviourName {
    /// The word that stands for the kind in models and traces.
    pub fn word(&self) -> &'static str
        ensures { result.now ≡ kind_word self.now }
    {
        match self {
            BehaviourName::Relay => "relay",
            BehaviourName::Phold => "phold",
            BehaviourName::Station => "station",
            BehaviourName::Fan => "fan",
            BehaviourName::Sink => "sink",
        }
    }

    /// The kind that a word stands for, or None where it stands for none.
    pub fn from_word(word: &str) -> Option<BehaviourName>
        ensures word { IfSome result (λ kind. word.now ≡ kind_word kind) }
        ensures kind { (kind : BehaviourName) → word.now ≡ kind_word kind → result ≡ Some kind }
        ensures none { IfNone result ((kind : BehaviourName) → word.now ≡ kind_word kind → ⊥) }
    {
        match word {
            "relay" => Some(BehaviourName::Relay),
            "phold" => Some(BehaviourName::Phold),
            "station" => Some(BehaviourName::Station),
            "fan" => Some(BehaviourName::Fan),
            "sink" => Some(BehaviourName::Sink),
            _ => None,
        }
    }
}
