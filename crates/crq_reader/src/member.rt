//! The members of the model language.

ghost use Rattle.std.specs.Prelude.{◌≡◌};
ghost use Rattle.crq_reader.specs.Language.{member_word};

/// A member that the model language has, of the file, an object or a start.
#[derive(Clone, Copy, Debug, PartialEq, Eq)]
pub enum Member {
    Format,
    Lookahead,
    Until,
    Objects,
    Starts,
    Name,
    Kind,
    Delay,
    Next,
    Seed,
    Spread,
    Service,
    Targets,
    Time,
    Object,
    Data,
}

impl Member {
    /// The member's name in a file.
    pub fn word(&self) -> &'static str
        ensures { result.now ≡ member_word self.now }
    {
        match self {
            Member::Format => "format",
            Member::Lookahead => "lookahead",
            Member::Until => "until",
            Member::Objects => "objects",
            Member::Starts => "starts",
            Member::Name => "name",
            Member::Kind => "kind",
            Member::Delay => "delay",
            Member::Next => "next",
            Member::Seed => "seed",
            Member::Spread => "spread",
            Member::Service => "service",
            Member::Targets => "targets",
            Member::Time => "time",
            Member::Object => "object",
            Member::Data => "data",
        }
    }
}
