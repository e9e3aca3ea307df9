ghost use Rattle.std.specs.Prelude.{◌≡◌};

use crate::records::Member;
use std::marker::Model;

/// The members of a rejudging, in the order of its list. Contracts see a list.
#[derive(Debug, Drop)]
pub struct Members {
    members: Vec<Member>,
}

impl Model for Members {
    ghost use Rattle.std.specs.Prelude.{List};
    ghost use Rattle.farm_model.specs.declared.records.Member.{Member};

    ghost Value = { List Member };

    ghost view = { λ t. t.members.items };
}

impl Members {
    /// The members of a vector, without taking memory.
    pub fn from_vec(members: Vec<Member>) -> Members
        ensures { result ≡ members.items }
    {
        Members { members }
    }

    /// The members in order.
    pub fn as_slice(&self) -> &[Member]
        ensures { result.now ≡ self.now }
    {
        self.members.as_slice()
    }
}
