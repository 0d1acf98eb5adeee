//! The rule of the table, as `atomic_table` takes it.

use crate::layout::Start;
use crate::view::View;
use atomic_table::{Join, Split, TableRule};

/// The words and the views of all seats stand for a state of the queue that meets the invariant.
pub struct TableLaw;

impl TableRule<(), View, Start> for TableLaw {
    ghost use Rattle.crq_rule.specs.Rule.{Stands, first_view};

    ghost holds = { λ key s. Stands key s };

    ghost first = { λ key. first_view key };
}

/// Takes in the parts of another seat.
pub struct JoinedParts;

impl Join<View> for JoinedParts {
    ghost use Rattle.crq_rule.specs.Rule.{joined, spent};

    ghost both = { joined };

    ghost spent = { spent };
}

/// Cuts off all parts but the first.
pub struct FirstPart;

impl Split<View> for FirstPart {
    ghost use Rattle.crq_rule.specs.Rule.{head_view, tail_view};

    ghost left = { head_view };

    ghost right = { tail_view };
}
