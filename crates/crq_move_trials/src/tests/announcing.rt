//! What announcements answer, by what a table starts with.
ghost use Rattle.crq_base.specs.Starts.{IsFirst};

use crate::tests::helping::{announces, next_pass, table_for};
use crq_base::{Announce, First};
use crq_current::EPOCHS_END;
use std::alloc::{AllocError, Global};
use std::test::Fail;

/// The generation of the last table that there may be.
const LAST: u32 = (1 << 30) - 2;

/// What a table starts with that has this generation and this epoch of current, or the nearest that there may be.
fn first_of(generation: u32, epoch: u32) -> First
    ensures { IsFirst result }
{
    First {
        epoch: epoch.min(EPOCHS_END),
        generation: generation.min(LAST).max(1),
        guard: 0,
    }
}

/// What two callers are answered, the first and then the second, where both announce a table.
fn answers(alloc: Global, first: First) -> Result<Option<(Announce, Announce)>, AllocError>
    requires { IsFirst first }
{
    let (table, mut places) = table_for(alloc, 2, first)?;
    let (Some(second), Some(first)) = (
        next_pass(&table, &mut places),
        next_pass(&table, &mut places),
    ) else {
        return Ok(None);
    };
    let told = announces(&table, first, 4, 1);
    Ok(Some((told, announces(&table, second, 2, 0))))
}

/// Where a table moves, that comes before the want of generations, and that before the want of epochs.
#[test]
fn each_answer_has_its_cause(rt: HostRuntime) -> Result<(), Fail> {
    let cases = [
        (1, 0, Announce::Set(2), Announce::Moving(2)),
        (LAST - 1, 0, Announce::Set(LAST), Announce::Moving(LAST)),
        (LAST, 0, Announce::Tables, Announce::Tables),
        (1, EPOCHS_END - 1, Announce::Set(2), Announce::Moving(2)),
        (1, EPOCHS_END, Announce::Epochs, Announce::Epochs),
        (LAST, EPOCHS_END, Announce::Tables, Announce::Tables),
    ];
    for (generation, epoch, first, second) in cases {
        let told = answers(rt.alloc(), first_of(generation, epoch))?;
        assert_eq!(rt;
            told,
            Some((first, second)),
            "generation {generation}, epoch {epoch}"
        );
    }
    Ok(())
}
