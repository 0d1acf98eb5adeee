//! How many exchanges a move takes that one caller makes alone.
use crate::tests::helping::{announced, finish, helper, opened};
use crate::tests::moved::{is_moved, looker};
use crq_base::Memory;
use std::test::Fail;

/// Enough exchanges for ten events, from 8 lists into 16: one for each head of both tables, 8 for each event, and 3.
const TURNS: u32 = 8 + 16 + 8 * 10 + 3;

/// Ten events are moved within these exchanges, where no other caller makes a step.
#[test]
fn one_caller_moves_ten_events_in_its_turns(rt: HostRuntime) -> Result<(), Fail> {
    let times = [4, 3, 3, 12, 4, 3, 2, 4, 11, 20];
    let Some((table, mut places)) = announced(rt.alloc(), &times, 4, 1)? else {
        return Err(Fail::from(Memory));
    };
    let Some((mut looker, control)) = looker(&table, &mut places) else {
        return Err(Fail::from(Memory));
    };
    let Some(mut alone) = helper(&table, &mut places) else {
        return Err(Fail::from(Memory));
    };
    assert_eq!(rt; finish(&table, &mut alone), opened(&control));
    assert!(rt; alone.1.turns <= TURNS, "{} exchanges", alone.1.turns);
    assert!(rt; is_moved(rt.alloc(), &table, &mut looker, &control, &times)?);
    Ok(())
}
