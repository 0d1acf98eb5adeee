//! A calendar is a set of events that several callers share.

use crate::calendar::{Calendar, Whole};
use crq_base::{Event, Short, TakeEnd};
use crq_rows::{Pass, Passes};
use crq_set::EventSet;
use std::sync::Wait;

impl EventSet for Calendar {
    ghost use Rattle.crq_queue.specs.Sets.{setup_of, pass_view, place_views, ArePlaced};
    ghost use Rattle.crq_queue.specs.Wholes.{MayGather, IsWhole, history_of};

    type Pass = Pass;

    type Passes = Passes;

    type Whole = Whole;

    ghost setup = { λ s. setup_of s.table };

    ghost view = { λ p. pass_view p };

    ghost is_of = { λ s p. MayGather s.table p };

    ghost places = { λ ps. place_views ps.places.items };

    ghost are_of = { λ s ps. ArePlaced s.table ps.places.items };

    ghost history = { λ w. history_of w };

    ghost is_whole = { λ s w. IsWhole s.table w };

    fn put<R: Wait>(&self, rt: &R, pass: &mut Pass, event: &Event) -> Result<(), Short> {
        Calendar::put(self, rt, pass, event)
    }

    fn take<R: Wait>(&self, rt: &R, pass: &mut Pass, limit: u64) -> Result<TakeEnd, Short> {
        Calendar::take(self, rt, pass, limit)
    }

    fn gather(&self, passes: Passes) -> Whole {
        Calendar::gather(self, passes)
    }

    fn deal(&self, whole: Whole, span: u32) -> Passes {
        Calendar::deal(self, whole, span)
    }

    fn lift(&self, passes: &mut Passes, number: u32) -> Pass {
        passes.lift(number)
    }

    fn lower(&self, passes: &mut Passes, pass: Pass) {
        passes.lower(pass);
    }
}
