//! Tests of a watched bus that lets its past go, and of a judge that hears what goes.

ghost use Rattle.pb_world.specs.Watched.{IsFollowed};

use super::{equal, master, usual};
use pb_timers::Moment;
use pb_world::{Entry, Event, Judge, Watched, new_watched_within};
use std::process::Abort;

/// A watched bus of two masters with the addresses 1 and 2, and a judge that has heard what was let go.
#[derive(Drop)]
struct Pair {
    watched: Watched,
    judge: Judge,
}

fn new_pair(rt: &(impl AllocGlobal + Abort)) -> Pair
    ensures { IsFollowed result.watched }
{
    let taps = [master(1), master(2)];
    Pair {
        watched: new_watched_within(rt.alloc(), usual(rt), &taps, 1000).expect(rt, "a bus"),
        judge: Judge::new(rt.alloc(), usual(rt), &taps).expect(rt, "a judge"),
    }
}

/// The judge hears the entries that are over, which are let go. Then an event happens.
fn play(rt: &(impl AllocGlobal + Abort), pair: &mut Pair, event: Event)
    requires { IsFollowed pair.old.watched }
    ensures { IsFollowed pair.new.watched }
{
    hear(rt, &mut pair.judge, pair.watched.bus().past());
    pair.watched.let_go();
    pair.watched
        .follow(rt.alloc(), &event)
        .expect(rt, "an event");
}

fn hear(rt: &impl Abort, judge: &mut Judge, entries: &[Entry]) {
    for entry in entries {
        judge.hear(entry).expect(rt, "memory for an entry");
    }
}

/// How many entries the bus still has; the judge hears them.
fn end(rt: &impl Abort, pair: &mut Pair) -> usize {
    let entries = pair.watched.bus().trace.entries();
    hear(rt, &mut pair.judge, entries);
    entries.len()
}

/// The first station claims the token at 800 and again at 1633, its time-out after it was started again. The second one
/// heard the first claim, so it has not waited out its own time-out of 1000 by then.
#[test]
fn a_claim_that_was_let_go_still_counts_as_activity(rt: HostRuntime) {
    let mut pair = new_pair(&rt);
    play(&rt, &mut pair, Event::Start(0));
    play(&rt, &mut pair, Event::Start(1));
    play(&rt, &mut pair, Event::Pass(800));
    play(&rt, &mut pair, Event::Turn(0));
    play(&rt, &mut pair, Event::Pass(33));
    play(&rt, &mut pair, Event::Turn(1));
    play(&rt, &mut pair, Event::Stop(0));
    play(&rt, &mut pair, Event::Start(0));
    play(&rt, &mut pair, Event::Pass(800));
    play(&rt, &mut pair, Event::Turn(0));
    equal(&rt, &end(&rt, &mut pair), &1);
    equal(&rt, &pair.watched.broken(), &None);
    equal(&rt, &pair.judge.illegal(), &None);
}

/// The second station loses the first claim, and claims the token itself at 1000: the record with index 1.
#[test]
fn a_claim_after_one_that_was_let_go_is_illegal(rt: HostRuntime) {
    let mut pair = new_pair(&rt);
    play(&rt, &mut pair, Event::Start(0));
    play(&rt, &mut pair, Event::Start(1));
    play(&rt, &mut pair, Event::Pass(800));
    play(&rt, &mut pair, Event::Turn(0));
    play(&rt, &mut pair, Event::Unheard { tap: 1, speaker: 0 });
    play(&rt, &mut pair, Event::Pass(33));
    play(&rt, &mut pair, Event::Pass(167));
    play(&rt, &mut pair, Event::Turn(1));
    equal(&rt, &end(&rt, &mut pair), &1);
    let at_800 = Moment::new(800).expect(&rt, "a moment");
    equal(&rt, &pair.watched.broken(), &Some((2, at_800)));
    equal(&rt, &pair.judge.illegal(), &Some(1));
}

/// A judge takes memory when it is made, and for entries that are on the bus together.
#[test]
fn refused_memory_for_a_judge(rt: HostRuntime) {
    let taps = [master(1), master(2)];
    match Judge::new(rt.alloc(), usual(&rt), &taps) {
        Ok(judge) => equal(&rt, &judge.illegal(), &None),
        Err(_) => {
            let _ = println!(rt; "refused");
        }
    }
}
