//! Tests of the states of a station.

use super::{at, equal};
use pb_telegram::{ShortTelegram, Telegram, TokenTelegram};
use pb_tokenfsm::{Checking, Holding, Listening, Phase, Use};
use std::test::Fail;

/// A station with address 1 that hears no other claims the token and keeps it.
#[test]
fn a_lone_station_claims_and_keeps_the_token(rt: HostRuntime) -> Result<(), Fail> {
    let claim = Listening::new().on_timeout(at(800)?);
    equal(&rt, &claim.ready().get(), &800);
    let token = Telegram::Token(TokenTelegram { da: 1, sa: 1 });
    equal(
        &rt,
        &claim.initiate(&token).as_slice(),
        &[0xdc, 1, 1].as_slice(),
    );
    let phase = claim.on_sent(at(870)?);
    assert!(rt; phase.may_initiate());
    equal(&rt, &phase.name(), &"Claim");
    let Phase::Claim(claim) = phase else {
        return Err(Fail::from("another phase"));
    };
    let phase = claim.on_sent(at(940)?);
    let Phase::Use(holder) = phase else {
        return Err(Fail::from("another phase"));
    };
    equal(&rt, &holder.ready().get(), &940);
    let phase = holder.done().on_sent(1, 1, at(1010)?);
    equal(&rt, &phase.name(), &"Use");
    Ok(())
}

/// A listening master joins the ring after it has replied that it is ready, and goes offline for a namesake.
#[test]
fn a_listener_joins_or_gives_way(rt: HostRuntime) {
    let listening = Listening::new();
    assert!(rt; !listening.doubled());
    let listening = listening.on_namesake();
    assert!(rt; listening.doubled());
    let phase = Phase::Offline(listening.on_double());
    equal(&rt, &phase.name(), &"Offline");
    let phase = Phase::Idle(Listening::new().on_ready());
    equal(&rt, &phase.name(), &"Idle");
    assert!(rt; !phase.may_initiate());
}

/// A station with address 1 and the previous station 3 accepts a token from 3, and a token from another station only at
/// the second offer.
#[test]
fn a_token_is_taken_from_the_previous_station(rt: HostRuntime) -> Result<(), Fail> {
    let from_three = TokenTelegram { da: 1, sa: 3 };
    let from_two = TokenTelegram { da: 1, sa: 2 };
    let to_two = TokenTelegram { da: 2, sa: 3 };
    let phase = Listening::new()
        .on_ready()
        .hear_token(&to_two, 1, 3, at(100)?);
    equal(&rt, &phase.name(), &"Idle");
    let phase = Listening::new()
        .on_ready()
        .hear_token(&from_three, 1, 3, at(100)?);
    equal(&rt, &phase.name(), &"Use");
    let phase = Listening::new()
        .on_ready()
        .hear_token(&from_two, 1, 3, at(100)?);
    let Phase::Idle(idle) = phase else {
        return Err(Fail::from("another phase"));
    };
    let phase = idle.hear_token(&from_two, 1, 3, at(200)?);
    equal(&rt, &phase.name(), &"Use");
    let phase = Phase::Listening(Listening::new().on_ready().on_skipped());
    equal(&rt, &phase.name(), &"Listening");
    let claim = Listening::new().on_ready().on_timeout(at(800)?);
    equal(&rt, &claim.ready().get(), &800);
    Ok(())
}

/// A holder that hears another station gives the token up.
#[test]
fn a_holder_gives_way(rt: HostRuntime) -> Result<(), Fail> {
    let phase = Phase::Idle(Listening::new().on_timeout(at(800)?).on_foreign());
    assert!(rt; !phase.may_initiate());
    equal(&rt, &phase.name(), &"Idle");
    Ok(())
}

/// A station with address 1 that has taken the token from station 3.
fn holder() -> Result<Holding<Use>, Fail> {
    let token = TokenTelegram { da: 1, sa: 3 };
    match Listening::new()
        .on_ready()
        .hear_token(&token, 1, 3, at(900)?)
    {
        Phase::Use(holder) => Ok(holder),
        _ => Err(Fail::from("another phase")),
    }
}

/// A station that has asked another for its status waits for the reply, and uses the token again.
#[test]
fn a_status_is_asked_once(rt: HostRuntime) -> Result<(), Fail> {
    let holder = holder()?;
    assert!(rt; !holder.asked());
    let request = Telegram::Short(ShortTelegram {
        da: 2,
        sa: 1,
        fc: 0x49,
    });
    let asked = [0x10, 2, 1, 0x49, 0x4c, 0x16];
    equal(
        &rt,
        &holder.initiate(&request).as_slice(),
        &asked.as_slice(),
    );
    let waiting = holder.ask_status(2);
    equal(&rt, &waiting.of(), &2);
    assert!(rt; waiting.slot());
    let waiting = waiting.on_activity();
    assert!(rt; !waiting.slot());
    let holder = waiting.on_outcome(at(1120)?);
    assert!(rt; holder.asked());
    equal(&rt, &holder.ready().get(), &1120);
    Ok(())
}

/// A station that has sent an SRD waits for the reply, sends it again after silence and after damage, and uses
/// the token again once it has an outcome.
#[test]
fn a_request_is_sent_again_until_it_has_an_outcome(rt: HostRuntime) -> Result<(), Fail> {
    let waiting = holder()?.ask();
    assert!(rt; waiting.slot());
    assert!(rt; waiting.retry().is_none());
    let silent = waiting.on_silence(at(1066)?);
    assert!(rt; !silent.slot());
    equal(&rt, &silent.retry(), &Some(at(1066)?));
    let request = Telegram::Short(ShortTelegram {
        da: 7,
        sa: 1,
        fc: 0x6d,
    });
    let octets = [0x10, 7, 1, 0x6d, 0x75, 0x16];
    equal(
        &rt,
        &silent.initiate(&request).as_slice(),
        &octets.as_slice(),
    );
    let waiting = silent.again();
    assert!(rt; waiting.slot());
    assert!(rt; waiting.retry().is_none());
    let damaged = waiting
        .on_activity(at(1066)?, at(1143)?)
        .on_damaged(at(1301)?);
    assert!(rt; !damaged.slot());
    equal(&rt, &damaged.retry(), &Some(at(1301)?));
    let heard = damaged.on_activity(at(1066)?, at(1290)?);
    assert!(rt; heard.retry().is_none());
    let holder = heard.on_outcome(at(1410)?);
    assert!(rt; !holder.asked());
    equal(&rt, &holder.ready().get(), &1410);
    Ok(())
}

/// Activity from before the own telegram does not close the slot.
#[test]
fn a_slot_outlasts_older_activity(rt: HostRuntime) -> Result<(), Fail> {
    let waiting = holder()?.ask().on_activity(at(900)?, at(899)?);
    assert!(rt; waiting.slot());
    let waiting = waiting.on_damaged(at(1000)?).on_no_retry();
    assert!(rt; !waiting.slot());
    assert!(rt; waiting.retry().is_none());
    let phase = Phase::AwaitData(waiting);
    equal(&rt, &phase.name(), &"AwaitData");
    assert!(rt; phase.may_initiate());
    assert!(rt; phase.copy().may_initiate());
    Ok(())
}

/// An SDN is not answered, and the station speaks again. Whether it has asked for a status is unchanged.
#[test]
fn a_station_goes_on_after_an_sdn(rt: HostRuntime) -> Result<(), Fail> {
    let holder = holder()?.send(at(1026)?);
    assert!(rt; !holder.asked());
    equal(&rt, &holder.ready().get(), &1026);
    let holder = holder.ask_status(2).on_outcome(at(1190)?).send(at(1316)?);
    assert!(rt; holder.asked());
    let holder = holder.ask().on_outcome(at(1500)?);
    assert!(rt; holder.asked());
    Ok(())
}

/// The same station after it has passed the token to station 2.
fn checking() -> Result<Checking, Fail> {
    match holder()?.done().on_sent(2, 1, at(1010)?) {
        Phase::Checking(checking) => Ok(checking),
        _ => Err(Fail::from("another phase")),
    }
}

/// If nothing is heard after its token, the station passes it again, three times to one successor.
#[test]
fn a_token_is_passed_again_three_times(rt: HostRuntime) -> Result<(), Fail> {
    let mut silent = checking()?;
    for tries in 1..4 {
        equal(&rt, &silent.tries(), &tries);
        let again = silent.on_silence(at(1073)?);
        equal(&rt, &again.ready().get(), &1073);
        let Phase::Checking(checking) = again.on_sent(2, 1, at(1143)?) else {
            return Err(Fail::from("another phase"));
        };
        silent = checking;
    }
    equal(&rt, &silent.tries(), &1);
    Ok(())
}

/// If anything is heard after its token, the station waits for the token again, and accepts the first one only from the
/// previous station.
#[test]
fn activity_ends_the_check(rt: HostRuntime) -> Result<(), Fail> {
    let from_three = TokenTelegram { da: 1, sa: 3 };
    let from_two = TokenTelegram { da: 1, sa: 2 };
    let phase = Phase::Idle(checking()?.on_activity());
    equal(&rt, &phase.name(), &"Idle");
    assert!(rt; !phase.may_initiate());
    let phase = checking()?
        .on_activity()
        .hear_token(&from_three, 1, 3, at(1100)?);
    equal(&rt, &phase.name(), &"Use");
    let phase = checking()?
        .on_activity()
        .hear_token(&from_two, 1, 3, at(1100)?);
    equal(&rt, &phase.name(), &"Idle");
    Ok(())
}

/// A copy of a phase is equal, and leaves the original unchanged.
#[test]
fn a_phase_has_an_equal_one(rt: HostRuntime) -> Result<(), Fail> {
    let phase = Phase::Claim(Listening::new().on_timeout(at(800)?));
    let copy = phase.copy();
    equal(&rt, &copy.name(), &phase.name());
    let (Phase::Claim(claim), Phase::Claim(other)) = (phase, copy) else {
        return Err(Fail::from("another phase"));
    };
    equal(&rt, &claim.ready(), &other.ready());
    Ok(())
}
