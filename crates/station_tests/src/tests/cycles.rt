//! Tests of initiators and responders.

use super::{equal, octets, request, spelled, telegram, unit};
use arrayvec::ArrayVec;
use pb_cycles::{Initiator, Outcome, Responder, Service, status_reply};
use pb_telegram::{Fc, Telegram, write};
use std::test::Fail;

#[test]
fn frame_count_bits_alternate_until_no_answer(rt: HostRuntime) -> Result<(), Fail> {
    let mut initiator = Initiator::new(1);
    let first = initiator.request(1, request(7, Service::Sda, false, "-")?);
    equal(&rt, &write(&first), &octets("100701636b16")?);
    equal(
        &rt,
        &initiator.outcome(Some(&Telegram::Ack)),
        &Some(Outcome::Acked),
    );
    let second = initiator.request(1, request(7, Service::Sda, false, "-")?);
    equal(&rt, &write(&second), &octets("100701535b16")?);
    equal(
        &rt,
        &initiator.outcome(Some(&Telegram::Ack)),
        &Some(Outcome::Acked),
    );
    let third = initiator.request(1, request(7, Service::Sda, false, "-")?);
    equal(&rt, &write(&third), &octets("100701737b16")?);
    assert!(rt; initiator.retry_left());
    equal(&rt, &spelled(initiator.again()), &octets("100701737b16")?);
    assert!(rt; !initiator.retry_left());
    equal(&rt, &initiator.again(), &None);
    equal(&rt, &initiator.outcome(None), &Some(Outcome::NoAnswer));
    let fresh = initiator.request(1, request(7, Service::Sda, false, "-")?);
    equal(&rt, &write(&fresh), &octets("100701636b16")?);
    let reply_of_another = telegram("100108091216")?;
    equal(&rt, &initiator.outcome(Some(&reply_of_another)), &None);
    Ok(())
}

#[test]
fn no_request_is_open_at_first_nor_after_an_sdn(rt: HostRuntime) -> Result<(), Fail> {
    let mut initiator = Initiator::new(7);
    equal(&rt, &initiator.again(), &None);
    equal(&rt, &initiator.outcome(None), &None);
    initiator.request(1, request(7, Service::Srd, true, "-")?);
    let told = initiator.request(1, request(127, Service::Sdn, true, "-")?);
    equal(&rt, &write(&told), &octets("107f0146c616")?);
    let told_low = initiator.request(1, request(127, Service::Sdn, false, "-")?);
    equal(&rt, &write(&told_low), &octets("107f0144c416")?);
    equal(&rt, &initiator.again(), &None);
    equal(&rt, &initiator.outcome(Some(&Telegram::Ack)), &None);
    Ok(())
}

#[test]
fn what_is_kept_can_be_read(rt: HostRuntime) -> Result<(), Fail> {
    let mut initiator = Initiator::new(1);
    equal(&rt, &initiator.open_to(), &None);
    initiator.request(1, request(7, Service::Srd, true, "-")?);
    equal(&rt, &initiator.open_to(), &Some(7));
    let mut responder = Responder::new(unit("aabb")?);
    equal(&rt, &responder.data(), &[0xaa, 0xbb].as_slice());
    responder.set_data(&unit("cc")?);
    equal(&rt, &responder.data(), &[0xcc].as_slice());
    let outcome = Outcome::Data(unit("aabb")?);
    equal(&rt, &outcome.copy(), &outcome);
    let mut other = Outcome::NoAnswer;
    for outcome in [
        Outcome::Acked,
        Outcome::NoResource,
        Outcome::Data(unit("aabb")?),
        Outcome::Data(unit("cc")?),
        Outcome::NoAnswer,
    ] {
        other.copy_from(&outcome);
        equal(&rt, &other, &outcome);
    }
    Ok(())
}

#[test]
fn a_repeat_is_answered_and_not_executed(rt: HostRuntime) -> Result<(), Fail> {
    let mut responder = Responder::new(ArrayVec::new());
    for (asked, replied, executed) in [
        ("1007016c7416", "100107091116", 1),
        ("1007015c6416", "100107091116", 2),
        ("1007015c6416", "100107091116", 2),
        ("10870163eb16", "100107030b16", 3),
    ] {
        equal(
            &rt,
            &spelled(responder.answer(7, 0, &telegram(asked)?)),
            &octets(replied)?,
        );
        equal(&rt, &responder.executed(), &executed);
    }
    Ok(())
}

#[test]
fn a_station_replies_with_the_priority_of_the_request(rt: HostRuntime) -> Result<(), Fail> {
    let mut responder = Responder::new(unit("aabb")?);
    for (asked, replied) in [
        ("1007016d7516", "6805056801070aaabb7716"),
        ("1007015d6516", "6805056801070aaabb7716"),
        ("1007017c8416", "68050568010708aabb7516"),
        ("100701495116", "100107000816"),
    ] {
        equal(
            &rt,
            &spelled(responder.answer(7, 0, &telegram(asked)?)),
            &octets(replied)?,
        );
    }
    equal(&rt, &responder.executed(), &3);
    Ok(())
}

#[test]
fn an_interrupted_cycle_goes_on_with_its_retry(rt: HostRuntime) -> Result<(), Fail> {
    let mut initiator = Initiator::new(1);
    let mut responder = Responder::new(unit("aabb")?);
    for (octets_asked, sent_again) in [
        ("1007016d7516", false),
        ("1007015d6516", true),
        ("1007017d8516", false),
    ] {
        let mut asked = initiator.request(1, request(7, Service::Srd, true, "-")?);
        equal(&rt, &write(&asked), &octets(octets_asked)?);
        if sent_again {
            responder.answer(7, 0, &asked);
            let again = initiator.again();
            let Some(again) = again else {
                return Err(Fail::new("no retry is left"));
            };
            asked = again;
            equal(&rt, &write(&asked), &octets(octets_asked)?);
        }
        let replied = responder.answer(7, 0, &asked);
        equal(
            &rt,
            &initiator.outcome(replied.as_ref()),
            &Some(Outcome::Data(unit("aabb")?)),
        );
    }
    equal(&rt, &responder.executed(), &3);
    Ok(())
}

#[test]
fn an_acknowledgement_is_no_status(rt: HostRuntime) -> Result<(), Fail> {
    let ready = telegram("100102202316")?;
    equal(&rt, &status_reply(1, 2, &ready), &Some(Fc(0x20)));
    equal(&rt, &status_reply(1, 3, &ready), &None);
    equal(&rt, &status_reply(2, 2, &ready), &None);
    equal(&rt, &status_reply(1, 2, &telegram("100102242716")?), &None);
    equal(&rt, &status_reply(1, 2, &Telegram::Ack), &None);
    Ok(())
}

#[test]
fn copies_go_on_alike(rt: HostRuntime) -> Result<(), Fail> {
    let mut initiator = Initiator::new(2);
    let mut responder = Responder::new(unit("01")?);
    let asked = initiator.request(1, request(7, Service::Srd, false, "-")?);
    responder.answer(7, 0, &asked);
    let mut other_initiator = initiator.copy();
    let mut other_responder = responder.copy();
    assert!(rt; other_initiator.is_same(&initiator));
    let again = spelled(initiator.again());
    assert!(rt; !other_initiator.is_same(&initiator));
    equal(&rt, &spelled(other_initiator.again()), &again);
    let replied = spelled(responder.answer(7, 0, &asked));
    equal(
        &rt,
        &spelled(other_responder.answer(7, 0, &asked)),
        &replied,
    );
    equal(&rt, &other_responder.executed(), &responder.executed());
    Ok(())
}
