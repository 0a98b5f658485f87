//! Tests of frames and messages.

use super::{equal, octets, telegram, unit};
use pb_cycles::{Frame, Message, Reply};
use pb_telegram::{Telegram, write};
use std::test::Fail;

#[test]
fn a_telegram_says_its_fields(rt: HostRuntime) -> Result<(), Fail> {
    for (hex, da, sa, fc, data) in [
        ("1007016c7416", 7, 1, 0x6c, "-"),
        (
            "a20711639d6b9fa66fa56f7ac516",
            7,
            17,
            0x63,
            "9d6b9fa66fa56f7a",
        ),
        ("6805056801070aaabb7716", 1, 7, 0x0a, "aabb"),
    ] {
        let Message::Framed(frame) = Message::read(&telegram(hex)?) else {
            return Err(Fail::new("a telegram without a control octet"));
        };
        equal(&rt, &frame, &Frame::new(da, sa, fc, unit(data)?));
        equal(&rt, &(frame.da(), frame.sa(), frame.fc()), &(da, sa, fc));
        equal(&rt, &frame.unit(), &unit(data)?.as_slice());
        equal(&rt, &write(&frame.telegram()), &octets(hex)?);
        let reply = Reply::Answer(frame.copy());
        equal(&rt, &write(&reply.copy().telegram()), &octets(hex)?);
        let mut other = Frame::new(1, 2, 3, unit("aa")?);
        other.copy_from(&frame);
        equal(&rt, &other, &frame);
        for mut other in [Reply::Acknowledge, Reply::Answer(other)] {
            other.copy_from(&reply);
            equal(&rt, &other, &reply);
        }
    }
    Ok(())
}

#[test]
fn acknowledgements_and_tokens_have_no_fields(rt: HostRuntime) -> Result<(), Fail> {
    assert!(rt; matches!(Message::read(&Telegram::Ack), Message::Acknowledgement));
    assert!(rt; matches!(Message::read(&telegram("dc0605")?), Message::TokenPass));
    equal(&rt, &Reply::Acknowledge.copy().telegram(), &Telegram::Ack);
    Ok(())
}
