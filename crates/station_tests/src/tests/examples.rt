//! The examples of doc comments; `tools/doc-examples` compares the texts.

use pb_telegram::{Receiver, RxChar, Telegram, TelegramFault, TokenTelegram, parse};
use pb_timers::{BusParams, NamedParams, ParamFault};

#[test]
fn example_of_parse(rt: HostRuntime) {
    let token = [RxChar::Good(0xdc), RxChar::Good(2), RxChar::Good(1)];
    let telegram = Telegram::Token(TokenTelegram { da: 2, sa: 1 });
    assert_eq!(rt; parse(&token), Ok(telegram));
    let damaged = [RxChar::Good(0xdc), RxChar::Bad, RxChar::Good(1)];
    assert_eq!(rt; parse(&damaged), Err(TelegramFault::Faulty(1)));
}

#[test]
fn example_of_receiver(rt: HostRuntime) {
    let mut receiver = Receiver::new();
    receiver.feed(RxChar::Good(0xdc));
    receiver.feed(RxChar::Good(2));
    assert_eq!(rt; receiver.answer(), Err(TelegramFault::Truncated));
    receiver.feed(RxChar::Good(1));
    let telegram = Telegram::Token(TokenTelegram { da: 2, sa: 1 });
    assert_eq!(rt; receiver.end(), Ok(telegram));
}

#[test]
fn example_of_bus_params(rt: HostRuntime) {
    let params = BusParams::new(100, 37, 60, 11, 0, 10_000, 10, 5, 1, 0);
    assert!(rt; params.is_ok());
    // idle time 2, 60, and a lag of 40 are not under the slot time, 100
    let late = BusParams::new(100, 37, 60, 11, 40, 10_000, 10, 5, 1, 0);
    assert_eq!(rt; late.err(), Some(ParamFault::TakeLate));
}

#[test]
fn example_of_named_params(rt: HostRuntime) {
    let named = NamedParams {
        tsl: 100,
        tid1: 37,
        tid2: 60,
        tsdr: 11,
        lag: 0,
        ttr: 10_000,
        gap: 10,
        hsa: 5,
        retries: 1,
        ttd: 0,
    };
    assert!(rt; BusParams::of(named).is_ok());
    let short = NamedParams { tsl: 99, ..named };
    assert_eq!(rt; BusParams::of(short).err(), Some(ParamFault::Slot));
}
