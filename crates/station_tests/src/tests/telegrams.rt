//! Telegrams are read and written, from lists of characters and one character at a time; each fault is found.

use super::equal;
use arrayvec::ArrayVec;
use pb_decode::push_telegram;
use pb_telegram::{
    Fc, Fixed8Telegram, FrameCount, Head, Receiver, RxChar, ShortTelegram, StationType, Telegram,
    TelegramFault, TokenTelegram, VarTelegram, fcs, parse, read_octets, spelled_by,
    spelled_telegram, spelled_token, token_in, write,
};
use std::alloc::{AllocError, Global};
use std::process::Abort;
use std::test::Fail;

/// Octets as undamaged characters.
fn good(alloc: Global, octets: &[u8]) -> Result<Vec<RxChar>, AllocError> {
    octets
        .iter()
        .map(|octet| RxChar::Good(*octet))
        .collect(alloc)
}

#[test]
fn telegrams_are_read_and_written(rt: HostRuntime) -> Result<(), Fail> {
    let token = Telegram::Token(TokenTelegram { da: 3, sa: 2 });
    let status_request = Telegram::Short(ShortTelegram {
        da: 3,
        sa: 2,
        fc: 0x49,
    });
    let extended = Telegram::Short(ShortTelegram {
        da: 0x83,
        sa: 2,
        fc: 0x49,
    });
    let var = Telegram::Var(VarTelegram {
        da: 127,
        sa: 2,
        fc: 0x44,
        unit: ArrayVec::try_from([0xff].as_slice())?,
    });
    let var_of_eight = Telegram::Var(VarTelegram {
        da: 5,
        sa: 2,
        fc: 0x7d,
        unit: ArrayVec::try_from([0; 8].as_slice())?,
    });
    let fixed = Telegram::Fixed8(Fixed8Telegram {
        da: 5,
        sa: 2,
        fc: 0x7d,
        unit: [0; 8],
    });
    let counting = Telegram::Fixed8(Fixed8Telegram {
        da: 5,
        sa: 2,
        fc: 0x7d,
        unit: [1, 2, 3, 4, 5, 6, 7, 8],
    });
    let spellings = [
        (token, [0xdc, 3, 2].as_slice()),
        (status_request, [0x10, 3, 2, 0x49, 0x4e, 0x16].as_slice()),
        (extended, [0x10, 0x83, 2, 0x49, 0xce, 0x16].as_slice()),
        (
            var,
            [0x68, 4, 4, 0x68, 127, 2, 0x44, 0xff, 0xc4, 0x16].as_slice(),
        ),
        (
            var_of_eight,
            [
                0x68, 11, 11, 0x68, 5, 2, 0x7d, 0, 0, 0, 0, 0, 0, 0, 0, 0x84, 0x16,
            ]
            .as_slice(),
        ),
        (
            fixed,
            [0xa2, 5, 2, 0x7d, 0, 0, 0, 0, 0, 0, 0, 0, 0x84, 0x16].as_slice(),
        ),
        (
            counting,
            [0xa2, 5, 2, 0x7d, 1, 2, 3, 4, 5, 6, 7, 8, 0xa8, 0x16].as_slice(),
        ),
        (Telegram::Ack, [0xe5].as_slice()),
    ];
    for (telegram, octets) in &spellings {
        equal(&rt, &write(telegram).as_slice(), octets);
        equal(
            &rt,
            &parse(&good(rt.alloc(), octets)?).as_ref(),
            &Ok(telegram),
        );
    }
    Ok(())
}

#[test]
fn a_telegram_is_shown_as_decode_prints_it(rt: HostRuntime) -> Result<(), Fail> {
    let spellings = [
        ([0xdc, 3, 2].as_slice(), "token da=3 sa=2"),
        (&[0x10, 0x83, 2, 0x09, 0x8e, 0x16], "short da=3+ sa=2 fc=09"),
        (
            &[0x68, 5, 5, 0x68, 127, 0x82, 0x44, 1, 0xff, 0x45, 0x16],
            "var da=127 sa=2+ fc=44 unit=01ff",
        ),
        (
            &[0xa2, 5, 2, 0x7d, 1, 2, 3, 4, 5, 6, 7, 8, 0xa8, 0x16],
            "fixed da=5 sa=2 fc=7d unit=0102030405060708",
        ),
        (&[0xe5], "ack"),
    ];
    for (octets, wanted) in spellings {
        equal(&rt, &spelled_telegram(octets).is_some(), &true);
        if let Some(telegram) = spelled_telegram(octets) {
            let mut decoded = Vec::new(rt.alloc());
            push_telegram(&mut decoded, &telegram)?;
            equal(&rt, &decoded.as_slice(), &wanted.as_bytes());
            let shown = format!(in rt.alloc(); "{telegram}")?;
            equal(&rt, &shown.as_bytes(), &wanted.as_bytes());
        }
    }
    Ok(())
}

#[test]
fn telegrams_are_read_where_they_stand(rt: HostRuntime) -> Result<(), Fail> {
    let token = TokenTelegram { da: 3, sa: 2 };
    let spellings = [
        [0xdc, 3, 2].as_slice(),
        &[0xdc, 127, 2],
        &[0xdc, 3, 2, 1],
        &[0x10, 3, 2, 0x49, 0x4e, 0x16],
        &[0x10, 3, 2, 0x49, 0x4f, 0x16],
        &[0x10, 3, 0xff, 0x49, 0x4b, 0x16],
        &[0x68, 4, 4, 0x68, 127, 2, 0x44, 0xff, 0xc4, 0x16],
        &[0x68, 5, 5, 0x68, 5, 2, 0x7d, 1, 2, 0x87, 0x16],
        &[0x68, 5, 4, 0x68, 5, 2, 0x7d, 1, 2, 0x87, 0x16],
        &[0xa2, 5, 2, 0x7d, 1, 2, 3, 4, 5, 6, 7, 8, 0xa8, 0x16],
        &[0xa2, 5, 2, 0x7d, 1, 2, 3, 4, 5, 6, 7, 8, 0xa9, 0x16],
        &[0xe5],
        &[],
    ];
    let mut receiver = Receiver::new();
    let mut telegram = Err(TelegramFault::Empty);
    for octets in &spellings {
        let chars = good(rt.alloc(), octets)?;
        read_octets(octets, &mut receiver, &mut telegram);
        equal(&rt, &telegram, &parse(&chars));
        equal(&rt, &spelled_telegram(octets), &parse(&chars).ok());
        equal(&rt, &spelled_by(&chars), &parse(&chars).ok());
    }
    equal(&rt, &spelled_token(&[0xdc, 3, 2]), &Some(token));
    equal(&rt, &spelled_token(&[0xdc, 3, 127]), &None);
    equal(
        &rt,
        &token_in(&good(rt.alloc(), &[0xdc, 3, 2])?),
        &Some(token),
    );
    equal(&rt, &token_in(&[RxChar::Good(0xdc), RxChar::Bad]), &None);
    Ok(())
}

#[test]
fn the_first_fault_is_found(rt: HostRuntime) -> Result<(), Fail> {
    let faults = [
        ([].as_slice(), TelegramFault::Empty),
        (&[0x77], TelegramFault::BadStart),
        (&[0x10, 3], TelegramFault::Truncated),
        (&[0x68], TelegramFault::Truncated),
        (&[0x68, 3, 3], TelegramFault::Truncated),
        (&[0x68, 4, 4], TelegramFault::Truncated),
        (&[0x68, 4, 4, 0x68], TelegramFault::Truncated),
        (
            &[0x68, 5, 5, 0x68, 0x7f, 2, 0x44, 0xff, 0xc4, 0x16],
            TelegramFault::Truncated,
        ),
        (&[0xa2, 5, 2], TelegramFault::Truncated),
        (
            &[0xa2, 5, 2, 0x7d, 0, 0, 0, 0, 0, 0, 0, 0, 0x84],
            TelegramFault::Truncated,
        ),
        (&[0xdc, 3], TelegramFault::Truncated),
        (&[0x68, 3, 4, 0], TelegramFault::BadLength),
        (
            &[0x68, 3, 3, 0x68, 2, 1, 0x44, 0x47, 0x16],
            TelegramFault::BadLength,
        ),
        (&[0x68, 250, 250, 0x68], TelegramFault::BadLength),
        (
            &[0x68, 4, 5, 0x68, 0x7f, 2, 0x44, 0xff, 0xc4, 0x16],
            TelegramFault::LengthsDiffer,
        ),
        (
            &[0x68, 4, 5, 0x69, 0x7f, 2, 0x44, 0xff, 0xc4, 0x16],
            TelegramFault::LengthsDiffer,
        ),
        (
            &[0x68, 4, 4, 0x69, 0x7f, 2, 0x44, 0xff, 0xc4, 0x16],
            TelegramFault::BadSecondStart,
        ),
        (
            &[0x68, 4, 4, 0x68, 0, 0x7f, 0x44, 0xff, 0xc2, 0x16],
            TelegramFault::BadAddress,
        ),
        (
            &[0xa2, 5, 0xff, 0x7d, 0, 0, 0, 0, 0, 0, 0, 0, 0x81, 0x16],
            TelegramFault::BadAddress,
        ),
        (&[0xdc, 0x83, 2], TelegramFault::BadAddress),
        (&[0xdc, 0x7f, 2], TelegramFault::BadAddress),
        (&[0xdc, 3, 0x7f, 0], TelegramFault::BadAddress),
        (
            &[0x10, 2, 0x7f, 0x49, 0xca, 0x16],
            TelegramFault::BadAddress,
        ),
        (&[0x10, 3, 2, 0xc9, 0xce, 0x16], TelegramFault::BadFc),
        (&[0x10, 3, 2, 0xc9, 0, 0x17], TelegramFault::BadFc),
        (
            &[0x68, 4, 4, 0x68, 0x7f, 2, 0xc4, 0xff, 0x44, 0x16],
            TelegramFault::BadFc,
        ),
        (&[0x10, 3, 2, 0x49, 0x4f, 0x17], TelegramFault::BadFcs),
        (
            &[0x68, 4, 4, 0x68, 0x7f, 2, 0x44, 0xff, 0xc5, 0x17],
            TelegramFault::BadFcs,
        ),
        (
            &[0xa2, 5, 2, 0x7d, 0, 0, 0, 0, 0, 0, 0, 0, 0x85, 0x17],
            TelegramFault::BadFcs,
        ),
        (&[0x10, 3, 2, 0x49, 0x4e, 0x17, 0], TelegramFault::BadEnd),
        (
            &[0x68, 4, 4, 0x68, 0x7f, 2, 0x44, 0xff, 0xc4, 0x17, 0],
            TelegramFault::BadEnd,
        ),
        (
            &[0xa2, 5, 2, 0x7d, 0, 0, 0, 0, 0, 0, 0, 0, 0x84, 0x17],
            TelegramFault::BadEnd,
        ),
        (&[0x10, 3, 2, 0x49, 0x4e, 0x16, 0], TelegramFault::Trailing),
        (
            &[0x68, 4, 4, 0x68, 0x7f, 2, 0x44, 0xff, 0xc4, 0x16, 0],
            TelegramFault::Trailing,
        ),
        (
            &[0xa2, 5, 2, 0x7d, 0, 0, 0, 0, 0, 0, 0, 0, 0x84, 0x16, 0],
            TelegramFault::Trailing,
        ),
        (&[0xdc, 3, 2, 0xe5], TelegramFault::Trailing),
        (&[0xe5, 0xe5], TelegramFault::Trailing),
    ];
    for (octets, fault) in &faults {
        equal(&rt, &parse(&good(rt.alloc(), octets)?), &Err(*fault));
    }
    Ok(())
}

#[test]
fn a_unit_has_at_most_246_octets(rt: HostRuntime) -> Result<(), Fail> {
    let mut octets = vec![in rt.alloc(); 0x68, 0xf9, 0xf9, 0x68, 2, 1, 0x44]?;
    octets.extend_from_slice(&[0; 246])?;
    octets.extend_from_slice(&[0x47, 0x16])?;
    let answer = parse(&good(rt.alloc(), &octets)?);
    let Ok(longest) = &answer else {
        return Err(Fail::from("no telegram"));
    };
    equal(&rt, &write(longest).as_slice(), &octets.as_slice());
    equal(
        &rt,
        &parse(&good(rt.alloc(), &octets[..254])?),
        &Err(TelegramFault::Truncated),
    );
    octets.push(0x16)?;
    equal(
        &rt,
        &parse(&good(rt.alloc(), &octets)?),
        &Err(TelegramFault::Trailing),
    );
    octets[1] = 0xfa;
    octets[2] = 0xfa;
    equal(
        &rt,
        &parse(&good(rt.alloc(), &octets)?),
        &Err(TelegramFault::BadLength),
    );
    Ok(())
}

#[test]
fn damage_is_found_at_its_place(rt: HostRuntime) {
    let chars = [
        RxChar::Good(0x77),
        RxChar::Bad,
        RxChar::Good(2),
        RxChar::Bad,
    ];
    equal(&rt, &parse(&chars), &Err(TelegramFault::Faulty(1)));
    equal(&rt, &parse(&chars[1..]), &Err(TelegramFault::Faulty(0)));
}

#[test]
fn the_check_octet_is_the_sum(rt: HostRuntime) {
    equal(&rt, &fcs(3, 2, 0x49, &[]), &0x4e);
    equal(&rt, &fcs(0x7f, 2, 0x44, &[0xff]), &0xc4);
}

#[test]
fn a_control_octet_is_read(rt: HostRuntime) {
    let request = Fc(0x6d);
    assert!(rt; request.is_request() && request.fcb() && !request.fcv());
    equal(&rt, &request.code(), &13);
    let later_request = Fc(0x5d);
    assert!(rt; later_request.fcv() && !later_request.fcb());
    let reply = Fc(0x20);
    assert!(rt; !reply.is_request());
    equal(&rt, &reply.station_type(), &2);
    equal(&rt, &Fc(0x3a).station_type(), &3);
}

#[test]
fn a_control_octet_is_made(rt: HostRuntime) {
    equal(&rt, &Fc::STATUS_REQUEST, &Fc(0x49));
    equal(&rt, &Fc::request(None, 9), &Fc::STATUS_REQUEST);
    equal(&rt, &Fc::request(Some(FrameCount::First), 13), &Fc(0x6d));
    equal(&rt, &Fc::request(Some(FrameCount::Clear), 12), &Fc(0x5c));
    equal(&rt, &Fc::request(Some(FrameCount::Set), 12), &Fc(0x7c));
    equal(&rt, &FrameCount::First.next(), &FrameCount::Clear);
    equal(&rt, &FrameCount::Clear.next(), &FrameCount::Set);
    equal(&rt, &FrameCount::Set.next(), &FrameCount::Clear);
    equal(&rt, &Fc::reply(StationType::Passive.bits(), 8), &Fc(0x08));
    equal(&rt, &Fc::reply(StationType::NotReady.bits(), 0), &Fc(0x10));
    equal(&rt, &Fc::reply(StationType::Ready.bits(), 0), &Fc(0x20));
    equal(&rt, &Fc::reply(StationType::InRing.bits(), 10), &Fc(0x3a));
}

#[test]
fn faults_have_numbers_and_names(rt: HostRuntime) -> Result<(), Fail> {
    let faults = [
        (TelegramFault::Empty, "1 Empty"),
        (TelegramFault::Faulty(7), "2 Faulty 7"),
        (TelegramFault::BadStart, "3 BadStart"),
        (TelegramFault::Truncated, "4 Truncated"),
        (TelegramFault::BadLength, "5 BadLength"),
        (TelegramFault::LengthsDiffer, "6 LengthsDiffer"),
        (TelegramFault::BadSecondStart, "7 BadSecondStart"),
        (TelegramFault::BadAddress, "8 BadAddress"),
        (TelegramFault::BadFc, "9 BadFc"),
        (TelegramFault::BadFcs, "10 BadFcs"),
        (TelegramFault::BadEnd, "11 BadEnd"),
        (TelegramFault::Trailing, "12 Trailing"),
    ];
    for (fault, shown) in faults {
        let number = fault.number();
        let text = format!(in rt.alloc(); "{number} {fault}")?;
        equal(&rt, &text.as_str(), &shown);
        assert!(rt; shown.contains(fault.name()));
    }
    Ok(())
}

#[test]
fn a_telegram_gives_its_fields(rt: HostRuntime) -> Result<(), Fail> {
    for (octets, da, sa, fc, unit) in [
        (
            [0x10, 7, 1, 0x6c, 0x74, 0x16].as_slice(),
            7,
            1,
            0x6c,
            [].as_slice(),
        ),
        (
            [0x68, 5, 5, 0x68, 7, 1, 0x6d, 0xaa, 0xbb, 0xda, 0x16].as_slice(),
            7,
            1,
            0x6d,
            [0xaa, 0xbb].as_slice(),
        ),
        (
            [0xa2, 1, 7, 8, 1, 2, 3, 4, 5, 6, 7, 8, 0x34, 0x16].as_slice(),
            1,
            7,
            8,
            [1, 2, 3, 4, 5, 6, 7, 8].as_slice(),
        ),
    ] {
        let telegram = parse(&good(rt.alloc(), octets)?)?;
        equal(&rt, &telegram.head(), &Some(Head { da, sa, fc }));
        equal(&rt, &telegram.unit(), &unit);
    }
    let token = parse(&good(rt.alloc(), &[0xdc, 2, 1])?)?;
    equal(&rt, &token.head(), &None);
    assert!(rt; token.unit().is_empty());
    equal(&rt, &Telegram::Ack.head(), &None);
    Ok(())
}

/// A receiver that was fed these characters.
fn receiver_of(chars: &[RxChar]) -> Receiver {
    let mut receiver = Receiver::new();
    for char in chars {
        if receiver.fed() < u64::MAX {
            receiver.feed(*char);
        }
    }
    receiver
}

/// The result of a receiver for these characters.
fn fed(chars: &[RxChar]) -> Result<Telegram, TelegramFault> {
    receiver_of(chars).end()
}

#[test]
fn a_receiver_is_fed_a_character_at_a_time(rt: HostRuntime) {
    let bad = RxChar::Bad;
    equal(&rt, &Receiver::new().end(), &Err(TelegramFault::Empty));
    equal(&rt, &Receiver::new().fed(), &0);
    let acknowledged = [RxChar::Good(0xe5), bad, RxChar::Good(0x16)];
    equal(&rt, &fed(&acknowledged), &Err(TelegramFault::Faulty(1)));
    let var = [RxChar::Good(0x68), RxChar::Good(4), bad];
    equal(&rt, &fed(&var), &Err(TelegramFault::Faulty(2)));
    let short = [RxChar::Good(0x10), RxChar::Good(3), bad];
    equal(&rt, &fed(&short), &Err(TelegramFault::Faulty(2)));
    let mut receiver = receiver_of(&short);
    equal(&rt, &receiver.fed(), &3);
    equal(&rt, &receiver.answer(), &Err(TelegramFault::Faulty(2)));
    receiver.restart();
    equal(&rt, &receiver.answer(), &Err(TelegramFault::Empty));
    receiver.feed(RxChar::Good(0xe5));
    equal(&rt, &receiver.answer(), &Ok(Telegram::Ack));
    assert!(rt; receiver.is_acknowledgement());
    receiver.feed(RxChar::Good(0xe5));
    assert!(rt; !receiver.is_acknowledgement());
    assert!(rt; !Receiver::new().is_acknowledgement());
}

/// Octets, and the result for each of their prefixes: `Empty` for the empty one, `Truncated` for the others, until they
/// spell the telegram or have the fault.
#[derive(Drop)]
struct Fronts<'a> {
    octets: &'a [u8],
    whole: Result<Telegram, Found>,
}

/// A fault, and the number of octets from which on it is found.
#[derive(Drop)]
struct Found {
    from: usize,
    fault: TelegramFault,
}

impl Fronts<'_> {
    /// The result for the first `count` octets.
    fn found(&self, count: usize) -> Result<&Telegram, TelegramFault> {
        match &self.whole {
            _ if count == 0 => Err(TelegramFault::Empty),
            Ok(telegram) if count == self.octets.len() => Ok(telegram),
            Err(Found { from, fault }) if *from <= count => Err(*fault),
            _ => Err(TelegramFault::Truncated),
        }
    }
}

/// For each prefix of the octets, a receiver and `parse` have the expected result.
fn fronts_are_received(rt: &impl Abort, alloc: Global, fronts: &Fronts) -> Result<(), Fail> {
    let chars = good(alloc, fronts.octets)?;
    for count in 0..=chars.len() {
        let front = &chars[..count];
        equal(
            rt,
            &fed(front).as_ref().map_err(|fault| *fault),
            &fronts.found(count),
        );
        equal(rt, &fed(front), &parse(front));
    }
    Ok(())
}

/// With a damaged character at each index, a receiver and `parse` agree on each prefix: the result without damage, or
/// the index of the damage.
fn damaged_fronts_are_received(
    rt: &impl Abort,
    alloc: Global,
    fronts: &Fronts,
) -> Result<(), Fail> {
    let mut chars = good(alloc, fronts.octets)?;
    for place in 0..chars.len() {
        let octet = std::mem::replace(&mut chars[place], RxChar::Bad);
        for count in 0..=chars.len() {
            let answer = fed(&chars[..count]);
            if count > place {
                equal(rt, &answer, &Err(TelegramFault::Faulty(place)));
            }
            equal(rt, &answer, &parse(&chars[..count]));
        }
        chars[place] = octet;
    }
    Ok(())
}

/// With a damaged character at each index, a receiver that is fed all characters returns that index.
fn damage_is_received(rt: &impl Abort, chars: &mut [RxChar]) {
    for place in 0..chars.len() {
        let octet = std::mem::replace(&mut chars[place], RxChar::Bad);
        equal(rt, &fed(chars), &Err(TelegramFault::Faulty(place)));
        chars[place] = octet;
    }
}

#[test]
fn fronts_of_telegrams_are_received_as_they_are_parsed(rt: HostRuntime) -> Result<(), Fail> {
    let unit = ArrayVec::try_from([0xff].as_slice())?;
    let (da, sa, fc) = (127, 2, 0x44);
    let rows = [
        Fronts {
            octets: &[0xdc, 3, 2],
            whole: Ok(Telegram::Token(TokenTelegram { da: 3, sa: 2 })),
        },
        Fronts {
            octets: &[0x10, 3, 2, 0x49, 0x4e, 0x16],
            whole: Ok(Telegram::Short(ShortTelegram {
                da: 3,
                sa: 2,
                fc: 0x49,
            })),
        },
        Fronts {
            octets: &[0x10, 3, 2, 0x49, 0x4f, 0x16],
            whole: Err(Found {
                from: 6,
                fault: TelegramFault::BadFcs,
            }),
        },
        Fronts {
            octets: &[0x68, 4, 4, 0x68, 0x7f, 2, 0x44, 0xff, 0xc4, 0x16],
            whole: Ok(Telegram::Var(VarTelegram { da, sa, fc, unit })),
        },
        Fronts {
            octets: &[0x68, 3, 3, 0x68, 2, 1, 0x44, 0x47, 0x16],
            whole: Err(Found {
                from: 4,
                fault: TelegramFault::BadLength,
            }),
        },
        Fronts {
            octets: &[0x68, 4, 5, 0x68, 0x7f, 2, 0x44, 0xff, 0xc4, 0x16],
            whole: Err(Found {
                from: 10,
                fault: TelegramFault::LengthsDiffer,
            }),
        },
        Fronts {
            octets: &[0x68, 5, 5, 0x68, 0x7f, 2, 0x44, 0xff, 0xc4, 0x16],
            whole: Err(Found {
                from: 1,
                fault: TelegramFault::Truncated,
            }),
        },
        Fronts {
            octets: &[0xa2, 5, 2, 0x7d, 0, 0, 0, 0, 0, 0, 0, 0, 0x84, 0x16],
            whole: Ok(Telegram::Fixed8(Fixed8Telegram {
                da: 5,
                sa: 2,
                fc: 0x7d,
                unit: [0; 8],
            })),
        },
        Fronts {
            octets: &[0xe5],
            whole: Ok(Telegram::Ack),
        },
        Fronts {
            octets: &[0xdc, 0x7f, 2],
            whole: Err(Found {
                from: 3,
                fault: TelegramFault::BadAddress,
            }),
        },
    ];
    for row in &rows {
        fronts_are_received(&rt, rt.alloc(), row)?;
        damaged_fronts_are_received(&rt, rt.alloc(), row)?;
    }
    equal(&rt, &fed(&[RxChar::Good(0xe5)]), &Ok(Telegram::Ack));
    let twice = [RxChar::Good(0xe5), RxChar::Good(0xe5)];
    equal(&rt, &fed(&twice), &Err(TelegramFault::Trailing));
    Ok(())
}

#[test]
fn fronts_of_the_longest_telegram_are_received(rt: HostRuntime) -> Result<(), Fail> {
    let mut octets = vec![in rt.alloc(); 0x68, 0xf9, 0xf9, 0x68, 2, 1, 0x44]?;
    octets.extend_from_slice(&[0; 246])?;
    octets.extend_from_slice(&[0x47, 0x16])?;
    let longest = fed(&good(rt.alloc(), &octets)?)?;
    let (da, sa, fc) = (2, 1, 0x44);
    equal(&rt, &longest.head(), &Some(Head { da, sa, fc }));
    equal(&rt, &longest.unit(), &[0; 246].as_slice());
    damage_is_received(&rt, &mut good(rt.alloc(), &octets)?);
    let fronts = Fronts {
        octets: &octets,
        whole: Ok(longest),
    };
    fronts_are_received(&rt, rt.alloc(), &fronts)?;
    octets[1] = 0xfa;
    octets[2] = 0xfa;
    let fronts = Fronts {
        octets: &octets,
        whole: Err(Found {
            from: 4,
            fault: TelegramFault::BadLength,
        }),
    };
    fronts_are_received(&rt, rt.alloc(), &fronts)
}
