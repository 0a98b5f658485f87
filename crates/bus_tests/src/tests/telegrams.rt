//! Tests of reading the telegram that a burst brings.

use super::equal;
use arrayvec::ArrayVec;
use pb_telegram::{Fixed8Telegram, RxChar, ShortTelegram, Telegram, TokenTelegram, VarTelegram};
use pb_transitions::{is_for_others, spelled_telegram, whole_telegram};
use std::alloc::{AllocError, Global};
use std::test::Fail;

/// Octets as undamaged characters.
fn good(alloc: Global, octets: &[u8]) -> Result<Vec<RxChar>, AllocError> {
    octets
        .iter()
        .map(|octet| RxChar::Good(*octet))
        .collect(alloc)
}

#[test]
fn telegrams_are_read(rt: HostRuntime) -> Result<(), Fail> {
    let token = Telegram::Token(TokenTelegram { da: 3, sa: 2 });
    let status_request = Telegram::Short(ShortTelegram {
        da: 3,
        sa: 2,
        fc: 0x49,
    });
    let data = Telegram::Var(VarTelegram {
        da: 5,
        sa: 2,
        fc: 0x7d,
        unit: ArrayVec::try_from([1, 2, 3, 4, 5, 6].as_slice())?,
    });
    let eight = Telegram::Fixed8(Fixed8Telegram {
        da: 5,
        sa: 2,
        fc: 0x7d,
        unit: [1, 2, 3, 4, 5, 6, 7, 8],
    });
    let spellings = [
        (Some(token), [0xdc, 3, 2].as_slice()),
        (Some(status_request), &[0x10, 3, 2, 0x49, 0x4e, 0x16]),
        (
            Some(data),
            &[0x68, 9, 9, 0x68, 5, 2, 0x7d, 1, 2, 3, 4, 5, 6, 0x99, 0x16],
        ),
        (
            Some(eight),
            &[0xa2, 5, 2, 0x7d, 1, 2, 3, 4, 5, 6, 7, 8, 0xa8, 0x16],
        ),
        (Some(Telegram::Ack), &[0xe5]),
        (None, &[]),
        (None, &[0xdc, 3]),
        (None, &[0x10, 3, 2, 0x49, 0x4f, 0x16]),
        (
            None,
            &[0x68, 9, 9, 0x68, 5, 2, 0x7d, 1, 2, 3, 4, 5, 6, 0x98, 0x16],
        ),
    ];
    for (telegram, octets) in &spellings {
        equal(&rt, &whole_telegram(&good(rt.alloc(), octets)?), telegram);
        equal(&rt, &spelled_telegram(octets), telegram);
    }
    Ok(())
}

#[test]
fn telegrams_to_others_are_told_by_their_destination(rt: HostRuntime) -> Result<(), Fail> {
    let to_station_5 = [
        [0x10, 5, 2, 0x49, 0x50, 0x16].as_slice(),
        &[0x68, 5, 5, 0x68, 0x85, 2, 0x7d, 1, 2, 0x07, 0x16],
        &[0xa2, 5, 2, 0x7d, 1, 2, 3, 4, 5, 6, 7, 8, 0xa8, 0x16],
    ];
    for octets in &to_station_5 {
        equal(&rt, &is_for_others(octets, 4), &true);
        equal(&rt, &is_for_others(octets, 5), &false);
    }
    // An acknowledgement is for no station that does not wait for it.
    equal(&rt, &is_for_others(&[0xe5], 4), &true);
    // A token, a telegram to all stations, and octets that end before the destination.
    let not_told = [
        [0xdc, 5, 2].as_slice(),
        &[0x10, 127, 2, 0x46, 0xc7, 0x16],
        &[0x68, 5, 5, 0x68],
        &[],
    ];
    for octets in &not_told {
        equal(&rt, &is_for_others(octets, 4), &false);
    }
    Ok(())
}

#[test]
fn a_damaged_unit_is_no_telegram(rt: HostRuntime) -> Result<(), Fail> {
    let octets = [0x68, 9, 9, 0x68, 5, 2, 0x7d, 1, 2, 3, 4, 5, 6, 0x99, 0x16];
    for place in 0..octets.len() {
        let mut chars = good(rt.alloc(), &octets)?;
        if let Some(char) = chars.get_mut(place) {
            *char = RxChar::Bad;
        }
        equal(&rt, &whole_telegram(&chars), &None);
    }
    Ok(())
}
