//! Hints for files with one mistake each.

use pb_texts::{explain, warn};
use std::process::Abort;

const HEAD: &str =
    "version = 1\nuntil = 5000\n\n[bus]\ntsl = 200\ntid1 = 37\ntid2 = 60\ntsdr = 11\nlag = 40\nttr = 10000\ngap = 10\nhsa = 5\nretries = 1\n";

const TAP: &str = "\n[[tap]]\nname = \"m1\"\nkind = \"master\"\naddress = 1\n";

const START: &str = "\n[[step]]\nat = 0\ndo = \"start\"\ntap = \"m1\"\n";

/// Prints the hint for a file that is made of parts, and its warning.
fn says(rt: &(impl AllocGlobal + Abort + Print), parts: &[&str]) -> String {
    let mut file = String::new(rt.alloc());
    for part in parts {
        file.push_str(part).expect(rt, "memory");
    }
    let mut text = explain(rt.alloc(), "a.toml", file.as_str().as_bytes(), None).expect(
        rt, "memory",
    );
    let warning = warn(rt.alloc(), "a.toml", file.as_str().as_bytes()).expect(rt, "memory");
    text.push_str(warning.as_str()).expect(rt, "memory");
    text
}

#[test]
fn a_good_file_has_no_hint(rt: HostRuntime) {
    assert_eq!(rt; says(&rt, &[HEAD, TAP, START]).as_str(), "");
}

#[test]
fn an_unknown_key_has_its_line_and_the_nearest_key(rt: HostRuntime) {
    let text = says(&rt, &[HEAD, TAP, "adress = 7\n", START]);
    assert_eq!(rt;
        text.as_str(),
        "a.toml:19:1: unknown key 'adress' in [[tap]] (did you mean 'address'?); allowed: name, kind, address, reply\n"
    );
}

#[test]
fn two_stations_with_one_address_are_warned_of(rt: HostRuntime) {
    let other = "\n[[tap]]\nname = \"m2\"\nkind = \"master\"\naddress = 1\n";
    let start = "\n[[step]]\nat = 7\ndo = \"start\"\ntap = \"m2\"\n";
    let text = says(&rt, &[HEAD, TAP, other, START, start]);
    assert_eq!(rt;
        text.as_str(),
        "a.toml:33:1: warning: 'm2' starts with the address 1 of 'm1', which runs: two stations with one address disturb each other\n"
    );
}

#[test]
fn a_refused_step_is_named(rt: HostRuntime) {
    let again = "\n[[step]]\nat = 7\ndo = \"start\"\ntap = \"m1\"\n";
    let text = says(&rt, &[HEAD, TAP, START, again]);
    assert_eq!(rt;
        text.as_str(),
        "a.toml:26:1: at 7, 'm1' runs already, or what it sent is still on the bus\n"
    );
}

/// The hint is whole, or memory was refused.
#[test]
fn refused_memory_in_hints(rt: HostRuntime) {
    let file = b"version = 1\nuntil = 5\nbuss = 3\n";
    match explain(rt.alloc(), "a.toml", file, None) {
        Ok(text) => assert_eq!(rt;
            text.as_str(),
            "a.toml:3:1: unknown key 'buss' in the file (did you mean 'bus'?); allowed: version, until, bus, tap, step\n"
        ),
        Err(_) => {
            let _ = println!(rt; "refused");
        }
    }
}
