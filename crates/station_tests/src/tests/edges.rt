//! Calls that allocate, on texts that are empty or grow: with ample memory none of them returns `NoMemory`.

use pb_decode::decode;

/// From no line to as many lines as make the text grow a few times, each line has its text.
#[test]
fn each_number_of_lines(rt: HostRuntime) {
    let alloc = rt.alloc();
    let (mut input, mut wanted) = (Vec::new(alloc), Vec::new(alloc));
    for lines in 0..=300 {
        let decoded = decode(alloc, &input).expect(&rt, "a text");
        assert!(rt; decoded.text.as_slice() == wanted.as_slice(), "{lines}");
        input.extend_from_slice(b"dc0302\n").expect(&rt, "memory");
        wanted
            .extend_from_slice(b"token da=3 sa=2\n")
            .expect(&rt, "memory");
    }
}
