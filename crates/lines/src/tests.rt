// Lines as people write them: what they say, and what is wrong with them.
use crate::{Event, LineFault, NoHex, decode_word, encode, read_line};
use std::alloc::Global;
use std::test::Fail;

// What is wrong with a line, or none where it says an event.
fn fault(heap: Global, line: &[u8]) -> Option<LineFault> {
    read_line(heap, line).err()
}

#[test]
fn faults(rt: HostRuntime) {
    let heap = rt.alloc();
    assert_eq!(rt; fault(heap, b"\r\n"), Some(LineFault::EmptyLine));
    assert_eq!(rt; fault(heap, b" tick"), Some(LineFault::UnknownEvent));
    assert_eq!(rt; fault(heap, b"Tick"), Some(LineFault::UnknownEvent));
    assert_eq!(rt; fault(heap, b"\xff\xfe"), Some(LineFault::UnknownEvent));
    assert_eq!(rt; fault(heap, b"words 00"), Some(LineFault::UnknownEvent));
    assert_eq!(rt; fault(heap, b"fall 1\n"), Some(LineFault::NotAlone));
    assert_eq!(rt; fault(heap, b"drawn \n"), Some(LineFault::NothingDrawn));
    assert_eq!(rt; fault(heap, b"word 00f"), Some(LineFault::OddHex));
    assert_eq!(rt; fault(heap, b"word 00fg"), Some(LineFault::NotHex(9)));
    assert_eq!(rt; fault(heap, b"word  00"), Some(LineFault::NotHex(6)));
    assert_eq!(rt; fault(heap, b"packet 0x"), Some(LineFault::NotHex(9)));
}

#[test]
fn events(rt: HostRuntime) -> Result<(), Fail> {
    let heap = rt.alloc();
    assert_eq!(rt; fault(heap, b"tick \t\r\n"), None);
    assert_eq!(rt; fault(heap, b"packet"), None);
    let Ok(Event::Word(bytes)) = read_line(heap, b"word 00fFA9\n") else {
        return Err(Fail::new("no word"));
    };
    assert_eq!(rt; bytes.as_slice(), [0x00, 0xff, 0xa9].as_slice());
    let text = encode(heap, bytes.as_slice())?;
    assert_eq!(rt; text.as_slice(), b"00ffa9".as_slice());
    Ok(())
}

#[test]
fn words(rt: HostRuntime) -> Result<(), Fail> {
    let heap = rt.alloc();
    let bytes = decode_word(heap, Some("00fFA9"))?;
    assert_eq!(rt; bytes.as_slice(), [0x00, 0xff, 0xa9].as_slice());
    assert_eq!(rt; decode_word(heap, None)?.is_empty(), true);
    assert_eq!(rt;
        decode_word(heap, Some("00f")).err(),
        Some(NoHex(LineFault::OddHex))
    );
    assert_eq!(rt;
        decode_word(heap, Some("0 ")).err(),
        Some(NoHex(LineFault::NotHex(2)))
    );
    Ok(())
}
