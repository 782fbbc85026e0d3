//! Bytes and words that readers refuse: by the rule that is stated, and by it again when they are asked again.

use address_table::is_id;
use hub_framing::{FrameRefusal, Framer};
use ipb_base::{Text, number_in_text};
use packet_codec::{BadPacket, read_head, read_header, read_packet};
use status_packet::{BadStatus, is_status_request, read_resend, read_status_reply};
use std::alloc::Global;
use transaction_codec::{BadWords, Why, first_reply, first_request, read_replies, read_requests};

/// These bytes and zeros behind them, so many bytes in all.
fn padded(alloc: Global, front: &[u8], length: usize) -> Option<Vec<u8>> {
    let mut bytes = front.to_vec(alloc).ok()?;
    for _ in front.len()..length {
        bytes.push(0).ok()?;
    }
    Some(bytes)
}

/// The front of bytes that are no packet, how many bytes there are, and the first rule that they break.
const PACKETS: [(&[u8], usize, BadPacket); 7] = [
    (b"", 0, BadPacket::Empty),
    (b"\x20\0\x01", 3, BadPacket::Ragged),
    (b"\x20\0\x01\xf0", 8975, BadPacket::Ragged),
    (b"\x20\0\x01\xf0", 8976, BadPacket::Long),
    (b"\x30\0\x01\xf0", 4, BadPacket::Header),
    // a status packet is big-endian
    (b"\xf1\0\0\x20", 4, BadPacket::Header),
    (b"\x20\0\x01\xf3", 4, BadPacket::Kind),
];

/// Whether bytes, and their head, are refused by this rule.
fn are_refused(alloc: Global, bytes: &[u8], why: BadPacket) -> bool {
    read_packet(alloc, bytes).err() == Some(why) && read_head(bytes).err() == Some(why)
}

fn is_no_packet(alloc: Global, front: &[u8], length: usize, why: BadPacket) -> bool {
    match padded(alloc, front, length) {
        Some(bytes) => are_refused(alloc, &bytes, why) && are_refused(alloc, &bytes, why),
        None => false,
    }
}

#[test]
fn packets_are_refused_again(rt: HostRuntime) {
    for &(front, length, why) in &PACKETS {
        assert!(rt; is_no_packet(rt.alloc(), front, length, why));
    }
}

/// The same of status replies.
const STATUSES: [(&[u8], usize, BadStatus); 12] = [
    (b"", 0, BadStatus::Length),
    (b"\x20\0\0\xf1", 4, BadStatus::Length),
    (b"\x20\0\0\xf1", 60, BadStatus::Length),
    (b"\x20\0\0\xf1", 68, BadStatus::Length),
    (b"\x20\0\x01\xf1", 64, BadStatus::Header),
    // an MTU of 0, 91 and 9001 bytes
    (
        b"\x20\0\0\xf1\0\0\0\0\0\0\0\x04\x20\0\x01\xf0",
        64,
        BadStatus::Range,
    ),
    (
        b"\x20\0\0\xf1\0\0\0\x5b\0\0\0\x04\x20\0\x01\xf0",
        64,
        BadStatus::Range,
    ),
    (
        b"\x20\0\0\xf1\0\0\x23\x29\0\0\0\x04\x20\0\x01\xf0",
        64,
        BadStatus::Range,
    ),
    // 0 and 65 buffers
    (
        b"\x20\0\0\xf1\0\0\x05\xdc\0\0\0\0\x20\0\x01\xf0",
        64,
        BadStatus::Range,
    ),
    (
        b"\x20\0\0\xf1\0\0\x05\xdc\0\0\0\x41\x20\0\x01\xf0",
        64,
        BadStatus::Range,
    ),
    // the identifier 0, and the header of no control packet
    (
        b"\x20\0\0\xf1\0\0\x05\xdc\0\0\0\x04\x20\0\0\xf0",
        64,
        BadStatus::Range,
    ),
    (
        b"\x20\0\0\xf1\0\0\x05\xdc\0\0\0\x04\x20\0\x01\xf1",
        64,
        BadStatus::Range,
    ),
];

fn is_refused_status(bytes: &[u8], why: BadStatus) -> bool {
    read_status_reply(bytes).err() == Some(why)
}

fn is_no_status(alloc: Global, front: &[u8], length: usize, why: BadStatus) -> bool {
    match padded(alloc, front, length) {
        Some(bytes) => is_refused_status(&bytes, why) && is_refused_status(&bytes, why),
        None => false,
    }
}

#[test]
fn statuses_are_refused_again(rt: HostRuntime) {
    for &(front, length, why) in &STATUSES {
        assert!(rt; is_no_status(rt.alloc(), front, length, why));
    }
}

/// The front of bytes, how many there are, whether they ask for a status, and the identifier that they ask for again.
const QUESTIONS: [(&[u8], usize, bool, Option<u16>); 9] = [
    (b"", 0, false, None),
    (b"\x20\0\0\xf1", 64, true, None),
    (b"\x20\0\0\xf1", 4, false, None),
    (b"\x20\0\0\xf1", 68, false, None),
    (b"\x20\0\x01\xf1", 64, false, None),
    (b"\x20\0\x01\xf2", 4, false, Some(1)),
    (b"\x20\0\x01\xf2", 8, false, None),
    (b"\x30\0\x01\xf2", 4, false, None),
    (b"\xf2\x01\0\x20", 4, false, None),
];

fn are_asking(bytes: &[u8], is_request: bool, again: Option<u16>) -> bool {
    is_status_request(bytes) == is_request && read_resend(bytes) == again
}

/// Whether bytes ask for this.
fn asks(alloc: Global, front: &[u8], length: usize, is_request: bool, again: Option<u16>) -> bool {
    match padded(alloc, front, length) {
        Some(bytes) => {
            are_asking(&bytes, is_request, again) && are_asking(&bytes, is_request, again)
        }
        None => false,
    }
}

#[test]
fn questions_are_refused_again(rt: HostRuntime) {
    for &(front, length, is_request, again) in &QUESTIONS {
        assert!(rt; asks(rt.alloc(), front, length, is_request, again));
    }
}

/// Words that are no header of a packet: another version, a reserved bit, another byte order, no bit and each bit.
const NO_HEADERS: [u32; 5] = [0x3000_01f0, 0x2100_01f0, 0xf001_0020, 0, u32::MAX];

fn is_no_header(word: u32) -> bool {
    read_header(word).is_none() && read_header(word).is_none()
}

#[test]
fn headers_are_refused_again(rt: HostRuntime) {
    for &word in &NO_HEADERS {
        assert!(rt; is_no_header(word));
    }
}

/// Words, and the first rule that they break as requests, and as replies.
const WORDS: [(&[u32], Why, Why); 5] = [
    (&[0x3000_010f, 0], Why::Version, Why::Version),
    (&[0x2000_016f, 0], Why::Kind, Why::Kind),
    (&[0x2000_024f, 8, 0, 0], Why::Count, Why::Code),
    (&[0x2000_0200, 7], Why::Code, Why::Short),
    (&[0x2000_010f], Why::Short, Why::Code),
];

/// Whether words are refused as requests by this rule, at their front.
fn are_no_requests(alloc: Global, words: &[u32], why: Why) -> bool {
    read_requests(alloc, words).err() == Some(BadWords::At { place: 0, why })
        && first_request(words).err() == Some(why)
}

/// The same of replies.
fn are_no_replies(alloc: Global, words: &[u32], why: Why) -> bool {
    read_replies(alloc, words).err() == Some(BadWords::At { place: 0, why })
        && first_reply(words).err() == Some(why)
}

fn are_no_words(alloc: Global, words: &[u32], request: Why, reply: Why) -> bool {
    are_no_requests(alloc, words, request)
        && are_no_requests(alloc, words, request)
        && are_no_replies(alloc, words, reply)
        && are_no_replies(alloc, words, reply)
}

#[test]
fn requests_and_replies_are_refused_again(rt: HostRuntime) {
    for &(words, request, reply) in &WORDS {
        assert!(rt; are_no_words(rt.alloc(), words, request, reply));
    }
}

/// Bytes of frames, and the first rule that they break.
const FRAMES: [(&[u8], FrameRefusal); 4] = [
    (b"\0\0\0\0", FrameRefusal::TooShort),
    (b"\0\0\0\x07\0\0\0\0\x20\0\0", FrameRefusal::TooShort),
    (b"\0\0\x23\x11", FrameRefusal::TooLong),
    (b"\xff\xff\xff\xff\0", FrameRefusal::TooLong),
];

fn is_next_refused(framer: &mut Framer, why: FrameRefusal) -> bool {
    framer.next().err() == Some(why)
}

/// Whether a framer that was fed with these bytes refuses them twice.
fn are_no_frames(alloc: Global, bytes: &[u8], why: FrameRefusal) -> bool {
    let mut framer = Framer::new(alloc);
    framer.feed(bytes).is_ok()
        && is_next_refused(&mut framer, why)
        && is_next_refused(&mut framer, why)
}

#[test]
fn frames_are_refused_again(rt: HostRuntime) {
    for &(bytes, why) in &FRAMES {
        assert!(rt; are_no_frames(rt.alloc(), bytes, why));
    }
}

/// Texts that are no number of 32 bits.
const NO_NUMBERS: [&str; 12] = [
    "",
    "0x",
    "0X1",
    "0xg",
    "0x000000001",
    "4294967296",
    "00000000001",
    "+1",
    "-1",
    " 1",
    "1_000",
    "1e3",
];

fn is_no_number(text: &str) -> bool {
    number_in_text(text.as_bytes()).is_none() && number_in_text(text.as_bytes()).is_none()
}

#[test]
fn numbers_are_refused_again(rt: HostRuntime) {
    for text in &NO_NUMBERS {
        assert!(rt; is_no_number(text));
    }
}

/// Texts that are no id: none, 65 letters, and those with another byte.
const NO_IDS: [&[u8]; 6] = [b"", &[b'a'; 65], b"a b", b"a.b", b"a[0]", b"\xff"];

fn is_no_id(text: &[u8]) -> bool {
    !is_id(text) && !is_id(text)
}

#[test]
fn ids_are_refused_again(rt: HostRuntime) {
    for text in &NO_IDS {
        assert!(rt; is_no_id(text));
    }
}

/// A byte of no text, the first byte of two, and half of a pair of 16-bit units.
const NO_TEXTS: [&[u8]; 3] = [b"\xff", b"\xc3", b"\xed\xa0\x80"];

/// Whether bytes are those of no text.
fn is_no_text(alloc: Global, bytes: &[u8]) -> bool {
    match bytes.to_vec(alloc) {
        Ok(bytes) => Text::from_vec(bytes).is_err(),
        Err(_) => false,
    }
}

fn is_never_a_text(alloc: Global, bytes: &[u8]) -> bool {
    is_no_text(alloc, bytes) && is_no_text(alloc, bytes)
}

#[test]
fn bytes_that_are_no_text_are_refused_again(rt: HostRuntime) {
    for bytes in &NO_TEXTS {
        assert!(rt; is_never_a_text(rt.alloc(), bytes));
    }
}
