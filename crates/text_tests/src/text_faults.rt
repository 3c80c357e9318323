//! Texts that are refused as XML.

use crate::mutations;
use fault_tables::{BAD_MARKUP, BAD_REFERENCE, MISMATCHED_END, NOT_UTF8, TOO_DEEP, UNSUPPORTED};
use std::alloc::Global;
use xhstt_text::{TextFault, elements};

/// Texts that are refused, each with the kind and the place of its first fault.
const REFUSED: &[(&[u8], u32, u64)] = &[
    // The bytes end too early.
    (b"", BAD_MARKUP, 0),
    (b"<a", BAD_MARKUP, 2),
    (b"<a>", BAD_MARKUP, 3),
    (b"<a></a", BAD_MARKUP, 6),
    (b"<HighSchoolTimetableArchive></HighSch", BAD_MARKUP, 37),
    (b"<!--", BAD_MARKUP, 4),
    (b"<a/><!---", BAD_MARKUP, 9),
    (b"<?xml ", BAD_MARKUP, 6),
    (b"<a b='", BAD_MARKUP, 6),
    // A byte that cannot go on.
    (b"x", BAD_MARKUP, 0),
    (b"</a>", BAD_MARKUP, 1),
    (b"<a/>x", BAD_MARKUP, 4),
    (b"<a/><a/>", BAD_MARKUP, 5),
    (b"<a/></a>", BAD_MARKUP, 5),
    (b"<1/>", BAD_MARKUP, 1),
    (b"<a x='1'y='2'/>", BAD_MARKUP, 8),
    (b"<a x/>", BAD_MARKUP, 4),
    (b"<a x='<'/>", BAD_MARKUP, 6),
    (b"<a x=1/>", BAD_MARKUP, 5),
    (b"<a/ >", BAD_MARKUP, 3),
    (b"<a><></a>", BAD_MARKUP, 4),
    (b"<a></ a>", BAD_MARKUP, 5),
    (b"<a></a b>", BAD_MARKUP, 7),
    (b"<a b='1':/>", BAD_MARKUP, 8),
    (b"&lt;<a/>", BAD_MARKUP, 0),
    (b"<!--><a/>", BAD_MARKUP, 9),
    (b"<?xml?><a/>", BAD_MARKUP, 5),
    (b"<?php ?><a/>", BAD_MARKUP, 2),
    (b"<?", BAD_MARKUP, 2),
    // A character that a text cannot have.
    (b"<a>\x01</a>", BAD_MARKUP, 3),
    (b"<a>\xef\xbf\xbf</a>", BAD_MARKUP, 5),
    (b"<a b='\xef\xbf\xbe'/>", BAD_MARKUP, 8),
    // A byte order mark that is cut off.
    (b"\xef\xbb\xbf", BAD_MARKUP, 3),
    (b"\xef\xbf\xbd<a/>", BAD_MARKUP, 1),
    (b"\xef\xbb\xbe<a/>", BAD_MARKUP, 2),
    // Two attributes of one name, also where the name goes no further.
    (b"<a b=\"1\" b=\"2\"/>", BAD_MARKUP, 9),
    (b"<a b='1' b:c='2'/>", BAD_MARKUP, 9),
    (b"<a b='1' b", BAD_MARKUP, 9),
    (b"<a b='1' c='2' b ='3'/>", BAD_MARKUP, 15),
    // Bytes that are not UTF-8, also after another fault.
    (b"\xff", NOT_UTF8, 0),
    (b"<a>&x\xff", NOT_UTF8, 5),
    (b"</b>\xc3", NOT_UTF8, 4),
    (b"<a/>\xed\xa0\x80", NOT_UTF8, 4),
    // A whole end tag with another name.
    (b"<a></b>", MISMATCHED_END, 3),
    (b"<a><b></a ></b>", MISMATCHED_END, 6),
    (b"<a></ab>", MISMATCHED_END, 3),
    // No reference.
    (b"<a>&x;</a>", BAD_REFERENCE, 3),
    (b"<a>&#0;</a>", BAD_REFERENCE, 3),
    (b"<a>&</a>", BAD_REFERENCE, 3),
    (b"<a>&nbsp;</a>", BAD_REFERENCE, 3),
    (b"<a>&amp</a>", BAD_REFERENCE, 3),
    (b"<a>&#;</a>", BAD_REFERENCE, 3),
    (b"<a>&#x;</a>", BAD_REFERENCE, 3),
    (b"<a>&#X41;</a>", BAD_REFERENCE, 3),
    (b"<a>&#xD800;</a>", BAD_REFERENCE, 3),
    (b"<a>&#1114112;</a>", BAD_REFERENCE, 3),
    (b"<a>&#4294967305;</a>", BAD_REFERENCE, 3),
    (b"<a x='&lt'/>", BAD_REFERENCE, 6),
    (b"<a>&#0; ", BAD_REFERENCE, 3),
    // The beginning of a reference, or a whole one, at the end of the bytes.
    (b"<a>&", BAD_MARKUP, 4),
    (b"<a>&quo", BAD_MARKUP, 7),
    (b"<a>&#x", BAD_MARKUP, 6),
    (b"<a>&#12", BAD_MARKUP, 7),
    (b"<a>&#0;", BAD_MARKUP, 7),
    (b"<a x='&#xD800;", BAD_MARKUP, 14),
    // Markup that is not read.
    (b"<!DOCTYPE a><a/>", UNSUPPORTED, 0),
    (b"<!DOCTYPE", UNSUPPORTED, 0),
    (b"<a><![CDATA[x]]></a>", UNSUPPORTED, 3),
    (b"<?xml version=\"1.0\"?><a/><?x?>", UNSUPPORTED, 25),
    (b" <?xml ?><a/>", UNSUPPORTED, 1),
    (b"<a><?", UNSUPPORTED, 3),
    // The beginning of its words.
    (b"<!DOCTYP a><a/>", BAD_MARKUP, 2),
    (b"<!doctype a>", BAD_MARKUP, 2),
    (b"<a><![CDATA", BAD_MARKUP, 5),
    (b"<a/><!-DOCTYPE", BAD_MARKUP, 7),
    // The same words inside a tag.
    (b"<a <?x?>/>", BAD_MARKUP, 3),
    (b"<a b='<!DOCTYPE'/>", BAD_MARKUP, 6),
    // A `:` straight after a name.
    (b"<a:b/>", UNSUPPORTED, 2),
    (b"<a b:c='1'/>", UNSUPPORTED, 4),
    (b"<a></a:b>", UNSUPPORTED, 6),
    (b"<a :b='1'/>", BAD_MARKUP, 3),
    // Elements in elements.
    (
        b"<a><a><a><a><a><a><a><a><a><a><a><a><a><a><a><a><a><a><a><a><a><a><a><a><a><a><a><a><a><a><a><a><a>",
        TOO_DEEP,
        96,
    ),
    (
        b"<a><a><a><a><a><a><a><a><a><a><a><a><a><a><a><a><a><a><a><a><a><a><a><a><a><a><a><a><a><a><a><a>",
        BAD_MARKUP,
        96,
    ),
    (
        b"<a><a><a><a><a><a><a><a><a><a><a><a><a><a><a><a><a><a><a><a><a><a><a><a><a><a><a><a><a><a><a><a></b>",
        MISMATCHED_END,
        96,
    ),
    (
        b"<a><a><a><a><a><a><a><a><a><a><a><a><a><a><a><a><a><a><a><a><a><a><a><a><a><a><a><a><a><a><a><a><!",
        BAD_MARKUP,
        98,
    ),
];

/// The fault of a text that is shorter than 4096 bytes.
fn fault_of(alloc: Global, text: &[u8]) -> Option<TextFault> {
    let text = if text.len() < 4096 { text } else { b"" };
    elements(alloc, text).err()
}

/// Whether each of these texts has this first fault.
fn are_refused(alloc: Global, rows: &[(&[u8], u32, u64)]) -> bool {
    for (text, kind, at) in rows {
        let fault = TextFault::Bad {
            kind: *kind,
            at: *at,
        };
        if fault_of(alloc, text) != Some(fault) {
            return false;
        }
    }
    true
}

#[test]
fn texts_are_refused(rt: HostRuntime) {
    assert!(rt; are_refused(rt.alloc(), REFUSED));
}

/// Whether each of these texts has a first fault of this kind, at its place.
fn are_faulty(alloc: Global, kind: u32, rows: &[(&[u8], u64)]) -> bool {
    for (text, at) in rows {
        let fault = TextFault::Bad { kind, at: *at };
        if fault_of(alloc, text) != Some(fault) {
            return false;
        }
    }
    true
}

#[test]
fn mutations_without_utf8(rt: HostRuntime) {
    assert!(rt; are_faulty(rt.alloc(), NOT_UTF8, mutations::NOT_UTF8));
}

#[test]
fn mutations_with_bad_markup(rt: HostRuntime) {
    assert!(rt; are_faulty(rt.alloc(), BAD_MARKUP, mutations::BAD_MARKUP));
}

#[test]
fn mutations_with_a_mismatched_end(rt: HostRuntime) {
    assert!(rt; are_faulty(rt.alloc(), MISMATCHED_END, mutations::MISMATCHED_END));
}

#[test]
fn mutations_with_a_bad_reference(rt: HostRuntime) {
    assert!(rt; are_faulty(rt.alloc(), BAD_REFERENCE, mutations::BAD_REFERENCE));
}

#[test]
fn mutations_with_what_is_unsupported(rt: HostRuntime) {
    assert!(rt; are_faulty(rt.alloc(), UNSUPPORTED, mutations::UNSUPPORTED));
}

#[test]
fn mutations_that_are_too_deep(rt: HostRuntime) {
    assert!(rt; are_faulty(rt.alloc(), TOO_DEEP, mutations::TOO_DEEP));
}
