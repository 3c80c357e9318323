//! Spans of text with what they stand for.

use khe_base::{NoMemory, Text};
use std::alloc::Global;
use xhstt_text::{escape, unescape};

/// Spans without a fault, each with the text that it stands for.
const MEANINGS: &[(&str, &str)] = &[
    ("", ""),
    // A reference stands for its character.
    ("&lt;&gt;&amp;&apos;&quot;", "<>&'\""),
    ("&amp;lt;", "&lt;"),
    ("&#65;&#066;&#x43;&#x6b;&#x6B;", "ABCkk"),
    ("&#228;&#xE4;&#8364;&#x1F600;", "ää€😀"),
    ("  Müller &#10;\n", "  Müller \n\n"),
    // A comment stands for nothing.
    ("a<!-- & < > -->b", "ab"),
    ("<!---->a<!-->-- - --->b-->", "ab-->"),
];

/// Whether a span stands for a text.
fn stands_for(alloc: Global, span: &str, text: &str) -> bool {
    match unescape(alloc, span.as_bytes()) {
        Ok(found) => found.as_str() == text,
        Err(_) => false,
    }
}

#[test]
fn spans_stand_for_texts(rt: HostRuntime) {
    for (span, text) in MEANINGS {
        assert!(rt; stands_for(rt.alloc(), span, text));
    }
}

/// Texts, each with what it is written as.
const SPELLINGS: &[(&str, &str)] = &[
    ("<a> & \"b\" 'c'", "&lt;a&gt; &amp; &quot;b&quot; 'c'"),
    ("\t \n \r", "&#9; &#10; &#13;"),
    ("ä€😀&amp;", "ä€😀&amp;amp;"),
];

fn written(alloc: Global, text: &str) -> Result<Text, NoMemory> {
    escape(alloc, &Text::from_str(alloc, text)?)
}

/// Whether a text is written so.
fn is_written_as(alloc: Global, text: &str, spelling: &str) -> bool {
    match written(alloc, text) {
        Ok(found) => found.as_str() == spelling,
        Err(_) => false,
    }
}

#[test]
fn texts_are_written(rt: HostRuntime) {
    for (text, spelling) in SPELLINGS {
        assert!(rt; is_written_as(rt.alloc(), text, spelling));
    }
}
