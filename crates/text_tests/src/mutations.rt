//! Texts that were made from whole ones by cutting, leaving out, doubling and replacing bytes, each
//! with the place of its first fault, by the kind of that fault. Made by bench/text_faults.py.

pub const NOT_UTF8: &[(&[u8], u64)] = &[
    (b"\xbf<a><![CDATA[x]]></a>", 0),
    (
        b"\xef\xbb\x1f<?xml ?><a>\xc3\xa9\xef\xbf\xbd&apos;&quot;&gt;</a>",
        0,
    ),
    (b"\xbe<a b='1' b:c='2></'></a>", 0),
    (b"<\xef:b>>", 1),
    (b"<a\xc3b=' ", 2),
    (b"<a\xc3", 2),
    (b"<a\xbfb='<' ='>'", 2),
    (
        b"<a\x80 x = '&#x1\x9f\x98\x80'><b><c>&#9;&#xA;</c></b><!--<b>-></a>",
        2,
    ),
    (b"<!\xc3OCTYPE a><a/>", 2),
    (b"<a\xff</a:b>", 2),
    (b"<a\xefb='1' >", 2),
    (b"<a>\xefnbs&;&", 3),
    (b"<?x\xefml v", 3),
    (b"<a>\xef![CDATA[x]]></a><a><</c></", 3),
    (b"<a<\xffa/>", 3),
    (b"<a b=\xbf<\n c='>'/>", 5),
    (
        b"\xef\xbb\xbf<?x\xbfml ?><a>\xc3\xa9\xef\xbf\xbd&apos;&quot;&gt;</a>",
        6,
    ),
    (b"<a><?x\xc3 y?x ", 6),
    (b"<a><?x\x80 y?></a>", 6),
    (b"<a><? \xffy?></a>", 6),
    (b"<_1.-.-\x80>\x80>", 7),
    (b"<a><a><\xbe><a><a><a><a><a><a><a><a><a>><!----></b>", 7),
    (b"<a><b></\xc3\x1f></a>", 8),
    (b"\xef\xbb\xbf<?xml\xef/a>", 8),
    (b"<a><? y?></\xff>", 11),
    (b"<a b='1' b=\xbe'2'/>", 11),
    (b"<a x = '&#x1\xefF>&#9;&#xA", 12),
    (b"<a><?x y?> y?>\xff/a>", 14),
    (
        b"\xef\xbb\xbf<?xml ?><a>\xc3\xa9\xef>\xc3\xa9\xef\xbf\xbd&apos;&quot;&gt;</a>",
        16,
    ),
    (b"\xef\xbb\xbf<?xml ?><a>\xc3\xa9\xef\xbf", 16),
    (
        b"<a><![CDATA[x]]><\x80a><a><a><a><a><a><a><a><a><a><a><a><a><a><a><a\xbf<a><a><a><a><a><a><a><a><a><a><a><a><a><a><ab>",
        17,
    ),
    (
        b"<a x = '&#x1F600;' y='\xf0\x9f\x98'\xf0\x9f\x98\x80'><b><c>&#9;&#xA;</c></b><!--<b>&--></a>",
        22,
    ),
    (
        b"<a x = '&#x1F600;' y='\xf0\x9f\x98;</c></b><!--<b>&--></\t>",
        22,
    ),
    (
        b"<a x = '&#x1F600;' y='\xf0y='\xf0\x9f\x98\x80'><b><c>&#9;&#xA;</c></b><!--<b>&--></a>",
        22,
    ),
    (b"<a><?x y?></a><a b='1'\x80 b:c='2'></a>", 22),
    (
        b"<a x = '&#x1F600;[ y='\x9f\x98\x80'><b><c>&#9;&#xA;</c></b><!--<b>&--></a>/a>",
        22,
    ),
    (b"<a:b c:d='e'/><a><b></c></\xbf>", 26),
    (
        b"<a x = x = '&#x1F600;' y='\xf0\x9f\x98\x80\xf0\x9f\x98\xef\x80'><b><c>&#9;&#xA;</c></b><!--<b>&--></a>",
        30,
    ),
    (
        b"<a b='<' c='>'/><a><a><a><a><a><a><a><a><a><a><a><a><a><a><a><a><a><a><\xbea><a><a><a><a><a><a><a><a><",
        71,
    ),
    (
        b"<a><a><a><a><a><a><a><a><a><a><a><a><a><a><a<a><a><a><a><a><a><a><a><a><a><a><a><a>\xbe<a><a><a><a><!----></b>",
        83,
    ),
];

pub const BAD_MARKUP: &[(&[u8], u64)] = &[
    (b"\"<a>", 0),
    (b"ba:b c", 0),
    (b"!DOCTYPE a><a/>", 0),
    (b"", 0),
    (b"<<![CDATA[x]]></a>", 1),
    (b"<></a:b>", 1),
    (b"<>", 1),
    (b"<", 1),
    (b"<><b></c></c><a>", 1),
    (b"<a[", 2),
    (b"<a </", 3),
    (b"<a/<a;>", 3),
    (b"<a b<a b='1' b='2'/>", 4),
    (b"<a b", 4),
    (b"<a b=", 5),
    (b"<a/><a/>/>", 5),
    (
        b"<a x <= '&#x1F600;' y='\xf0\x9f\x98\x80'><b><c>&#9;&#x;&#xA;</c></b><!--<b>&--></a>",
        5,
    ),
    (b"<a b='<' c>'/>", 6),
    (b"<a b='<' c='", 6),
    (b"<_1.-/></_1.->", 8),
    (b"<a b='1' b=2'/>", 9),
    (b"<a b='' c'>'/>", 9),
    (
        b"<a b='1' b='2'/><?xml version='1.0'?>\n<!-- c --><a b=\"1\" ",
        9,
    ),
    (b"<a b='1' b'2'/>", 9),
    (b"<a b='1' \tb:c='2'></a>", 10),
    (b"<?xml vers", 10),
    (b"<_1.-><a/><a/</_1.->", 13),
    (b"<a><a><a><a><a><a", 17),
    (b"<_1.-><a/><a/></_1.-", 20),
    (b"<?xml version='1.0'?", 20),
    (
        b"<?xml version='1.0'?>!<!-- c --><a b=\"1\" c='&lt;2'>t&#65;<d/>&amp;<e f='x'>u</e ></a >\n<!---->",
        21,
    ),
    (b"<_1.-><a/><a/></_1.-><a b='1' b='2'/>", 22),
    (b"\xef\xbb\xbf<?xml ?><a>\xc3\xa9\xef\xbf\xbd&apos;&q", 27),
    (b"<a x = '&#x1F600;' y='\xf0\x9f\x98\x80'><b#9;", 30),
    (
        b"<a x = '&#x1F600;' y='\xf0\x9f\x98\x80'><b><c>&#9;&#xA;</c></b><!-",
        54,
    ),
    (
        b"<a x = '&#x1F600;' y='\xf0\x9f\x98\x80'><b><c>&#9;&#xA;</c></b><!--<b>&--></>",
        64,
    ),
    (
        b"<a><a><a><a><a><a><a><a><a><a><a><a><a><a><a><a><a><a><a><a><a><a><a><a<a><a><a><a><a><a><a><a><!----></b>",
        71,
    ),
    (
        b"<?xml version='1n='1.0'?>\n<!-- c --><a b=\"1\" c='&lt;2'>t&#65;<d/>&amp;<e f='x'",
        78,
    ),
    (
        b"<?xml version='1.0'?>\n<!-- c --><a b=\"1\" c='&lt;2'>t&#65;<d/>&amp;<e f='x'>u</e ><",
        82,
    ),
    (
        b"<a><a><a><a><a><a><a><a><a><a><a><a><a><a><a><a><a><a><a><a><a><a><a><a><a><a><a><a><a><a><a><b/><b></b></a></a></",
        114,
    ),
];

pub const MISMATCHED_END: &[(&[u8], u64)] = &[
    (b"<a></ab>", 3),
    (b"<a>b></c>", 5),
    (b"<a><b></c>", 6),
    (b"<a><b></c></a>", 6),
    (b"<a><b></c></a", 6),
    (b"<a><b></c></=>", 6),
    (
        b"<a><b></c></a>\xef\xbb\xbf<?xml ?><a>\xc3\xa9\xef\xbf\xbd&ap>s;&quot;&gt;</a>",
        6,
    ),
    (b"<a><b></bc><", 6),
    (b"<a><b></c></c></a>", 6),
    (b"<a><b></c></a><a b='1'\" b='2'/>", 6),
    (b"<a><b></c></a><!DOCTYPE a><a/>", 6),
    (
        b"<a><b></c></a><a><a><a><a><a>><a><a><a>-<a><a><a><a><a><a><a><a><a><a><a><a><a><!----></b>",
        6,
    ),
    (b"<a><b></c>'/a>", 6),
    (b"<a><b></c></>", 6),
    (b"<a><bD></c></a>", 7),
    (b"<_1.><a/></_1.->>", 9),
    (b"<a><b><c></a>", 9),
    (b"<a><b>><b></c></a>", 10),
    (b"<a><b>><b></c></c></a", 10),
    (b"<a><ba><b></c></a>", 10),
    (b"<a><b>><b></c></a></>", 10),
    (b"<a><ba><b></c>", 10),
    (b"<_.-><a/><a/></_1.->", 13),
    (b"<_1.-><a/><a/></_->", 14),
    (b"<_1.b><a/><a/></_1.->", 14),
    (b"<_1.-><a/><a/></_1->", 14),
    (b"<a><a><a><a><a><a><a><a><a><aa></a>", 31),
    (
        b"<a x = '&#x1F600;' y='\xf0\x9f\x98\x80'><b><c>&#9;&#xA;</xc></b><!--<b>&--></a>",
        43,
    ),
    (
        b"<a x = '&#x1F600;' y='\xf0\x9f\x98\x80'><b><c>&#9;&#xA;</c></b-><!--<&b>&--></",
        47,
    ),
    (
        b"<a><a><a><a><a><a><a><a><a><a><a><a><a><a><a><a><!----></b>",
        55,
    ),
    (
        b"<?xml version='1.0'?>\n<!-- c --><a b=\"1\" c='&lt;2'>t&#65;<d>&amp;<e f='x'>u</e ></a >\n<!---->",
        80,
    ),
    (
        b"<a><a><a><a><a><a><a><a><a><a><a><a><a><a><a><a>?a><a><a><a><a><a><a><a><a><a><a></b>",
        81,
    ),
    (
        b"<a><a><a><a><a><a><a><a><a><a><a><a>a><a><a><a><a><a><a><a><a><a><a><a><a><a><a><a><a><a><a><a><!----></b>",
        102,
    ),
    (
        b"<a><a><a><a><a><a><a><a>a><a><a><a><a><a><a><a><a><a><a><a><a><a><a><a><a><a><a><a><a><a><a><a><!----></b>",
        102,
    ),
    (
        b"<a><a><a><a><a><a><a><a><a><a><a><a><a><a><a><a><a><a><a><a><a><a><a><a><a><a><a><a><a><a><a><a><!----></b>",
        103,
    ),
    (
        b"<a><a><a><a><a><a><a><a><a><a><a><a><a><a><a><a><a><a><a><a><a><a><a><a>\ta><a><a><a><a><a><a><a><!----></b>",
        103,
    ),
    (
        b"<a><a><a><a><a><a><a><a><a><a><a><a><a><a><a><a><a><a><a><a><a><a><a><a><a><a><a><a><a><a><a><a><!----></b>/b>",
        103,
    ),
    (
        b"<a><ax><a><a><a><a><a><a><a><a><a><a><a><a><a><a><a><a><a><a><a><a><a><a><a><a><a><a><a><a><a><a><!----></b>",
        104,
    ),
    (
        b"<a><a><a><a><a><a><a><a><a><a><a><a>a<a><a><a><a><a><a><a><a><a><a><a><a><a><a><a><a><a><a><a><a><!----></b>",
        104,
    ),
    (
        b"<a><a><a><a><a><a><a><a><a>;<a><a><a><a><a><a><a><a><a><a><a><a><a><a><a><a><a><a><a><a><a><a><a><!----></b>",
        104,
    ),
];

pub const BAD_REFERENCE: &[(&[u8], u64)] = &[
    (b"<a>&nsp;&#0;&#x110000;&#xD800;</a>", 3),
    (b"<a>&nbsp;&#0\n&#x110000;&#xD800;</a>", 3),
    (b"<a>&nbsp;&#0;&#x110000;&#xD800</a>", 3),
    (b"<a>&nbsp;&#0;&#x110000;&#xD800;</a>", 3),
    (b"<a>&nbs;&#0;&#x11/000;&#xD800;</a>", 3),
    (b"<a>&nbsp;bsp;&#0;&#x110000;&#xD800;a>", 3),
    (b"<a>&n", 3),
    (b"<a>&nbp;&#0;&#x110000;&#xD80&0;</a>", 3),
    (b"<a>&nbsp", 3),
    (b"<a>&nbsp;&#0;&#x110000;&#xD800;</a", 3),
    (b"<a>&nbsp;&#0;&#x11000;&#xD800;</a>", 3),
    (b"<a>&nbsp;&#0-;&#x110000;&#xD800;</a><!DO1CTYPE a><a/", 3),
    (b"<a>&nbsp;&#0;&#0;&#x1", 3),
    (b"<a>&nsp;&#0;&#x110000;D80", 3),
    (b"<a>&nbsp;&#0;&#x110000;&#xD800;</a><aa><a><b></c></a>", 3),
    (b"<a>&nbsp;&#0;&;#x110000;&#xD800;</a>", 3),
    (b"<a>&:nbsp;&#0;&#x11000;&#xD800", 3),
    (b"<a>&nbsp;&#0;&#x110000;&#", 3),
    (b"<a>&nbsp;&#0;&#x110000\t;&#x;&#xD800;</0;</a>", 3),
    (b"<a>&nbsp;&#0;&#x110000;&#xD800;</a><a", 3),
    (b"<a>&nbsp;&#0;&#x110000&#xD800;</a>", 3),
    (
        b"<a>&nbsp;&#0;&#x;&#x110000;&#xD800;</a><!DOCTYPE a><a/>",
        3,
    ),
    (b"<a>&nbsp;&#0;&#x110000;#xD800;</a>", 3),
    (
        b"<a>&nbsp;&#0;&#x110000;&#xD800;</a>\xef\xbb\xbf<?xml ?><a>\xc3\xa9\xef\xbf\xbd&apos;&uot;&gt;</a>",
        3,
    ),
    (b"<a>&nbs", 3),
    (b"<a>&nbsp;&#0;&#x110000;&#xD8[0;</a>", 3),
    (b"<a>&nbsp;&#0;&#x110000;&#xD8#xD800;</a>", 3),
    (b"<a>&nbsp;&#0;&#0;&#x110000;&#xD800;</a>", 3),
    (b"<a>&nbsp;&#0;&#x110000;&#xD800;</a>a>", 3),
    (b"<a b='1&' b:c='2'></a>", 7),
    (b"<a x = '&#x1</b><!--<b>&--></a>", 8),
    (
        b"\xef\xbb\xbf<?xml ?><a>\xc3\xa9\xef\xbf\xbd&;1apos;&quot;&gt;</a><?xml version='1.0'?>\n<!-- c --><a b=\"1/e ></a >\n<!---->",
        19,
    ),
    (
        b"\xef\xbb\xbf<?xml ?><a>\xc3\xa9\xef\xbf\xbd&ap;&quot;&gt;</a>",
        19,
    ),
    (
        b"\xef\xbb\xbf<?xml ?><a>\xc3\xa9\xef\xbf\xbd&aposapos;&quot;&gt;</a>",
        19,
    ),
    (
        b"\xef\xbb\xbf<?xml ?><a>\xc3\xa9\xef\xbf\xbd&apos;&quo>",
        25,
    ),
    (
        b"<a x = '&#x1F600;' y='\xf0\x9f\x98\x80'><b><c>&#c>&#9;&#xA;</c><b><!--<b>&--></a>",
        34,
    ),
    (
        b"<?xml version='1.0'?>\n<!-- c --><a b=\"1\" c='&lt;2'>t&#5;<d/>&amp;<e f='x'>u</e ></a >\n<!---->",
        52,
    ),
    (
        b"<?xml version='1.0'?>\n<!-- c --><a b=\"1\" c='&lt;2'>t&#65;<d/>&abmp;<e f='x'",
        61,
    ),
    (
        b"<?xml version='1.0'?>\n<!-- c --><a b=\"1\" c='&lt;2'>t&#65;<d/>&[mp;<e f='x'>u</e ></a >\n<!---->",
        61,
    ),
    (
        b"<?xml version='1.0'?>\n<!-- c --c --><a b=\"1\" c='&lt;2'>t&#65;<d/>&bmp;<e f='x'>u</e ></a >\n<!----><a><?x y?></a>",
        65,
    ),
];

pub const UNSUPPORTED: &[(&[u8], u64)] = &[
    (b"<!DOCTYPE a><a/>", 0),
    (b"<!DOCTYPE a></><a/>", 0),
    (b"<!DOCTYPE a><>", 0),
    (b"<!DOCTYPE YPE a><a/>", 0),
    (b"<!DOCTYPE a><a/><a>&nbsp;&#0;&#x110000;&#xD800;</a>", 0),
    (b"<!DOCTYPE a><a/>a/>", 0),
    (b"<!DOCTYPE a><a/><_1.-><a/><a/></_1.->", 0),
    (b"<a:b c:d='e'/><a><![CDATA[]]></a>", 2),
    (b"<a:b c:d='e'/><a b='1' b:c='2'><2'></a></a>", 2),
    (b"<a:b c:d='e'/>e'/>", 2),
    (b"<a:b c:d='e'/>", 2),
    (
        b"<a:b c:d='e'/><a><a><a><a><a><a><a><a><a><a><a><a><a><a><a><a><a><a><a><a><a><a><a><a><!----></b>",
        2,
    ),
    (b"<a:>", 2),
    (b"<a:b c:d'e'/>", 2),
    (b"<a:b c:d c:d='e'", 2),
    (b"<a:b c:d='", 2),
    (b"<a:b c:d='\"", 2),
    (b"<a:b c:d='e'>", 2),
    (b"<a:b c:d=''/>", 2),
    (b"<a><?x y?", 3),
    (b"<a><![CDATA[x]]></a:", 3),
    (b"<a><![CDATA[x]", 3),
    (b"<a><?", 3),
    (b"<a><?x y?></a><a<?x y?></a>", 3),
    (b"<a><![CDATA[x]></a>", 3),
    (
        b"<a><?x y?></a><a x = '&#x1F600;' y='\xf0\x9f\x98\x80'><b><c>&#9;&#xA;</c></b><!--<b--<b>&--></a>",
        3,
    ),
    (b"<a><?x y?></a>", 3),
    (b"<a><![CDATA[x]]></a>", 3),
    (b"<a><?x/a>", 3),
    (b"<a><?x y?></a><a><a><a><a><a><a><a><a><a><a><a><a><a", 3),
    (b"<a><![CDATA[x]]></a><a b=", 3),
    (
        b"<a><?x y?></a><a><a><a><a><a><a><a><a><a><a><a><a><a>><a><a><a><a><a><a><a><a><a><a><a><a><a><a><a><a><a><a><a><a><!----></b>",
        3,
    ),
    (b"<a><![CDATA[x]]>x]]></a>", 3),
    (b"<a><?x y?> y?></a>", 3),
    (b"<a\t><![CDATA[x]]></a>", 4),
    (b"<a></a:b>", 6),
    (b"<a></a:</a:b>", 6),
    (b"<a b='1' ab:c'></a>>", 11),
    (
        b"<a><a><a><a><a><?><a><a><a><a><a><a><a><a><a><a><a><a><a><a><a><a><<><a><a><a><a><a><a><a><a><a><!----></b>",
        15,
    ),
    (
        b"\xef\xbb\xbf<?xml ?><a>\xc3\xa9\xef\xbf\xbd&apos;&quot;&gt;</a><?xml vesion='1.0'?>\n<!-- c --><a b=\"1\" c='&lt;2'>t&#65;<d/>&amp;<e f='x'>u</e ></a >\n<!---->",
        39,
    ),
];

pub const TOO_DEEP: &[(&[u8], u64)] = &[
    (
        b"<a><a><a><a><a><a><a><a><a><a><a><a><a><a><a><a><a><a><a><a><a><a><a><a><a><a><a><a><a><a><a><a><b/></a></a>",
        96,
    ),
    (
        b"<a><a><a><a><a><a><a><a><a><a><a><a><a><a><a><a><a><a><a><a><a><a><a><a><a><a><a><a><a><a><a><a><b/></",
        96,
    ),
    (
        b"<a><a><a><a><a><a><a><a><a><a><a><a><a><a><a><a><a><a><a><a><a><a><a><a><a><a><a><a><a><a><a><a><b/></a></a></a></a></a></a></a>",
        96,
    ),
    (
        b"<a><a><a><a><a><a><a><a><a><a><a><a><a><a><a><a><a><a><a><a><a><a><a><a><a><a><a><a><a><a><a><a><b/></a></a></a></",
        96,
    ),
    (
        b"<a><a><a><a><a><a><a><a><a><a><a><a><a><a><a><a><a><a><a><a><a><a><a><a><a><a><a><a><a><a><a><a><b/></a></a></a></a></a></a></",
        96,
    ),
    (
        b"<a><a><a><a><a><a><a><a><a><a><a><a><a><a><a><a><a><a><a><a><a><a><a><a><a><a><a><a><a><a><a><a><b/></a>/a></a></a></a></a></a></a></a></a></a></a>",
        96,
    ),
    (
        b"<a><a><a><a><a><a><a><a><a><a><a><a><a><a><a><a><a><a><a><a><a><a><a><a><a><a><a><a><a><a><a><a><b/></a></a></a></a></a",
        96,
    ),
    (
        b"<a><a><a><a><a><a><a><a><a><a><a><a><a><a><a><a><a><a><a><a><a><a><a><a><a><a><a><a><a><a><a><a><b/></a></a></a></a></a></a></a><//a></a></a></a>",
        96,
    ),
    (
        b"<a><a><a><a><a><a><a><a><a><a><a><a><a><a><a><a><a><a><a><a><a><a><a><a><a><a><a><a><a><a><a><a><b/></a></a></a></a><></a></a></a></a></a></a></a></a>",
        96,
    ),
    (
        b"<a><a><a><a><a><a><a><a><a><a><a><a><a><a><a><a><a><a><a><a><a><a><a><a><a><a><a><a><a><a><a><a><b/></a></a></a></a></a></a>",
        96,
    ),
    (
        b"<a><a><a><a><a><a><a><a><a><a><a><a><a><a><a><a><a><a><a><a><a><a><a><a><a><a><a><a><a><a><a><a><b/></a></a></a></a></a></a></a></a></a></a></a></a></a></a",
        96,
    ),
    (
        b"<a><a><a><a><a><a><a><a><a><a><a><a><a><a><a><a><a><a><a><a><a><a><a><a><a><a><a><a><a><a><a><a><b/></a></a></a></a></a></a></a></a></",
        96,
    ),
    (
        b"<a><a><a><a><a>><a><a><a><a><a><a><a><a><a><a><a><a><a><a><a><a><a><a><a><a><a><a><a><a><a><a><a><a><!----></b>",
        97,
    ),
    (
        b"<a><a><a><a><a><a><aa><a><a><a><a><a><a><a><a><a><a><a><a><a><a><a><a><a><a><a><a><a><a><a><a><a><a><!----></b>",
        97,
    ),
    (
        b"<a><a><a><a><a><a><a><a><a><a><a><a><a><a><a><a><a><a><a><a><a><a><a><a><a><a><a><a><a>'<a><a><a><b/>/a></a></a></a></a></a></a>",
        97,
    ),
    (
        b"<a><a><a><a><a><a><a><a><a><a><a><a><aa><a><a><a><a><a><a><a><a><a><a><a><a><a><a><a><a><a><a><a><a><!----></b>",
        97,
    ),
    (
        b"<a><a><a><a><a><a><a><a><a><a><a><a><a><a><a><a><a><a><a><a>><a><a><a><a><a><a><a><a><a><a><a><a><a><!----></b>\xef\xbb\xbf?xml ?><a>\xc3\xa9\xef\xbf\xbd&apos;&quot;&gt;</a>",
        97,
    ),
    (
        b"<a><a><a><a><a><a><a><a><a><aa><a><a><a><a><a><a><a><a><a><a><a><a><a><a><a><a><a><a><a><a><a><a><a><!----></b>",
        97,
    ),
    (
        b"<a><a><a><a><a><a><a><a><a><a><a><a><a><a><a><a><a><aa><a><a><a><a><a><a><a><a><a><a><a><a><a><a><a><!----></b>",
        97,
    ),
    (
        b"<a><a><a><a><a><a><a><a><a><a><a><a><a><a><a>><a><a><a><a><a><a><a><a><a><a><a><a><a><a><a><a><a><a><!----></b>",
        97,
    ),
    (
        b"<a><a><a><a><a><a><a><a><a><a><a><aa><a><a><a><a><a><a><a><a><a><a><a><a><a><a><a><a><a><a><a><a><a><!----></b><\na b='1' b='2'/>",
        97,
    ),
    (
        b"<a><a><a><a><a><a><a><a>><a><a><a><a><a><a><a><a><a><a><a><a><a><a><a><a><a><a><a><a><a><a><a><a><a><!----></b>",
        97,
    ),
    (
        b"<a><a><a><a><a><a><a><a><a><a><a><a><a><a><a><a><a><a><a><a><aa><a><a><a><a><a><a><a><a><a><a><a><a><!----></b>",
        97,
    ),
    (
        b"<a><aa><a><a><a><a><a><a><a><a><a><a><a><a><a><a><a><a><a><a><a><a><a><a><a><a><a><a><a><a><a><a><a><b/></a></a></a></a></a></a></a></a>",
        97,
    ),
    (
        b"<a><a><a><a><a><a><a><a><a><a><a><a><a><a><a><a><a><a><a>><a><a><a><a><a><a><a><a><a><a><a><a><a><a><!----></b>",
        97,
    ),
    (
        b"<a><a><a><a><a><a><a><a><a><a><a><a><a><a><a><a><a><a><a><a><a><a><a><a><a><a><aa><a><a><a><a><a><a><!----></b>",
        97,
    ),
    (
        b"<a><a><a><a><a><a><a><a><a><a><a><a><a><a><a><a><a><a><a><a><a><a><a><a><a><a><a><a><a>#<a><a><a><b/></a></a></a><",
        97,
    ),
    (
        b"<a><a><a><a><a><a><a><a><a><a><a><a><a><a><a><a><a><a><a><a><a><a><a><a><a><a><a><a><a><a><a><a>><a><!----></b>",
        97,
    ),
    (
        b"<a><a><a><a><a><a><a><a><a><a><a><a><a><a><a><a><a><a><a><a><a><a><a><a><a>><a><a><a><a><a><a><a><a><!----></b>",
        97,
    ),
    (
        b"<a><a><a><a><a><a><a><a><a><a><a><a><a><a><a><aa><a><a><a><a><a><a><a><a><a><a><a><a><a><a><a><a><a><!----></b>",
        97,
    ),
    (
        b"<a><a><a><a><a><a><a><a><a><a><aa><a><a><a><a><a><a><a><a><a><a><a><a><a><a><a><a><a><a><a><a><a><a><",
        97,
    ),
    (
        b"<a><a><a><a><a><a><a><a><a><a><a><a><a><a><a><a><a><a><a><a><a><a><a><a><a><a><a><a><a><a><aa><a><a><b>",
        97,
    ),
    (
        b"<a><a><a><a><a><a><a><a><a><a><a><a><a><a><a><a><a><a><a><a><a><a><a><a><a><a><a><a>><a><a><a><a><a><!----></b>",
        97,
    ),
    (
        b"<a><a><a><a><a><a><a><a><a><a><a><a><a><a><a><a><a><a><a><a><a><a><a><a><a><a><a><a><a><aa><a><a><a><!----></b>",
        97,
    ),
    (
        b"<a><a><a><a><a><a><a><a><a><a><a><a><a><a><a><a><a><a><a><a><a><a><a><a><a><a><a><a><a><a><a>><a><a><!----></b>",
        97,
    ),
    (
        b"<a><a><a><a><a><a><a><a><a><a><a><a><a><a>><a><a><a><a><a><a><a><a><a><a><a><a><a><a><a><a><a><a><a><b/></a></a></a></a></a></a></a></a></a></a></a></a></a><",
        97,
    ),
    (
        b"<a><a><a><a><a><a><a><a><a><a><a><a><a><a><a><a><a><a><a><a><a><a><a><a><a><a><a><a><a><a><a><aa><a><!----></b>",
        97,
    ),
    (
        b"<a><a><a><a><a><a><a><a><a><a><a><a><a><a><a><a><a><a><a><a><aa><a><a><a><a><a><a><a><a><a><a><a><a><!----></b><a><?x y?></a>",
        97,
    ),
    (
        b"<a><a><a><a><a><a><a><a>a<a><a><a><a><a><a><a><a><a><a><a>><a><a><a><a><a><a><a><a><a><a><a><a><a><a><!----></b>",
        98,
    ),
    (
        b"<a><a><a><a><a><a><a><a><a>><a><a><a><a><a><a><a><a><a>a><a><a><a><a><a><a><a><a><a><a><a><a><a><a><b/></a></a></a></a></a></a></a></",
        99,
    ),
];
