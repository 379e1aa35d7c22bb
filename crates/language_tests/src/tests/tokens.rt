// Tokens by hand, of every form and every kind of bad token, and long scripts.
use sql_lex::{bytes_of, name_of, number_of, read_tokens_of, table_of, text_of};
use sql_tree::{Kind, Token};
use std::alloc::{AllocError, Global};
use std::test::Fail;

/// Bytes, and their tokens: what each is, where it begins and where it ends.
const TOKENS: [(&[u8], &[(Kind, usize, usize)]); 51] = [
    // Nothing, white space and comments.
    (b"", &[]),
    (b" \t\r\n", &[]),
    (b"-- a\rSELECT\nx", &[(Kind::Name, 12, 13)]),
    (b"a--b", &[(Kind::Name, 0, 1)]),
    (
        b"a- -b",
        &[
            (Kind::Name, 0, 1),
            (Kind::Minus, 1, 2),
            (Kind::Minus, 3, 4),
            (Kind::Name, 4, 5),
        ],
    ),
    // Words, in either case.
    (
        b"selects _a1 IF Table_changes",
        &[
            (Kind::Name, 0, 7),
            (Kind::Name, 8, 11),
            (Kind::Name, 12, 14),
            (Kind::Name, 15, 28),
        ],
    ),
    (
        b"sElEcT timestamp wHERE div",
        &[
            (Kind::Select, 0, 6),
            (Kind::Timestamp, 7, 16),
            (Kind::Where, 17, 22),
            (Kind::Div, 23, 26),
        ],
    ),
    (
        b"DATE `DATE` `a``b` ````",
        &[
            (Kind::Date, 0, 4),
            (Kind::Name, 5, 11),
            (Kind::Name, 12, 18),
            (Kind::Name, 19, 23),
        ],
    ),
    // Numbers.
    (b"1e5", &[(Kind::Whole, 0, 1), (Kind::Name, 1, 3)]),
    (b"1.", &[(Kind::Whole, 0, 1), (Kind::Dot, 1, 2)]),
    (b".5", &[(Kind::Dot, 0, 1), (Kind::Whole, 1, 2)]),
    (
        b"1.5.5",
        &[
            (Kind::Decimal, 0, 3),
            (Kind::Dot, 3, 4),
            (Kind::Whole, 4, 5),
        ],
    ),
    (b"1AS", &[(Kind::Whole, 0, 1), (Kind::As, 1, 3)]),
    (
        b"9223372036854775807 09223372036854775808",
        &[(Kind::Whole, 0, 19), (Kind::LargeWhole, 20, 40)],
    ),
    (
        b"0099999999999999999999999999999999999999",
        &[(Kind::LargeWhole, 0, 40)],
    ),
    (
        b"00000000000000000000000000000000000000007",
        &[(Kind::Whole, 0, 41)],
    ),
    (
        b"100000000000000000000000000000000000000",
        &[(Kind::Bad, 0, 39)],
    ),
    (
        b"0.000000000000000000000000000000000000001",
        &[(Kind::Decimal, 0, 41)],
    ),
    (
        b"1.0000000000000000000000000000000000000",
        &[(Kind::Decimal, 0, 39)],
    ),
    (
        b"1.00000000000000000000000000000000000000",
        &[(Kind::Bad, 0, 40)],
    ),
    // Texts and bytes.
    (
        b"'it''s' 't' '' 'a--b'",
        &[
            (Kind::Text, 0, 7),
            (Kind::TableText, 8, 11),
            (Kind::Text, 12, 14),
            (Kind::TableText, 15, 21),
        ],
    ),
    (b"'\xc3\xa9\n'", &[(Kind::Text, 0, 5)]),
    (
        b"X'0a''0b'",
        &[(Kind::Bytes, 0, 5), (Kind::TableText, 5, 9)],
    ),
    (
        b"x'' X 'fF'",
        &[
            (Kind::Bytes, 0, 3),
            (Kind::Name, 4, 5),
            (Kind::TableText, 6, 10),
        ],
    ),
    // Signs.
    (
        b"<=> <= <> != >= || < > = + - * % ( ) , . ;",
        &[
            (Kind::SameAs, 0, 3),
            (Kind::LessOrEqual, 4, 6),
            (Kind::NotEqual, 7, 9),
            (Kind::NotEqual, 10, 12),
            (Kind::GreaterOrEqual, 13, 15),
            (Kind::Concat, 16, 18),
            (Kind::Less, 19, 20),
            (Kind::Greater, 21, 22),
            (Kind::Equal, 23, 24),
            (Kind::Plus, 25, 26),
            (Kind::Minus, 27, 28),
            (Kind::Star, 29, 30),
            (Kind::Percent, 31, 32),
            (Kind::Open, 33, 34),
            (Kind::Close, 35, 36),
            (Kind::Comma, 37, 38),
            (Kind::Dot, 39, 40),
            (Kind::Semicolon, 41, 42),
        ],
    ),
    (
        b"<=>=a<=-1",
        &[
            (Kind::SameAs, 0, 3),
            (Kind::Equal, 3, 4),
            (Kind::Name, 4, 5),
            (Kind::LessOrEqual, 5, 7),
            (Kind::Minus, 7, 8),
            (Kind::Whole, 8, 9),
        ],
    ),
    // Tables' names.
    (
        b"show FILES t-1.x;",
        &[
            (Kind::Show, 0, 4),
            (Kind::Files, 5, 10),
            (Kind::Table, 11, 16),
            (Kind::Semicolon, 16, 17),
        ],
    ),
    (
        b"FROM from--x\n;",
        &[
            (Kind::From, 0, 4),
            (Kind::Table, 5, 9),
            (Kind::Semicolon, 13, 14),
        ],
    ),
    (
        b"INTO x'00'",
        &[
            (Kind::Into, 0, 4),
            (Kind::Table, 5, 6),
            (Kind::TableText, 6, 10),
        ],
    ),
    (b"USING (", &[(Kind::Using, 0, 5), (Kind::Open, 6, 7)]),
    (
        b"TABLE -- c\n 1.5",
        &[(Kind::TableWord, 0, 5), (Kind::Table, 12, 15)],
    ),
    (
        b"FROM TABLE_changes(",
        &[
            (Kind::From, 0, 4),
            (Kind::TableChanges, 5, 18),
            (Kind::Open, 18, 19),
        ],
    ),
    (
        b"FROM table_changes2",
        &[(Kind::From, 0, 4), (Kind::Table, 5, 19)],
    ),
    (
        b"show rows 1; rows 1",
        &[
            (Kind::Show, 0, 4),
            (Kind::Rows, 5, 9),
            (Kind::Table, 10, 11),
            (Kind::Semicolon, 11, 12),
            (Kind::Rows, 13, 17),
            (Kind::Whole, 18, 19),
        ],
    ),
    (
        b"SHOW IDENTITIES a.b",
        &[
            (Kind::Show, 0, 4),
            (Kind::Identities, 5, 15),
            (Kind::Table, 16, 19),
        ],
    ),
    (
        b"VERIFY FEED 1 2",
        &[
            (Kind::Verify, 0, 6),
            (Kind::Feed, 7, 11),
            (Kind::Table, 12, 13),
            (Kind::Whole, 14, 15),
        ],
    ),
    (
        b"SHOW FEED 1",
        &[
            (Kind::Show, 0, 4),
            (Kind::Feed, 5, 9),
            (Kind::Whole, 10, 11),
        ],
    ),
    (
        b"UPDATE 1 SET",
        &[
            (Kind::Update, 0, 6),
            (Kind::Table, 7, 8),
            (Kind::Set, 9, 12),
        ],
    ),
    (
        b"THEN UPDATE 1",
        &[
            (Kind::Then, 0, 4),
            (Kind::Update, 5, 11),
            (Kind::Whole, 12, 13),
        ],
    ),
    // USING stands before STATS in a SELECT, and before a table elsewhere.
    (
        b"SELECT a FROM 1 USING stats; USING 1",
        &[
            (Kind::Select, 0, 6),
            (Kind::Name, 7, 8),
            (Kind::From, 9, 13),
            (Kind::Table, 14, 15),
            (Kind::Using, 16, 21),
            (Kind::Stats, 22, 27),
            (Kind::Semicolon, 27, 28),
            (Kind::Using, 29, 34),
            (Kind::Table, 35, 36),
        ],
    ),
    (
        b"MERGE INTO 1 USING stats",
        &[
            (Kind::Merge, 0, 5),
            (Kind::Into, 6, 10),
            (Kind::Table, 11, 12),
            (Kind::Using, 13, 18),
            (Kind::Table, 19, 24),
        ],
    ),
    // OPTIMIZE stands before a table where it begins a statement.
    (
        b"OPTIMIZE 1; optimize optimize; a optimize 1",
        &[
            (Kind::Optimize, 0, 8),
            (Kind::Table, 9, 10),
            (Kind::Semicolon, 10, 11),
            (Kind::Optimize, 12, 20),
            (Kind::Table, 21, 29),
            (Kind::Semicolon, 29, 30),
            (Kind::Name, 31, 32),
            (Kind::Optimize, 33, 41),
            (Kind::Whole, 42, 43),
        ],
    ),
    (
        b"RESTORE TABLE 1 TO VERSION AS OF 1",
        &[
            (Kind::Restore, 0, 7),
            (Kind::TableWord, 8, 13),
            (Kind::Table, 14, 15),
            (Kind::To, 16, 18),
            (Kind::Version, 19, 26),
            (Kind::As, 27, 29),
            (Kind::Of, 30, 32),
            (Kind::Whole, 33, 34),
        ],
    ),
    (
        b"FROM aaaaaaaaaaaaaaaaaaaaaaaaaaaaaaaaaaaaaaaaaaaaaaaaaaaaaaaaaaaaaaaaaaaaaaaaaaaaaaaaaaaaaaaaaaaaaaaaaaaa",
        &[(Kind::From, 0, 4), (Kind::Table, 5, 105)],
    ),
    // What is no token.
    (b"FROM .a", &[(Kind::From, 0, 4), (Kind::Bad, 5, 7)]),
    (
        b"FROM aaaaaaaaaaaaaaaaaaaaaaaaaaaaaaaaaaaaaaaaaaaaaaaaaaaaaaaaaaaaaaaaaaaaaaaaaaaaaaaaaaaaaaaaaaaaaaaaaaaaa",
        &[(Kind::From, 0, 4), (Kind::Bad, 5, 106)],
    ),
    (
        b"! | / \xc3\xa9",
        &[
            (Kind::Bad, 0, 1),
            (Kind::Bad, 2, 3),
            (Kind::Bad, 4, 5),
            (Kind::Bad, 6, 7),
            (Kind::Bad, 7, 8),
        ],
    ),
    (b"'a''", &[(Kind::Bad, 0, 4)]),
    (b"`` `a", &[(Kind::Bad, 0, 2), (Kind::Bad, 3, 5)]),
    (
        b"X'0' X'0g' X'00",
        &[(Kind::Bad, 0, 4), (Kind::Bad, 5, 10), (Kind::Bad, 11, 15)],
    ),
    (
        b"'\xff' `\xff` --\xff\n--\xfe",
        &[
            (Kind::Bad, 0, 3),
            (Kind::Bad, 4, 7),
            (Kind::Bad, 8, 11),
            (Kind::Bad, 12, 15),
        ],
    ),
];

fn are_these(tokens: &[Token], wanted: &[(Kind, usize, usize)]) -> bool {
    tokens.len() == wanted.len()
        && tokens.iter().zip(wanted).all(|(token, (kind, start, end))| {
            token.kind == *kind && token.span.start == *start && token.span.end == *end
        })
}

#[test]
fn tokens_are_read(rt: HostRuntime) -> Result<(), Fail> {
    for (bytes, wanted) in TOKENS {
        let tokens = read_tokens_of(rt.alloc(), bytes)?;
        assert!(rt; are_these(tokens.as_slice(), wanted), "{bytes:?}");
    }
    Ok(())
}

/// Parts of scripts of 1 MiB: the bytes of a part, how often they stand, and how many tokens they have.
const LONG: [(&[u8], usize, usize); 8] = [
    (b"SHOW FILES a; -- b\n", 55188, 220752),
    (b"1 ", 524288, 524288),
    (b"1", 1048576, 1),
    (b"1.", 524288, 524288),
    (b"-", 1048576, 0),
    (b"'", 1048576, 1),
    (b"X'", 524288, 262144),
    (b"FROM t--\n", 116508, 233016),
];

fn repeated(alloc: Global, part: &[u8], times: usize) -> Result<Vec<u8>, AllocError> {
    let mut bytes = Vec::new(alloc);
    for _ in 0..times {
        bytes.extend_from_slice(part)?;
    }
    Ok(bytes)
}

#[test]
fn long_scripts_are_read(rt: HostRuntime) -> Result<(), Fail> {
    for (part, times, count) in LONG {
        let script = repeated(rt.alloc(), part, times)?;
        let tokens = read_tokens_of(rt.alloc(), script.as_slice())?;
        assert_eq!(rt; tokens.len(), count, "{part:?}");
    }
    Ok(())
}

/// Tokens, and the names, texts and bytes that they are.
const NAMES: [(&[u8], Option<&[u8]>); 8] = [
    (b"Files", Some(b"Files")),
    (b"`a``b`", Some(b"a`b")),
    (b"````", Some(b"`")),
    (b"`FROM`", Some(b"FROM")),
    (b"``", None),
    (b"`a``", None),
    (b"'a'", None),
    (b"", None),
];

/// Tokens, and the tables that they name.
const TABLES: [(&[u8], Option<&[u8]>); 5] = [
    (b"a-1._b", Some(b"a-1._b")),
    (b"From", Some(b"From")),
    (b".a", None),
    (b"`a`", None),
    (b"", None),
];

const TEXTS: [(&[u8], Option<&[u8]>); 6] = [
    (b"'it''s'", Some(b"it's")),
    (b"''''''", Some(b"''")),
    (b"''", Some(b"")),
    (b"'a' ", None),
    (b"'\xff'", None),
    (b"`a`", None),
];

const BYTES: [(&[u8], Option<&[u8]>); 6] = [
    (b"X'0aFf'", Some(b"\x0a\xff")),
    (b"x''", Some(b"")),
    (b"X'0'", None),
    (b"X'0g'", None),
    (b"X'00", None),
    (b"'00'", None),
];

/// Tokens, and the numbers that they are: without the point, their precision and their scale.
const NUMBERS: [(&[u8], Option<(u128, usize, usize)>); 10] = [
    (b"0", Some((0, 1, 0))),
    (b"007", Some((7, 1, 0))),
    (b"9223372036854775808", Some((9223372036854775808, 19, 0))),
    (
        b"99999999999999999999999999999999999999",
        Some((99999999999999999999999999999999999999, 38, 0)),
    ),
    (b"001.50", Some((150, 3, 2))),
    (b"0.00", Some((0, 2, 2))),
    (
        b"0.000000000000000000000000000000000000001",
        Some((1, 39, 39)),
    ),
    (b"1.00000000000000000000000000000000000000", None),
    (b"1.", None),
    (b".5", None),
];

#[test]
fn tokens_mean(rt: HostRuntime) -> Result<(), Fail> {
    for (token, wanted) in NAMES {
        let name = name_of(rt.alloc(), token)?;
        assert_eq!(rt; name.as_ref().map(|it| it.as_bytes()), wanted, "{token:?}");
    }
    for (token, wanted) in TABLES {
        let name = table_of(rt.alloc(), token)?;
        assert_eq!(rt; name.as_ref().map(|it| it.as_bytes()), wanted, "{token:?}");
    }
    for (token, wanted) in TEXTS {
        let text = text_of(rt.alloc(), token)?;
        assert_eq!(rt; text.as_ref().map(|it| it.as_bytes()), wanted, "{token:?}");
    }
    for (token, wanted) in BYTES {
        let bytes = bytes_of(rt.alloc(), token)?;
        assert_eq!(rt; bytes.as_ref().map(|it| it.as_slice()), wanted, "{token:?}");
    }
    for (token, wanted) in NUMBERS {
        let number = number_of(token).map(|it| (it.unscaled, it.precision, it.scale));
        assert_eq!(rt; number, wanted, "{token:?}");
    }
    Ok(())
}
