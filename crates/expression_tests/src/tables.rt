// Types by hand after the tables of the language, over a scope with a column of each type.

/// NULL, and the columns of a scope, each of another type.
pub(super) const OPERANDS: [&[u8]; 12] = [
    b"NULL", b"b", b"y", b"s", b"i", b"l", b"d", b"e", b"t", b"x", b"a", b"m",
];

/// The types of the columns, as CAST writes them.
pub(super) const TYPES: [&[u8]; 11] = [
    b"BOOLEAN",
    b"TINYINT",
    b"SMALLINT",
    b"INT",
    b"BIGINT",
    b"DECIMAL(10,2)",
    b"DECIMAL(38,10)",
    b"STRING",
    b"BINARY",
    b"DATE",
    b"TIMESTAMP",
];

// A line for each left operand, a word for each right one: the type, a point where the operands aren't
// taken, `!` where the precision would pass 38.

/// The types of sums and differences.
pub(super) const SUMS: [&[u8]; 12] = [
    b". . Y S I L 11,2 ! . . . .",
    b". . . . . . . . . . . .",
    b"Y . Y S I L 11,2 ! . . . .",
    b"S . S S I L 11,2 ! . . . .",
    b"I . I I I L 13,2 ! . . . .",
    b"L . L L L L 22,2 ! . . . .",
    b"11,2 . 11,2 11,2 13,2 22,2 11,2 ! . . . .",
    b"! . ! ! ! ! ! ! . . . .",
    b". . . . . . . . . . . .",
    b". . . . . . . . . . . .",
    b". . . . . . . . . . . .",
    b". . . . . . . . . . . .",
];

/// The types of products.
pub(super) const PRODUCTS: [&[u8]; 12] = [
    b". . Y S I L 20,4 ! . . . .",
    b". . . . . . . . . . . .",
    b"Y . Y S I L 13,2 ! . . . .",
    b"S . S S I L 15,2 ! . . . .",
    b"I . I I I L 20,2 ! . . . .",
    b"L . L L L L 29,2 ! . . . .",
    b"20,4 . 13,2 15,2 20,2 29,2 20,4 ! . . . .",
    b"! . ! ! ! ! ! ! . . . .",
    b". . . . . . . . . . . .",
    b". . . . . . . . . . . .",
    b". . . . . . . . . . . .",
    b". . . . . . . . . . . .",
];

/// The types of quotients.
pub(super) const QUOTIENTS: [&[u8]; 12] = [
    b". . L L L L . . . . . .",
    b". . . . . . . . . . . .",
    b"L . L L L L . . . . . .",
    b"L . L L L L . . . . . .",
    b"L . L L L L . . . . . .",
    b"L . L L L L . . . . . .",
    b". . . . . . . . . . . .",
    b". . . . . . . . . . . .",
    b". . . . . . . . . . . .",
    b". . . . . . . . . . . .",
    b". . . . . . . . . . . .",
    b". . . . . . . . . . . .",
];

/// The types of remainders.
pub(super) const REMAINDERS: [&[u8]; 12] = [
    b". . Y S I L . . . . . .",
    b". . . . . . . . . . . .",
    b"Y . Y S I L . . . . . .",
    b"S . S S I L . . . . . .",
    b"I . I I I L . . . . . .",
    b"L . L L L L . . . . . .",
    b". . . . . . . . . . . .",
    b". . . . . . . . . . . .",
    b". . . . . . . . . . . .",
    b". . . . . . . . . . . .",
    b". . . . . . . . . . . .",
    b". . . . . . . . . . . .",
];

/// The types of two texts, one behind the other.
pub(super) const JOINS: [&[u8]; 12] = [
    b"T . . . . . . . T . . .",
    b". . . . . . . . . . . .",
    b". . . . . . . . . . . .",
    b". . . . . . . . . . . .",
    b". . . . . . . . . . . .",
    b". . . . . . . . . . . .",
    b". . . . . . . . . . . .",
    b". . . . . . . . . . . .",
    b"T . . . . . . . T . . .",
    b". . . . . . . . . . . .",
    b". . . . . . . . . . . .",
    b". . . . . . . . . . . .",
];

/// The types of AND and OR.
pub(super) const TRUTHS: [&[u8]; 12] = [
    b"B B . . . . . . . . . .",
    b"B B . . . . . . . . . .",
    b". . . . . . . . . . . .",
    b". . . . . . . . . . . .",
    b". . . . . . . . . . . .",
    b". . . . . . . . . . . .",
    b". . . . . . . . . . . .",
    b". . . . . . . . . . . .",
    b". . . . . . . . . . . .",
    b". . . . . . . . . . . .",
    b". . . . . . . . . . . .",
    b". . . . . . . . . . . .",
];

/// The types of comparisons.
pub(super) const COMPARISONS: [&[u8]; 12] = [
    b"B B B B B B B B B B B B",
    b"B B . . . . . . . . . .",
    b"B . B B B B B B . . . .",
    b"B . B B B B B B . . . .",
    b"B . B B B B B B . . . .",
    b"B . B B B B B B . . . .",
    b"B . B B B B B B . . . .",
    b"B . B B B B B B . . . .",
    b"B . . . . . . . B . . .",
    b"B . . . . . . . . B . .",
    b"B . . . . . . . . . B .",
    b"B . . . . . . . . . . B",
];

/// The common types.
pub(super) const COMMON: [&[u8]; 12] = [
    b"V B Y S I L 10,2 38,10 T X A M",
    b"B B . . . . . . . . . .",
    b"Y . Y S I L 10,2 38,10 . . . .",
    b"S . S S I L 10,2 38,10 . . . .",
    b"I . I I I L 12,2 38,10 . . . .",
    b"L . L L L L 21,2 38,10 . . . .",
    b"10,2 . 10,2 10,2 12,2 21,2 10,2 38,10 . . . .",
    b"38,10 . 38,10 38,10 38,10 38,10 38,10 38,10 . . . .",
    b"T . . . . . . . T . . .",
    b"X . . . . . . . . X . .",
    b"A . . . . . . . . . A .",
    b"M . . . . . . . . . . M",
];

// A line for each operand, a word for each type: `+` where it is allowed.

/// Casts.
pub(super) const CASTS: [&[u8]; 12] = [
    b"+ + + + + + + + + + +",
    b"+ . . . . . . + . . .",
    b". + + + + + + + . . .",
    b". + + + + + + + . . .",
    b". + + + + + + + . . .",
    b". + + + + + + + . . .",
    b". + + + + + + + . . .",
    b". + + + + + + + . . .",
    b"+ + + + + + + + + + +",
    b". . . . . . . + + . .",
    b". . . . . . . + . + +",
    b". . . . . . . + . + +",
];

/// Assignments.
pub(super) const ASSIGNMENTS: [&[u8]; 12] = [
    b"+ + + + + + + + + + +",
    b"+ . . . . . . + . . .",
    b". + + + + + + + . . .",
    b". + + + + + + + . . .",
    b". + + + + + + + . . .",
    b". + + + + + + + . . .",
    b". + + + + + + + . . .",
    b". + + + + + + + . . .",
    b". . . . . . . + . . .",
    b". . . . . . . . + . .",
    b". . . . . . . + . + +",
    b". . . . . . . + . + +",
];

/// Expressions, and their typed trees, or the broken rule and its place.
pub(super) const TREES: [(&[u8], &[u8]); 64] = [
    // Literals at the ends of their types.
    (b"2147483647", b"I constant"),
    (b"2147483648", b"L constant"),
    (b"-2147483648", b"L negate[L constant]"),
    (b"9223372036854775807", b"L constant"),
    (b"9223372036854775808", b"19,0 constant"),
    (b"99999999999999999999999999999999999999", b"38,0 constant"),
    (b"0.5", b"1,1 constant"),
    (b"00.50", b"2,2 constant"),
    (b"1.50", b"3,2 constant"),
    (
        b"0.00000000000000000000000000000000000001",
        b"38,38 constant",
    ),
    (b"1 + 0.000000000000000000000000000000000000001", b"4 at 4"),
    (b"X'00'", b"X constant"),
    (b"''", b"T constant"),
    (b"TRUE", b"B constant"),
    (b"NULL", b"V constant"),
    (b"DATE '0001-01-01'", b"A constant"),
    (b"DATE '2023-02-29'", b"14 at 5"),
    (b"TIMESTAMP '9999-12-31 23:59:59.999999'", b"M constant"),
    (b"TIMESTAMP  '9999-12-31'", b"14 at 11"),
    // Names.
    (b"I", b"I column 3"),
    (b"`i`", b"I column 3"),
    (b"T.D", b"10,2 column 5"),
    (b"z", b"1 at 0"),
    (b"u.b", b"1 at 0"),
    (b"b AND  q.b", b"1 at 7"),
    (b"(((t.l)))", b"L column 4"),
    // NULL stands for the type that its form names.
    (b"NULL + i", b"I add[I cast[V constant];I column 3]"),
    (
        b"d - NULL",
        b"11,2 subtract[10,2 column 5;10,2 cast[V constant]]",
    ),
    (b"-NULL", b"3 at 0"),
    (b"NOT NULL", b"B not[B cast[V constant]]"),
    (b"NULL || t", b"T concat[T cast[V constant];T column 7]"),
    (b"NULL = NULL", b"B equal[V constant;V constant]"),
    (b"i <=> NULL", b"B same[I column 3;I cast[V constant]]"),
    (b"b OR NULL", b"B or[B column 0;B cast[V constant]]"),
    (b"NULL IS NULL", b"B is null[V constant]"),
    (b"NULL IS NOT TRUE", b"B not[B is true[B cast[V constant]]]"),
    (b"i IS FALSE", b"3 at 2"),
    (b"LENGTH(NULL)", b"I length[T cast[V constant]]"),
    // Tests.
    (
        b"i BETWEEN y AND 1.5",
        b"B between[I column 3][Y column 1;2,1 constant]",
    ),
    (
        b"i NOT BETWEEN NULL AND l",
        b"B not[B between[I column 3][I cast[V constant];L column 4]]",
    ),
    (b"i NOT BETWEEN t AND l", b"3 at 2"),
    (
        b"t IN ('a', NULL)",
        b"B in[T column 7][T constant;T cast[V constant];]",
    ),
    (b"t NOT IN (1)", b"3 at 2"),
    // Choices.
    (
        b"CASE WHEN b THEN y WHEN NULL THEN 1 ELSE l END",
        b"L case[B column 0:L cast[Y column 1];B cast[V constant]:L cast[I constant];L column 4]",
    ),
    (
        b"CASE WHEN b THEN NULL END",
        b"V case[B column 0:V constant;]",
    ),
    (
        b"if(b, d, i)",
        b"12,2 case[B column 0:12,2 cast[10,2 column 5];12,2 cast[I column 3]]",
    ),
    (b"CASE WHEN i THEN 1 WHEN t THEN 2 END", b"5 at 10"),
    (b"CASE WHEN i THEN 1 ELSE t END", b"3 at 0"),
    (b"IF(i, 1, t)", b"3 at 0"),
    (b"IF(b, 1, t)", b"3 at 0"),
    (
        b"COALESCE(NULL, y, i)",
        b"I coalesce[I cast[V constant];I cast[Y column 1];I column 3;]",
    ),
    (b"COALESCE(t)", b"T coalesce[T column 7;]"),
    (b"COALESCE(t, x)", b"3 at 0"),
    // Functions.
    (
        b"`year`(a) + MONTH(m)",
        b"I add[I year[A column 9];I month[M column 10]]",
    ),
    (b"day(t)", b"3 at 0"),
    (b"length(x)", b"3 at 0"),
    (b"1 + YEAR(a, m)", b"13 at 4"),
    (b"COALESCE()", b"13 at 0"),
    (b"f(z)", b"1 at 2"),
    (b"f(1)", b"13 at 0"),
    // Casts.
    (b"CAST(i AS BIGINT)", b"L cast[I column 3]"),
    (b"CAST(x AS DATE)", b"11 at 0"),
    (b"1 + CAST(i AS DECIMAL(39,0))", b"11 at 14"),
    // The least place, and there the least rule.
    (b"(i || l) + z", b"3 at 3"),
];

/// Expressions of a MERGE, whose target `t` and source `s` have the columns k and v, and k and w.
pub(super) const BOTH_SIDES: [(&[u8], &[u8]); 6] = [
    (b"k", b"2 at 0"),
    (b"t.k = S.K", b"B equal[I column 0;L column 2]"),
    (b"v", b"T column 1"),
    (b"W", b"T column 3"),
    (b"s.v", b"1 at 0"),
    (b"1 = k", b"2 at 4"),
];

/// Expressions that are assigned to an INT, and their typed trees, or the broken rule and its place.
pub(super) const ASSIGNED: [(&[u8], &[u8]); 5] = [
    (b"i", b"I column 3"),
    (b"l", b"I cast[L column 4]"),
    (b" t", b"6 at 1"),
    (b"i = i", b"6 at 0"),
    (b"i + t", b"3 at 2"),
];

/// Conditions, and their conjuncts.
pub(super) const CONDITIONS: [(&[u8], &[u8]); 7] = [
    (b"b", b"B column 0;"),
    (
        b"b AND (b AND NULL) AND b",
        b"B column 0;B and[B column 0;B cast[V constant]];B column 0;",
    ),
    (b"NULL", b"V constant;"),
    (b" i", b"5 at 1"),
    (b"b AND i", b"3 at 2"),
    (b"b OR b", b"B or[B column 0;B column 0];"),
    (b"(b AND b)", b"B and[B column 0;B column 0];"),
];
