//! Stages, and what their options are or why they are refused.

/// Stages behind a reader, and the options of the last one or the first fault.
pub(super) const STAGES: &[(&str, &str)] = &[
    ("", "read a.las"),
    (r#",{"type":"filters.head"}"#, "head 10"),
    (r#",{"type":"filters.head","count":3}"#, "head 3"),
    (r#",{"type":"filters.merge"}"#, "merge"),
    (r#",{"type":"filters.decimation"}"#, "every 1 from 0"),
    (r#",{"type":"filters.returns"}"#, "returns"),
    (
        r#",{"type":"filters.range","limits":"X[0:1],Y(:2)"}"#,
        "range 2",
    ),
    (
        r#",{"type":"filters.ferry","dimensions":"X=>A,Y=>B"}"#,
        "ferry 2",
    ),
    (
        r#",{"type":"filters.crop","bounds":"([0,1],[0,1])"}"#,
        "crop",
    ),
    (
        r#",{"type":"filters.crop","distance":-1}"#,
        "missing 1 bounds",
    ),
    (
        r#",{"type":"filters.merge","where":"X > 1"}"#,
        "unknown 1 where",
    ),
    (
        r#",{"type":"writers.text","filename":"a.las"}"#,
        "write a.las",
    ),
    (
        r#",{"type":"writers.text","filename":"lasline-part"}"#,
        "write lasline-part",
    ),
    (
        r#",{"type":"filters.head","zz":1},{"type":"filters.head","aa":1}"#,
        "unknown 1 zz",
    ),
    (
        r#",{"type":"filters.head","filename":"a","g":1,"h":2}"#,
        "unknown 1 filename",
    ),
    (
        r#",{"type":"filters.head","filename":"a","count":-1,"zz":1,"Z":2,"z":3}"#,
        "unknown 1 Z",
    ),
    (
        r#",{"type":"filters.head","count":-1},{"type":"filters.head","aa":1}"#,
        "wrong 1 count",
    ),
    (
        r#",{"type":"writers.text"},{"type":"filters.head","aa":1}"#,
        "missing 1 filename",
    ),
    (r#",{"type":"writers.text","filename":"a#"}"#, "write a#"),
    (
        r#",{"type":"writers.text","filename":"a##.txt"}"#,
        "wrong 1 filename",
    ),
    (
        r#",{"type":"writers.las","filename":"a#b#.las"}"#,
        "wrong 1 filename",
    ),
    (
        r#",{"type":"writers.las","filename":"a#.lasline-part"}"#,
        "wrong 1 filename",
    ),
    (
        r#",{"type":"writers.text","filename":"a.lasline-part"}"#,
        "wrong 1 filename",
    ),
    (
        r#",{"type":"writers.text","filename":"o"},{"type":"writers.text","filename":"o"},{"type":"filters.head","count":-1}"#,
        "wrong 3 count",
    ),
    (
        r#",{"type":"writers.text","filename":"o"},{"type":"writers.text","filename":"p"},{"type":"writers.text","filename":"p"},{"type":"writers.text","filename":"o"}"#,
        "same 3",
    ),
    (
        r#",{"type":"writers.text","filename":"o"},{"type":"writers.text","filename":"o"},{"type":"writers.text","filename":"o"}"#,
        "same 2",
    ),
    (
        r#",{"type":"writers.text","filename":"a.las"},{"type":"writers.text","filename":"b"},{"type":"writers.text","filename":"a.las"},{"type":"writers.text","filename":"b"}"#,
        "same 3",
    ),
    (r#",{"type":"filters.tail"}"#, "tail 10"),
    (
        r#",{"type":"filters.tail","count":3,"where":"X > 1"}"#,
        "unknown 1 where",
    ),
    (
        r#",{"type":"filters.sort","dimension":"Z"}"#,
        "sort Z false",
    ),
    (
        r#",{"type":"filters.sort","dimension":"","order":"DESC","algorithm":"stable"}"#,
        "sort  true",
    ),
    (
        r#",{"type":"filters.sort","dimension":"Z","order":"desc"}"#,
        "wrong 1 order",
    ),
    (
        r#",{"type":"filters.sort","dimension":"Z","algorithm":""}"#,
        "wrong 1 algorithm",
    ),
    (
        r#",{"type":"filters.sort","order":"up"}"#,
        "missing 1 dimension",
    ),
    (
        r#",{"type":"filters.groupby","dimension":"Classification"}"#,
        "group Classification",
    ),
    (
        r#",{"type":"filters.groupby","dimension":1}"#,
        "wrong 1 dimension",
    ),
    (
        r#",{"type":"filters.splitter","length":"2.5","origin_y":-1}"#,
        "split 2500000000 0 -1000000000",
    ),
    (
        r#",{"type":"filters.splitter","origin_x":"x"}"#,
        "missing 1 length",
    ),
    (
        r#",{"type":"filters.splitter","length":0,"origin_x":"x"}"#,
        "wrong 1 length",
    ),
    (
        r#",{"type":"filters.splitter","length":1000000000,"origin_x":4000000001}"#,
        "wrong 1 origin_x",
    ),
    (
        r#",{"type":"filters.voxeldownsize","cell":1,"mode":"first"}"#,
        "voxels 1000000000",
    ),
    (
        r#",{"type":"filters.voxeldownsize","cell":1,"mode":"center"}"#,
        "wrong 1 mode",
    ),
    (
        r#",{"type":"filters.voxeldownsize","cell":1,"where":"X > 1"}"#,
        "unknown 1 where",
    ),
    (r#",{"type":"filters.head","cuont":1}"#, "unknown 1 cuont"),
    (
        r#",{"type":"filters.merge","filename":"a"}"#,
        "unknown 1 filename",
    ),
    (
        r#",{"type":"writers.text","x":1,"precision":10}"#,
        "unknown 1 x",
    ),
    (
        r#",{"type":"writers.text","precision":10}"#,
        "missing 1 filename",
    ),
    (
        r#",{"type":"writers.text","filename":"a","where":1,"delimiter":1,"precision":10}"#,
        "wrong 1 precision",
    ),
    (
        r#",{"type":"writers.text","filename":"a##","order":1}"#,
        "wrong 1 filename",
    ),
    (r#",{"type":"writers.text","filename":""}"#, "no tree"),
    (r#",{"type":"filters.head","where":"X > 1"}"#, "head 10"),
    (r#",{"type":"filters.head","where":1}"#, "wrong 1 where"),
    (r#",{"type":"filters.head","where":"X"}"#, "wrong 1 where"),
    (
        r#",{"type":"filters.expression","expression":"X > 1"}"#,
        "keep",
    ),
    (
        r#",{"type":"filters.expression","expression":"X >"}"#,
        "wrong 1 expression",
    ),
    (
        r#",{"type":"filters.expression","where":"X"}"#,
        "missing 1 expression",
    ),
    (r#",{"type":"filters.assign","value":"X = 1"}"#, "assign 1"),
    (
        r#",{"type":"filters.assign","value":["X = 1","Y = X WHERE Z > 2"]}"#,
        "assign 2",
    ),
    (r#",{"type":"filters.assign","value":[]}"#, "wrong 1 value"),
    (
        r#",{"type":"filters.assign","value":["X = 1",2]}"#,
        "wrong 1 value",
    ),
    (r#",{"type":"filters.assign"}"#, "missing 1 value"),
    (r#",{"type":"filters.head","count":1,"a":2}"#, "unknown 1 a"),
    (
        r#",{"type":"writers.text","filename":"o","a":1}"#,
        "unknown 1 a",
    ),
    (
        r#",{"type":"writers.text","filename":"o","order":"X,Y,Z"}"#,
        "write o",
    ),
    (
        r#",{"type":"writers.text","filename":"o","where":""}"#,
        "wrong 1 where",
    ),
    (r#",{"type":"writers.las","filename":"o"}"#, "write o"),
    (
        r#",{"type":"writers.las","filename":"o","where":"X > 1"}"#,
        "write o",
    ),
    (r#","b.las","o.txt""#, "write o.txt"),
    (
        r#",{"type":"filters.plug","plug":"low","where":"Z > 1"}"#,
        "plug low true",
    ),
    (r#",{"type":"filters.plug","plug":""}"#, "plug  false"),
    (r#",{"type":"filters.plug","where":1}"#, "missing 1 plug"),
    (r#",{"type":"filters.plug","plug":1}"#, "wrong 1 plug"),
    (
        r#",{"type":"filters.plug","plug":"low","where":"Z"}"#,
        "wrong 1 where",
    ),
    (
        r#",{"type":"filters.plug","plug":"low","tally":"low"}"#,
        "unknown 1 tally",
    ),
    (
        r#",{"type":"filters.plug","filename":"o","plug":"low"}"#,
        "unknown 1 filename",
    ),
    (
        r#",{"type":"writers.tally","tally":"low","where":"Z > 1"}"#,
        "tally low true",
    ),
    (r#",{"type":"writers.tally","tally":""}"#, "tally  false"),
    (r#",{"type":"writers.tally","where":1}"#, "missing 1 tally"),
    (
        r#",{"type":"writers.tally","tally":["low"]}"#,
        "wrong 1 tally",
    ),
    (
        r#",{"type":"writers.tally","tally":"low","plug":"low"}"#,
        "unknown 1 plug",
    ),
    (
        r#",{"type":"writers.tally","filename":"o","tally":"low"}"#,
        "unknown 1 filename",
    ),
    (
        r#",{"type":"filters.plug","plug":"low"},{"type":"writers.tally","tally":"low"},{"type":"writers.tally","tally":"low"}"#,
        "tally low false",
    ),
];

/// Names of two writers, and the options of the second one or the first fault.
pub(super) const NAMES: &[(&str, &str, &str)] = &[
    ("o_#.txt", "o_7.txt", "same 2"),
    ("o_7.txt", "o_#.txt", "same 2"),
    ("o_#.txt", "o_07.txt", "same 2"),
    ("o_#.txt", "o_.txt", "write o_.txt"),
    ("o_#.txt", "o_7a.txt", "write o_7a.txt"),
    ("o_#.txt", "p_7.txt", "write p_7.txt"),
    ("o_#.txt", "o_7.las", "write o_7.las"),
    ("#.las", "1.las", "same 2"),
    ("1#1", "11", "write 11"),
    ("1#1", "111", "same 2"),
    ("o_#.txt", "o_#.txt", "same 2"),
    ("a#.las", "b#.las", "write b#.las"),
    ("a#.las", "a#.txt", "write a#.txt"),
    ("a_#.txt", "a_1#.txt", "same 2"),
    ("a_1#.txt", "a_#.txt", "same 2"),
    ("a#2.txt", "a#.txt", "same 2"),
];

/// Counts of a head, and its options or its fault.
pub(super) const COUNTS: &[(&str, &str)] = &[
    ("0", "head 0"),
    ("4294967295", "head 4294967295"),
    ("\"0\"", "head 0"),
    ("\"007\"", "head 7"),
    ("\"4294967295\"", "head 4294967295"),
    ("\"0000000000\"", "head 0"),
    ("4294967296", "wrong 1 count"),
    ("18446744073709551616", "wrong 1 count"),
    ("-1", "wrong 1 count"),
    ("-0", "wrong 1 count"),
    ("1.0", "wrong 1 count"),
    ("1e0", "wrong 1 count"),
    ("null", "wrong 1 count"),
    ("true", "wrong 1 count"),
    ("[1]", "wrong 1 count"),
    ("\"\"", "wrong 1 count"),
    ("\"+1\"", "wrong 1 count"),
    ("\"-1\"", "wrong 1 count"),
    ("\" 1\"", "wrong 1 count"),
    ("\"4294967296\"", "wrong 1 count"),
    ("\"00000000001\"", "wrong 1 count"),
];

/// Readers alone, and their options or the first fault.
pub(super) const READERS: &[(&str, &str)] = &[
    (r#"["a#.las"]"#, "read a#.las"),
    (r#"[{"type":"readers.las","filename":"a"}]"#, "read a"),
    (r#"[{"type":"readers.las"}]"#, "missing 0 filename"),
    (
        r#"[{"type":"readers.las","filename":".lasline-part"}]"#,
        "wrong 0 filename",
    ),
    (
        r#"[{"type":"readers.las","filename":"a","a":1}]"#,
        "unknown 0 a",
    ),
];
