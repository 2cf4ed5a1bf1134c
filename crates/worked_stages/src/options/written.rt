//! Options of writers.

/// An option of a text writer to `o`, and its options or the first fault.
pub(super) const TEXT_VALUES: &[(&str, &str)] = &[
    (r#""order":"""#, "wrong 1 order"),
    (r#""order":"X:2, Intensity""#, "write o"),
    (r#""order":["X"]"#, "wrong 1 order"),
    (r#""precision":9"#, "write o"),
    (r#""precision":"0""#, "write o"),
    (r#""precision":10"#, "wrong 1 precision"),
    (r#""delimiter":"12345678""#, "write o"),
    (r#""delimiter":"""#, "wrong 1 delimiter"),
    (r#""delimiter":"123456789""#, "wrong 1 delimiter"),
    (r#""delimiter":1"#, "wrong 1 delimiter"),
    (r#""quote_header":"true""#, "write o"),
    (r#""quote_header":"True""#, "wrong 1 quote_header"),
    (r#""quote_header":0"#, "wrong 1 quote_header"),
    (r#""write_header":"false""#, "write o"),
    (r#""write_header":null"#, "wrong 1 write_header"),
    (r#""where":true"#, "wrong 1 where"),
];

/// An option of a LAS writer to `o`, and its options or the first fault.
pub(super) const LAS_VALUES: &[(&str, &str)] = &[
    (r#""dataformat_id":"6""#, "write o"),
    (r#""dataformat_id":4"#, "wrong 1 dataformat_id"),
    (r#""minor_version":4"#, "write o"),
    (r#""minor_version":3"#, "write o"),
    (r#""minor_version":2"#, "write o"),
    (r#""minor_version":"3""#, "write o"),
    (r#""minor_version":5"#, "wrong 1 minor_version"),
    (r#""minor_version":1"#, "wrong 1 minor_version"),
    (r#""minor_version":"1""#, "wrong 1 minor_version"),
    (r#""minor_version":2,"dataformat_id":3"#, "write o"),
    (
        r#""minor_version":2,"dataformat_id":6"#,
        "wrong 1 minor_version",
    ),
    (
        r#""minor_version":2,"dataformat_id":7"#,
        "wrong 1 minor_version",
    ),
    (
        r#""dataformat_id":"8","minor_version":"2""#,
        "wrong 1 minor_version",
    ),
    (
        r#""minor_version":3,"dataformat_id":6"#,
        "wrong 1 minor_version",
    ),
    (r#""minor_version":4,"dataformat_id":6"#, "write o"),
    (
        r#""minor_version":2,"dataformat_id":9"#,
        "wrong 1 dataformat_id",
    ),
    (
        r#""minor_version":1,"dataformat_id":6"#,
        "wrong 1 minor_version",
    ),
    (
        r#""minor_version":2,"dataformat_id":6,"scale_x":"2""#,
        "wrong 1 minor_version",
    ),
    (r#""scale_x":"0.000000001","scale_z":1"#, "write o"),
    (r#""scale_x":0.01"#, "wrong 1 scale_x"),
    (r#""scale_y":"0""#, "wrong 1 scale_y"),
    (r#""scale_z":"1.1""#, "wrong 1 scale_z"),
    (r#""offset_x":-999999999,"offset_y":"+.5""#, "write o"),
    (r#""offset_y":1000000000"#, "wrong 1 offset_y"),
    (r#""offset_z":"-1000000000""#, "wrong 1 offset_z"),
    (r#""forward":"all, scale""#, "write o"),
    (r#""forward":"All""#, "wrong 1 forward"),
    (r#""filesource_id":65535"#, "write o"),
    (r#""creation_year":65536"#, "wrong 1 creation_year"),
    (
        r#""system_id":"123456789012345678901234567890123""#,
        "wrong 1 system_id",
    ),
];
