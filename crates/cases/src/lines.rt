// The printed lines, at ordinary and at extreme numbers.
use printout::{LINE_ROOM, Line, Refusal};
use std::process::Abort;
use std::test::Fail;

// A buffer of dots then begins with the line, and is as it was after it.
fn shows(rt: &impl Abort, buffer: &mut [u8], line: Line, text: &[u8]) -> Result<(), Fail> {
    let length = line.write_to(buffer)?;
    assert!(rt; length <= buffer.len());
    assert!(rt; &buffer[..length] == text);
    assert!(rt; buffer[length..].iter().all(|byte| *byte == b'.'));
    Ok(())
}

// The same in the shortest buffer that every line fits into.
fn shows_barely(rt: &impl Abort, line: Line, text: &[u8]) -> Result<(), Fail> {
    shows(rt, &mut [b'.'; LINE_ROOM], line, text)
}

fn shows_column(rt: &impl Abort, column: u8, low: i64, high: i64, text: &[u8]) -> Result<(), Fail> {
    let line = Line::Column { column, low, high };
    shows(rt, &mut [b'.'; 100], line, text)
}

#[test]
fn prints_a_book(rt: HostRuntime) -> Result<(), Fail> {
    shows_barely(
        &rt,
        Line::Book {
            rows: 64,
            columns: 8,
        },
        b"book 64 8\n",
    )
}

#[test]
fn prints_offers(rt: HostRuntime) -> Result<(), Fail> {
    let largest = Line::Granted {
        offer: 16,
        alpha: u64::MAX,
    };
    shows_barely(&rt, largest, b"offer 16 granted 18446744073709551615\n")?;
    shows_barely(
        &rt,
        Line::Granted { offer: 1, alpha: 0 },
        b"offer 1 granted 0\n",
    )?;
    shows_barely(
        &rt,
        Line::Refused {
            offer: 2,
            number: 10,
        },
        b"offer 2 refused 10\n",
    )
}

#[test]
fn prints_a_refused_file(rt: HostRuntime) -> Result<(), Fail> {
    shows_barely(&rt, Line::FileRefused { number: 4 }, b"file refused 4\n")
}

#[test]
fn prints_columns(rt: HostRuntime) -> Result<(), Fail> {
    shows_column(
        &rt,
        1,
        33_554_432,
        50_331_648,
        b"column 1 33554432 50331648 41943040 8388608\n",
    )?;
    shows_column(&rt, 8, -7, 4, b"column 8 -7 4 -2 5\n")?;
    shows_column(&rt, 2, 0, 3, b"column 2 0 3 1 1\n")?;
    shows_column(&rt, 3, 3, 0, b"column 3 3 0 1 -1\n")?;
    shows_column(&rt, 4, -3, 0, b"column 4 -3 0 -2 1\n")?;
    shows_barely(&rt, Line::NoInterval { column: 5 }, b"column 5 none\n")
}

#[test]
fn prints_the_farthest_ends(rt: HostRuntime) -> Result<(), Fail> {
    shows_column(
        &rt,
        255,
        i64::MIN,
        i64::MIN,
        b"column 255 -9223372036854775808 -9223372036854775808 -9223372036854775808 0\n",
    )?;
    shows_column(
        &rt,
        255,
        i64::MIN,
        i64::MAX,
        b"column 255 -9223372036854775808 9223372036854775807 -1 9223372036854775807\n",
    )?;
    shows_column(
        &rt,
        255,
        i64::MAX,
        i64::MIN,
        b"column 255 9223372036854775807 -9223372036854775808 -1 -9223372036854775807\n",
    )
}

#[test]
fn displays_the_same_text(rt: HostRuntime) -> Result<(), Fail> {
    let line = Line::Column {
        column: 2,
        low: 0,
        high: 3,
    };
    let text = line.to_string(rt.alloc())?;
    assert_eq!(rt; text.as_str(), "column 2 0 3 1 1\n");
    Ok(())
}

#[test]
fn refuses_a_short_buffer(rt: HostRuntime) {
    let lines = [
        Line::Book {
            rows: 1,
            columns: 1,
        },
        Line::Granted { offer: 1, alpha: 0 },
        Line::Refused {
            offer: 1,
            number: 6,
        },
        Line::Column {
            column: 1,
            low: 0,
            high: 0,
        },
        Line::NoInterval { column: 1 },
        Line::FileRefused { number: 20 },
    ];
    let mut buffer = [b'.'; 95];
    for line in lines {
        assert_eq!(rt; line.write_to(&mut buffer), Err(Refusal::ShortBuffer));
    }
    assert!(rt; buffer.iter().all(|byte| *byte == b'.'));
    assert_eq!(rt; u8::from(Refusal::ShortBuffer), 17);
}
